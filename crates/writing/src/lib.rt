// All text that goes out, as bytes in a lent buffer. A text that the buffer has no room for is not begun.
#![tactic(auto)]

mod text;

ghost use Rattle.std.specs.Prelude.{◌≡◌, ◌++◌, ◌-◌, ◌^◌, min, length};
ghost use Rattle.rules.specs.InputLines.{written};
ghost use Rattle.rules.specs.AnswerLines.{blocked_lines, slot_lines, following, reply_text};
ghost use Rattle.answers.specs.Values.{reply_of};
ghost use Rattle.words.specs.Carried.{key_of};
ghost use Rattle.writing.specs.Writing.{Puts};
ghost use Rattle.writing.specs.Closing.{Closes};
ghost use Rattle.writing.specs.Wrote.{wrote_of};
ghost use Rattle.writing.specs.Storing.{Room, Stores, StoresAll, answer_line, lines_of};

use answers::{BLOCKED, Refusal, Reply, Tally, blocked};
use framing::COLUMN_BYTES;
use orders::judge;
use text::{ANSWER_LINE_BYTES, ANSWER_WIDTH, Cursor, FRAME, PER_LINE, TALLY_LINE_BYTES};
use words::{MOST_SLOTS, Order, size_of};

// The line of an order without slots: its letter, its code, its number, its line feed.
const KEY_BYTES: usize = FRAME + 2 * COLUMN_BYTES;

// The lines that follow an answer line: K lines of these slots, L lines of this board, or none.
#[derive(Clone, Copy)]
enum Following<'a> {
    Blocked(&'a [u16]),
    Plan(&'a [u16]),
    Nothing,
}

impl<'a> Following<'a> {
    // Those of a reply, from the board and the work words that its call left. A `Reply` has the numbers of document 01 and prints whatever it is given: so what
    // follows its line is told by them, as the definition `following` says. Its letter is any byte: hence the match on `b'P'`, and on no enum of letters.
    fn of(reply: Reply, board: &'a [u16], work: &'a [u16]) -> Following<'a>
        ensures { lines_of result ≡ following (reply_of reply) board.now work.now }
    {
        match (reply.refusal, reply.letter) {
            // A `usize` has 64 bits, but no `From<u64>`.
            (BLOCKED, _) => Following::Blocked(blocked(work, reply.count as usize)),
            (0, b'P') => Following::Plan(board),
            _ => Following::Nothing,
        }
    }

    // Their bytes, as far as they can be counted.
    #[tactic(auto, using(crate::proofs::Lines::sizes))]
    fn size(self) -> usize
        ensures { result ≡ min (length (lines_of self.entry)) (2 ^ 64 - 1) }
    {
        match self {
            Following::Blocked(slots) => {
                let n = slots.len();
                let frames = FRAME * n.div_ceil(PER_LINE);
                ANSWER_WIDTH.saturating_mul(n).saturating_add(frames)
            }
            Following::Plan(board) => ANSWER_LINE_BYTES * usize::from(size_of(board)),
            Following::Nothing => 0,
        }
    }

    fn put(self, cursor: &mut Cursor<'_>)
        requires { Room cursor.old (length (lines_of self)) }
        ensures { Stores cursor.old (lines_of self.entry) cursor.new }
    {
        match self {
            Following::Blocked(slots) => cursor.blocked_lines(slots),
            Following::Plan(board) => cursor.slot_lines(board),
            Following::Nothing => {}
        }
    }
}

impl Cursor<'_> {
    // All of the lines, or nothing.
    #[tactic(auto, using(std::proofs::lemmas::Bool::Decides::nat_tests), unfolding(crate::specs::Writing::put_text, crate::specs::Writing::end_of))]
    fn lines(&mut self, lines: Following<'_>)
        ensures { StoresAll self.old (lines_of lines.entry) self.new }
    {
        if self.fits(lines.size()) {
            lines.put(self);
        }
    }

    // The answer line and these lines, or nothing.
    #[tactic(auto, using(crate::proofs::Replies::replies), unfolding(crate::specs::Writing::put_text, crate::specs::Writing::end_of))]
    fn reply(&mut self, reply: Reply, lines: Following<'_>)
        ensures { StoresAll self.old (answer_line reply ++ lines_of lines.entry) self.new }
    {
        if self.fits(lines.size().saturating_add(ANSWER_LINE_BYTES)) {
            let code = u64::from(reply.code);
            let number = u64::from(reply.number);
            let refusal = u64::from(reply.refusal);
            self.four_columns(reply.letter, code, number, refusal, reply.count);
            lines.put(self);
        }
    }
}

// The K lines: the blocked slots, eight to a line. The program calls neither this nor `put_plan`, it puts both by `put_reply`: their promises stand in
// docs/GUARANTEES.md.
pub fn put_blocked(out: &mut [u8], at: usize, blocked: &[u16]) -> usize
    ensures { Puts out.old at (blocked_lines blocked.now) result out.new }
{
    let mut cursor = Cursor { out, at };
    cursor.lines(Following::Blocked(blocked));
    cursor.at
}

// The L lines: one per slot.
pub fn put_plan(out: &mut [u8], at: usize, board: &[u16]) -> usize
    ensures { Puts out.old at (slot_lines board.now) result out.new }
{
    let mut cursor = Cursor { out, at };
    cursor.lines(Following::Plan(board));
    cursor.at
}

// The answer line with the lines that follow it: all of them, or nothing. Board and work words are two buffers that the caller lends, as document 01 has it: a
// struct of both would be made at each call, only to be taken apart in `Following::of`, which shows one of them.
#[tactic(auto, unfolding(rules::specs::AnswerLines::reply_text))]
pub fn put_reply(reply: Reply, board: &[u16], work: &[u16], out: &mut [u8], at: usize) -> usize
    ensures { Puts out.old at (reply_text (reply_of reply) board.now work.now) result out.new }
{
    let mut cursor = Cursor { out, at };
    cursor.reply(reply, Following::of(reply, board, work));
    cursor.at
}

// The N line, at the start of the room.
#[tactic(auto, using(crate::proofs::Closing::closes))]
pub fn close(t: Tally, out: &mut [u8]) -> usize
    ensures { Closes t out.old result out.new }
{
    let mut cursor = Cursor { out, at: 0 };
    if cursor.fits(TALLY_LINE_BYTES) {
        cursor.tally_line(t);
    }
    cursor.at
}

// The order writer. Refused, it writes nothing. A line has no place for the mark: of a started order, too, the list is written.
#[tactic(auto, using(crate::proofs::Orders::orders))]
pub fn write_order(buffer: &mut [u8], order: Order) -> Result<usize, Refusal>
    ensures { wrote_of result buffer.new
        ≡ written (key_of order.key) order.count order.row buffer.old }
{
    judge(MOST_SLOTS, &order)?;
    let mut cursor = Cursor { out: buffer, at: 0 };
    if !cursor.fits(KEY_BYTES + COLUMN_BYTES * usize::from(order.count)) {
        return Err(Refusal::Short);
    }
    cursor.order_line(&order);
    Ok(cursor.at)
}
