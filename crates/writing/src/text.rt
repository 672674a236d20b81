// Columns and lines as bytes from a place in a lent buffer on, which has room for them.
ghost use Rattle.std.specs.Prelude.{◌≡◌, [], ◌∷◌, ◌+◌, ◌≤◌, ◌<◌, leb, length};
ghost use Rattle.rules.specs.Text.{digit, glyph, column, columns};
ghost use Rattle.rules.specs.Letters.{byte_k};
ghost use Rattle.rules.specs.InputLines.{order_line};
ghost use Rattle.rules.specs.AnswerLines.{printed, answer_line_bytes, blocked_lines, slot_lines};
ghost use Rattle.rules.specs.Runs.{tally_line};
ghost use Rattle.answers.specs.Values.{counts_of};
ghost use Rattle.words.specs.Carried.{key_of, carried};
ghost use Rattle.writing.specs.Writing.{tally_line_bytes};
ghost use Rattle.writing.specs.Storing.{Room, Stores, slot_line};

use answers::Tally;
use framing::COLUMN_BYTES;
use words::{Order, code_at, label_at, number_at, size_of};

// "columns ten wide": in all that is printed.
pub(crate) const ANSWER_WIDTH: usize = 10;

// A line's letter and line feed.
pub(crate) const FRAME: usize = 2;

// A line of four columns: an answer or an L line.
pub(crate) const ANSWER_LINE_BYTES: usize = FRAME + 4 * ANSWER_WIDTH;

// The N line: three columns.
pub(crate) const TALLY_LINE_BYTES: usize = FRAME + 3 * ANSWER_WIDTH;

// So many places a word needs at most, and the first number that needs more.
const FIVE_PLACES: usize = 5;

const BEYOND_FIVE_PLACES: u64 = 100_000;

// So many numbers a line that is printed has at most.
pub(crate) const PER_LINE: usize = 8;

// The last digit of v: below ten, so the cast loses nothing.
fn digit(v: u64) -> u8
    ensures { result ≡ digit v }
{
    b'0' + (v % 10) as u8
}

// The same with a space for 0.
fn glyph(v: u64) -> u8
    ensures { result ≡ glyph v }
{
    if v == 0 { b' ' } else { digit(v) }
}

// v in these places, from the last one to the first: a lone 0 is written, places before the number are spaces. By index: what `iter_mut().rev()`
// stores is unknown to a proof, and a call of itself for the places before the last was proved, but K lines took 4 in 100 longer. By hand: of `write!` a proof
// knows what an `Ok` has written, but never that it is `Ok`, and of a lent slice's bytes nothing; out of a buffer of its own (`itoa`) a number would be copied
// again, cut to its last places where the column is narrower, and its text related to the column's definition: no plainer.
#[tactic(auto, unfolding(rules::specs::Text::column))]
fn fill_places(places: &mut [u8], v: u64)
    ensures { places.new ≡ column (length places.old) v }
{
    if let Some((last, before)) = places.split_last_mut() {
        *last = digit(v);
        let mut left = v / 10;
        for i in (0..before.len()).rev() {
            before[i] = glyph(left);
            left /= 10;
        }
    }
}

// The same of a number that is seldom met, and out of the way of the others.
#[inline(never)]
fn fill_long(places: &mut [u8], v: u64)
    ensures { places.new ≡ column (length places.old) v }
{
    fill_places(places, v);
}

// v in the places of a column. What fits into the last five, as every word does, is divided for these alone: the places before them are stored at once.
#[inline(always)]
#[tactic(auto, using(crate::proofs::Texts::spaced))]
fn fill_column(places: &mut [u8], v: u64)
    ensures { places.new ≡ column (length places.old) v }
{
    if v < BEYOND_FIVE_PLACES {
        let spaces = places.len().saturating_sub(FIVE_PLACES);
        places[..spaces].fill(b' ');
        fill_places(&mut places[spaces..], v);
    } else {
        fill_long(places, v);
    }
}

// Where text goes on in a lent buffer. No slice that shrinks, nor do the public functions take one: callers ask how far it came, and lend the whole room again
// for the next answer.
#[derive(Drop)]
pub(crate) struct Cursor<'a> {
    pub(crate) out: &'a mut [u8],
    pub(crate) at: usize,
}

impl Cursor<'_> {
    // A text of `size` bytes has room.
    pub(crate) fn fits(&self, size: usize) -> bool
        ensures { result ≡ leb (self.now.at + size) (length self.now.out.now) }
    {
        self.out
            .get(self.at..)
            .is_some_and(|room| size <= room.len())
    }

    fn byte(&mut self, byte: u8)
        requires { Room self.old 1 }
        ensures { Stores self.old (byte ∷ []) self.new }
    {
        self.out[self.at] = byte;
        self.at += 1;
    }

    #[inline(always)]
    #[tactic(auto, using(crate::proofs::Texts::placed))]
    fn column(&mut self, width: usize, v: u64)
        requires { Room self.old width }
        ensures { Stores self.old (column width v) self.new }
    {
        let end = self.at + width;
        fill_column(&mut self.out[self.at..end], v);
        self.at = end;
    }

    fn columns(&mut self, width: usize, values: &[u16])
        requires { Room self.old (length (columns width values.now)) }
        ensures { Stores self.old (columns width values.now) self.new }
    {
        for &v in values {
            self.column(width, u64::from(v));
        }
    }

    // A line of four columns: most of what is printed. Without a loop and inlined, for then the cursor stays in registers.
    #[inline(always)]
    #[tactic(auto, using(crate::proofs::Texts::line), unfolding(rules::specs::Text::text_line))]
    pub(crate) fn four_columns(&mut self, letter: u8, a: u64, b: u64, c: u64, d: u64)
        requires { Room self.old answer_line_bytes }
        ensures { Stores self.old (printed letter (a ∷ b ∷ c ∷ d ∷ [])) self.new }
    {
        self.byte(letter);
        self.column(ANSWER_WIDTH, a);
        self.column(ANSWER_WIDTH, b);
        self.column(ANSWER_WIDTH, c);
        self.column(ANSWER_WIDTH, d);
        self.byte(b'\n');
    }

    // The N line.
    #[tactic(auto, using(crate::proofs::Texts::line), unfolding(rules::specs::Text::text_line, rules::specs::Runs::tally_line))]
    pub(crate) fn tally_line(&mut self, t: Tally)
        requires { Room self.old tally_line_bytes }
        ensures { Stores self.old (tally_line (counts_of t)) self.new }
    {
        self.byte(b'N');
        self.column(ANSWER_WIDTH, u64::from(t.lines));
        self.column(ANSWER_WIDTH, u64::from(t.accepted));
        self.column(ANSWER_WIDTH, u64::from(t.refused));
        self.byte(b'\n');
    }

    // The K line of up to eight slots.
    #[tactic(auto, using(crate::proofs::Texts::line), unfolding(rules::specs::Text::text_line))]
    fn blocked_line(&mut self, slots: &[u16])
        requires { Room self.old (length (printed byte_k slots.now)) }
        ensures { Stores self.old (printed byte_k slots.now) self.new }
    {
        self.byte(b'K');
        self.columns(ANSWER_WIDTH, slots);
        self.byte(b'\n');
    }

    // The K lines: eight slots to a line.
    pub(crate) fn blocked_lines(&mut self, slots: &[u16])
        requires { Room self.old (length (blocked_lines slots.now)) }
        ensures { Stores self.old (blocked_lines slots.now) self.new }
    {
        for line in slots.chunks(PER_LINE) {
            self.blocked_line(line);
        }
    }

    // The L line of slot s.
    fn slot_line(&mut self, board: &[u16], s: u16)
        requires { Room self.old answer_line_bytes }
        ensures { Stores self.old (slot_line board.now s) self.new }
    {
        let code = u64::from(code_at(board, s));
        let number = u64::from(number_at(board, s));
        let label = u64::from(label_at(board, s));
        self.four_columns(b'L', u64::from(s), code, number, label);
    }

    // The L lines: one per slot.
    pub(crate) fn slot_lines(&mut self, board: &[u16])
        requires { Room self.old (length (slot_lines board.now)) }
        ensures { Stores self.old (slot_lines board.now) self.new }
    {
        for s in 1..=size_of(board) {
            self.slot_line(board, s);
        }
    }

    // The A line of an order, 14 bytes and 6 more per slot.
    #[tactic(auto, using(crate::proofs::Texts::line), unfolding(rules::specs::Text::text_line))]
    pub(crate) fn order_line(&mut self, order: &Order)
        requires { Room self.old (length (order_line (key_of order.now.key) (carried order.now).list)) }
        ensures { Stores self.old (order_line (key_of order.now.key) (carried order.now).list) self.new }
    {
        self.byte(b'A');
        self.column(COLUMN_BYTES, u64::from(order.key.code));
        self.column(COLUMN_BYTES, u64::from(order.key.number));
        self.columns(COLUMN_BYTES, order.list());
        self.byte(b'\n');
    }
}
