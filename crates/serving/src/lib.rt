// Reads an input to its end in pieces, hands them to the block function and writes the answers, then the N line. It is proved here what the loop keeps:
// no byte that waits between two reads is lost, and no line.
#![tactic(auto)]

ghost use Rattle.std.specs.Prelude.{◌≡◌, ◌+◌, ◌-◌, ◌≤◌, ◌<◌, length, take, drop};
ghost use Rattle.rules.specs.Chunks.{reply_room, waiting};
ghost use Rattle.rules.specs.Serving.{Served};
ghost use Rattle.serving.specs.Lent.{Same, state_at, Closed};
ghost use Rattle.serving.specs.Serving.{has_ended, held_of, Pulled, ReadAll, Serves};

use answers::Tally;
use running::{REPLY_ROOM, WAITING, run_block};
use std::io::{Read, Write};
use writing::close;

// The n bytes from `at` on go to the front.
fn move_front(buf: &mut [u8], at: usize, n: usize)
    requires { at + n ≤ length buf.old }
    ensures { take n buf.new ≡ take n (drop at buf.old) }
{
    buf.copy_within(at..at + n, 0);
}

// One read behind the bytes that are held: how many it brought. A read that fails brings nothing, as at the input's end.
fn fill<R: Read>(input: &mut R, buf: &mut [u8], held: usize) -> usize
    requires { held ≤ length buf.old }
    ensures upper_bound { held + result ≤ length buf.old }
    ensures buf_unchanged { take held buf.new ≡ take held buf.old }
{
    input.read(&mut buf[held..]).unwrap_or(0)
}

// The board, the work words and the tally that the input's lines change, and the room for the answers. The buffer stays a parameter: a part of it is lent to
// `work_off` beside the whole struct. Of input and output no contract speaks. That the room is large enough is asked in each method: a ghost field beside a `&mut` is
// not covered by the check.
#[derive(Drop)]
struct Run<'a> {
    board: &'a mut [u16],
    work: &'a mut [u16],
    tally: Tally,
    out: &'a mut [u8],
}

impl Run<'_> {
    // Writes out the room's first n bytes. After a write that fails the run goes on, so that it ends with its input.
    fn hand_out<W: Write>(&self, output: &mut W, n: usize)
        requires { n ≤ length self.now.out.now }
    {
        let _ = output.write_all(&self.out[..n]);
    }

    // Blocks, until one uses nothing: then no whole line is left, and after the input's end nothing at all. How many bytes are left.
    fn work_off<W: Write>(&mut self, output: &mut W, input: &[u8], ended: bool) -> usize
        requires { reply_room ≤ length self.old.out.now }
        ensures same { Same self.old self.new }
        ensures left { result ≤ length input.now }
        ensures served { Served (state_at self.old) input.now ended (state_at self.new) (drop (length input.now - result) input.now) }
    {
        let mut rest = input;
        // Its label is its name in the proofs.
        'rooms: loop {
            let block = run_block(
                rest,
                ended,
                self.board,
                self.work,
                &mut self.tally,
                self.out,
            );
            self.hand_out(output, block.written);
            let used = block.consumed;
            if used == 0 {
                return rest.len();
            }
            rest = &rest[used..];
        }
    }

    // One read, and what it brings worked off. How many bytes wait for more, at the front of the buffer; None once the input has ended, for then nothing waits.
    fn pull<R: Read, W: Write>(
        &mut self,
        input: &mut R,
        output: &mut W,
        buf: &mut [u8],
        held: usize,
    ) -> Option<usize>
        requires { (held ≤ waiting) × (waiting < length buf.old) × (reply_room ≤ length self.old.out.now) }
        ensures same { Same self.old self.new }
        ensures pulled { Pulled (state_at self.old) (take held buf.old) (has_ended result) (state_at self.new) (take (held_of result) buf.new) }
    {
        let brought = fill(input, buf, held);
        let ended = brought == 0;
        let end = held + brought;
        let left = self.work_off(output, &buf[..end], ended);
        move_front(buf, end - left, left);
        if ended { None } else { Some(left) }
    }

    // Reads to the end. A proved loop ends, and nothing says that the input does, so it makes at most as many turns as no run uses up.
    fn read_all<R: Read, W: Write>(
        &mut self,
        input: &mut R,
        output: &mut W,
        buf: &mut [u8],
    ) -> Option<usize>
        requires { (waiting < length buf.old) × (reply_room ≤ length self.old.out.now) }
        ensures same { Same self.old self.new }
        ensures read { ReadAll (state_at self.old) (has_ended result) (state_at self.new) (take (held_of result) buf.new) }
    {
        let mut held = 0;
        for _turn in 0..u64::MAX {
            held = self.pull(input, output, buf, held)?;
        }
        Some(held)
    }

    // The N line.
    fn close<W: Write>(&mut self, output: &mut W)
        requires { reply_room ≤ length self.old.out.now }
        ensures same { Same self.old self.new }
        ensures closed { Closed self.old self.new }
    {
        let n = close(self.tally, self.out);
        self.hand_out(output, n);
    }
}

// The whole run. A buffer that could not show that a line is too long, or a room that an answer could outgrow, is turned down: then nothing is read.
pub fn serve<R: Read, W: Write>(
    input: &mut R,
    output: &mut W,
    buf: &mut [u8],
    board: &mut [u16],
    work: &mut [u16],
    out: &mut [u8],
)
    ensures { Serves buf.old board.old work.old out.old buf.new board.new work.new out.new }
{
    if buf.len() <= WAITING || out.len() < REPLY_ROOM {
        return;
    }
    let mut run = Run {
        board,
        work,
        tally: Tally::new_day(),
        out,
    };
    run.read_all(input, output, buf);
    run.close(output);
}
