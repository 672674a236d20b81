// Whole runs: the input, shown in pieces that cut its lines everywhere, or line by line.
ghost use Rattle.std.specs.Prelude.{◌<◌};

use answers::Tally;
use handling::handle_line;
use running::run_block;
use std::io;
use trial_kit::fill_marks;
use writing::{close, put_reply};

// Bytes of a piece, no multiple of a column: less than a line with its feed, and many lines.
const SMALL: usize = 13;

const LARGE: usize = 997;

// Words of a board of 1,024 slots and its work words, and not one more, so that a call that asks for more is refused; the trials' kit has some more,
// which must keep their marks. Bytes for answers: the longest, and a little more. All are written out and not the library's own, so that a wrong one there shows.
const BOARD: usize = 12290;

const WORK: usize = 14340;

const ANSWERS: usize = 50000;

#[derive(Drop)]
struct Run {
    board: [u16; BOARD],
    work: [u16; WORK],
    tally: Tally,
    out: [u8; ANSWERS],
}

// The first n bytes, or all of them.
fn print_front(rt: &impl Print, text: &[u8], n: usize) -> io::Result<()> {
    rt.write_all(&text[..n.min(text.len())])
}

impl Run {
    // No board yet, and work words that a call must clear.
    fn new() -> Run {
        let mut work = [0; WORK];
        fill_marks(&mut work);
        Run {
            board: [0; BOARD],
            work,
            tally: Tally::new_day(),
            out: [0; ANSWERS],
        }
    }

    // Each line by itself.
    fn lines(&mut self, rt: &impl Print, input: &[u8]) -> io::Result<()> {
        for piece in input.split_inclusive(|byte| *byte == b'\n') {
            // An unended line gets refusal 1, as an empty one does, so it is taken for one.
            let line = piece.strip_suffix(b"\n").unwrap_or(&[]);
            let reply = handle_line(line, &mut self.board, &mut self.work, &mut self.tally);
            let written = put_reply(reply, &self.board, &self.work, &mut self.out, 0);
            print_front(rt, &self.out, written)?;
        }
        Ok(())
    }

    // Each block is shown what the one before it left, and one more piece. Where there is none and it uses nothing, the run is over.
    fn pieces(&mut self, rt: &impl Print, input: &[u8], piece: usize) -> io::Result<()>
        requires { 0 < piece }
    {
        // What is not used yet, and how much of it was shown.
        let mut rest = input;
        let mut shown = 0;
        loop {
            let (held, later) = rest.split_at(shown);
            let block = run_block(
                held,
                later.is_empty(),
                &mut self.board,
                &mut self.work,
                &mut self.tally,
                &mut self.out,
            );
            print_front(rt, &self.out, block.written)?;
            if later.is_empty() && block.consumed == 0 {
                return Ok(());
            }
            rest = &rest[block.consumed..];
            shown = held.len() - block.consumed + piece.min(later.len());
        }
    }

    // The run's last line.
    fn close(&self, rt: &impl Print) -> io::Result<()> {
        let mut last = [0; 64];
        let n = close(self.tally, &mut last);
        print_front(rt, &last, n)
    }
}

// A function of its own, here and below: three runs in one frame take three times the stack.
#[inline(never)]
fn run_lines(rt: &impl Print, input: &[u8]) -> io::Result<()> {
    println!(rt; "line by line")?;
    let mut run = Run::new();
    run.lines(rt, input)?;
    run.close(rt)
}

#[inline(never)]
fn run_pieces(rt: &impl Print, input: &[u8], piece: usize) -> io::Result<()>
    requires { 0 < piece }
{
    println!(rt; "in pieces of {piece} bytes")?;
    let mut run = Run::new();
    run.pieces(rt, input, piece)?;
    run.close(rt)
}

pub fn run_all(rt: &impl Print, input: &[u8]) -> io::Result<()> {
    run_lines(rt, input)?;
    run_pieces(rt, input, SMALL)?;
    run_pieces(rt, input, LARGE)
}
