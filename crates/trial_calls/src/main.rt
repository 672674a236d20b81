// Runs the script on standard input: calls of the library with what each must answer and leave in the board and work words.
// The first byte of a line says what it does, the numbers after it with what; `->` comes before what is expected.
//   lend B W                  B board words and W work words are lent; all words get their marks
//   given I : V ..            the board words from index I on, also in the expected board
//   zero N                    the expected board is a newly opened one of n slots
//   slot S : CODE NUMBER LABEL COUNT CHOICES ..    the expected words of slot S, twelve, those not named 0
//   held K                    the expected count of held orders
//   open N -> R C             a call, and the refusal (0: accepted) and the count that it must answer
//   accept CODE NUMBER COUNT : ROW .. -> R C : BLOCKED ..
//   marked SLOT CODE NUMBER COUNT : ROW .. -> R C : BLOCKED ..    the same, of an order that says it stays in that slot
//   withdraw CODE NUMBER -> R C
//   fill CODE NUMBER -> R C   the order is started
//   print -> R C
//   check -> 1                whether the board passes the check
//   blocked S -> L            how long the list is that the first S work words make
//   =NAME                     ends a group: its name and how often it was right are printed
//   #                         a remark
// Lines that change the expected board stand before the call that changes the board.
#![tactic(auto)]

mod bench;
mod script;

use bench::Bench;
use std::io;
use std::io::Read;

// Bytes that are read: more than the script has, and so few that input without an end takes little memory.
const MOST_BYTES: u64 = 65536;

fn main(rt: HostRuntime) -> io::Result<()> {
    let mut text = Vec::new(rt.alloc());
    // A read that fails is the input's end: what came before it is run.
    let _ = rt.reader().take(MOST_BYTES).read_to_end(&mut text);
    let mut bench = Bench::new();
    for piece in text.split_inclusive(|byte| *byte == b'\n') {
        // Text that is cut off in a line is run up to there.
        if let Some(line) = piece.strip_suffix(b"\n") {
            script::perform(&rt, line, &mut bench)?;
        }
    }
    let all = bench.tally.all;
    println!(rt; "all: {all}")
}
