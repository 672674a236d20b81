// The program: the words of 1,024 slots, all 0, a buffer for what is read and a room for the answers.
#![tactic(auto)]

ghost use Rattle.std.specs.Prelude.{◌≡◌, ◌≤◌, ◌<◌, length};
ghost use Rattle.rules.specs.Chunks.{reply_room, waiting};
ghost use Rattle.rules.specs.Runs.{start};
ghost use Rattle.serving.specs.Serving.{Ran};

use serving::serve;
use std::io::{Read, Write};

// Document 01 names the form, an array of zeros whose length is written out. "2 + 12n board words" (P3) for 1,024 slots.
const BOARD_WORDS: usize = 12290;

// "14n + 4 work words" (P3).
const WORK_WORDS: usize = 14340;

// So many bytes are read at once.
const READ_BYTES: usize = 65536;

// Each block checks the board once: the room holds six of the longest answers, so that this is spread over many lines.
const ROOM_BYTES: usize = 262144;

// The run from document 01's start state on.
fn run<R: Read, W: Write>(
    input: &mut R,
    output: &mut W,
    buf: &mut [u8],
    board: &mut [u16],
    work: &mut [u16],
    out: &mut [u8],
)
    requires { (board.old ≡ start.board) × (work.old ≡ start.work) × (waiting < length buf.old) × (reply_room ≤ length out.old) }
    ensures { Ran start board.new work.new out.new }
{
    serve(input, output, buf, board, work, out);
}

fn main(rt: HostRuntime) {
    let mut input = rt.stdin();
    let mut output = rt.stdout();
    let mut board = [0u16; BOARD_WORDS];
    let mut work = [0u16; WORK_WORDS];
    let mut buf = [0u8; READ_BYTES];
    let mut out = [0u8; ROOM_BYTES];
    run(
        &mut input,
        &mut output,
        &mut buf,
        &mut board,
        &mut work,
        &mut out,
    );
}
