// Orders are written and read back. Then standard input, lines of whole runs, is run three times from the start, and all answers are printed.
#![tactic(auto)]

mod runs;
mod writes;

use std::io;
use std::io::Read;

// Bytes that are read: more than the lines have, and so few that input without an end takes little memory.
const MOST_BYTES: u64 = 8192;

fn main(rt: HostRuntime) -> io::Result<()> {
    let mut input = Vec::new(rt.alloc());
    // A read that fails is the input's end: what came before it is run.
    let _ = rt.reader().take(MOST_BYTES).read_to_end(&mut input);
    writes::run(&rt)?;
    runs::run_all(&rt, &input)
}
