// Random boards against a plain breadth-first matcher. For each n several boards are opened and many random calls made;
// after each call the answer, the board and the work words are held to what this program finds out by itself.
#![tactic(auto)]

mod boards;
mod counts;
mod judge;
mod matcher;
mod plan;
mod trial;

use std::io;
use trial::Trial;

const SIZES: [u16; 9] = [1, 2, 3, 4, 7, 16, 64, 257, 1024];

// So many calls for each n.
const CALLS: u32 = 7000;

fn main(rt: HostRuntime) -> io::Result<()> {
    let mut trial = Trial::new(rt.alloc());
    for n in SIZES {
        for t in 0..CALLS {
            trial.turn(&rt, t, n)?;
        }
    }
    trial.tell(&rt)
}
