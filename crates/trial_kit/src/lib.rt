// What the trial programs share: marks in words that must stay, slots and work words as they must be, tallies, draws, and
// the numbers of a line. Nothing here is taken from the library under test but its calls and the types of what they take and answer.
#![tactic(auto)]

mod asks;
mod marks;
mod seeds;
mod slots;
mod tallies;
mod texts;

pub use asks::ask;
pub use marks::{fill_marks, has_marks, has_zeros, is_cleared, work_size};
pub use seeds::Seed;
pub use slots::{BOARD, STARTED, Slot, WORK, board_size, slot_at, slot_start, word_at};
pub use tallies::{Score, Tally};
pub use texts::{EXPECTED, numbers, places};
