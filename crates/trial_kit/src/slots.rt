// A board's words, read apart from the library: two, and twelve for each slot.
ghost use Rattle.std.specs.Prelude.{◌≡◌, slice_index};
ghost use Rattle.trial_kit.specs.Slots.{board_size, slot_start, slot_at};

use std::array;
use words::{Key, Order};

// Words of a board of 1,024 slots and of its work words, and some more, whose marks must stay. Written out: nothing here is taken from the library.
pub const BOARD: usize = 12400;

pub const WORK: usize = 14400;

// The count word of a started order is so much more than its count of slots. Written out too.
pub const STARTED: u16 = 16;

// What stands in a slot; a free one has no order.
#[derive(Clone, Copy, Debug, PartialEq, Eq)]
pub struct Slot {
    pub label: u16,
    pub order: Option<Order>,
}

// How many words a board of n slots has.
pub fn board_size(n: u16) -> usize
    ensures { result ≡ board_size n }
{
    2 + 12 * usize::from(n)
}

// Where the words of slot s begin; slots are numbered from 1.
pub fn slot_start(s: u16) -> usize
    ensures { result ≡ slot_start s }
{
    (12 * usize::from(s)).saturating_sub(10)
}

// Word i of a board, or of the numbers of a line; 0 where there is none.
pub fn word_at(words: &[u16], i: usize) -> u16
    ensures { result ≡ slice_index words.now i }
{
    words.get(i).copied().unwrap_or(0)
}

// A slot is free where its number word is 0, whatever its code. Its order is started, and stays in it, where the count word is above 16.
pub fn slot_at(board: &[u16], s: u16) -> Slot
    ensures { result ≡ slot_at board.now s }
{
    let start = slot_start(s);
    let count_word = word_at(board, start + 3);
    let started = STARTED < count_word;
    let order = Order {
        key: Key {
            code: word_at(board, start),
            number: word_at(board, start + 1),
        },
        count: if started {
            count_word - STARTED
        } else {
            count_word
        },
        row: array::from_fn(|j| word_at(board, start + 4 + j)),
        fixed: if started { s } else { 0 },
    };
    Slot {
        label: word_at(board, start + 2),
        order: (order.key.number != 0).then_some(order),
    }
}
