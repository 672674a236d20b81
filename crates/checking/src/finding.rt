// The look for an order.
ghost use Rattle.std.specs.Prelude.{◌≡◌, false, ◌*◌, ◌≤◌, length, take};
ghost use Rattle.std.specs.List.{list_any};
ghost use Rattle.checking.specs.Found.{found};
ghost use Rattle.checking.specs.Slots.{has_key};
ghost use Rattle.words.specs.Carried.{key_of};

use crate::slots::slots_of;
use words::{CODE, Key, NO_ORDER, NUMBER, SLOT_WORDS, code_at, number_at};

// The slot of these words has this key. Compared as one number: with a comparison for the number and one for the code, which is jumped over for nearly every
// slot, the look takes more than twice as long.
#[tactic(auto, using(crate::proofs::Looking::joined_same))]
fn has_key(slot: &[u16; SLOT_WORDS], key: Key) -> bool
    ensures { result ≡ has_key (key_of key) slot.now }
{
    let its = Key {
        code: slot[CODE],
        number: slot[NUMBER],
    };
    its.joined() == key.joined()
}

// One of the slots has it. All of them are compared, whatever the ones before were: jumps go by one at a time, comparisons do not.
fn any_has(slots: &[[u16; SLOT_WORDS]], key: Key) -> bool
    ensures { result ≡ list_any (has_key (key_of key)) slots.now }
{
    let mut found = false;
    for slot in slots {
        found |= has_key(slot, key);
    }
    found
}

// So many eights of slots come before the first that has one with this key. Eight slots at a time is fast wherever the loop lies in memory;
// one at a time takes more than twice as long where it lies badly.
fn eights_before(slots: &[[u16; SLOT_WORDS]], key: Key) -> usize
    ensures within { 8 * result ≤ length slots.now }
    ensures lacking { list_any (has_key (key_of key)) (take (8 * result) slots.now) ≡ false }
{
    let (eights, _) = slots.as_chunks::<8>();
    eights
        .iter()
        .position(|eight| any_has(eight, key))
        .unwrap_or(eights.len())
}

// The lowest slot of 1 .. n that holds the order of this key: the one place that looks for an order. What the eights leave is looked through slot by slot,
// of a board that ends too early too. The slots in those eights are at most n: the cast loses nothing.
pub fn find(board: &[u16], n: u16, key: Key) -> Option<u16>
    ensures { result ≡ found board.now n (key_of key) }
{
    if key.number == NO_ORDER {
        return None;
    }
    let past = 8 * eights_before(slots_of(board, n), key) as u16;
    (past + 1..=n).find(|&s| number_at(board, s) == key.number && code_at(board, s) == key.code)
}
