// The labels that a withdrawal leaves: 1 in each held slot.
#![tactic(auto)]

ghost use Rattle.std.specs.Prelude.{true, ◌≡◌, ℕ, ◌+◌, ◌*◌, ◌≤◌, ◌<◌, length};
ghost use Rattle.matching.specs.Lists.{slots};
ghost use Rattle.rules.specs.Calls.{relabelled, relabelled_all};
ghost use Rattle.rules.specs.Layout.{board_words, slot_words};
ghost use Rattle.relabelling.specs.Relabelled.{Settled, relabelled_from, relabelled_run};

use storing::put_label;
use words::{LABEL, NO_ORDER, NUMBER, SLOT_WORDS, board_words, number_at, start_of};

// So many slots are looked at together: a walk slot by slot, with a branch at each, takes three times as long. (Counts in 16 bits take longer too.)
const TOGETHER: usize = 8;

// The label 1 for slot s, if it holds an order.
fn relabel(board: &mut [u16], s: u16)
    ensures { board.new ≡ relabelled board.old s }
{
    if number_at(board, s) != NO_ORDER {
        put_label(board, s, 1);
    }
}

// Each slot by itself, of any words.
fn relabel_slow(board: &mut [u16], n: u16)
    ensures { board.new ≡ relabelled_all board.old (slots n) }
{
    for s in (1..=n).rev() {
        relabel(board, s);
    }
}

// Nothing is to be set: the slot is free, or its label is 1. One number tells it, the label and one more where the slot is held: 0 is a free slot, 2
// a held one with label 1 (or a free one with label 2). So there is one branch, and it goes the same way for every slot but those that an order
// moved into since the last withdrawal; a branch on whether the slot is free is often guessed wrong.
fn settled(number: u16, label: u16) -> bool
    ensures { result ≡ true → Settled number label }
{
    let both = u64::from(label) * 65536 + u64::from(number);
    let raised = both.div_ceil(65536);
    raised == 0 || raised == 2
}

// Of the slot whose words begin at index `at`.
fn settled_in(board: &[u16], at: usize) -> bool
    requires { at + slot_words ≤ length board.now }
    ensures { result ≡ true → relabelled_from board.now at ≡ board.now }
{
    settled(board[at + NUMBER], board[at + LABEL])
}

// Of the slots that are looked at together, the lowest of which begins at `at`.
fn all_settled(board: &[u16], at: usize) -> bool
    requires { at + TOGETHER * slot_words ≤ length board.now }
    ensures { result ≡ true → (k : ℕ) → k < TOGETHER → relabelled_from board.now (at + k * slot_words) ≡ board.now }
{
    (0..TOGETHER).all(|k| settled_in(board, at + k * SLOT_WORDS))
}

// `relabel` where the words are there: with that one in its place, which looks at the board's end for each slot, the load churn takes an eighth longer.
fn relabel_in(board: &mut [u16], at: usize)
    requires { at + slot_words ≤ length board.old }
    ensures { board.new ≡ relabelled_from board.old at }
{
    if board[at + NUMBER] != NO_ORDER {
        board[at + LABEL] = 1;
    }
}

fn relabel_together(board: &mut [u16], at: usize)
    requires { at + TOGETHER * slot_words ≤ length board.old }
    ensures { board.new ≡ relabelled_run board.old at TOGETHER }
{
    if all_settled(board, at) {
        return;
    }
    for k in (0..TOGETHER).rev() {
        relabel_in(board, at + k * SLOT_WORDS);
    }
}

// "sets each held slot's label to 1", from slot n down. One comparison for the whole board: this passes over every slot, and a look at each eight that
// may find none (`get`, `first_chunk`) makes the load churn 2 to 5 % slower. (n is any number, as in the definition, and not the board's own: so it
// stands beside it.)
pub fn relabel_all(board: &mut [u16], n: u16)
    ensures { board.new ≡ relabelled_all board.old (slots n) }
{
    if board.len() < board_words(n) {
        relabel_slow(board, n);
        return;
    }
    // `TOGETHER` is 8: the cast loses nothing.
    let rest = n % TOGETHER as u16;
    let lowest = start_of(rest + 1);
    for k in (0..usize::from(n) / TOGETHER).rev() {
        relabel_together(board, lowest + k * TOGETHER * SLOT_WORDS);
    }
    relabel_slow(board, rest);
}
