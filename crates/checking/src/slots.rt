// What the check asks of one slot.
ghost use Rattle.std.specs.Prelude.{◌≡◌, length};
ghost use Rattle.rules.specs.Check.{zeros, low_label, held_fine, slot_fine};
ghost use Rattle.rules.specs.Layout.{slot_words, reads, base};
ghost use Rattle.checking.specs.Slots.{list_fine, whole, whole_slots};

use orders::rises;
use words::{
    HEAD_WORDS, MOST_CHOICES, NO_ORDER, Order, SLOT_WORDS, label_at, number_at, order_at, start_of,
    words_from,
};

// Those of the slots 1 .. n that have all their words: a walk over them need not look for the board's end at each.
pub(crate) fn slots_of(board: &[u16], n: u16) -> &[[u16; SLOT_WORDS]]
    ensures words { result.now ≡ whole_slots n board.now }
    ensures many { length result.now ≡ whole n board.now }
{
    let (slots, _) = words_from(board, HEAD_WORDS).as_chunks();
    &slots[..slots.len().min(usize::from(n))]
}

fn all_zero(words: &[u16]) -> bool
    ensures { result ≡ zeros words.now }
{
    words.iter().all(|&word| word == 0)
}

// All words of slot s are 0.
fn is_blank(board: &[u16], s: u16) -> bool
    ensures { result ≡ zeros (reads board.now (base s) slot_words) }
{
    let from = words_from(board, start_of(s));
    all_zero(&from[..from.len().min(SLOT_WORDS)])
}

// The list of an order in slot s, as it is written.
fn list_fine(n: u16, s: u16, order: &Order) -> bool
    ensures { result ≡ list_fine n s order.now }
{
    let list = order.list();
    let unused = &order.row[list.len()..];
    (1..=MOST_CHOICES).contains(&usize::from(order.count))
        && rises(n, list)
        && all_zero(unused)
        && list.contains(&s)
}

// The label of slot s is at most 1 more than that of each slot open to its order. (Slot s itself is compared too, and passes.)
fn labels_low(board: &[u16], s: u16, choices: &[u16]) -> bool
    ensures { result ≡ low_label board.now s choices.now }
{
    let least = label_at(board, s).saturating_sub(1);
    choices.iter().all(|&slot| least <= label_at(board, slot))
}

// What the check asks of a slot that holds an order.
#[tactic(auto, unfolding(rules::specs::Check::held_fine, matching::specs::Orders::open_slots))]
fn held_fine(board: &[u16], n: u16, s: u16) -> bool
    ensures { result ≡ held_fine n board.now s }
{
    let order = order_at(board, s);
    let label = label_at(board, s);
    order.key.has_good_code()
        && list_fine(n, s, &order)
        && (1..=n).contains(&label)
        && labels_low(board, s, order.open_slots())
}

#[tactic(auto, unfolding(rules::specs::Check::slot_fine))]
pub(crate) fn slot_fine(board: &[u16], n: u16, s: u16) -> bool
    ensures { result ≡ slot_fine n board.now s }
{
    if number_at(board, s) == NO_ORDER {
        is_blank(board, s)
    } else {
        held_fine(board, n, s)
    }
}
