// The checks of an order that need no board, 16 (P3) and 7 to 10 of document 01: the calls and the order writer share them.
#![tactic(auto)]

ghost use Rattle.std.specs.Prelude.{◌≡◌, []};
ghost use Rattle.matching.specs.Lists.{rising};
ghost use Rattle.rules.specs.Calls.{first, key_checks, on_board, order_checks};
ghost use Rattle.answers.specs.Numbers.{gate_number};
ghost use Rattle.words.specs.Carried.{key_of};

use answers::Refusal;
use words::{Key, MOST_CHOICES, NO_ORDER, Order};

// Each slot of the list is 1 to n.
fn within(n: u16, list: &[u16]) -> bool
    ensures { result ≡ on_board n list.now }
{
    list.iter().all(|t| (1..=n).contains(t))
}

// The list rises strictly, within 1 to n. One walk with the last slot beside it: `is_sorted_by` would leave 1 to n to a second one.
pub fn rises(n: u16, list: &[u16]) -> bool
    ensures { result ≡ rising n 0 list.now }
{
    let mut last = 0;
    for &t in list {
        if t <= last || n < t {
            return false;
        }
        last = t;
    }
    true
}

// The verdict on the key of an order that a call brings in or names: "16, code not 1 to 999, just before 7" (P3).
pub fn judge_key(key: Key) -> Result<(), Refusal>
    ensures { gate_number result ≡ first (key_checks (key_of key) []) }
{
    if !key.has_good_code() {
        return Err(Refusal::BadCode);
    }
    if key.number == NO_ORDER {
        return Err(Refusal::NumberZero);
    }
    Ok(())
}

// The verdict on an order for a board of n slots: the first of the checks 16 and 7 to 10 that turns it down.
#[tactic(auto, using(crate::proofs::Rows::verdicts))]
pub fn judge(n: u16, order: &Order) -> Result<(), Refusal>
    ensures { gate_number result
        ≡ first (order_checks n (key_of order.now.key) order.now.count order.now.row []) }
{
    judge_key(order.key)?;
    let count = usize::from(order.count);
    if !(1..=MOST_CHOICES).contains(&count) {
        return Err(Refusal::BadCount);
    }
    let list = order.list();
    if !within(n, list) {
        return Err(Refusal::OffBoard);
    }
    if !rises(n, list) {
        return Err(Refusal::NotRising);
    }
    Ok(())
}
