// The next call: what it asks, what it must come to, and which orders it must leave on the board.
ghost use Rattle.std.specs.Prelude.{◌<◌, IfOk, IfSome, length};

use crate::boards::{orders_on, rank, seat_of};
use crate::matcher::blocked_slots;
use board::Request;
use std::alloc::{AllocError, Global};
use trial_kit::{Seed, slot_at};
use words::{Key, Order};

// An order is started in this slot. One that is not accepted is blocked by these slots, or held already.
#[derive(Drop)]
pub enum Outcome {
    Printed,
    Accepted,
    Withdrawn,
    Started(u16),
    HeldAlready,
    NotHeld,
    StartedAlready,
    Blocked(Vec<u16>),
}

// The orders by code and number.
#[derive(Drop)]
pub struct Plan {
    pub request: Request,
    pub outcome: Outcome,
    pub orders: Vec<Order>,
}

// A code, of few.
fn code(seed: &mut Seed) -> u16 {
    match seed.draw(4) {
        0 => 1,
        1 => 2,
        2 => 100,
        _ => 999,
    }
}

// The key of the next order: of one on the board, or any; in one of four cases with the number of one on the board, whatever the code.
fn key(seed: &mut Seed, board: &[u16], n: u16, held: bool) -> Key {
    let s = seed.draw(n) + 1;
    let code = code(seed);
    let any = seed.draw(65535) + 1;
    let again = seed.draw(4) == 0;
    match slot_at(board, s).order {
        Some(order) if held => order.key,
        Some(order) if again => Key { code, ..order.key },
        _ => Key { code, number: any },
    }
}

// How far the slots of a list are apart: mostly near each other, so that slots grow scarce.
fn gap(seed: &mut Seed, n: u16) -> u16 {
    if seed.draw(4) == 0 {
        seed.draw(n)
    } else {
        seed.draw(12)
    }
}

// An order of this key with a random list: up to eight slots, rising.
fn order(seed: &mut Seed, n: u16, key: Key) -> Order {
    let gap = gap(seed, n);
    let mut s = seed.draw(n);
    let most = seed.draw(8) + 1;
    let mut count = 0;
    let mut row = [0; 8];
    for (choice, size) in row.iter_mut().zip(1..=most) {
        if n <= s {
            break;
        }
        *choice = s + 1;
        count = size;
        s = s.saturating_add(seed.draw(gap) + 1);
    }
    Order::new(key, count, row)
}

fn place_of(orders: &[Order], key: Key) -> Option<usize>
    ensures { IfSome result (λ place. place < length orders.now) }
{
    orders.iter().position(|order| order.key == key)
}

// The place of the order of this key, or why it is neither withdrawn nor started.
fn named(orders: &[Order], key: Key) -> Result<usize, Outcome>
    ensures { IfOk result (λ place. place < length orders.now) }
{
    let place = place_of(orders, key).ok_or(Outcome::NotHeld)?;
    if orders[place].fixed != 0 {
        return Err(Outcome::StartedAlready);
    }
    Ok(place)
}

// The order of this key is withdrawn, if there is one that is not started.
fn plan_withdrawal(key: Key, mut orders: Vec<Order>) -> Plan {
    let outcome = match named(&orders, key) {
        Ok(place) => {
            orders.remove(place);
            Outcome::Withdrawn
        }
        Err(outcome) => outcome,
    };
    Plan {
        request: Request::Withdraw(key),
        outcome,
        orders,
    }
}

// The order of this key, which sits in slot s, is started if it is not yet: it stays there.
fn start_in(orders: &mut [Order], key: Key, s: u16) -> Outcome {
    match named(orders, key) {
        Ok(place) => {
            orders[place].fixed = s;
            Outcome::Started(s)
        }
        Err(outcome) => outcome,
    }
}

fn plan_start(board: &[u16], n: u16, key: Key, mut orders: Vec<Order>) -> Plan {
    let outcome = match seat_of(board, n, key) {
        Some(s) => start_in(&mut orders, key, s),
        None => Outcome::NotHeld,
    };
    Plan {
        request: Request::Start(key),
        outcome,
        orders,
    }
}

// The order is held already; or else the matcher says whether there is a way.
fn plan_order(
    alloc: Global,
    board: &[u16],
    order: Order,
    mut orders: Vec<Order>,
) -> Result<Plan, AllocError> {
    let outcome = if place_of(&orders, order.key).is_some() {
        Outcome::HeldAlready
    } else if let Some(slots) = blocked_slots(alloc, board, &order)? {
        Outcome::Blocked(slots)
    } else {
        orders.push(order)?;
        orders.sort_by_key(rank)?;
        Outcome::Accepted
    };
    Ok(Plan {
        request: Request::Accept(order),
        outcome,
        orders,
    })
}

// Of 24 calls three withdraw and two start, one each any order; one offers an order that is held; one prints.
pub fn next_plan(
    alloc: Global,
    seed: &mut Seed,
    board: &[u16],
    n: u16,
) -> Result<Plan, AllocError> {
    // A number and no enum: it is drawn, and no kind is kept as one.
    let kind = seed.draw(24);
    let key = key(seed, board, n, kind < 4);
    let order = order(seed, n, key);
    let orders = orders_on(alloc, board, n)?;
    match kind {
        0 | 1 | 4 => Ok(plan_withdrawal(key, orders)),
        2 | 5 => Ok(plan_start(board, n, key, orders)),
        6 => Ok(Plan {
            request: Request::Print,
            outcome: Outcome::Printed,
            orders,
        }),
        _ => plan_order(alloc, board, order, orders),
    }
}
