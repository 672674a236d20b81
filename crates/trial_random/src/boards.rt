// What is on a board. Board and n stay two arguments: the board is the library's words, and n what the trial asked for, not what they say.
use std::alloc::{AllocError, Global};
use trial_kit::slot_at;
use words::{Key, Order};

// Where an order stands among others: by code, and then by number.
pub fn rank(order: &Order) -> (u16, u16) {
    (order.key.code, order.key.number)
}

// The orders on a board of n slots, in whatever slots, by code and number.
pub fn orders_on(alloc: Global, board: &[u16], n: u16) -> Result<Vec<Order>, AllocError> {
    let mut orders: Vec<Order> = (1..=n)
        .filter_map(|s| slot_at(board, s).order)
        .collect(alloc)?;
    orders.sort_by_key(rank)?;
    Ok(orders)
}

// The slot in which the order of this key sits.
pub fn seat_of(board: &[u16], n: u16, key: Key) -> Option<u16> {
    (1..=n).find(|s| {
        slot_at(board, *s)
            .order
            .is_some_and(|order| order.key == key)
    })
}

// Every slot is free, or on the list of the order that it has.
pub fn all_sit(board: &[u16], n: u16) -> bool {
    (1..=n).all(|s| {
        slot_at(board, s)
            .order
            .is_none_or(|order| order.row.contains(&s))
    })
}

// Every order has label 1.
pub fn all_new(board: &[u16], n: u16) -> bool {
    (1..=n).all(|s| {
        let slot = slot_at(board, s);
        slot.order.is_none() || slot.label == 1
    })
}
