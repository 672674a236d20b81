// What must hold of the answer, the board and the work words after a call.
use crate::boards::{all_new, all_sit};
use crate::plan::{Outcome, Plan};
use answers::count_of;
use board::{Answer, Refusal, Rejection, blocked, check};
use trial_kit::{STARTED, board_size, has_marks, is_cleared, slot_start};
use words::Order;

// The moves since labels last went down, after a call that came to this.
pub fn moves_after(outcome: &Outcome, moves: u64, answer: Answer) -> u64 {
    match outcome {
        Outcome::Accepted => moves.saturating_add(count_of(answer)),
        Outcome::Withdrawn => 0,
        _ => moves,
    }
}

// Of an accepted order at least one move, and with those before it at most n times n.
fn within_square(count: u64, n: u16, moves: u64) -> bool {
    1 <= count && moves <= u64::from(n) * u64::from(n)
}

// The answer; the moves are those after the call.
pub fn is_answered(outcome: &Outcome, n: u16, moves: u64, answer: Answer) -> bool {
    match outcome {
        Outcome::Printed => answer == Ok(u64::from(n)),
        Outcome::Accepted => answer.is_ok_and(|count| within_square(count, n, moves)),
        Outcome::Withdrawn | Outcome::Started(_) => answer == Ok(0),
        Outcome::HeldAlready => answer == Err(Rejection::Refused(Refusal::HeldAlready)),
        Outcome::NotHeld => answer == Err(Rejection::Refused(Refusal::NotHeld)),
        Outcome::StartedAlready => answer == Err(Rejection::Refused(Refusal::Started)),
        Outcome::Blocked(slots) => {
            matches!(answer, Err(Rejection::Blocked(count)) if usize::from(count) == slots.len())
        }
    }
}

// The board is as it was, but that the order in slot s is started: its count word alone is another.
fn is_started_in(board: &[u16], before: &[u16], s: u16) -> bool {
    let count_word = slot_start(s) + 3;
    board.iter().zip(before).enumerate().all(|(i, (new, old))| {
        let more = if i == count_word { STARTED } else { 0 };
        old.checked_add(more) == Some(*new)
    })
}

// What a call on a board of n slots left, and the board before it.
#[derive(Clone, Copy)]
pub struct Left<'a> {
    pub n: u16,
    pub before: &'a [u16],
    pub board: &'a [u16],
    pub work: &'a [u16],
    // Those on the board, by code and number.
    pub orders: &'a [Order],
}

impl Left<'_> {
    // Only where the order is blocked may some work words be other than 0: they show the blocked slots.
    fn work_is(&self, outcome: &Outcome) -> bool {
        match outcome {
            Outcome::Blocked(slots) => {
                blocked(self.work, slots.len()) == slots.as_slice()
                    && is_cleared(self.work, self.n, slots.len())
            }
            _ => is_cleared(self.work, self.n, 0),
        }
    }

    // The board passes the check, has n and the count, and keeps the words behind it.
    fn board_is(&self, held: usize) -> bool {
        check(self.board)
            && self.board.first().copied() == Some(self.n)
            && self.board.get(1).copied().map(usize::from) == Some(held)
            && has_marks(self.board, board_size(self.n))
    }

    // The board has the orders that it should, the started ones in their slots, after a withdrawal all with label 1; it is as it was where no order
    // enters, leaves or is started.
    fn orders_are(&self, plan: &Plan) -> bool {
        match plan.outcome {
            Outcome::Accepted => plan.orders.as_slice() == self.orders,
            Outcome::Withdrawn => plan.orders.as_slice() == self.orders
                && all_new(self.board, self.n),
            Outcome::Started(s) => plan.orders.as_slice() == self.orders
                && is_started_in(self.board, self.before, s),
            _ => self.before == self.board,
        }
    }

    // What is wrong, by a letter: the work words, the board, the orders on it, or where they sit.
    pub fn fault(&self, plan: &Plan) -> Option<char> {
        if !self.work_is(&plan.outcome) {
            Some('w')
        } else if !self.board_is(plan.orders.len()) {
            Some('b')
        } else if !self.orders_are(plan) {
            Some('o')
        } else if !all_sit(self.board, self.n) {
            Some('s')
        } else {
            None
        }
    }
}
