// How often each kind of call was made.
use crate::judge::Left;
use crate::plan::{Outcome, Plan};
use answers::count_of;
use board::{Answer, Request};
use std::fmt;
use trial_kit::slot_at;
use words::Order;

#[derive(Clone, Copy, Default)]
pub struct Counts {
    prints: u32,
    accepted: u32,
    moved: u32,
    withdrawn: u32,
    started: u32,
    blocked: u32,
    // Refused orders with more blocked slots than their own list has.
    wider: u32,
    held_already: u32,
    not_held: u32,
    started_already: u32,
    // Accepted orders that pushed a started one out, which came back.
    back: u32,
    // Refused orders with a started one in the way: were it not started, there would be more slots, or a free one.
    in_the_way: u32,
    // Calls whose order has the number of another customer's on the board.
    accepted_beside: u32,
    withdrawn_beside: u32,
    started_beside: u32,
    not_held_beside: u32,
}

// One of the orders has the number that the call names, and another code.
fn is_beside(request: &Request, orders: &[Order]) -> bool {
    let key = match request {
        Request::Accept(order) => order.key,
        Request::Withdraw(key) | Request::Start(key) => *key,
        Request::Open(_) | Request::Print => return false,
    };
    orders.iter().any(|order| order.key.number == key.number && order.key.code != key.code)
}

// Its label went up: of a started order it is n once it was pushed out and is back.
fn is_back(order: &Order, left: &Left<'_>) -> bool {
    let s = order.fixed;
    s != 0 && slot_at(left.before, s).label != slot_at(left.board, s).label
}

// The order is started in one of the slots, and its list goes beyond them.
fn is_in_the_way(order: &Order, slots: &[u16]) -> bool {
    slots.contains(&order.fixed) && !order.row.iter().all(|s| *s == 0 || slots.contains(s))
}

impl Counts {
    // What of started orders the call shows.
    fn count_started(&mut self, plan: &Plan, left: &Left<'_>) {
        match &plan.outcome {
            Outcome::Accepted if plan.orders.iter().any(|order| is_back(order, left)) => {
                self.back = self.back.saturating_add(1);
            }
            Outcome::Blocked(slots)
                if plan.orders.iter().any(|order| is_in_the_way(order, slots)) => {
                self.in_the_way = self.in_the_way.saturating_add(1);
            }
            _ => {}
        }
    }

    // What the call shows of orders that have one number.
    fn count_beside(&mut self, plan: &Plan) {
        if !is_beside(&plan.request, &plan.orders) {
            return;
        }
        let kind = match &plan.outcome {
            Outcome::Accepted => &mut self.accepted_beside,
            Outcome::Withdrawn => &mut self.withdrawn_beside,
            Outcome::Started(_) => &mut self.started_beside,
            Outcome::NotHeld => &mut self.not_held_beside,
            _ => return,
        };
        *kind = kind.saturating_add(1);
    }

    pub fn count(&mut self, plan: &Plan, left: &Left<'_>, answer: Answer) {
        let kind = match (&plan.outcome, &plan.request) {
            (Outcome::Printed, _) => &mut self.prints,
            (Outcome::Accepted, _) if count_of(answer) == 1 => &mut self.accepted,
            (Outcome::Accepted, _) => &mut self.moved,
            (Outcome::Withdrawn, _) => &mut self.withdrawn,
            (Outcome::Started(_), _) => &mut self.started,
            (Outcome::Blocked(slots), Request::Accept(order))
                if slots.len() == usize::from(order.count) => { &mut self.blocked }
            (Outcome::Blocked(_), _) => &mut self.wider,
            (Outcome::HeldAlready, _) => &mut self.held_already,
            (Outcome::NotHeld, _) => &mut self.not_held,
            (Outcome::StartedAlready, _) => &mut self.started_already,
        };
        *kind = kind.saturating_add(1);
        self.count_started(plan, left);
        self.count_beside(plan);
    }
}

impl fmt::Display for Counts {
    fn fmt<W: fmt::Write>(&self, f: &mut fmt::Formatter<W>) -> fmt::Result {
        let Counts {
            prints,
            accepted,
            moved,
            withdrawn,
            started,
            blocked,
            wider,
            held_already,
            not_held,
            started_already,
            back,
            in_the_way,
            accepted_beside,
            withdrawn_beside,
            started_beside,
            not_held_beside,
        } = *self;
        write!(
            f,
            "prints, accepted, accepted with others moved, withdrawn, started, blocked, blocked by more than its list, held already, not held, started already: "
        )?;
        write!(
            f,
            "{prints} {accepted} {moved} {withdrawn} {started} {blocked} {wider} {held_already} {not_held} {started_already}; "
        )?;
        write!(
            f,
            "accepted with a started order pushed out and back, blocked with one in the way: {back} {in_the_way}; "
        )?;
        write!(
            f,
            "accepted, withdrawn, started, not held, while another customer's order has the number: "
        )?;
        write!(
            f,
            "{accepted_beside} {withdrawn_beside} {started_beside} {not_held_beside}"
        )
    }
}
