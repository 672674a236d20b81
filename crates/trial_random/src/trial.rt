// The board and the work words that are lent, and what goes on from call to call.
use crate::boards::orders_on;
use crate::counts::Counts;
use crate::judge::{Left, is_answered, moves_after};
use crate::plan::next_plan;
use board::{Answer, open_board};
use std::alloc::Global;
use std::io;
use trial_kit::{
    BOARD, Seed, Tally, WORK, ask, board_size, fill_marks, has_zeros, slot_at, slot_start,
};

#[derive(Drop)]
pub struct Trial {
    alloc: Global,
    board: [u16; BOARD],
    work: [u16; WORK],
    // The moves since labels last went down.
    moves: u64,
    seed: Seed,
    tally: Tally,
    counts: Counts,
}

// The board was opened: n, no orders.
fn is_opened(board: &[u16], n: u16, answer: Answer) -> bool {
    answer == Ok(0) && board.first().copied() == Some(n) && has_zeros(board, 1, board_size(n))
}

// Four times the board words of n slots, and some more; no size is above 1,024, and so it fits. Written out, and not the library's own.
// A draw below this is seldom a slot; a draw below a draw below this is less than n in about one call of ten.
fn rare_range(n: u16) -> u16 {
    4 * (12 * n.min(1024) + 9)
}

fn is_started(board: &[u16], s: u16) -> bool {
    slot_at(board, s)
        .order
        .is_some_and(|order| order.fixed != 0)
}

// The label of slot s is at least so high.
fn raise(board: &mut [u16], s: u16, least: u16) {
    if let Some(label) = board.get_mut(slot_start(s) + 2) {
        *label = least.max(*label);
    }
}

// Labels are at most so high. Where the board passes the check it still does.
fn lower(board: &mut [u16], n: u16, most: u16) {
    for s in 1..=n {
        if let Some(label) = board.get_mut(slot_start(s) + 2) {
            *label = most.min(*label);
        }
    }
}

impl Trial {
    pub fn new(alloc: Global) -> Trial {
        Trial {
            alloc,
            board: [0; BOARD],
            work: [0; WORK],
            moves: 0,
            seed: Seed(88172645),
            tally: Tally::default(),
            counts: Counts::default(),
        }
    }

    // A started order's slot may have any label: now and then one goes up.
    fn raise_label(&mut self, n: u16) {
        let s = self.seed.draw(rare_range(n));
        let least = self.seed.draw(n) + 1;
        if (1..=n).contains(&s) && is_started(&self.board, s) {
            raise(&mut self.board, s, least);
        }
    }

    // Now and then labels go down, more or less.
    fn lower_labels(&mut self, n: u16) {
        let many = self.seed.draw(rare_range(n));
        let most = self.seed.draw(many);
        if most < n {
            lower(&mut self.board, n, most + 1);
            self.moves = 0;
        }
    }

    // Before the call: from time to time a board is opened anew.
    fn begin(&mut self, rt: &impl Print, t: u32, n: u16) -> io::Result<()> {
        self.tally.next_case();
        if t % (5 * u32::from(n) + 40) != 0 {
            self.raise_label(n);
            self.lower_labels(n);
            return Ok(());
        }
        fill_marks(&mut self.board);
        let answer = open_board(&mut self.board, n);
        self.moves = 0;
        self.tally.check(rt, 'n', is_opened(&self.board, n, answer))
    }

    // Call t on boards of n slots, with marks in all work words.
    pub fn turn(&mut self, rt: &impl Print, t: u32, n: u16) -> io::Result<()> {
        self.begin(rt, t, n)?;
        let copy = self.board;
        let before = copy.as_slice();
        let plan = next_plan(self.alloc, &mut self.seed, before, n)?;
        fill_marks(&mut self.work);
        let answer = ask(&plan.request, &mut self.board, &mut self.work);
        self.moves = moves_after(&plan.outcome, self.moves, answer);
        let orders = orders_on(self.alloc, &self.board, n)?;
        let left = Left {
            n,
            before,
            board: &self.board,
            work: &self.work,
            orders: &orders,
        };
        let wrong = left.fault(&plan);
        let right = is_answered(&plan.outcome, n, self.moves, answer);
        self.tally.check(rt, 'r', right)?;
        self.tally.note(rt, wrong)?;
        self.counts.count(&plan, &left, answer);
        Ok(())
    }

    pub fn tell(&mut self, rt: &impl Print) -> io::Result<()> {
        let counts = self.counts;
        print!(rt; "{counts}")?;
        self.tally.tell(rt)
    }
}
