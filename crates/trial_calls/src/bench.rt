// The words that are lent, the calls, and the comparison of what they answer and leave with what the script says.
use answers::{count_of, refusal_of};
use board::{Answer, Request, blocked, check};
use std::io;
use trial_kit::{
    BOARD, Tally, WORK, ask, board_size, fill_marks, has_zeros, slot_start, word_at, work_size,
};

// The script has refusals by their numbers, as the table of refusals: written out and not the library's own, so that a wrong one there shows.
const BLOCKED: u16 = 12;

// What a call must answer: the refusal, or 0; the count; and so many slots, from the first on, of a list that is blocked.
#[derive(Clone, Copy)]
pub struct Expected<'a> {
    refusal: u16,
    count: u16,
    slots: &'a [u16],
}

impl Expected<'_> {
    pub fn of(numbers: &[u16]) -> Expected<'_> {
        Expected {
            refusal: word_at(numbers, 0),
            count: word_at(numbers, 1),
            slots: numbers.get(2..).unwrap_or(&[]),
        }
    }

    // What is wrong with the answer, by a letter: the refusal or the count.
    fn answer_fault(&self, answer: Answer) -> Option<char> {
        if refusal_of(answer) != self.refusal {
            Some('r')
        } else if count_of(answer) != u64::from(self.count) {
            Some('c')
        } else {
            None
        }
    }

    // The work words of a board of n slots, which were those marks: unaltered at 3 to 6; else zero, after the blocked slots; and what is beyond their size as
    // it was.
    fn leaves(&self, work: &[u16], marks: &[u16], n: u16) -> bool {
        match self.refusal {
            3..=6 => work == marks,
            BLOCKED => is_cleared(work, marks, n, usize::from(self.count)),
            _ => is_cleared(work, marks, n, 0),
        }
    }

    // The list of blocked slots is right, where there is one.
    fn shows(&self, work: &[u16]) -> bool {
        let count = usize::from(self.count);
        self.refusal != BLOCKED || self.slots.get(..count) == Some(blocked(work, count))
    }

    fn work_fault(&self, work: &[u16], marks: &[u16], n: u16) -> Option<char> {
        if !self.leaves(work, marks, n) {
            Some('w')
        } else if !self.shows(work) {
            Some('l')
        } else {
            None
        }
    }
}

// How many board words and work words are lent: not all that there are, since those behind them must keep their marks.
#[derive(Clone, Copy)]
struct Lent {
    board: u16,
    work: u16,
}

impl Lent {
    // The call, of the words that are lent.
    fn ask(self, request: &Request, board: &mut [u16], work: &mut [u16]) -> Answer {
        let board_lent = usize::from(self.board).min(board.len());
        let work_lent = usize::from(self.work).min(work.len());
        ask(request, &mut board[..board_lent], &mut work[..work_lent])
    }
}

#[derive(Drop)]
pub struct Bench {
    board: [u16; BOARD],
    work: [u16; WORK],
    lent: Lent,
    // The board as a call must leave it.
    wanted: [u16; BOARD],
    // What all words are when they are lent: to copy and to compare these takes a fraction of the time that making each mark anew does.
    marks: [u16; WORK],
    pub tally: Tally,
}

// Zeros behind the first `shown` words, up to their size, and marks beyond it.
fn is_cleared(work: &[u16], marks: &[u16], n: u16, shown: usize) -> bool {
    let size = work_size(n);
    has_zeros(work, shown, size) && work.get(size..) == marks.get(size..)
}

// The values go into the words from index `at` on, as far as there are words.
fn write(words: &mut [u16], at: usize, values: &[u16]) {
    for (word, value) in words.iter_mut().skip(at).zip(values) {
        *word = *value;
    }
}

// The first of the words, as many as are lent, or all of them.
fn front(words: &[u16], lent: u16) -> &[u16] {
    &words[..usize::from(lent).min(words.len())]
}

impl Bench {
    pub fn new() -> Bench {
        let mut marks = [0; WORK];
        fill_marks(&mut marks);
        Bench {
            board: [0; BOARD],
            work: [0; WORK],
            lent: Lent { board: 0, work: 0 },
            wanted: [0; BOARD],
            marks,
            tally: Tally::default(),
        }
    }

    // All words get their marks, in the expected board too.
    pub fn lend(&mut self, asked: &[u16]) {
        self.board.copy_from_slice(&self.marks[..BOARD]);
        self.wanted = self.board;
        self.lent = Lent {
            board: word_at(asked, 0),
            work: word_at(asked, 1),
        };
    }

    // The numbers after the first go into the words from the index that the first names.
    pub fn given(&mut self, asked: &[u16]) {
        if let Some((at, values)) = asked.split_first() {
            write(&mut self.board, usize::from(*at), values);
            write(&mut self.wanted, usize::from(*at), values);
        }
    }

    // More slots than 1,024 no board has: then the expected one stays.
    pub fn zero(&mut self, n: u16) {
        if 1024 < n {
            return;
        }
        let size = board_size(n).min(BOARD);
        self.wanted[..size].fill(0);
        self.wanted[0] = n;
    }

    pub fn slot(&mut self, asked: &[u16]) {
        if let Some((s, values)) = asked.split_first() {
            // Written out, and not the library's own.
            let mut words = [0; 12];
            write(&mut words, 0, values);
            write(&mut self.wanted, slot_start(*s), &words);
        }
    }

    pub fn held(&mut self, count: u16) {
        self.wanted[1] = count;
    }

    // What is wrong with the answer, or else whether the board is.
    fn call_fault(&self, answer: Answer, expected: &Expected<'_>) -> Option<char> {
        let wrong = expected.answer_fault(answer);
        if wrong.is_none() && self.board != self.wanted {
            return Some('b');
        }
        wrong
    }

    // No work words are lent.
    pub fn open(&mut self, rt: &impl Print, n: u16, expected: &Expected<'_>) -> io::Result<()> {
        let answer = self.lent.ask(&Request::Open(n), &mut self.board, &mut []);
        let wrong = self.call_fault(answer, expected);
        self.tally.note(rt, wrong)
    }

    // A call, with marks in all work words.
    pub fn call(
        &mut self,
        rt: &impl Print,
        request: &Request,
        expected: &Expected<'_>,
    ) -> io::Result<()> {
        self.work = self.marks;
        let answer = self.lent.ask(request, &mut self.board, &mut self.work);
        let wrong = self.call_fault(answer, expected);
        let spoilt = expected.work_fault(&self.work, &self.marks, self.wanted[0]);
        self.tally.note(rt, wrong)?;
        self.tally.note(rt, spoilt)
    }

    // Whether the board passes the check.
    pub fn check(&mut self, rt: &impl Print, expected: bool) -> io::Result<()> {
        let passes = check(front(&self.board, self.lent.board));
        self.tally.check(rt, 'k', passes == expected)
    }

    // The blocked list of any length asked for is the beginning of the work words, at most all of them.
    pub fn list(&mut self, rt: &impl Print, asked: u16, expected: u16) -> io::Result<()> {
        self.work = self.marks;
        let list = blocked(front(&self.work, self.lent.work), usize::from(asked));
        let right = self.marks.get(..usize::from(expected)) == Some(list);
        self.tally.check(rt, 's', right)
    }
}
