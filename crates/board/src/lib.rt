// The calls of document 01 on a lent board, and P1's. `perform` does each of them by what is known of board and work words, and keeps what is known true;
// a single call finds that out first. Board and work words stay two loans, here and above: a call is lent work words of its own, an opening none, a
// print may not write the board, and a struct of two `&mut` would be taken apart again in each function. Nor is there a struct of a request and what is
// known: what is known outlives it, lent to the next line's, and the definitions take the two apart.
#![tactic(auto)]

ghost use Rattle.std.specs.Prelude.{◌≡◌, cond, min, ltb, leb};
ghost use Rattle.rules.specs.Calls.{
  first,
  open_checks,
  opened,
  step,
  accept as accept_call,
  withdraw as withdraw_call,
  start-order as start_call,
  print as print_call,
};
ghost use Rattle.rules.specs.Known.{gate_of, few_of, past_gate, perform_known, known_opened};
ghost use Rattle.answers.specs.Numbers.{gate_number, said, Opens};
ghost use Rattle.checking.specs.Known.{known_of};
ghost use Rattle.words.specs.Carried.{key_of};
ghost use Rattle.board.specs.Requests.{call_for, Counts, LearnsPast, Performs};

use accepting::take_order;
use answers::shown_by;
pub use answers::{Answer, Refusal, Rejection, blocked};
pub use checking::check;
use checking::{Known, assess, short_for, work_gate};
use starting::mark_started;
use storing::{put_size, zero_front};
use withdrawing::take_out;
pub use words::{Key, Order};
use words::{MOST_SLOTS, board_words, size_of, work_words};

// "open a board, accept an order, withdraw one, print"; P1: start one
#[derive(Clone, Copy, Debug, PartialEq, Eq)]
pub enum Request {
    Open(u16),
    Accept(Order),
    Withdraw(Key),
    Start(Key),
    Print,
}

// n and zeros.
#[tactic(auto, using(crate::proofs::Opening::opens))]
fn put_opened(board: &mut [u16], n: u16)
    ensures { board.new ≡ opened n board.old }
{
    zero_front(board, board_words(n));
    put_size(board, n);
}

// An opening's checks, 3 and 4.
fn open_gate(board: &[u16], n: u16) -> Result<(), Refusal>
    ensures { gate_number result ≡ first (open_checks n board.now) }
{
    if !(1..=MOST_SLOTS).contains(&n) {
        return Err(Refusal::BadSize);
    }
    if short_for(n, board) {
        return Err(Refusal::Short);
    }
    Ok(())
}

// What the early checks say: of a call that reads the board it is known.
fn gate_for(request: &Request, board: &[u16], known: Known) -> Result<(), Refusal>
    ensures { gate_number result ≡ gate_of (known_of known) (call_for request.now) board.now }
{
    match request {
        Request::Open(n) => open_gate(board, *n),
        Request::Accept(_) | Request::Withdraw(_) | Request::Start(_) | Request::Print =>
            known.gate,
    }
}

// So many work words are to be cleared: an opening leaves them.
fn few_for(request: &Request, known: Known) -> usize
    ensures { result ≡ few_of (known_of known) (call_for request.now) }
{
    match request {
        Request::Open(_) => 0,
        Request::Accept(_) | Request::Withdraw(_) | Request::Start(_) | Request::Print => known.few,
    }
}

// An accepted P counts n.
#[tactic(auto, unfolding(rules::specs::Known::past_gate))]
fn slots_counted(board: &[u16]) -> Answer
    ensures { Counts board.now result }
{
    Ok(u64::from(size_of(board)))
}

// Past the gate, with work words that are cleared: the late checks, and what the call does.
#[tactic(auto, unfolding(rules::specs::Known::past_gate))]
fn past_gate(request: &Request, board: &mut [u16], work: &mut [u16]) -> Answer
    ensures { said result board.new work.new ≡ past_gate (call_for request.now) board.old work.old }
{
    match request {
        Request::Open(n) => {
            put_opened(board, *n);
            Ok(0)
        }
        Request::Accept(order) => take_order(board, work, order),
        Request::Withdraw(key) => take_out(board, *key),
        Request::Start(key) => mark_started(board, *key),
        Request::Print => slots_counted(board),
    }
}

// What is known where a board of m slots was opened after one of n: of the work words of a larger board nothing was.
fn known_opened(known: Known, m: u16, n: u16, len: usize) -> Known
    ensures { known_of result ≡ known_opened (known_of known) m n len }
{
    let all = work_words(m);
    let few = if n < m { all } else { known.few.min(all) };
    Known {
        gate: work_gate(m, len),
        few,
    }
}

// What is known past the gate, after the answer: of any call but an opening, a sound board with enough work words.
fn known_past(known: Known, request: &Request, n: u16, a: Answer, len: usize) -> Known
    ensures { LearnsPast known request.now n a len result }
{
    match request {
        Request::Open(m) => known_opened(known, *m, n, len),
        Request::Accept(_) | Request::Withdraw(_) | Request::Start(_) | Request::Print => Known {
            gate: Ok(()),
            few: shown_by(a),
        },
    }
}

// Any call, by what is known, as `step` has it: the gate, the work words, then the call itself; and what is known after it.
#[tactic(auto, using(crate::proofs::Performing::gates), unfolding(rules::specs::Known::perform_known, rules::specs::Known::known_after))]
pub fn perform(request: &Request, board: &mut [u16], work: &mut [u16], known: &mut Known) -> Answer
    ensures { Performs request.now known.old board.old work.old result known.new board.new work.new }
{
    gate_for(request, board, *known)?;
    let n = size_of(board);
    zero_front(work, few_for(request, *known));
    let answer = past_gate(request, board, work);
    *known = known_past(*known, request, n, answer, work.len());
    answer
}

// A call that finds out first what is known.
#[tactic(auto, using(rules::proofs::Known::performs))]
fn call(request: &Request, board: &mut [u16], work: &mut [u16]) -> Answer
    ensures { said result board.new work.new ≡ step (call_for request.now) board.old work.old }
{
    let mut known = assess(board, work);
    perform(request, board, work, &mut known)
}

// It is lent no work words: the same two parts as `perform` has for it.
#[tactic(auto, using(crate::proofs::Performing::gates), unfolding(rules::specs::Calls::step))]
pub fn open_board(board: &mut [u16], n: u16) -> Answer
    ensures { Opens n board.old board.new result }
{
    open_gate(board, n)?;
    put_opened(board, n);
    Ok(0)
}

pub fn accept(board: &mut [u16], work: &mut [u16], order: Order) -> Answer
    ensures { said result board.new work.new ≡ step (accept_call (key_of order.key) order.count order.row) board.old work.old }
{
    call(&Request::Accept(order), board, work)
}

pub fn withdraw(board: &mut [u16], work: &mut [u16], key: Key) -> Answer
    ensures { said result board.new work.new ≡ step (withdraw_call (key_of key)) board.old work.old }
{
    call(&Request::Withdraw(key), board, work)
}

pub fn start(board: &mut [u16], work: &mut [u16], key: Key) -> Answer
    ensures { said result board.new work.new ≡ step (start_call (key_of key)) board.old work.old }
{
    call(&Request::Start(key), board, work)
}

// The board is lent for reading only, so that `perform`, which may write it, cannot be asked: its own parts for a print.
#[tactic(auto, using(crate::proofs::Performing::gates), unfolding(rules::specs::Known::perform_known))]
fn print_known(board: &[u16], work: &mut [u16], known: Known) -> Answer
    ensures { said result board.now work.new ≡ perform_known (known_of known) print_call board.now work.old }
{
    known.gate?;
    zero_front(work, known.few);
    slots_counted(board)
}

#[tactic(auto, using(rules::proofs::Known::performs))]
pub fn print(board: &[u16], work: &mut [u16]) -> Answer
    ensures { said result board.now work.new ≡ step print_call board.now work.old }
{
    let known = assess(board, work);
    print_known(board, work, known)
}
