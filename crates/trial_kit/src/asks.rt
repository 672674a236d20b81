// Calls as requests.
ghost use Rattle.std.specs.Prelude.{◌≡◌};
ghost use Rattle.rules.specs.Calls.{step};
ghost use Rattle.answers.specs.Numbers.{said};
ghost use Rattle.board.specs.Requests.{call_for};

use board::{Answer, Request, accept, open_board, print, start, withdraw};

// The call that is requested, by itself; an opening is lent no work words.
pub fn ask(request: &Request, board: &mut [u16], work: &mut [u16]) -> Answer
    ensures { said result board.new work.new ≡ step (call_for request.now) board.old work.old }
{
    match request {
        Request::Open(n) => open_board(board, *n),
        Request::Accept(order) => accept(board, work, *order),
        Request::Withdraw(key) => withdraw(board, work, *key),
        Request::Start(key) => start(board, work, *key),
        Request::Print => print(board, work),
    }
}
