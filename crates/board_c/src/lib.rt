// The board for programs in C: numbers and slices only. The benchmark links it.
#![tactic(auto)]

ghost use Rattle.std.specs.Prelude.{◌≡◌};
ghost use Rattle.matching.specs.Lists.{indicator};
ghost use Rattle.rules.specs.Check.{passes};
ghost use Rattle.board_c.specs.Exported.{Accepts};

use board::{Key, Order, Rejection};

// 1 if the board passes the check, else 0.
#[unsafe(no_mangle)]
pub extern "C" fn slotboard_check(board: &[u16]) -> u8
    ensures { result ≡ indicator (passes board.now) }
{
    u8::from(board::check(board))
}

// The count of blocked slots where the order is refused by 12, and 0 otherwise. The order's slots are two.
#[unsafe(no_mangle)]
pub extern "C" fn slotboard_accept_two(
    board: &mut [u16],
    work: &mut [u16],
    code: u16,
    number: u16,
    first: u16,
    second: u16,
) -> u16
    ensures { Accepts (record { code = code; number = number }) first second board.old work.old result board.new work.new }
{
    let order = Order::new(Key { code, number }, 2, [first, second, 0, 0, 0, 0, 0, 0]);
    match board::accept(board, work, order) {
        Err(Rejection::Blocked(slots)) => slots,
        Ok(_) | Err(Rejection::Refused(_)) | Err(Rejection::Undecided) => 0,
    }
}
