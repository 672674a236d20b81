// A withdrawal that no early check turned down, of any words: its late checks, its slot zeroed, the labels of the held slots.
#![tactic(auto)]

ghost use Rattle.std.specs.Prelude.{◌≡◌};
ghost use Rattle.withdrawing.specs.TakesOut.{TakesOut};

use answers::Answer;
use checking::named_slot;
use relabelling::relabel_all;
use storing::{put_free, put_held};
use words::{Key, held_of, size_of};

// The order goes, or the withdrawal is turned down. No work word is looked at. A function of its own: with its loops beside it the search takes 8 in 100 longer.
#[inline(never)]
#[tactic(auto, using(crate::proofs::Gate::takes))]
pub fn take_out(board: &mut [u16], key: Key) -> Answer
    ensures { TakesOut key board.old result board.new }
{
    let slot = named_slot(board, key)?;
    let n = size_of(board);
    let held = held_of(board);
    put_free(board, slot);
    relabel_all(board, n);
    put_held(board, held.saturating_sub(1));
    Ok(0)
}
