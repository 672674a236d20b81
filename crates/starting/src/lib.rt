// A start that no early check turned down, of any words: its late checks, the mark on the order's count word.
#![tactic(auto)]

ghost use Rattle.std.specs.Prelude.{◌≡◌};
ghost use Rattle.starting.specs.Starts.{Starts};

use answers::Answer;
use checking::named_slot;
use storing::put_count_word;
use words::{Key, STARTED_MARK, count_word_at};

// The order is started from now on, or the start is turned down. Its list and all labels stay, and no work word is looked at.
#[tactic(auto, using(crate::proofs::Gate::starts))]
pub fn mark_started(board: &mut [u16], key: Key) -> Answer
    ensures { Starts key board.old result board.new }
{
    let slot = named_slot(board, key)?;
    let count_word = count_word_at(board, slot);
    put_count_word(board, slot, count_word + STARTED_MARK);
    Ok(0)
}
