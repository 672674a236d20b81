// The look for an order that a call names.
ghost use Rattle.std.specs.Prelude.{◌≡◌, IfOk};
ghost use Rattle.rules.specs.Calls.{first, named_checks, slot_of};
ghost use Rattle.checking.specs.Named.{named_gate};
ghost use Rattle.words.specs.Carried.{key_of};

use crate::finding::find;
use answers::Refusal;
use orders::judge_key;
use words::{Key, count_word_at, is_marked, size_of};

// The slot of a held order, for a call that names it: a withdrawal or a start. The checks 16, 7, 13 and 14 turn the call down.
#[tactic(auto, using(rules::proofs::Finding::held_found))]
pub fn named_slot(board: &[u16], key: Key) -> Result<u16, Refusal>
    ensures gate { named_gate result ≡ first (named_checks (key_of key) board.now) }
    ensures slot { IfOk result (λ s. s ≡ slot_of (key_of key) board.now) }
{
    judge_key(key)?;
    let slot = find(board, size_of(board), key).ok_or(Refusal::NotHeld)?;
    if is_marked(count_word_at(board, slot)) {
        return Err(Refusal::Started);
    }
    Ok(slot)
}
