// A plain breadth-first matcher over the board as it stands before the call: from the order that is tried to those that have
// the slots of its list, to the slots of theirs, and so on; a started order stays where it is. Of labels it knows nothing.
use std::alloc::{AllocError, Global};
use trial_kit::slot_at;
use words::Order;

// A place for each slot, and one for 0. Written out, and not the library's own.
const PLACES: usize = 1025;

#[derive(Drop)]
struct Matcher {
    // For each slot whether it was reached.
    reached: [bool; PLACES],
    // The slots that were reached, in turn.
    queue: Vec<u16>,
}

impl Matcher {
    // What a row has behind its list is 0, and counts as reached.
    fn new(alloc: Global) -> Matcher {
        let mut reached = [false; PLACES];
        reached[0] = true;
        Matcher {
            reached,
            queue: Vec::new(alloc),
        }
    }

    // The slots of a row that were not reached before go to the end of the queue.
    fn visit(&mut self, row: &[u16]) -> Result<(), AllocError> {
        for &s in row {
            let place = usize::from(s);
            if place < PLACES && !self.reached[place] {
                self.reached[place] = true;
                self.queue.push(s)?;
            }
        }
        Ok(())
    }
}

// The slots that the order reaches, rising, or None where one of them is free.
pub fn blocked_slots(
    alloc: Global,
    board: &[u16],
    order: &Order,
) -> Result<Option<Vec<u16>>, AllocError> {
    let mut matcher = Matcher::new(alloc);
    matcher.visit(&order.row)?;
    // By an index, as the queue grows meanwhile, and up to an end, as no slot is queued twice. `while let` counts by hand, and was not proved to end
    // without a proof of its own, by how many slots are not reached yet.
    for head in 0..PLACES {
        let Some(&s) = matcher.queue.get(head) else {
            break;
        };
        let Some(held) = slot_at(board, s).order else {
            return Ok(None);
        };
        if held.fixed == 0 {
            matcher.visit(&held.row)?;
        }
    }
    let mut slots = matcher.queue;
    slots.sort()?;
    Ok(Some(slots))
}
