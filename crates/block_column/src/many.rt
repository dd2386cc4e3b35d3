//! Values of which it is quickly seen that they are too many for a dictionary.

ghost use Rattle.std.specs.Prelude.{◌≡◌, ◌<◌, IfOk, IsTrue, length, map, not, slice_set, true};
ghost use Rattle.block_model.specs.Distinct.{distinct};
ghost use Rattle.block_model.specs.Tags.{has_slot, slot_of};

use crate::codes::MAX_VALUES;
use block_model::{SLOTS, slot_of};
use std::alloc::{AllocError, Global};

/// Only the first values are tested, up to this number.
const ASKED: usize = 1_024;

/// Whether more values than a dictionary has are seen to differ, as those do that have slots apart.
pub(crate) fn are_many(alloc: Global, values: &[&str]) -> Result<bool, AllocError>
    ensures { IfOk result (λ many. IsTrue many → 255 < length (distinct (map (λ t. t.now) values.now))) }
{
    if values.len() <= MAX_VALUES {
        return Ok(false);
    }
    let mut taken = vec![in alloc; false; SLOTS]?;
    let mut count = 0;
    for i in 0..values.len().min(ASKED) {
        count += takes_slot(&mut taken, values[i]) as usize;
        if count > MAX_VALUES {
            return Ok(true);
        }
    }
    Ok(false)
}

/// Takes the slot of a text, and says whether none had taken it.
fn takes_slot(taken: &mut Vec<bool>, text: &str) -> bool
    requires { length taken.old.items ≡ 512 }
    ensures len { length taken.new.items ≡ 512 }
    ensures free { result ≡ not (has_slot taken.old.items text.now) }
    ensures taken { taken.new.items ≡ slice_set taken.old.items (slot_of text.now) true }
    ensures below { slot_of text.now < 512 }
{
    let slot = slot_of(text);
    let free = !taken[slot];
    taken[slot] = true;
    free
}
