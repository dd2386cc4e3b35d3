//! Taking rows from the front of picks.

ghost use Rattle.std.specs.Prelude.{◌≡◌, ◌≤◌, IfOk, OnOk, drop, length, take};
ghost use Rattle.part_model.specs.Filling.{rows_in_blocks};

use crate::pick::Pick;
use std::alloc::{AllocError, Global};
use std::collections::VecDeque;

/// The same picks, to be taken from the front.
pub(crate) fn queued<'a>(
    alloc: Global,
    picks: &[Pick<'a>],
) -> Result<VecDeque<Pick<'a>>, AllocError>
    ensures { IfOk result (λ queue. queue.items ≡ picks.now) }
{
    let mut queue = VecDeque::new(alloc);
    for pick in picks {
        queue.push_back(pick.copied())?;
    }
    Ok(queue)
}

/// Takes the first of the rows, this many.
pub(crate) fn take_rows<'a>(
    alloc: Global,
    queue: &mut VecDeque<Pick<'a>>,
    count: usize,
) -> Result<Vec<Pick<'a>>, AllocError>
    requires { count ≤ length (rows_in_blocks queue.old.items) }
    ensures taken { IfOk result (λ picks. rows_in_blocks picks.items ≡ take count (rows_in_blocks queue.old.items)) }
    ensures left { OnOk result (rows_in_blocks queue.new.items ≡ drop count (rows_in_blocks queue.old.items)) }
{
    let mut picks = Vec::new(alloc);
    let mut left = count;
    while left > 0 {
        let Some(pick) = queue.pop_front() else {
            unreachable!()
        };
        let rows = pick.len();
        if rows <= left {
            left -= rows;
            picks.push(pick)?;
        } else {
            queue.push_front(pick.rest(left))?;
            picks.push(pick.front(left))?;
            left = 0;
        }
    }
    Ok(picks)
}
