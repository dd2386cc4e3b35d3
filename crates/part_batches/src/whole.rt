//! Whether parts hold whole batches.
ghost use Rattle.std.specs.Prelude.{◌↔◌, IfOk, IsTrue, map};
ghost use Rattle.std.specs.Arc.{arc_value};
ghost use Rattle.part_batches.specs.Whole.{HoldBatches};

use crate::numbers::{are_counted, numbers_of, rows_of};
use part_file::Part;
use std::alloc::{AllocError, Global};
use std::sync::Arc;

/// Returns whether together the parts hold the rows of exactly `front` batches: batches 1 to `front`, each with places
/// from 0 without a gap.
///
/// Time and memory grow with the number of rows only.
pub fn are_batches(alloc: Global, parts: &[Arc<Part>], front: u64) -> Result<bool, AllocError>
    ensures { IfOk result (λ are. IsTrue are ↔ HoldBatches front (map arc_value parts.now)) }
{
    let rows = rows_of(parts);
    if rows < front {
        return Ok(false);
    }
    let mut numbers = numbers_of(alloc, parts, rows)?;
    numbers.sort()?;
    Ok(are_counted(&numbers, front))
}
