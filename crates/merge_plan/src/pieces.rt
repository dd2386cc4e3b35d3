//! Pieces: what one batch has of a day.
ghost use Rattle.std.specs.Prelude.{◌≡◌, ◌++◌, IfOk, OnOk, map};
ghost use Rattle.std.specs.Arc.{arc_value};
ghost use Rattle.part_store.specs.State.{day_part_of};
ghost use Rattle.day_model.specs.Days.{DayRows};
ghost use Rattle.merge_plan.specs.Grouping.{ArePieces, AreRising};
ghost use Rattle.std.specs.Prelude.{List, [], ◌∷◌};

use day_parts::split_days;
use part_file::Part;
use std::alloc::{AllocError, Global};
use std::sync::Arc;

/// Returns the pieces of all batches in order of their days. Those of a day stay in the order of their batches.
pub(crate) fn pieces_by_day(
    alloc: Global,
    batches: &[Arc<Part>],
) -> Result<Vec<(u32, Arc<Part>)>, AllocError>
    ensures pieces { IfOk result (λ pieces. ArePieces (map arc_value batches.now) (map day_part_of pieces.items)) }
    ensures rising { IfOk result (λ pieces. AreRising (map day_part_of pieces.items)) }
{
    let mut pieces = pieces_of(alloc, batches)?;
    pieces.sort_by_key(|piece| piece.0)?;
    Ok(pieces)
}

/// Returns the pieces of one batch after those of another.
fn pieces_of(alloc: Global, batches: &[Arc<Part>]) -> Result<Vec<(u32, Arc<Part>)>, AllocError>
    ensures { IfOk result (λ pieces. ArePieces (map arc_value batches.now) (map day_part_of pieces.items)) }
{
    let mut pieces = Vec::new(alloc);
    for batch in batches {
        push_pieces(alloc, &mut pieces, batch)?;
    }
    Ok(pieces)
}

/// Appends the pieces of one batch.
fn push_pieces(
    alloc: Global,
    pieces: &mut Vec<(u32, Arc<Part>)>,
    batch: &Part,
) -> Result<(), AllocError>
    ensures { OnOk result ((added : List DayRows)
        × (map day_part_of pieces.new.items ≡ map day_part_of pieces.old.items ++ added)
        × ArePieces (batch.now ∷ []) added) }
{
    for day in split_days(alloc, batch)? {
        day.part.rules();
        pieces.push((day.day, Arc::new(alloc, day.part)?))?;
    }
    Ok(())
}
