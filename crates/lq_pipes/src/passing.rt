//! The pipes that leave records as they are, over rows that are not records yet: `limit`, `offset` and `sort`.
ghost use Rattle.std.specs.Prelude.{◌≡◌, ◌<◌, [], IfOk, drop, length, map, slice_index_or};
ghost use Rattle.std.specs.List.{All};
ghost use Rattle.log_model.specs.Row.{record_of};
ghost use Rattle.lq_ast.specs.PipeView.{sorting, stage};
ghost use Rattle.lq_ast.specs.Sorting.{sorted};
ghost use Rattle.lq_pipes.specs.Passing.{Keeps, Passes};

use crate::needed::Needs;
use crate::project::records_of;
use crate::projector::Projector;
use lent_row::LentRow;
use lq_ast::{Pipe, SortPipe};
use lq_order::sorted_places_seeded;
use lq_tuple::HashSeed;
use std::alloc::{AllocError, Global};

/// Runs the first pipes, as long as they leave records as they are, over rows, with this seed of the tables of values.
/// The pipes after them are the result.
pub(crate) fn pass_rows<'p, R: LentRow + Copy + Drop>(
    alloc: Global,
    seed: HashSeed,
    pipes: &'p [Pipe],
    rows: &mut Vec<R>,
) -> Result<&'p [Pipe], AllocError>
    ensures { IfOk result (λ left. Passes (map stage pipes.entry.now) (map stage left.now)
        (map (λ row. record_of (R.event row)) rows.old.items) (map (λ row. record_of (R.event row)) rows.new.items)) }
{
    let mut left = pipes;
    while let [pipe, later @ ..] = left {
        if !pass(alloc, seed, pipe, rows)? {
            break;
        }
        left = later;
    }
    Ok(left)
}

/// Runs a pipe over rows, if it leaves records as they are. Whether it does is the result.
fn pass<R: LentRow + Copy + Drop>(
    alloc: Global,
    seed: HashSeed,
    pipe: &Pipe,
    rows: &mut Vec<R>,
) -> Result<bool, AllocError>
    ensures { IfOk result (Keeps (stage pipe.now) (map (λ row. record_of (R.event row)) rows.old.items)
        (map (λ row. record_of (R.event row)) rows.new.items)) }
{
    match pipe {
        Pipe::Limit(most) => rows.truncate(*most as usize),
        Pipe::Offset(first) => leave_out(*first, rows),
        Pipe::Sort(sort) => *rows = sorted_rows(alloc, seed, sort, rows.as_slice())?,
        _ => return Ok(false),
    }
    Ok(true)
}

/// Leaves out the first n rows.
fn leave_out<R: Copy + Drop>(first: u64, rows: &mut Vec<R>)
    ensures { rows.new.items ≡ drop first rows.old.items }
{
    let first = rows.len().min(first as usize);
    drop(rows.drain(..first));
}

/// Returns the rows whose records `sort` keeps, in its order. Records are made of its keys only.
fn sorted_rows<R: LentRow + Copy + Drop>(
    alloc: Global,
    seed: HashSeed,
    sort: &SortPipe,
    rows: &[R],
) -> Result<Vec<R>, AllocError>
    ensures { IfOk result (λ kept. map (λ row. record_of (R.event row)) kept.items
        ≡ sorted (sorting sort.now) (map (λ row. record_of (R.event row)) rows.now)) }
{
    let needs = Needs::of_sort(alloc, sort)?;
    let mut projector = Projector::new(alloc, &needs)?;
    let records = records_of(alloc, &mut projector, rows)?;
    let places = sorted_places_seeded(alloc, seed, sort, records.as_slice())?;
    rows_at(alloc, rows, places.as_slice())
}

/// Returns the rows at these places.
fn rows_at<R: LentRow + Copy + Drop>(
    alloc: Global,
    rows: &[R],
    places: &[usize],
) -> Result<Vec<R>, AllocError>
    requires { All (λ place. place < length rows.now) places.now }
    ensures { IfOk result (λ kept. map (λ row. record_of (R.event row)) kept.items
        ≡ map (λ place. slice_index_or (map (λ row. record_of (R.event row)) rows.now) place []) places.now) }
{
    let mut kept = Vec::with_capacity(alloc, places.len())?;
    for place in places {
        kept.push(rows[*place])?;
    }
    Ok(kept)
}
