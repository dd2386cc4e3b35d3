//! Rows that become records a piece at a time.
ghost use Rattle.std.specs.Prelude.{◌≡◌, IfOk, map};
ghost use Rattle.log_model.specs.Row.{record_of};
ghost use Rattle.lq_pipes.specs.Needs.{narrowed};
ghost use Rattle.lq_pipes.specs.Projector.{projected};
ghost use Rattle.lq_pipes.specs.RowRecords.{MakesNext, records_left};

use crate::needed::Needs;
use crate::projector::Projector;
use crate::row_records::RowRecords;
use lent_row::LentRow;
use std::alloc::{AllocError, Global};
use vl_row::Recs;

/// How many rows become records at a time.
const PIECE: usize = 256;

impl<'r, R: LentRow> RowRecords<'r, R> {
    pub(crate) fn new(
        alloc: Global,
        needs: &'r Needs,
        rows: &'r [R],
    ) -> Result<RowRecords<'r, R>, AllocError>
        ensures { IfOk result (λ made. records_left R.event made
            ≡ map (narrowed needs.entry.now) (map (λ row. record_of (R.event row)) rows.entry.now)) }
    {
        let projector = Projector::new(alloc, needs)?;
        Ok(RowRecords {
            projector,
            rows,
            made: 0,
        })
    }

    /// Returns the next records, if any are left.
    pub(crate) fn next(&mut self, alloc: Global) -> Result<Option<Recs>, AllocError>
        ensures { IfOk result (MakesNext R.event self.old self.new) }
    {
        let left = &self.rows[self.made..];
        if left.is_empty() {
            return Ok(None);
        }
        let piece = &left[..left.len().min(PIECE)];
        let records = records_of(alloc, &mut self.projector, piece)?;
        self.made += piece.len();
        Ok(Some(records))
    }

    /// All records that are left.
    pub(crate) fn rest(mut self, alloc: Global) -> Result<Recs, AllocError>
        ensures { IfOk result (λ records. records ≡ records_left R.event self.entry) }
    {
        let left = &self.rows[self.made..];
        records_of(alloc, &mut self.projector, left)
    }
}

/// Returns the records of these rows, of only the fields that matter.
pub(crate) fn records_of<R: LentRow>(
    alloc: Global,
    projector: &mut Projector<'_>,
    rows: &[R],
) -> Result<Recs, AllocError>
    ensures made { IfOk result (λ records. records
        ≡ map (narrowed (projected projector.old)) (map (λ row. record_of (R.event row)) rows.now)) }
    ensures same { projected projector.new ≡ projected projector.old }
{
    let mut records = Vec::with_capacity(alloc, rows.len())?;
    for row in rows {
        records.push(projector.record(alloc, row)?)?;
    }
    Ok(Recs::of(records))
}
