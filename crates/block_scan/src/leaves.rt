//! What a filter asks of a row itself: its time, its stream, and the values of its fields.

ghost use Rattle.std.specs.Prelude.{◌≡◌, OnOk, length, pos};
ghost use Rattle.log_model.specs.Row.{Row as Event, value_of};
ghost use Rattle.lq_ast.specs.Holds.{is_recent, is_within, selects};
ghost use Rattle.lq_filter.specs.Labels.{groups_of};
ghost use Rattle.lq_filter.specs.Value.{field_holds, field_name};
ghost use Rattle.block_scan.specs.Marks.{kept};

use crate::ends::{Ends, keep_times};
use crate::marks::settle;
use crate::rows_at::RowsAt;
use crate::values::keep_values;
use column_block::Open;
use lq_filter::{Asking, Computed, FieldTest, Selector};
use std::alloc::AllocError;

/// Keeps the marks of the rows whose value of the field is as asked.
pub(crate) fn keep_field<'p>(
    field: &'p FieldTest,
    asking: &mut Asking<'p>,
    rows: &Open<'_>,
    marks: &mut [bool],
) -> Result<(), AllocError>
    requires { length marks.old ≡ length rows.now }
    ensures { OnOk result (marks.new ≡ kept
        (λ numbered. field_holds field.now (value_of numbered.row (field_name field.now))) rows.now marks.old) }
{
    match field.computed() {
        None => keep_values(field, asking, rows.values(field.name()), marks),
        Some(Computed::Time) => keep_each(field, asking, rows, marks),
        Some(Computed::Stream) => keep_of_stream(field, asking, rows, marks),
        Some(Computed::StreamId) => keep_of_stream(field, asking, rows, marks),
    }
}

/// Asks one row after another.
fn keep_each<'p>(
    field: &'p FieldTest,
    asking: &mut Asking<'p>,
    rows: &Open<'_>,
    marks: &mut [bool],
) -> Result<(), AllocError>
    requires { length marks.old ≡ length rows.now }
    ensures { OnOk result (marks.new ≡ kept
        (λ numbered. field_holds field.now (value_of numbered.row (field_name field.now))) rows.now marks.old) }
{
    for i in 0..marks.len() {
        if marks[i] {
            marks[i] = field.holds_of_row(asking, &rows.lent(i))?;
        }
    }
    Ok(())
}

/// Asks the first row, where rows of one stream have the same value.
fn keep_of_stream<'p>(
    field: &'p FieldTest,
    asking: &mut Asking<'p>,
    rows: &Open<'_>,
    marks: &mut [bool],
) -> Result<(), AllocError>
    requires rows { length marks.old ≡ length rows.now }
    requires alike { (a b : Event) → a.labels ≡ b.labels
        → value_of a (field_name field.now) ≡ value_of b (field_name field.now) }
    ensures { OnOk result (marks.new ≡ kept
        (λ numbered. field_holds field.now (value_of numbered.row (field_name field.now))) rows.now marks.old) }
{
    let count = rows.len();
    if count == 0 {
        return Ok(());
    }
    let _stream = rows.stream();
    let stay = field.holds_of_row(asking, &rows.lent(0))?;
    settle(marks, stay);
    Ok(())
}

/// Keeps the marks of the rows of the last `span` nanoseconds.
pub(crate) fn keep_recent(span: i64, at: &RowsAt<'_, '_>, marks: &mut [bool])
    requires { length marks.old ≡ length at.now.rows.now }
    ensures { marks.new
        ≡ kept (λ numbered. is_recent at.now.moment span (pos numbered.row.moment)) at.now.rows.now marks.old }
{
    let ends = Ends::recent(at.moment, span);
    keep_during(&ends, at.rows, marks);
}

/// Keeps the marks of the rows whose times are between the ends, both included.
pub(crate) fn keep_between(from: i128, to: i128, at: &RowsAt<'_, '_>, marks: &mut [bool])
    requires { length marks.old ≡ length at.now.rows.now }
    ensures { marks.new
        ≡ kept (λ numbered. is_within from to (pos numbered.row.moment)) at.now.rows.now marks.old }
{
    let ends = Ends {
        low: from,
        high: to,
    };
    keep_during(&ends, at.rows, marks);
}

/// The same, for ends that are lent.
fn keep_during(ends: &Ends, rows: &Open<'_>, marks: &mut [bool])
    requires { length marks.old ≡ length rows.now }
    ensures { marks.new
        ≡ kept (λ numbered. is_within ends.now.low ends.now.high (pos numbered.row.moment)) rows.now marks.old }
{
    keep_times(rows.times(), ends, marks);
}

/// Keeps the marks of all rows if their stream is selected, and else of none.
pub(crate) fn keep_selected<'p>(
    selector: &'p Selector,
    asking: &mut Asking<'p>,
    rows: &Open<'_>,
    marks: &mut [bool],
) -> Result<(), AllocError>
    requires { length marks.old ≡ length rows.now }
    ensures { OnOk result (marks.new
        ≡ kept (λ numbered. selects (groups_of selector.now) numbered.row.labels) rows.now marks.old) }
{
    let stay = selector.selects(asking, rows.stream())?;
    settle(marks, stay);
    Ok(())
}
