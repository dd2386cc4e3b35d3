//! The labels of a stream among the columns.

ghost use Rattle.std.specs.Prelude.{◌≡◌, ◌<◌, IfSome, IsTrue, bytes_eq, length, true};
ghost use Rattle.std.specs.List.{list_all};
ghost use Rattle.block_reading.specs.ByColumns.{has_label, is_label};

use block_format::NamedColumn;
use vl_row::Field;

/// Whether each label is the value of a column in each row. Both stand in the order of their names.
pub(crate) fn have_labels(columns: &[NamedColumn], labels: &[Field]) -> bool
    ensures { IsTrue result → list_all (has_label columns.now) labels.now ≡ true }
{
    let mut from = 0;
    for label in labels {
        let Some(place) = place_of(columns, from, label) else {
            return false;
        };
        from = place + 1;
    }
    true
}

/// The place of the label's column, which is sought from this place on.
fn place_of(columns: &[NamedColumn], from: usize, label: &Field) -> Option<usize>
    ensures label { IfSome result (λ place. has_label columns.now label.now ≡ true) }
    ensures below { IfSome result (λ place. place < length columns.now) }
{
    for i in from..columns.len() {
        if is_label(&columns[i], label) {
            return Some(i);
        }
    }
    None
}

/// Whether the column has the name of the label, and its value in each row.
fn is_label(column: &NamedColumn, label: &Field) -> bool
    ensures { IsTrue result → is_label label.now column.now ≡ true }
{
    if !is_named(column, label) {
        return false;
    }
    column.values.is_filled_with(label.value())
}

fn is_named(column: &NamedColumn, label: &Field) -> bool
    ensures { result ≡ bytes_eq label.now.0 column.now.0 }
{
    label.name() == column.name.as_str()
}
