//! The order of the rows of a part.

ghost use Rattle.std.specs.Prelude.{◌≡◌, IfOk, bytes_eq};
ghost use Rattle.std.specs.List.Sorted.{IsPermutation, IsSorted};
ghost use Rattle.log_model.specs.Field.{bytes_cmp};
ghost use Rattle.part_model.specs.Order.{is_earlier, key_cmp, label_cmp, labels_cmp, row_cmp};

use block_model::NumberedRef;
use std::alloc::AllocError;
use std::cmp::Ordering;
use vl_row::Field;

/// The rows in order: by the labels of their streams, and then by time, batch and place.
pub fn sorted(mut rows: Vec<NumberedRef<'_>>) -> Result<Vec<NumberedRef<'_>>, AllocError>
    ensures same { IfOk result (λ sorted. IsPermutation rows.entry.items sorted.items) }
    ensures sorted { IfOk result (λ sorted. IsSorted row_cmp sorted.items) }
{
    rows.sort_by(|a, b| row_cmp(a, b))?;
    Ok(rows)
}

/// Whether the row comes before the other.
pub fn is_earlier(a: &NumberedRef<'_>, b: &NumberedRef<'_>) -> bool
    ensures { result ≡ is_earlier a.now b.now }
{
    row_cmp(a, b).is_lt()
}

fn row_cmp(a: &NumberedRef<'_>, b: &NumberedRef<'_>) -> Ordering
    ensures { result ≡ row_cmp a.now b.now }
{
    let labels = a.row.stream().as_slice();
    match labels_cmp(labels, b.row.stream().as_slice()) {
        Ordering::Less => Ordering::Less,
        Ordering::Equal => key_cmp(a, b),
        Ordering::Greater => Ordering::Greater,
    }
}

fn key_cmp(a: &NumberedRef<'_>, b: &NumberedRef<'_>) -> Ordering
    ensures { result ≡ key_cmp a.now b.now }
{
    let times = a.row.time().cmp(&b.row.time());
    let batches = a.batch.cmp(&b.batch);
    times.then(batches).then(a.place.cmp(&b.place))
}

/// The order of streams by their labels: label by label. Where one list begins the other, it comes first.
pub fn labels_cmp(labels: &[Field], others: &[Field]) -> Ordering
    ensures { result ≡ labels_cmp labels.now others.now }
{
    for i in 0..labels.len().min(others.len()) {
        match label_cmp(&labels[i], &others[i]) {
            Ordering::Less => return Ordering::Less,
            Ordering::Equal => {}
            Ordering::Greater => return Ordering::Greater,
        }
    }
    labels.len().cmp(&others.len())
}

/// By the name, and then by the value. Names are mostly the same, which is seen faster than their order.
fn label_cmp(label: &Field, other: &Field) -> Ordering
    ensures { result ≡ label_cmp label.now other.now }
{
    if have_same_name(label, other) {
        return value_cmp(label, other);
    }
    label.name().cmp(other.name()).then(value_cmp(label, other))
}

fn have_same_name(label: &Field, other: &Field) -> bool
    ensures { result ≡ bytes_eq label.now.0 other.now.0 }
{
    label.name() == other.name()
}

fn value_cmp(label: &Field, other: &Field) -> Ordering
    ensures { result ≡ bytes_cmp label.now.1 other.now.1 }
{
    label.value().cmp(other.value())
}
