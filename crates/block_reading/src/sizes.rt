//! The number of the fields of rows, and how many bytes they have.

ghost use Rattle.std.specs.Prelude.{◌≡◌, ◌≤◌, ◌*◌, ◌||◌, IfOk, IfSome, IsTrue, length, sum_by, true};
ghost use Rattle.std.specs.List.{All, AllByRecursion, list_all, list_any};
ghost use Rattle.std.specs.Str.{is_utf8};
ghost use Rattle.block_format.specs.Columns.{HasRows};
ghost use Rattle.block_reading.specs.ByColumns.{AreGrown, AreGrownBy, AreLight, AreNumbersFit, AreWithin, IsFilled};
ghost use Rattle.block_reading.specs.ByColumns.{IsWithin, bytes_from, bytes_in, has_text, larger};

use block_column::{FoundColumn, text_len};
use block_format::NamedColumn;
use std::alloc::{AllocError, Global};

/// The most bytes of the fields of a row.
const MAX_WEIGHT: usize = 262_144;

/// The most fields of a row.
const MAX_FIELDS: u32 = 1_000;

/// How many fields a row has, and how many bytes.
#[derive(Clone, Copy, Drop)]
struct RowSize {
    fields: u32,
    weight: u32,
}

/// The bytes of the fields of all rows, if each column has some value, and each row has fields, and neither too many
/// nor too many bytes.
pub(crate) fn weight_of(
    alloc: Global,
    columns: &[NamedColumn],
    rows: usize,
) -> Result<Option<u64>, AllocError>
    requires few { rows ≤ 4096 }
    requires rows { All (HasRows rows) columns.now }
    ensures weight { IfOk result (λ found. IfSome found (λ weight. weight ≡ bytes_from columns.now 0 rows)) }
    ensures filled { IfOk result (λ found. IfSome found (λ weight. AllByRecursion IsFilled columns.now)) }
    ensures light { IfOk result (λ found. IfSome found (λ weight. AreLight rows columns.now)) }
{
    let mut sizes = vec![in alloc; RowSize {
        fields: 0,
        weight: 0
    }; rows]?;
    let slots = sizes.as_mut_slice();
    for column in columns {
        if !grow_by(slots, column) {
            return Ok(None);
        }
    }
    if !are_light(slots) {
        return Ok(None);
    }
    let weight = bytes_in(slots);
    Ok(Some(weight))
}

/// Adds the fields of a column to the sizes of the rows, if some value is not empty, and no row has too many bytes
/// then.
fn grow_by(sizes: &mut [RowSize], column: &NamedColumn) -> bool
    requires few { length sizes.old ≤ 4096 }
    requires rows { length column.now.1 ≡ length sizes.old }
    requires within { AreWithin sizes.old }
    ensures filled { IsTrue result → IsFilled column.now }
    ensures grown { IsTrue result → AreGrown column.now sizes.old sizes.new }
    ensures within { IsTrue result → AreWithin sizes.new }
{
    grow(sizes, column.name.as_str().len(), &column.values)
}

/// The same, of the values under a name of this length. No text is made to see how long it is.
fn grow(sizes: &mut [RowSize], name: usize, values: &FoundColumn) -> bool
    requires rows { length values.now ≡ length sizes.old }
    requires within { AreWithin sizes.old }
    ensures some { IsTrue result → list_any has_text values.now ≡ true }
    ensures texts { IsTrue result → list_all is_utf8 values.now ≡ true }
    ensures small { IsTrue result → sum_by length values.now ≤ 262_144 * length sizes.old }
    ensures grown { IsTrue result → AreGrownBy name values.now sizes.old sizes.new }
    ensures within { IsTrue result → AreWithin sizes.new }
{
    let mut some = false;
    for i in 0..sizes.len() {
        let len = text_len(values.value(i));
        let Some(size) = larger(sizes[i], name, len) else {
            return false;
        };
        sizes[i] = size;
        some = either(some, len > 0);
    }
    some
}

fn either(one: bool, other: bool) -> bool
    ensures { result ≡ (one || other) }
{
    one || other
}

/// The size with a field more, if its value is not empty, unless that is too large.
fn larger(size: RowSize, name: usize, value: usize) -> Option<RowSize>
    requires { IsWithin size }
    ensures size { IfSome result (λ more. more ≡ larger name size value) }
    ensures within { IfSome result IsWithin }
    ensures short { IfSome result (λ more. value ≤ 262_144) }
{
    if value < 1 {
        return Some(size);
    }
    let weight = size.weight as usize;
    if name > MAX_WEIGHT - weight || value > MAX_WEIGHT - weight - name {
        return None;
    }
    Some(RowSize {
        fields: size.fields + 1,
        weight: (weight + (name + value)) as u32,
    })
}

/// Whether each row has a field, and not too many.
fn are_light(sizes: &[RowSize]) -> bool
    ensures { IsTrue result → AreNumbersFit sizes.now }
{
    for size in sizes {
        if size.fields < 1 || size.fields > MAX_FIELDS {
            return false;
        }
    }
    true
}

/// The bytes of the fields of all rows.
fn bytes_in(sizes: &[RowSize]) -> u64
    requires few { length sizes.now ≤ 4096 }
    requires within { AreWithin sizes.now }
    ensures { result ≡ bytes_in sizes.now }
{
    let mut bytes = 0;
    for size in sizes {
        bytes += size.weight as u64;
    }
    bytes
}
