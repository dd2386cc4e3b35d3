//! The rows that the items of a block say.

ghost use Rattle.std.specs.Prelude.{◌≡◌, ◌<◌, ◌≤◌, ◌↔◌, ◌++◌, ◌∷◌, ℕ, IfOk, IfSome, IsTrue, List, MatchOption};
ghost use Rattle.std.specs.Prelude.{false, length, drop, map, take, true, []};
ghost use Rattle.std.specs.List.{All, list_all};
ghost use Rattle.block_format.specs.Columns.{HasRows, IsWhole, lent_column};
ghost use Rattle.log_model.specs.Field.{is_filled, set_all};
ghost use Rattle.block_model.specs.Columns.{fields_at, names_in, row_of, rows_from};
ghost use Rattle.vl_row.specs.Names.{is_among};
ghost use Rattle.block_format.specs.Rows.{are_ordered, comes_before};
ghost use Rattle.block_format.specs.Reading.{are_said, has_spelling, in_order, is_named, is_numbered};
ghost use Rattle.block_format.specs.Reading.{is_row, is_since_1970, put_row, rows_said};

use crate::columns::NamedColumn;
use crate::columns_said::columns_said;
use crate::parts::Parts;
use crate::rules;
use crate::rules::MAX_ROWS;
use crate::values::set_value;
use block_column::FoundColumn;
use block_model::{Key, lend, lent_row};
use std::alloc::{AllocError, Global};
use vl_row::{Field, FieldList, Names, Numbered, Row, RowFault, Stream, Text};

/// The most fields of a row.
const MAX_FIELDS: usize = 1_000;

/// The rows in order, unless they are none or too many, or one breaks a rule of rows.
pub fn rows_said(alloc: Global, parts: &Parts) -> Result<Option<Vec<Numbered>>, AllocError>
    requires { All (HasRows (length parts.now.keys)) parts.now.columns }
    ensures { IfOk result (λ rows. MatchOption rows (has_spelling (rows_said parts.now) ≡ false)
        (λ rows. rows.items ≡ rows_said parts.now)) }
{
    let count = parts.keys.len();
    if count == 0 || count > MAX_ROWS || !are_said(parts) {
        return Ok(None);
    }
    let Some(labels) = labels_said(alloc, parts.labels.as_slice())? else {
        return Ok(None);
    };
    let columns = columns_said(alloc, parts.columns.as_slice(), count)?;
    match rows_found(alloc, &labels, parts.keys.as_slice(), columns.as_slice())? {
        Some(rows) => {
            let rows = in_order(alloc, rows)?;
            Ok(Some(rows))
        }
        None => Ok(None),
    }
}

/// The stream of the rows, if the labels have names and values, the times are not before 1970, the values have names,
/// and the labels can be those of a row.
pub fn stream_said(alloc: Global, parts: &Parts) -> Result<Option<Stream>, AllocError>
    ensures said { IfOk result (λ found. IfSome found (λ stream. are_said parts.now ≡ true)) }
    ensures labels { IfOk result (λ found. IfSome found (λ stream. stream ≡ set_all [] parts.now.labels)) }
{
    if !are_said(parts) {
        return Ok(None);
    }
    match labels_said(alloc, parts.labels.as_slice())? {
        Some(labels) => stream_of(alloc, labels),
        None => Ok(None),
    }
}

/// The stream of these labels, if a row can have them and no other fields.
fn stream_of(alloc: Global, labels: FieldList) -> Result<Option<Stream>, AllocError>
    ensures { IfOk result (λ found. IfSome found (λ stream. stream ≡ labels)) }
{
    if labels.is_empty() {
        return Ok(Some(Stream::new(alloc)));
    }
    let count = labels.len();
    let names = names_of(alloc, &labels)?;
    match Row::try_new(alloc, 0, names.as_slice(), labels) {
        Ok(row) => {
            if row.stream().len() < count {
                return Ok(None);
            }
            let stream = row.stream().try_copy(alloc)?;
            Ok(Some(stream))
        }
        Err((fault, _)) => match fault {
            RowFault::Memory => Err(AllocError),
            _ => Ok(None),
        },
    }
}

/// Whether the labels have names and values, the times are not before 1970, and the values have names.
fn are_said(parts: &Parts) -> bool
    ensures { result ≡ are_said parts.now }
{
    are_filled(parts.labels.as_slice())
        && are_since_1970(parts.keys.as_slice())
        && are_named(parts.columns.as_slice())
}

fn are_filled(labels: &[Field]) -> bool
    ensures { result ≡ list_all is_filled labels.now }
{
    labels.iter().all(|label| !label.name().is_empty() && !label.value().is_empty())
}

fn are_since_1970(keys: &[Key]) -> bool
    ensures { result ≡ list_all is_since_1970 keys.now }
{
    keys.iter().all(|key| key.time >= 0)
}

fn are_named(columns: &[NamedColumn]) -> bool
    ensures { result ≡ list_all is_named columns.now }
{
    columns.iter().all(is_named)
}

/// Whether the column has a name, or no value. A value that all rows share is looked at once.
fn is_named(column: &NamedColumn) -> bool
    ensures { result ≡ is_named column.now }
{
    if !column.name.as_str().is_empty() {
        return true;
    }
    if column.values.is_filled_with("") {
        return true;
    }
    for i in 0..column.values.len() {
        let missing = column.values.value(i).is_empty();
        if !missing {
            return false;
        }
    }
    true
}

/// The labels by their names, unless they are more than the fields of a row.
fn labels_said(alloc: Global, labels: &[Field]) -> Result<Option<FieldList>, AllocError>
    requires { list_all is_filled labels.now ≡ true }
    ensures { IfOk result (λ found. MatchOption found (1000 < length (set_all [] labels.now))
        (λ said. said ≡ set_all [] labels.now)) }
{
    let mut said = FieldList::with_room(alloc, labels.len().min(MAX_FIELDS))?;
    for label in labels {
        said.set(alloc, label.name(), label.value())?;
        if said.len() > MAX_FIELDS {
            return Ok(None);
        }
    }
    Ok(Some(said))
}

/// The row of each key, in the order of the keys, unless one breaks a rule of rows.
fn rows_found(
    alloc: Global,
    labels: &FieldList,
    keys: &[Key],
    columns: &[(&str, &FoundColumn)],
) -> Result<Option<Vec<Numbered>>, AllocError>
    requires keys { list_all is_since_1970 keys.now ≡ true }
    requires columns { All (IsWhole (length keys.now)) columns.now }
    ensures { IfOk result (λ rows. MatchOption rows
        (list_all is_numbered (rows_from labels.now (map lent_column columns.now) 0 keys.now) ≡ false)
        (λ rows. rows.items ≡ rows_from labels.now (map lent_column columns.now) 0 keys.now)) }
{
    let listed = names_of(alloc, labels)?;
    let names = Names::try_of(alloc, listed.as_slice())?;
    let mut rows = Vec::with_capacity(alloc, keys.len())?;
    for i in 0..keys.len() {
        let fields = fields_of(alloc, columns, keys.len(), i)?;
        match row_said(alloc, labels, &names, keys[i], fields)? {
            Some(row) => rows.push(row)?,
            None => return Ok(None),
        }
    }
    Ok(Some(rows))
}

fn names_of(alloc: Global, labels: &FieldList) -> Result<Vec<Text>, AllocError>
    ensures { IfOk result (λ names. names.items ≡ names_in labels.now) }
{
    let mut names = Vec::with_capacity(alloc, labels.len())?;
    for label in labels.as_slice() {
        names.push(Text::try_of(alloc, label.name())?)?;
    }
    Ok(names)
}

/// The fields of the row at this place.
fn fields_of(
    alloc: Global,
    columns: &[(&str, &FoundColumn)],
    rows: usize,
    i: usize,
) -> Result<FieldList, AllocError>
    requires columns { All (IsWhole rows) columns.now }
    requires within { i < rows }
    ensures { IfOk result (λ fields. fields ≡ fields_at (map lent_column columns.now) i) }
{
    let mut fields = FieldList::with_room(alloc, count_of(columns, rows, i))?;
    for (name, values) in columns {
        set_value(alloc, &mut fields, name, values.value(i))?;
    }
    Ok(fields)
}

/// How many values the row at this place has.
fn count_of(columns: &[(&str, &FoundColumn)], _rows: usize, i: usize) -> usize
    requires columns { All (IsWhole _rows) columns.now }
    requires within { i < _rows }
{
    let mut count = 0;
    for (_, values) in columns {
        if !values.value(i).is_empty() {
            count += 1;
        }
    }
    count
}

/// The row of this key with these labels and fields, unless it breaks a rule of rows.
fn row_said(
    alloc: Global,
    labels: &FieldList,
    names: &Names,
    key: Key,
    fields: FieldList,
) -> Result<Option<Numbered>, AllocError>
    requires names { (name : List ℕ) → is_among names.now name ≡ is_among (names_in labels.now) name }
    requires time { is_since_1970 key ≡ true }
    ensures { IfOk result (λ numbered. MatchOption numbered (is_row (row_of labels.now key fields).row ≡ false)
        (λ numbered. numbered ≡ row_of labels.now key fields)) }
{
    let count = fields.len();
    match Row::try_listed(alloc, key.time, names, fields) {
        Ok(row) => {
            if row.fields().len() == count && has_labels(row.stream(), labels) {
                Ok(Some(Numbered {
                    batch: key.batch,
                    place: key.place,
                    row,
                }))
            } else {
                Ok(None)
            }
        }
        Err((fault, _)) => match fault {
            RowFault::Memory => Err(AllocError),
            _ => Ok(None),
        },
    }
}

/// Whether these are the labels of the stream.
fn has_labels(stream: &Stream, labels: &FieldList) -> bool
    ensures { IsTrue result ↔ (stream.now ≡ labels.now) }
{
    are_same(stream.as_slice(), labels.as_slice())
}

fn are_same(labels: &[Field], others: &[Field]) -> bool
    ensures { IsTrue result ↔ (labels.now ≡ others.now) }
{
    let mut left = labels;
    let mut right = others;
    while let ([label, left_after @ ..], [other, right_after @ ..]) = (left, right) {
        if !label.is_same(other) {
            return false;
        }
        left = left_after;
        right = right_after;
    }
    left.is_empty() && right.is_empty()
}

/// The rows in order of time, batch and place.
fn in_order(alloc: Global, rows: Vec<Numbered>) -> Result<Vec<Numbered>, AllocError>
    ensures { IfOk result (λ sorted. sorted.items ≡ in_order rows.items) }
{
    let ordered = are_ordered(alloc, rows.as_slice())?;
    if ordered {
        return Ok(rows);
    }
    let mut sorted = Vec::with_capacity(alloc, rows.len())?;
    let mut rest = rows;
    while let Some(row) = rest.pop() {
        let i = place_of(sorted.as_slice(), &row);
        sorted.insert(i, row)?;
    }
    Ok(sorted)
}

fn are_ordered(alloc: Global, rows: &[Numbered]) -> Result<bool, AllocError>
    ensures { IfOk result (λ ordered. ordered ≡ are_ordered rows.now) }
{
    let lent = lend(alloc, rows)?;
    let ordered = rules::are_ordered(lent.as_slice());
    Ok(ordered)
}

fn comes_before(a: &Numbered, b: &Numbered) -> bool
    ensures { result ≡ comes_before a.now b.now }
{
    rules::comes_before(&lent_row(a), &lent_row(b))
}

/// Where the row has its place among rows in order: before the first that it comes before.
fn place_of(sorted: &[Numbered], row: &Numbered) -> usize
    ensures within { result ≤ length sorted.now }
    ensures place { put_row sorted.now row.now ≡ take result sorted.now ++ row.now ∷ drop result sorted.now }
{
    for i in 0..sorted.len() {
        if comes_before(row, &sorted[i]) {
            return i;
        }
    }
    sorted.len()
}
