//! The columns of rows.

ghost use Rattle.std.specs.Prelude.{◌≡◌, ◌≤◌, ◌*◌, IfOk, IfSome, IsTrue, OnOk, bytes_eq, length, map, sum_by, true};
ghost use Rattle.std.specs.BTreeSet.{keys};
ghost use Rattle.std.specs.List.{list_all};
ghost use Rattle.log_model.specs.Field.{field_value};
ghost use Rattle.block_model.specs.Columns.{names_in, names_of, put_names, values_of};
ghost use Rattle.block_model.specs.Texts.{is_text_field, is_text_row};

use crate::lent::NumberedRef;
use std::alloc::{AllocError, Global};
use std::collections::BTreeSet;
use vl_row::{Field, FieldList, Text};

/// The names of the fields that the rows have, each once, in byte order.
pub fn column_names(alloc: Global, rows: &[NumberedRef<'_>]) -> Result<Vec<Text>, AllocError>
    ensures names { IfOk result (λ names. names.items ≡ names_of rows.now) }
    ensures texts { IfOk result (λ names. list_all is_text_row rows.now ≡ true) }
{
    let names = name_set(alloc, rows)?;
    let texts = listed(alloc, &names)?;
    Ok(texts)
}

fn listed(alloc: Global, names: &BTreeSet<&str>) -> Result<Vec<Text>, AllocError>
    ensures { IfOk result (λ texts. texts.items ≡ map (λ t. t.now) (keys names.now)) }
{
    let mut texts = Vec::with_capacity(alloc, names.len())?;
    for name in names {
        texts.push(Text::try_of(alloc, name)?)?;
    }
    Ok(texts)
}

fn name_set<'a>(alloc: Global, rows: &[NumberedRef<'a>]) -> Result<BTreeSet<&'a str>, AllocError>
    ensures names { IfOk result (λ names. map (λ t. t.now) (keys names) ≡ names_of rows.now) }
    ensures texts { IfOk result (λ names. list_all is_text_row rows.now ≡ true) }
{
    let mut names = BTreeSet::new(alloc);
    let mut last: &[Field] = &[];
    for numbered in rows {
        let fields = fields_of(numbered);
        if have_same_names(fields, last) {
            continue;
        }
        put_names(&mut names, fields)?;
        last = fields;
    }
    Ok(names)
}

/// The fields of a row.
fn fields_of<'a>(numbered: &NumberedRef<'a>) -> &'a [Field]
    ensures { result.now ≡ numbered.now.row.fields }
{
    let row = numbered.row;
    row.fields().as_slice()
}

/// Whether fields have the names of the others, one after another. Then they are in UTF-8.
fn have_same_names(fields: &[Field], others: &[Field]) -> bool
    ensures names { IsTrue result → names_in fields.now ≡ names_in others.now }
    ensures texts { IsTrue result → list_all is_text_field fields.now ≡ true }
{
    if fields.len() != others.len() {
        return false;
    }
    for i in 0..fields.len() {
        if !is_named_as(&fields[i], &others[i]) {
            return false;
        }
    }
    true
}

/// Whether the field has the name of the other. It is in UTF-8.
fn is_named_as(field: &Field, other: &Field) -> bool
    ensures name { result ≡ bytes_eq field.now.0 other.now.0 }
    ensures text { is_text_field field.now ≡ true }
{
    name_of(field) == other.name()
}

/// Puts the names of some fields to the others.
fn put_names<'a>(names: &mut BTreeSet<&'a str>, fields: &'a [Field]) -> Result<(), AllocError>
    ensures names { OnOk result (map (λ t. t.now) (keys names.new)
        ≡ put_names (map (λ t. t.now) (keys names.old)) fields.now) }
    ensures texts { OnOk result (list_all is_text_field fields.now ≡ true) }
{
    for field in fields {
        names.insert(name_of(field))?;
    }
    Ok(())
}

/// The name of a field. It and the value are in UTF-8.
fn name_of(field: &Field) -> &str
    ensures name { result.now ≡ field.now.0 }
    ensures text { is_text_field field.now ≡ true }
{
    let _ = field.value.as_str();
    field.name.as_str()
}

/// The values of the fields of this name, empty where a row has none.
pub fn column_values<'a>(
    alloc: Global,
    rows: &[NumberedRef<'a>],
    name: &str,
) -> Result<Vec<&'a str>, AllocError>
    ensures values { IfOk result (λ values. map (λ t. t.now) values.items ≡ values_of rows.now name.now) }
    ensures size { IfOk result (λ values. sum_by (λ t. length t.now) values.items ≤ 262_144 * length rows.now) }
{
    let mut values = Vec::with_capacity(alloc, rows.len())?;
    let mut place = 0;
    for numbered in rows {
        values.push(value_near(numbered, name, &mut place))?;
    }
    Ok(values)
}

/// Returns the value of the field of this name, empty where there is none. It is sought at this place first, which then
/// becomes the one of the field.
pub fn value_near<'a>(numbered: &NumberedRef<'a>, name: &str, place: &mut usize) -> &'a str
    ensures value { result.now ≡ field_value numbered.now.row.fields name.now }
    ensures size { length result.now ≤ 262_144 }
{
    let row = numbered.row;
    let fields = row.fields();
    match value_at(fields, *place, name) {
        Some(value) => value,
        None => value_sought(fields, name, place),
    }
}

/// The value of the field of this name, if that field is at this place.
fn value_at<'a>(fields: &'a FieldList, i: usize, name: &str) -> Option<&'a str>
    ensures { IfSome result (λ value. value.now ≡ field_value fields.now name.now) }
{
    let all = fields.as_slice();
    if i >= all.len() {
        return None;
    }
    let field = &all[i];
    if !is_named(field, name) {
        return None;
    }
    Some(field.value())
}

fn is_named(field: &Field, name: &str) -> bool
    ensures { result ≡ bytes_eq name.now field.now.0 }
{
    name == field.name()
}

/// The value of the field of this name, and the place of that field.
fn value_sought<'a>(fields: &'a FieldList, name: &str, place: &mut usize) -> &'a str
    ensures { result.now ≡ field_value fields.now name.now }
{
    match fields.place_of(name) {
        Ok(found) => {
            *place = found;
            fields.at(found).value()
        }
        Err(_) => "",
    }
}
