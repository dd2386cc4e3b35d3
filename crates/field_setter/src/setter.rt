//! Fields that come in any order.
ghost use Rattle.std.specs.Prelude.{◌≡◌, ◌<◌, [], length, IfOk, IsFalse, IsTrue, OnOk, OnErr, reverse, ◌++◌, ◌∷◌};
ghost use Rattle.std.specs.List.{list_any};
ghost use Rattle.std.specs.List.Sorted.{IsPermutation, IsStableBy};
ghost use Rattle.log_model.specs.Field.{IsFieldList, set_all, set_field};
ghost use Rattle.vl_row.specs.Names.{by_name, is_unnamed};

use std::alloc::{AllocError, Global};
use std::marker::Model;
use vl_row::{Field, FieldList};

/// How many fields are put in their places one by one. More of them are sorted together.
const FEW: usize = 64;

/// Sets fields that come in any order. In which order n of them come, they take time in n log n.
///
/// A contract sees the fields that are set so far.
#[derive(Drop)]
pub struct FieldSetter {
    /// The first fields, in byte order of their names.
    first: FieldList,
    /// The fields that were set after them, in the order in which they came. Later ones count.
    late: Vec<Field>,
}

impl Model for FieldSetter {
    ghost use Rattle.std.specs.Prelude.{List, IsFalse};
    ghost use Rattle.std.specs.List.{list_any};
    ghost use Rattle.log_model.specs.Field.{Field as Pair, set_all};
    ghost use Rattle.vl_row.specs.Names.{is_unnamed};

    ghost Value = { List Pair };

    ghost view = { λ s. set_all s.first s.late.items };

    ghost invariant = { λ s. IsFalse (list_any is_unnamed s.late.items) };
}

impl FieldSetter {
    /// Begins with these fields. This allocates nothing.
    pub fn new(alloc: Global, fields: FieldList) -> FieldSetter
        ensures { result ≡ fields }
    {
        FieldSetter {
            first: fields,
            late: Vec::new(alloc),
        }
    }

    /// Gives the field of this name the value. An empty value is a missing field: it removes the field. If allocation
    /// fails, the fields are unchanged.
    pub fn set(&mut self, alloc: Global, name: &str, value: &str) -> Result<(), AllocError>
        requires { 0 < length name.now }
        ensures ok { OnOk result (self.new ≡ set_field self.old name.now value.now) }
        ensures err { OnErr result (self.new ≡ self.old) }
    {
        if goes_first(&self.first, self.late.as_slice(), name) {
            return self.first.set(alloc, name, value);
        }
        push(alloc, name, value, &mut self.late)
    }

    /// Returns the fields.
    pub fn finish(self) -> Result<FieldList, AllocError>
        ensures { IfOk result (λ fields. fields ≡ self) }
    {
        let FieldSetter { first, late } = self;
        finished(first, late)
    }
}

/// Returns the first fields, with the late ones set after them.
fn finished(first: FieldList, late: Vec<Field>) -> Result<FieldList, AllocError>
    requires { IsFalse (list_any is_unnamed late.items) }
    ensures { IfOk result (λ fields. fields ≡ set_all first late.items) }
{
    if are_none(late.as_slice()) {
        return Ok(first);
    }
    set_together(first, late)
}

fn are_none(fields: &[Field]) -> bool
    ensures { IsTrue result → fields.now ≡ [] }
{
    fields.is_empty()
}

/// Returns whether a field of this name is put in its place at once.
fn goes_first(first: &FieldList, late: &[Field], name: &str) -> bool
    ensures { IsTrue result → late.now ≡ [] }
{
    late.is_empty() && (first.len() < FEW || is_above(first.as_slice(), name))
}

/// Returns whether the name is above that of the last field.
fn is_above(fields: &[Field], name: &str) -> bool {
    match fields {
        [] => true,
        [.., last] => last.name() < name,
    }
}

/// Appends a field.
fn push(alloc: Global, name: &str, value: &str, fields: &mut Vec<Field>) -> Result<(), AllocError>
    ensures ok { OnOk result (fields.new.items ≡ fields.old.items ++ (name.now, value.now) ∷ []) }
    ensures err { OnErr result (fields.new.items ≡ fields.old.items) }
{
    let field = Field::try_of(alloc, name, value)?;
    fields.push(field)?;
    Ok(())
}

/// Returns the same, where all fields are sorted first.
fn set_together(first: FieldList, late: Vec<Field>) -> Result<FieldList, AllocError>
    requires { IsFalse (list_any is_unnamed late.items) }
    ensures { IfOk result (λ fields. fields ≡ set_all first late.items) }
{
    let all = joined(first, late)?;
    let sorted = sorted(all)?;
    set_backwards(reversed(sorted))
}

/// Returns the first fields, and the late ones after them.
fn joined(first: FieldList, mut late: Vec<Field>) -> Result<Vec<Field>, AllocError>
    ensures ok { IfOk result (λ all. all.items ≡ first ++ late.items) }
    ensures rules { IsFieldList first }
{
    let mut all = first.into_fields();
    all.append(&mut late)?;
    Ok(all)
}

/// Returns the fields in the order of their names, those of one name as they came.
fn sorted(mut fields: Vec<Field>) -> Result<Vec<Field>, AllocError>
    ensures moved { IfOk result (λ sorted. IsPermutation fields.items sorted.items) }
    ensures stable { IfOk result (λ sorted. IsStableBy by_name fields.items sorted.items) }
{
    fields.sort_by(|a, b| a.name().cmp(b.name()))?;
    Ok(fields)
}

fn reversed(mut fields: Vec<Field>) -> Vec<Field>
    ensures { result.items ≡ reverse fields.items }
{
    fields.reverse();
    fields
}

/// Sets fields, the last of them first.
fn set_backwards(mut fields: Vec<Field>) -> Result<FieldList, AllocError>
    requires { IsFalse (list_any is_unnamed fields.items) }
    ensures value { IfOk result (λ list. list ≡ set_all [] (reverse fields.items)) }
    ensures rules { IfOk result IsFieldList }
{
    let mut list = FieldList::with_room(*fields.allocator(), fields.len())?;
    while let Some(field) = fields.pop() {
        list.add(field)?;
    }
    Ok(list)
}
