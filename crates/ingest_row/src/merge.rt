//! Merges two lists of fields that have no name in common.
ghost use Rattle.std.specs.Prelude.{◌≡◌, ◌++◌, [], ◌∷◌, IfOk, IfSome, IsFalse, List, None, OnOk, reverse};
ghost use Rattle.std.specs.List.{AllByRecursion, list_any};
ghost use Rattle.log_model.specs.Field.{Field as Pair, IsFieldList, set_all};
ghost use Rattle.vl_row.specs.Names.{is_unnamed};
ghost use Rattle.ingest_row.specs.Prepared.{AreApart};

use std::alloc::{AllocError, Global};
use vl_row::{Field, FieldList};

/// Returns the fields of both lists. This takes time in the number of fields.
pub(crate) fn merged(
    alloc: Global,
    fields: FieldList,
    added: &FieldList,
) -> Result<FieldList, AllocError>
    requires { AreApart fields added.now }
    ensures { IfOk result (λ all. all ≡ set_all fields added.now) }
{
    let mut all = FieldList::with_room(alloc, fields.len().saturating_add(added.len()))?;
    let mut left = reversed(fields);
    for field in added.as_slice() {
        move_below(field.name(), &mut left, &mut all)?;
        all.set(alloc, field.name(), field.value())?;
    }
    move_all(&mut left, &mut all)?;
    Ok(all)
}

/// Returns the fields, the last one first.
fn reversed(fields: FieldList) -> Vec<Field>
    ensures value { result.items ≡ reverse fields }
    ensures rules { IsFieldList fields }
{
    let mut left = fields.into_fields();
    left.reverse();
    left
}

/// Moves the last of the fields as long as their names are below this one.
fn move_below(name: &str, left: &mut Vec<Field>, all: &mut FieldList) -> Result<(), AllocError>
    requires { IsFalse (list_any is_unnamed left.old.items) }
    ensures { OnOk result ((moved : List Pair) × (left.old.items ≡ left.new.items ++ moved)
        × (all.new ≡ set_all all.old (reverse moved))) }
{
    while let Some(field) = pop_below(left, name) {
        all.add(field)?;
    }
    Ok(())
}

/// Moves all fields, the last one first.
fn move_all(left: &mut Vec<Field>, all: &mut FieldList) -> Result<(), AllocError>
    requires { IsFalse (list_any is_unnamed left.old.items) }
    ensures { OnOk result (all.new ≡ set_all all.old (reverse left.old.items)) }
{
    while let Some(field) = left.pop() {
        all.add(field)?;
    }
    Ok(())
}

/// Takes the last of the fields if its name is below this one.
fn pop_below(left: &mut Vec<Field>, name: &str) -> Option<Field>
    ensures some { IfSome result (λ field. left.old.items ≡ left.new.items ++ field ∷ []) }
    ensures none { result ≡ None → left.new.items ≡ left.old.items }
{
    match left.as_slice() {
        [.., last] if last.name() < name => left.pop(),
        _ => None,
    }
}
