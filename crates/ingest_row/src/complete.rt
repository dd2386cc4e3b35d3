//! The fields of a row, out of those that a line says.
ghost use Rattle.std.specs.Prelude.{◌≡◌, IfOk, IsFalse, OnOk};
ghost use Rattle.log_model.specs.Field.{IsFieldList, set_all};
ghost use Rattle.ingest_row.specs.Ingest.{completed, kept, moved, with_message};

use crate::merge::merged;
use crate::options::Options;
use std::alloc::{AllocError, Global};
use vl_row::{Field, FieldList, Text};

/// Up to this many names or fields of a list are taken one by one.
pub(crate) const FEW: usize = 8;

/// Removes the fields that are ignored.
pub(crate) fn remove_ignored(o: &Options, fields: &mut FieldList)
    ensures value { fields.new ≡ kept o.now fields.old }
    ensures before { IsFieldList fields.old }
{
    fields.remove_listed(o.ignored());
}

/// Makes the fields of a row out of those that are not ignored: the field of the moment goes, one becomes the message,
/// and others are added.
pub(crate) fn complete(
    alloc: Global,
    o: &Options,
    mut fields: FieldList,
) -> Result<FieldList, AllocError>
    ensures { IfOk result (λ all. all ≡ completed o.now fields) }
{
    fields.remove(o.time_field());
    move_message(alloc, o, &mut fields)?;
    add_fields(alloc, o, fields)
}

/// The first field of the message's list that has a value becomes the message.
fn move_message(alloc: Global, o: &Options, fields: &mut FieldList) -> Result<(), AllocError>
    ensures { OnOk result (fields.new ≡ with_message o.now.message_fields fields.old) }
{
    let names = o.message_fields();
    if names.len() <= FEW {
        return move_first(alloc, names, fields);
    }
    let place = o.message_place(fields.as_slice());
    match names.get(place) {
        Some(name) => rename(alloc, name.as_str(), fields),
        None => Ok(()),
    }
}

/// The first of these fields that has a value becomes the message.
#[tactic(auto, unfolding(crate::specs::Ingest::with_message))]
fn move_first(alloc: Global, names: &[Text], fields: &mut FieldList) -> Result<(), AllocError>
    ensures { OnOk result (fields.new ≡ with_message names.now fields.old) }
{
    for name in names {
        if !fields.get(name.as_str()).is_empty() {
            return rename(alloc, name.as_str(), fields);
        }
    }
    Ok(())
}

/// The field of this name becomes the message.
fn rename(alloc: Global, name: &str, fields: &mut FieldList) -> Result<(), AllocError>
    ensures { OnOk result (fields.new ≡ moved fields.old name.now) }
{
    let message = Text::try_of(alloc, fields.get(name))?;
    fields.remove(name);
    fields.set(alloc, "_msg", message.as_str())
}

/// Returns the fields with those that every row has besides.
fn add_fields(alloc: Global, o: &Options, mut fields: FieldList) -> Result<FieldList, AllocError>
    ensures { IfOk result (λ all. all ≡ set_all fields o.now.extra_fields) }
{
    if o.extra_fields().is_empty() {
        return Ok(fields);
    }
    fields.remove_listed(o.replaced());
    let added = o.added();
    if added.len() > FEW {
        return merged(alloc, fields, added);
    }
    set_each(alloc, added.as_slice(), &mut fields)?;
    Ok(fields)
}

/// Sets these fields.
fn set_each(alloc: Global, added: &[Field], fields: &mut FieldList) -> Result<(), AllocError>
    requires { IsFieldList added.now }
    ensures { OnOk result (fields.new ≡ set_all fields.old added.now) }
{
    for field in added {
        fields.set(alloc, field.name(), field.value())?;
    }
    Ok(())
}
