//! Lists of options, prepared once so that no list is walked for each line.
ghost use Rattle.std.specs.Prelude.{◌≡◌, ℕ, [], IfOk, IsTrue, List, length, unwrap_or};
ghost use Rattle.std.specs.BTreeMap.{get_by_text};
ghost use Rattle.std.specs.List.{list_all};
ghost use Rattle.log_model.specs.Field.{set_all};
ghost use Rattle.ingest_row.specs.Ingest.{is_named};
ghost use Rattle.ingest_row.specs.Prepared.{IsPrepared, names_of, place_in};

use field_setter::FieldSetter;
use std::alloc::{AllocError, Global};
use std::collections::BTreeMap;
use vl_row::{Field, FieldList, Names, Text};

/// The lists of options, prepared.
#[derive(Drop)]
pub(crate) struct Prepared {
    /// The names of the stream, in byte order.
    pub(crate) labels: Names,
    /// The names that are ignored, in byte order.
    pub(crate) ignored: Names,
    /// Where each name of the message's list first stands.
    pub(crate) places: BTreeMap<String, usize>,
    /// The names of the fields that are added, in byte order.
    pub(crate) replaced: Names,
    /// The fields that are added. The last value of a name counts, and an empty one adds no field.
    pub(crate) added: FieldList,
}

impl Prepared {
    /// Empty lists. This allocates nothing.
    pub(crate) fn new(alloc: Global) -> Prepared
        ensures { IsPrepared [] [] [] [] result }
    {
        Prepared {
            labels: Names::new(alloc),
            ignored: Names::new(alloc),
            places: BTreeMap::new(alloc),
            replaced: Names::new(alloc),
            added: FieldList::new(alloc),
        }
    }

    /// Prepares these lists.
    pub(crate) fn of(
        alloc: Global,
        stream_fields: &[Text],
        message_fields: &[Text],
        ignored_fields: &[Text],
        extra_fields: &[Field],
    ) -> Result<Prepared, AllocError>
        requires { IsTrue (list_all is_named extra_fields.now) }
        ensures { IfOk result (IsPrepared stream_fields.now message_fields.now ignored_fields.now extra_fields.now) }
    {
        let labels = Names::try_of(alloc, stream_fields)?;
        let ignored = Names::try_of(alloc, ignored_fields)?;
        let places = places_of(alloc, message_fields)?;
        let names = names_of(alloc, extra_fields)?;
        let replaced = Names::try_of(alloc, names.as_slice())?;
        let added = folded(alloc, extra_fields)?;
        Ok(Prepared {
            labels,
            ignored,
            places,
            replaced,
            added,
        })
    }
}

/// Returns where each of these names first stands.
fn places_of(alloc: Global, names: &[Text]) -> Result<BTreeMap<String, usize>, AllocError>
    ensures { IfOk result (λ places. (name : List ℕ)
        → unwrap_or (get_by_text places name) (length names.now) ≡ place_in names.now name) }
{
    let mut places = BTreeMap::new(alloc);
    let mut at = names.len();
    // An earlier place replaces a later one of the same name.
    while at > 0 {
        at -= 1;
        let name = String::from_str(alloc, names[at].as_str())?;
        places.insert(name, at)?;
    }
    Ok(places)
}

/// Returns the names of fields, in their order.
fn names_of(alloc: Global, fields: &[Field]) -> Result<Vec<Text>, AllocError>
    ensures { IfOk result (λ names. names.items ≡ names_of fields.now) }
{
    let mut names = Vec::with_capacity(alloc, fields.len())?;
    for field in fields {
        names.push(Text::try_of(alloc, field.name())?)?;
    }
    Ok(names)
}

/// Returns the fields, each name once, with the last of its values.
fn folded(alloc: Global, fields: &[Field]) -> Result<FieldList, AllocError>
    requires { IsTrue (list_all is_named fields.now) }
    ensures { IfOk result (λ list. list ≡ set_all [] fields.now) }
{
    let mut setter = FieldSetter::new(alloc, FieldList::new(alloc));
    for field in fields {
        setter.set(alloc, field.name(), field.value())?;
    }
    setter.finish()
}
