//! From the arguments of a request to what they ask for.
ghost use Rattle.std.specs.Prelude.{◌≡◌, map, option_map, unwrap_or, codes, IfOk, IfErr, Some, None};
ghost use Rattle.std.specs.List.{list_all};
ghost use Rattle.jsonline_in.specs.Near.{is_short};
ghost use Rattle.ingest_row.specs.Ingest.{have_short_names};
ghost use Rattle.ingest_row.specs.Asked.{argument, extra_of, extras_of, list_argument, options_of, pieces};

use crate::fault::OptionFault;
use crate::options::Options;
use crate::prepared::Prepared;
use std::alloc::{AllocError, Global};
use vl_row::{Field, Items, Text};

/// The most bytes of a short name.
const SHORT: usize = 128;

impl Options {
    /// Returns what the arguments of a request ask for. `_stream_fields`, `_msg_field`, `ignore_fields` and
    /// `extra_fields` are lists: they are cut at commas, empty pieces are dropped, and nothing is trimmed.
    /// `_time_field` is one name, and `_time` where it is missing; an empty one is that of no field. Of a repeated
    /// argument the first counts. Other arguments are skipped.
    ///
    /// A piece of `extra_fields` is cut at its first `=` into a name and a value, which may be empty. The fault is
    /// `BadExtra` where one has no `=` or no name before it.
    #[tactic(auto, using(crate::proofs::Asked::extras_named))]
    pub fn read(alloc: Global, pairs: &[Field]) -> Result<Options, OptionFault>
        ensures read { IfOk result (λ options. options_of pairs.now ≡ Some options) }
        ensures bad { IfErr result (λ fault. fault ≡ OptionFault.BadExtra → options_of pairs.now ≡ None) }
    {
        let stream_fields = names(alloc, list(pairs, "_stream_fields"))?;
        let time_field = time_field(alloc, argument(pairs, "_time_field"))?;
        let message_fields = names(alloc, list(pairs, "_msg_field"))?;
        let ignored_fields = names(alloc, list(pairs, "ignore_fields"))?;
        let Some(extra_fields) = extras(alloc, list(pairs, "extra_fields"))? else {
            return Err(OptionFault::BadExtra);
        };
        let prepared = Prepared::of(
            alloc,
            stream_fields.as_slice(),
            message_fields.as_slice(),
            ignored_fields.as_slice(),
            extra_fields.as_slice(),
        )?;
        let are_short = names_are_short(
            &time_field,
            message_fields.as_slice(),
            ignored_fields.as_slice(),
            extra_fields.as_slice(),
        );
        Ok(Options {
            stream_fields,
            time_field,
            message_fields,
            ignored_fields,
            are_short,
            extra_fields,
            prepared,
        })
    }
}

/// Returns whether none of the names that are asked for has more than 128 bytes.
fn names_are_short(
    time_field: &Option<Text>,
    message_fields: &[Text],
    ignored_fields: &[Text],
    extra_fields: &[Field],
) -> bool
    ensures { result ≡ have_short_names (unwrap_or time_field.now (codes "_time")) message_fields.now
        ignored_fields.now extra_fields.now }
{
    is_time_field_short(time_field)
        && all_short(message_fields)
        && all_short(ignored_fields)
        && all_short_named(extra_fields)
}

/// Returns whether the name of the moment's field, which is `_time` unless it is given, has at most 128 bytes.
fn is_time_field_short(name: &Option<Text>) -> bool
    ensures { result ≡ is_short (unwrap_or name.now (codes "_time")) }
{
    match name {
        Some(name) => is_short(name.as_str()),
        None => true,
    }
}

/// Returns whether none of these names has more than 128 bytes.
fn all_short(names: &[Text]) -> bool
    ensures { result ≡ list_all is_short names.now }
{
    names.iter().all(|name| is_short(name.as_str()))
}

/// Returns whether none of these fields has a name of more than 128 bytes.
fn all_short_named(fields: &[Field]) -> bool
    ensures { result ≡ list_all (λ field. is_short field.0) fields.now }
{
    fields.iter().all(|field| is_short(field.name()))
}

/// Returns whether a name has at most 128 bytes.
fn is_short(name: &str) -> bool
    ensures { result ≡ is_short name.now }
{
    name.len() <= SHORT
}

/// Returns the value of the first argument of this name, where there is one.
pub fn argument<'a>(pairs: &'a [Field], name: &str) -> Option<&'a str>
    ensures { option_map (λ text. text.now) result ≡ argument pairs.now name.now }
{
    for pair in pairs {
        if name == pair.name() {
            return Some(pair.value());
        }
    }
    None
}

/// Returns the list that the first argument of this name says, empty where there is none.
fn list<'a>(pairs: &'a [Field], name: &str) -> &'a str
    ensures { result.now ≡ list_argument pairs.now name.now }
{
    match argument(pairs, name) {
        Some(list) => list,
        None => "",
    }
}

/// Returns the pieces of a list that are not empty.
fn pieces(alloc: Global, list: &str) -> Result<Vec<&str>, AllocError>
    ensures { IfOk result (λ found. map (λ piece. piece.now) found.items ≡ pieces list.now) }
{
    list.split(',')
        .filter(|piece| !piece.is_empty())
        .collect(alloc)
}

/// Returns the names that a list says.
fn names(alloc: Global, list: &str) -> Result<Items<Text>, AllocError>
    ensures { IfOk result (λ names. names ≡ pieces list.now) }
{
    let mut names = Vec::new(alloc);
    for piece in &pieces(alloc, list)? {
        names.push(Text::try_of(alloc, piece)?)?;
    }
    Ok(Items::of(names))
}

/// Returns the name that an argument says, if it is given.
fn time_field(alloc: Global, given: Option<&str>) -> Result<Option<Text>, AllocError>
    ensures { IfOk result (λ name. name ≡ option_map (λ text. text.now) given.entry) }
{
    match given {
        Some(name) => Ok(Some(Text::try_of(alloc, name)?)),
        None => Ok(None),
    }
}

/// Returns the fields that a list says, if each of its pieces is one.
fn extras(alloc: Global, list: &str) -> Result<Option<Items<Field>>, AllocError>
    ensures { IfOk result (λ fields. fields ≡ extras_of (pieces list.now)) }
{
    let mut fields = Vec::new(alloc);
    for piece in &pieces(alloc, list)? {
        let Some(field) = extra(alloc, piece)? else {
            return Ok(None);
        };
        fields.push(field)?;
    }
    Ok(Some(Items::of(fields)))
}

/// Returns the field that a piece is, if it is one.
#[tactic(auto, unfolding(crate::specs::Asked::extra_of))]
fn extra(alloc: Global, piece: &str) -> Result<Option<Field>, AllocError>
    ensures { IfOk result (λ field. field ≡ extra_of piece.now) }
{
    let Some((name, value)) = piece.split_once('=') else {
        return Ok(None);
    };
    if name.is_empty() {
        return Ok(None);
    }
    let name = Text::try_of(alloc, name)?;
    let value = Text::try_of(alloc, value)?;
    Ok(Some(Field { name, value }))
}
