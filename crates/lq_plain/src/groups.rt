//! Groups of records.
ghost use Rattle.std.specs.Prelude.{◌≡◌, ◌-◌, ◌%◌, ◌≤ℤ◌, [], IfOk, map, pos, unsigned_abs};
ghost use Rattle.std.specs.Option.{option_map_or};
ghost use Rattle.std.specs.Ordering.{is_eq};
ghost use Rattle.log_model.specs.Moment.{moment_text};
ghost use Rattle.lq_ast.specs.Groups.{bucket_text, group_tuples, key_tuple, key_value, members, moment_of};
ghost use Rattle.lq_ast.specs.PipeView.{group_by};
ghost use Rattle.lq_ast.specs.Tuples.{tuple_cmp};

use crate::tuple::tuple_order;
use crate::tuples::distinct;
use lq_ast::StatKey;
use std::alloc::{AllocError, Global};
use std::cmp::Ordering;
use time_text::plain::{read_moment, write_moment};
use vl_row::{FieldList, Items, Text};

/// The tuples of the groups in their order. Without keys there is always one group.
pub(crate) fn group_tuples(
    alloc: Global,
    keys: &[StatKey],
    records: &[FieldList],
) -> Result<Vec<Items<Text>>, AllocError>
    ensures { IfOk result (λ made. made.items ≡ group_tuples (map group_by keys.now) records.now) }
{
    let mut tuples = Vec::new(alloc);
    match keys {
        [] => {
            tuples.push(Items::of(Vec::new(alloc)))?;
            Ok(tuples)
        }
        [_, ..] => {
            for fields in records {
                tuples.push(key_tuple(alloc, keys, fields)?)?;
            }
            distinct(alloc, tuples)
        }
    }
}

/// Returns the records of a group.
pub(crate) fn members(
    alloc: Global,
    keys: &[StatKey],
    records: &[FieldList],
    tuple: &[Text],
) -> Result<Vec<FieldList>, AllocError>
    ensures { IfOk result (λ made. made.items ≡ members (map group_by keys.now) records.now tuple.now) }
{
    let mut members = Vec::new(alloc);
    for fields in records {
        if is_member(alloc, keys, fields, tuple)? {
            members.push(fields.try_copy(alloc)?)?;
        }
    }
    Ok(members)
}

fn is_member(
    alloc: Global,
    keys: &[StatKey],
    fields: &FieldList,
    tuple: &[Text],
) -> Result<bool, AllocError>
    ensures { IfOk result (λ is. is ≡ is_eq (tuple_cmp (key_tuple (map group_by keys.now) fields.now) tuple.now)) }
{
    let own = key_tuple(alloc, keys, fields)?;
    Ok(tuple_order(own.as_slice(), tuple) == Ordering::Equal)
}

/// Returns the values of the keys.
fn key_tuple(alloc: Global, keys: &[StatKey], fields: &FieldList) -> Result<Items<Text>, AllocError>
    ensures { IfOk result (λ tuple. tuple ≡ key_tuple (map group_by keys.now) fields.now) }
{
    let mut tuple = Vec::new(alloc);
    for key in keys {
        tuple.push(key_value(alloc, fields, key)?)?;
    }
    Ok(Items::of(tuple))
}

/// Returns the value of a key.
fn key_value(alloc: Global, fields: &FieldList, key: &StatKey) -> Result<Text, AllocError>
    ensures { IfOk result (λ value. value ≡ key_value fields.now (group_by key.now)) }
{
    let value = fields.get(key.name.as_str());
    match key.step {
        None => Text::try_of(alloc, value),
        Some(step) => bucket_of(alloc, value, step),
    }
}

/// Returns the start of the bucket of `step` nanoseconds that contains the timestamp in `text`, or an empty text if
/// `text` is not a timestamp.
fn bucket_of(alloc: Global, text: &str, step: i64) -> Result<Text, AllocError>
    ensures { IfOk result (λ bucket. bucket ≡ option_map_or (bucket_text (unsigned_abs step)) (moment_of text.now) []) }
{
    match read_moment(text) {
        Ok(moment) => text_at(alloc, first_moment(moment, step)),
        Err(_) => Ok(Text::new()),
    }
}

fn text_at(alloc: Global, moment: i64) -> Result<Text, AllocError>
    requires { pos 0 ≤ℤ moment }
    ensures { IfOk result (λ text. text ≡ moment_text (unsigned_abs moment)) }
{
    let mut text = Text::new();
    write_moment(alloc, moment, &mut text)?;
    Ok(text)
}

/// Rounds a timestamp down to a multiple of `step` since 1970. If `step` is 0, returns 0.
fn first_moment(moment: i64, step: i64) -> i64
    requires { pos 0 ≤ℤ moment }
    ensures { result ≡ pos (unsigned_abs moment - unsigned_abs moment % unsigned_abs step) }
{
    let moment = moment.unsigned_abs();
    let step = step.unsigned_abs();
    match moment.checked_div(step) {
        Some(steps) => (steps * step) as i64,
        None => 0,
    }
}
