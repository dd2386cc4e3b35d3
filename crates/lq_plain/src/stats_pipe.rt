//! The `stats` pipe.
ghost use Rattle.std.specs.Prelude.{◌≡◌, IfOk, IfErr, OnOk, map, zip};
ghost use Rattle.std.specs.List.{AllByRecursion};
ghost use Rattle.lq_ast.specs.Grouping.{all, group_record, grouped, set_statistics};
ghost use Rattle.lq_ast.specs.Patterns.{CanBeRead, patterns_of_grouping};
ghost use Rattle.lq_ast.specs.PipeView.{group_by, grouping, statistic};
ghost use Rattle.lq_ast.specs.Records.{put_fields};
ghost use Rattle.lq_plain.specs.Outcome.{prepend};
ghost use Rattle.lq_plain.specs.Refusal.{IsRefusal};

use crate::fault::PlainFault;
use crate::functions::statistic_text;
use crate::groups::{group_tuples, members};
use crate::patterns::check_functions;
use crate::put::put;
use lq_ast::{Func, StatKey, StatsPipe};
use std::alloc::{AllocError, Global};
use vl_row::{FieldList, Items, Recs, Text};

/// Returns a record for each group in tuple order; without keys there is always one group. If the sum of a function is
/// not a 64-bit integer, returns the name of the first such function of the first such group. Checks all regular
/// expressions in the functions' filters first, and returns `Unreadable` if one of them is invalid.
pub fn grouped(
    alloc: Global,
    pipe: &StatsPipe,
    records: &[FieldList],
) -> Result<Result<Recs, Text>, PlainFault>
    ensures value { IfOk result (λ answer. answer ≡ grouped (grouping pipe.now) records.now) }
    ensures readable { IfOk result (λ _. AllByRecursion CanBeRead (patterns_of_grouping (grouping pipe.now))) }
    ensures unreadable { IfErr result (IsRefusal (patterns_of_grouping (grouping pipe.now))) }
{
    check_functions(alloc, pipe.funcs.as_slice())?;
    let tuples = group_tuples(alloc, pipe.keys.as_slice(), records)?;
    Ok(group_records(alloc, pipe, records, tuples.as_slice(), Vec::new(alloc))?)
}

/// Returns the records in `made`, then one for each of the groups; or the name of the first function whose sum is not a
/// 64-bit integer.
fn group_records(
    alloc: Global,
    pipe: &StatsPipe,
    records: &[FieldList],
    tuples: &[Items<Text>],
    made: Vec<FieldList>,
) -> Result<Result<Recs, Text>, AllocError>
    ensures { IfOk result (λ answer. answer
        ≡ prepend made.items (all (map (group_record (grouping pipe.now) records.now) tuples.now))) }
{
    let mut made = made;
    match tuples {
        [] => Ok(Ok(Recs::of(made))),
        [tuple, others @ ..] => match group_record(alloc, pipe, records, tuple.as_slice())? {
            Err(name) => Ok(Err(name)),
            Ok(fields) => {
                made.push(fields)?;
                group_records(alloc, pipe, records, others, made)
            }
        },
    }
}

/// Returns the record of a group, or the name of its first function whose sum is not a 64-bit integer.
fn group_record(
    alloc: Global,
    pipe: &StatsPipe,
    records: &[FieldList],
    tuple: &[Text],
) -> Result<Result<FieldList, Text>, AllocError>
    ensures { IfOk result (λ answer. answer ≡ group_record (grouping pipe.now) records.now tuple.now) }
{
    let members = members(alloc, pipe.keys.as_slice(), records, tuple)?;
    let mut made = FieldList::new(alloc);
    put_keys(alloc, &mut made, pipe.keys.as_slice(), tuple)?;
    set_statistics(alloc, members.as_slice(), pipe.funcs.as_slice(), made)
}

/// Sets the results of the functions, from left to right.
fn set_statistics(
    alloc: Global,
    records: &[FieldList],
    funcs: &[Func],
    made: FieldList,
) -> Result<Result<FieldList, Text>, AllocError>
    ensures { IfOk result (λ answer. answer ≡ set_statistics records.now (map statistic funcs.now) made) }
{
    let mut made = made;
    match funcs {
        [] => Ok(Ok(made)),
        [func, others @ ..] => match statistic_text(alloc, func, records)? {
            None => Ok(Err(func.name.try_copy(alloc)?)),
            Some(text) => {
                put(alloc, &mut made, func.name.as_str(), text.as_str())?;
                set_statistics(alloc, records, others, made)
            }
        },
    }
}

/// Sets the values of the keys, from left to right.
fn put_keys(
    alloc: Global,
    fields: &mut FieldList,
    keys: &[StatKey],
    tuple: &[Text],
) -> Result<(), AllocError>
    ensures { OnOk result (fields.new
        ≡ put_fields fields.old (zip (map (λ key. key.0) (map group_by keys.now)) tuple.now)) }
{
    match keys {
        [] => Ok(()),
        [key, keys @ ..] => match tuple {
            [] => Ok(()),
            [value, tuple @ ..] => {
                put(alloc, fields, key.name.as_str(), value.as_str())?;
                put_keys(alloc, fields, keys, tuple)
            }
        },
    }
}
