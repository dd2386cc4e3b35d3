//! Evaluates the functions of `stats`.
ghost use Rattle.std.specs.Prelude.{◌≡◌, IfOk, decimal, filter, length, not};
ghost use Rattle.std.specs.Option.{option_map};
ghost use Rattle.lq_ast.specs.Grouping.{asked, statistic_text};
ghost use Rattle.lq_ast.specs.Holds.{record_holds};
ghost use Rattle.lq_ast.specs.PipeView.{statistic};
ghost use Rattle.lq_ast.specs.Statistics.{call_text, counted, first_text, has_some, last_text};
ghost use Rattle.lq_ast.specs.Tuples.{is_wholly_empty, tuple_of};
ghost use Rattle.lq_ast.specs.View.{condition};

use crate::array::array_text;
use crate::filter::is_met;
use crate::sort_pipe::copies;
use crate::subject::Subject;
use crate::total::sum_text;
use crate::tuples::tuples;
use crate::values::{distinct, in_order, non_empty_values, values};
use lq_ast::{Call, Filter, Func};
use std::alloc::{AllocError, Global};
use vl_row::{FieldList, Text};

/// Returns the result of a function with its filter, as text, or `None` if a sum is not a 64-bit integer.
pub(crate) fn statistic_text(
    alloc: Global,
    func: &Func,
    records: &[FieldList],
) -> Result<Option<Text>, AllocError>
    ensures { IfOk result (λ text. text ≡ statistic_text (statistic func.now) records.now) }
{
    let selected = selected_records(alloc, &func.only, records)?;
    call_text(alloc, func.call, func.names.as_slice(), selected.as_slice())
}

/// Returns the records that a function counts: all, or those that match its filter.
fn selected_records(
    alloc: Global,
    only: &Option<Filter>,
    records: &[FieldList],
) -> Result<Vec<FieldList>, AllocError>
    ensures { IfOk result (λ made. made.items ≡ asked (option_map condition only.now) records.now) }
{
    match only {
        None => copies(alloc, records),
        Some(filter) => matching_records(alloc, filter, records),
    }
}

fn matching_records(
    alloc: Global,
    only: &Filter,
    records: &[FieldList],
) -> Result<Vec<FieldList>, AllocError>
    ensures { IfOk result (λ made. made.items ≡ filter (record_holds (condition only.now)) records.now) }
{
    let mut kept = Vec::new(alloc);
    for fields in records {
        if is_met(alloc, only, &Subject::Record(fields))? {
            kept.push(fields.try_copy(alloc)?)?;
        }
    }
    Ok(kept)
}

/// Returns the result of a function as text, or `None` if a sum is not a 64-bit integer.
fn call_text(
    alloc: Global,
    call: Call,
    names: &[Text],
    records: &[FieldList],
) -> Result<Option<Text>, AllocError>
    ensures { IfOk result (λ text. text ≡ call_text call names.now records.now) }
{
    match call {
        Call::Count => Ok(Some(decimal(alloc, count_records(names, records))?)),
        Call::CountEmpty => Ok(Some(decimal(alloc, count_without_any(names, records))?)),
        Call::CountUniq => {
            let tuples = tuples(alloc, names, records)?;
            Ok(Some(decimal(alloc, tuples.len())?))
        }
        Call::Sum => {
            let values = values(alloc, names, records)?;
            sum_text(alloc, values.as_slice())
        }
        Call::Min => {
            let values = in_order(alloc, non_empty_values(alloc, names, records)?)?;
            Ok(Some(first_text(alloc, values.as_slice())?))
        }
        Call::Max => {
            let values = in_order(alloc, non_empty_values(alloc, names, records)?)?;
            Ok(Some(last_text(alloc, values.as_slice())?))
        }
        Call::UniqValues => {
            let values = distinct(alloc, non_empty_values(alloc, names, records)?)?;
            Ok(Some(array_text(alloc, values.as_slice())?))
        }
    }
}

fn count_records(names: &[Text], records: &[FieldList]) -> usize
    ensures { result ≡ counted names.now records.now }
{
    match names {
        [] => records.len(),
        [_, ..] => count_with_some(names, records),
    }
}

fn count_with_some(names: &[Text], records: &[FieldList]) -> usize
    ensures { result ≡ length (filter (has_some names.now) records.now) }
{
    records
        .iter()
        .filter(|fields| has_some(names, fields))
        .count()
}

fn count_without_any(names: &[Text], records: &[FieldList]) -> usize
    ensures { result ≡ length (filter (λ r. not (has_some names.now r)) records.now) }
{
    records
        .iter()
        .filter(|fields| !has_some(names, fields))
        .count()
}

fn has_some(names: &[Text], fields: &FieldList) -> bool
    ensures { result ≡ has_some names.now fields.now }
{
    !are_empty(names, fields)
}

fn are_empty(names: &[Text], fields: &FieldList) -> bool
    ensures { result ≡ is_wholly_empty (tuple_of names.now fields.now) }
{
    match names {
        [] => true,
        [name, others @ ..] => fields.get(name.as_str()).is_empty() && are_empty(others, fields),
    }
}

/// Returns the number as text.
pub(crate) fn decimal(alloc: Global, number: usize) -> Result<Text, AllocError>
    ensures { IfOk result (λ text. text ≡ decimal number) }
{
    let text = number.to_string(alloc)?;
    Text::try_of(alloc, text.as_str())
}

fn first_text(alloc: Global, texts: &[Text]) -> Result<Text, AllocError>
    ensures { IfOk result (λ text. text ≡ first_text texts.now) }
{
    match texts {
        [] => Ok(Text::new()),
        [text, ..] => text.try_copy(alloc),
    }
}

fn last_text(alloc: Global, texts: &[Text]) -> Result<Text, AllocError>
    ensures { IfOk result (λ text. text ≡ last_text texts.now) }
{
    match texts {
        [] => Ok(Text::new()),
        [text] => text.try_copy(alloc),
        [_, others @ ..] => last_text(alloc, others),
    }
}
