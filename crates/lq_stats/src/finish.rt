//! Records of groups.
ghost use Rattle.std.specs.Prelude.{◌≡◌, Ok, IfOk, IfErr, decimal, map};
ghost use Rattle.std.specs.Fmt.{signed_decimal};
ghost use Rattle.lq_ast.specs.Statistics.{array_text};
ghost use Rattle.std.specs.Ordering.{on};
ghost use Rattle.lq_ast.specs.Grouping.{all};
ghost use Rattle.lq_ast.specs.Tuples.{sorted_by, tuple_cmp};
ghost use Rattle.log_model.specs.Order.{value_cmp};
ghost use Rattle.lq_tuple.specs.Groups.{group_tuple};
ghost use Rattle.lq_stats.specs.Finish.{IsFault, made_record, measure_text, state_text, total_text};
ghost use Rattle.lq_stats.specs.Function.{statistic_of};

use crate::array::array_text;
use crate::fault::StatFault;
use crate::function::Function;
use crate::groups::States;
use crate::measure::Measure;
use crate::order::in_value_order;
use crate::state::State;
use itoa::Buffer;
use lq_tuple::{Group, in_tuple_order, put_field, tuple_record};
use std::alloc::{AllocError, Global};
use vl_row::{FieldList, Recs, Text};

/// Returns the records of the groups in tuple order, where the keys have these names.
pub(crate) fn records(
    alloc: Global,
    names: &[&str],
    functions: &[Function],
    groups: &[Group<&States>],
) -> Result<Recs, StatFault>
    ensures made { IfOk result (λ made. all (map
        (made_record (map (λ name. name.now) names.now) (map statistic_of functions.now))
        (sorted_by (on group_tuple tuple_cmp) groups.now)) ≡ Ok made) }
    ensures fault { IfErr result (IsFault (all (map
        (made_record (map (λ name. name.now) names.now) (map statistic_of functions.now))
        (sorted_by (on group_tuple tuple_cmp) groups.now)))) }
{
    let keyed = in_tuple_order(alloc, groups)?;
    let mut records = Vec::with_capacity(alloc, keyed.len())?;
    let mut left = keyed.as_slice();
    while let [one, later @ ..] = left {
        records.push(record_of(alloc, names, functions, one.group)?)?;
        left = later;
    }
    Ok(Recs::of(records))
}

/// Returns the record of a group: its tuple, and the value of each function.
fn record_of(
    alloc: Global,
    names: &[&str],
    functions: &[Function],
    group: &Group<&States>,
) -> Result<FieldList, StatFault>
    ensures made { IfOk result (λ made.
        made_record (map (λ name. name.now) names.now) (map statistic_of functions.now) group.now ≡ Ok made) }
    ensures fault { IfErr result (IsFault
        (made_record (map (λ name. name.now) names.now) (map statistic_of functions.now) group.now)) }
{
    let mut record = tuple_record(alloc, names, group.tuple.as_slice())?;
    let mut functions = functions;
    let mut states = group.kept.list.as_slice();
    while let [function, functions_after @ ..] = functions {
        let [state, states_after @ ..] = states else {
            break;
        };
        let Some(text) = state.text(alloc)? else {
            let name = function.name.try_copy(alloc)?;
            return Err(StatFault::Overflow { name });
        };
        put_field(alloc, &mut record, function.name.as_str(), text.as_str())?;
        functions = functions_after;
        states = states_after;
    }
    Ok(record)
}

impl State {
    /// Returns the text of the function's value; none where a sum is not a 64-bit integer.
    fn text(&self, alloc: Global) -> Result<Option<Text>, AllocError>
        ensures { IfOk result (λ text. text ≡ state_text self.now) }
    {
        match self {
            State::Count(number) | State::CountEmpty(number) => Ok(Some(decimal(alloc, *number)?)),
            State::CountUniq(texts) => Ok(Some(decimal(alloc, texts.len() as u64)?)),
            State::OfValues(measure) => measure.text(alloc),
        }
    }
}

impl Measure {
    /// Returns the text of the function's value; none where a sum is not a 64-bit integer.
    fn text(&self, alloc: Global) -> Result<Option<Text>, AllocError>
        ensures { IfOk result (λ text. text ≡ measure_text self.now) }
    {
        match self {
            Measure::Sum(sum) => sum_text(alloc, *sum),
            Measure::Min(value) | Measure::Max(value) => Ok(Some(value.try_copy(alloc)?)),
            Measure::UniqValues(words) => Ok(Some(words_text(alloc, words.words.as_slice())?)),
        }
    }
}

/// Returns the text of a sum, empty where there is none; no text where it is not a 64-bit integer.
fn sum_text(alloc: Global, sum: Option<i128>) -> Result<Option<Text>, AllocError>
    ensures { IfOk result (λ text. text ≡ total_text sum) }
{
    let Some(total) = sum else {
        return Ok(Some(Text::new()));
    };
    match i64::try_from(total) {
        Ok(total) => Ok(Some(signed_decimal(alloc, total)?)),
        Err(_) => Ok(None),
    }
}

fn decimal(alloc: Global, number: u64) -> Result<Text, AllocError>
    ensures { IfOk result (λ text. text ≡ decimal number) }
{
    let mut buffer = Buffer::new();
    Text::try_of(alloc, buffer.format(number))
}

fn signed_decimal(alloc: Global, number: i64) -> Result<Text, AllocError>
    ensures { IfOk result (λ text. text ≡ signed_decimal number) }
{
    let mut buffer = Buffer::new();
    Text::try_of(alloc, buffer.format(number))
}

/// Returns the JSON array of some texts in value order.
fn words_text(alloc: Global, words: &[Text]) -> Result<Text, AllocError>
    ensures { IfOk result (λ text. text ≡ array_text (sorted_by value_cmp words.now)) }
{
    let texts = in_value_order(alloc, words)?;
    let text = array_text(alloc, texts.as_slice())?;
    Text::try_of(alloc, text.as_str())
}
