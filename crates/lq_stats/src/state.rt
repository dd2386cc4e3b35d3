//! What functions keep of the records that they are given.
ghost use Rattle.std.specs.Prelude.{◌≡◌, ◌<◌, ◌+◌, ◌-◌, ◌^◌, ◌||◌, ◌++◌, [], ◌∷◌, List, ℕ, OnOk, length, min};
ghost use Rattle.std.specs.Prelude.{if◌then◌else◌};
ghost use Rattle.lq_ast.specs.Statistics.{has_some};
ghost use Rattle.lq_ast.specs.Tuples.{Tuple, tuple_of};
ghost use Rattle.lq_tuple.specs.Counted.{AreCounted};
ghost use Rattle.lq_stats.specs.Measure.{AreMeasured, measure_call};
ghost use Rattle.lq_stats.specs.State.{AreTaken, Joins, Takes, is_nil, state_call};

use crate::measure::Measure;
use crate::scratch::Scratch;
use crate::words::Words;
use lq_ast::Call;
use lq_tuple::{HashSeed, Texts, filled_text, is_wholly_empty};
use std::alloc::{AllocError, Global};
use vl_row::{FieldList, Text};

/// A function's state over some records.
#[derive(Drop)]
pub(crate) enum State {
    /// How many records there are, or how many have one of the fields.
    Count(u64),
    /// How many records have none of the fields.
    CountEmpty(u64),
    /// The tuples of values, but the one that is wholly empty.
    CountUniq(Texts),
    /// A state over the values of the fields.
    OfValues(Measure),
}

impl State {
    /// Returns the state of a function over no records, with this seed of its tables.
    pub(crate) fn of(alloc: Global, seed: HashSeed, call: Call) -> State
        ensures call { state_call result ≡ call }
        ensures none { (names : List (List ℕ)) → AreTaken names result [] }
    {
        match call {
            Call::Count => State::Count(0),
            Call::CountEmpty => State::CountEmpty(0),
            Call::CountUniq => State::CountUniq(Texts::seeded(alloc, seed)),
            Call::Sum => State::OfValues(Measure::Sum(None)),
            Call::Min => State::OfValues(Measure::Min(Text::new())),
            Call::Max => State::OfValues(Measure::Max(Text::new())),
            Call::UniqValues => State::OfValues(Measure::UniqValues(Words::new(alloc, seed))),
        }
    }

    /// Takes one more record, of which the function asks these fields.
    pub(crate) fn add(
        &mut self,
        scratch: &mut Scratch,
        names: &[Text],
        fields: &FieldList,
    ) -> Result<(), AllocError>
        requires few { length names.now < 2 ^ 32 }
        ensures call { state_call self.new ≡ state_call self.old }
        ensures taken { OnOk result (Takes names.now self.old self.new fields.now) }
    {
        match self {
            State::Count(number) => {
                *number = with_one(*number, is_counted(names, fields));
                Ok(())
            }
            State::CountEmpty(number) => {
                *number = with_one(*number, !has_some(names, fields));
                Ok(())
            }
            State::CountUniq(texts) => count_tuple(texts, scratch, names, fields),
            State::OfValues(measure) => add_values(measure, scratch.alloc, names, fields),
        }
    }

    /// Takes what the same function has kept of other records.
    pub(crate) fn merge(&mut self, alloc: Global, other: State) -> Result<(), AllocError>
        ensures call { state_call self.new ≡ state_call self.old }
        ensures taken { OnOk result (state_call other ≡ state_call self.old → Joins self.old other self.new) }
    {
        match other {
            State::Count(more) => {
                if let State::Count(number) = self {
                    *number = number.saturating_add(more);
                }
                Ok(())
            }
            State::CountEmpty(more) => {
                if let State::CountEmpty(number) = self {
                    *number = number.saturating_add(more);
                }
                Ok(())
            }
            State::CountUniq(others) => match self {
                State::CountUniq(texts) => {
                    texts.merge(others)?;
                    Ok(())
                }
                _ => Ok(()),
            },
            State::OfValues(others) => match self {
                State::OfValues(measure) => measure.merge(alloc, others),
                _ => Ok(()),
            },
        }
    }
}

/// Returns the number, or one more where a record counts. No more than 2^32 records are counted.
fn with_one(number: u64, counts: bool) -> u64
    ensures { result ≡ min (number + (if counts then 1 else 0)) (2 ^ 64 - 1) }
{
    number.saturating_add(u64::from(counts))
}

/// Returns whether one of these fields is not empty, or there are none.
fn is_counted(names: &[Text], fields: &FieldList) -> bool
    ensures { result ≡ (is_nil names.now || has_some names.now fields.now) }
{
    names.is_empty() || has_some(names, fields)
}

/// Returns whether one of these fields is not empty.
fn has_some(names: &[Text], fields: &FieldList) -> bool
    ensures { result ≡ has_some names.now fields.now }
{
    !is_wholly_empty(names, fields)
}

/// Adds the tuple of these fields, if it is new and not wholly empty.
fn count_tuple(
    texts: &mut Texts,
    scratch: &mut Scratch,
    names: &[Text],
    fields: &FieldList,
) -> Result<(), AllocError>
    ensures { OnOk result ((tuples : List Tuple) → AreCounted texts.old (length names.now) tuples
        → AreCounted texts.new (length names.now)
        (if has_some names.now fields.now then tuples ++ tuple_of names.now fields.now ∷ [] else tuples)) }
{
    let alloc = scratch.alloc;
    let Some(text) = filled_text(&mut scratch.text, names, fields)? else {
        return Ok(());
    };
    texts.add(alloc, text)
}

/// Takes the value of each of these fields.
fn add_values(
    measure: &mut Measure,
    alloc: Global,
    names: &[Text],
    fields: &FieldList,
) -> Result<(), AllocError>
    ensures call { measure_call measure.new ≡ measure_call measure.old }
    ensures taken { OnOk result ((values : List (List ℕ)) → length values + length names.now < 2 ^ 64
        → AreMeasured measure.old values
        → AreMeasured measure.new (values ++ tuple_of names.now fields.now)) }
{
    for name in names {
        measure.add(alloc, fields.get(name.as_str()))?;
    }
    Ok(())
}
