//! What some functions keep of the values that they are given.
ghost use Rattle.std.specs.Prelude.{◌≡◌, ◌<◌, ◌^◌, ◌++◌, [], ◌∷◌, List, ℕ, length, OnOk, if◌then◌else◌};
ghost use Rattle.log_model.specs.Field.{is_empty};
ghost use Rattle.lq_stats.specs.Measure.{AreMeasured, JoinsValues, measure_call};
ghost use Rattle.lq_stats.specs.Measure as spec;
ghost use Rattle.lq_stats.specs.Words.{AreWords};

use crate::words::Words;
use std::alloc::{AllocError, Global};
use std::cmp::Ordering;
use vl_row::{Text, number, value_order};

/// A function's state over some values.
#[derive(Drop)]
pub(crate) enum Measure {
    /// The sum of the numbers, if there are any.
    Sum(Option<i128>),
    /// The least value that is not empty; empty where there is none.
    Min(Text),
    /// The greatest value that is not empty; empty where there is none.
    Max(Text),
    /// The values that are not empty.
    UniqValues(Words),
}

impl Measure {
    /// Takes one more value.
    pub(crate) fn add(&mut self, alloc: Global, value: &str) -> Result<(), AllocError>
        ensures call { measure_call self.new ≡ measure_call self.old }
        ensures taken { OnOk result ((values : List (List ℕ)) → length values < 2 ^ 64 → AreMeasured self.old values
            → AreMeasured self.new (values ++ value.now ∷ [])) }
    {
        match self {
            Measure::Sum(sum) => {
                *sum = with_number(*sum, value);
                Ok(())
            }
            Measure::Min(least) => keep_least(alloc, least, value),
            Measure::Max(greatest) => keep_greatest(alloc, greatest, value),
            Measure::UniqValues(words) => keep_word(alloc, words, value),
        }
    }

    /// Takes what the same function has kept of other values.
    pub(crate) fn merge(&mut self, alloc: Global, other: Measure) -> Result<(), AllocError>
        ensures call { measure_call self.new ≡ measure_call self.old }
        ensures taken { OnOk result (measure_call other ≡ measure_call self.old → JoinsValues self.old other self.new) }
    {
        match other {
            Measure::Sum(more) => {
                if let Measure::Sum(sum) = self {
                    *sum = with_sum(*sum, more);
                }
                Ok(())
            }
            Measure::Min(value) => {
                if let Measure::Min(least) = self {
                    take_lesser(least, value);
                }
                Ok(())
            }
            Measure::Max(value) => {
                if let Measure::Max(greatest) = self {
                    take_greater(greatest, value);
                }
                Ok(())
            }
            Measure::UniqValues(others) => match self {
                Measure::UniqValues(words) => words.merge(alloc, others),
                _ => Ok(()),
            },
        }
    }
}

/// Returns the sum with the number that a text says, if it says one.
fn with_number(sum: Option<i128>, value: &str) -> Option<i128>
    ensures { result ≡ spec.with_number sum value.now }
{
    match number(value) {
        Some(number) => Some(sum.unwrap_or(0).saturating_add(number as i128)),
        None => sum,
    }
}

/// Puts a value in place of the least so far, if it is less.
fn keep_least(alloc: Global, least: &mut Text, value: &str) -> Result<(), AllocError>
    ensures { OnOk result (least.new ≡ spec.lesser least.old value.now) }
{
    let kept = least.as_str();
    if value.is_empty() || value == kept {
        return Ok(());
    }
    if kept.is_empty() || value_order(value, kept) == Ordering::Less {
        *least = Text::try_of(alloc, value)?;
    }
    Ok(())
}

/// Puts a value in place of the greatest so far, if it is greater.
fn keep_greatest(alloc: Global, greatest: &mut Text, value: &str) -> Result<(), AllocError>
    ensures { OnOk result (greatest.new ≡ spec.greater greatest.old value.now) }
{
    let kept = greatest.as_str();
    if value.is_empty() || value == kept {
        return Ok(());
    }
    if kept.is_empty() || value_order(value, kept) == Ordering::Greater {
        *greatest = Text::try_of(alloc, value)?;
    }
    Ok(())
}

fn keep_word(alloc: Global, words: &mut Words, value: &str) -> Result<(), AllocError>
    ensures { OnOk result ((texts : List (List ℕ)) → AreWords words.old texts
        → AreWords words.new (if is_empty value.now then texts else texts ++ value.now ∷ [])) }
{
    if value.is_empty() {
        return Ok(());
    }
    words.add(alloc, value)
}

/// Returns the sum of both, either of which may be of no numbers.
fn with_sum(sum: Option<i128>, more: Option<i128>) -> Option<i128>
    ensures { result ≡ spec.with_sum sum more }
{
    match more {
        Some(more) => Some(sum.unwrap_or(0).saturating_add(more)),
        None => sum,
    }
}

/// Puts a value in place of the least so far, if it is less.
fn take_lesser(least: &mut Text, value: Text)
    ensures { least.new ≡ spec.lesser least.old value }
{
    let kept = least.as_str();
    let text = value.as_str();
    if text.is_empty() {
        return;
    }
    if kept.is_empty() || value_order(text, kept) == Ordering::Less {
        *least = value;
    }
}

/// Puts a value in place of the greatest so far, if it is greater.
fn take_greater(greatest: &mut Text, value: Text)
    ensures { greatest.new ≡ spec.greater greatest.old value }
{
    let kept = greatest.as_str();
    let text = value.as_str();
    if text.is_empty() {
        return;
    }
    if kept.is_empty() || value_order(text, kept) == Ordering::Greater {
        *greatest = value;
    }
}
