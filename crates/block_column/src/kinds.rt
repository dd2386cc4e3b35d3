//! The first kind that fits values.

ghost use Rattle.std.specs.Prelude.{◌≡◌, ◌<◌, ◌≤◌, ◌^◌, IfNone, IfOk, IfSome, MatchOption, false, length, map};
ghost use Rattle.std.specs.Prelude.{◌&&◌, bytes_eq, not, sum_by, true};
ghost use Rattle.std.specs.List.{list_all};
ghost use Rattle.log_model.specs.Field.{is_empty};
ghost use Rattle.block_column.specs.Cells.{IsFirst, texts_of};
ghost use Rattle.block_column.specs.Kinds.{are_integers, first_of, fits_dictionary, integers_in, is_constant};
ghost use Rattle.block_column.specs.Kinds.{is_number};
ghost use Rattle.block_model.specs.Distinct.{distinct, is_short};

use crate::cells::Cells;
use crate::codes::{codes_of, distinct_of, lent};
use col_codec::{IntColumn, TextColumn};
use std::alloc::{AllocError, Global};
use vl_row::{Text, number};

/// Values in the first kind that fits.
pub(crate) fn first_kind(alloc: Global, values: &[&str]) -> Result<Cells, AllocError>
    requires { sum_by (λ t. length t.now) values.now < 2 ^ 32 }
    ensures texts { IfOk result (λ cells. texts_of cells ≡ map (λ t. t.now) values.now) }
    ensures first { IfOk result (λ cells. IsFirst cells) }
{
    if let Some(value) = constant(values) {
        return Ok(Cells::Constant(Text::try_of(alloc, value)?, values.len()));
    }
    if let Some(ints) = integers(alloc, values)? {
        return Ok(Cells::Integers(IntColumn::try_of(alloc, ints.as_slice())?));
    }
    if let Some(texts) = distinct_of(alloc, values)? {
        return dictionary_of(alloc, texts.as_slice(), values);
    }
    Ok(Cells::Plain(TextColumn::try_of(alloc, values)?))
}

/// The dictionary of these values, of which the texts are the distinct ones.
fn dictionary_of(alloc: Global, texts: &[Text], values: &[&str]) -> Result<Cells, AllocError>
    requires one { is_constant (map (λ t. t.now) values.now) ≡ false }
    requires none { are_integers (map (λ t. t.now) values.now) ≡ false }
    requires fits { fits_dictionary (map (λ t. t.now) values.now) ≡ true }
    requires texts { texts.now ≡ distinct (map (λ t. t.now) values.now) }
    ensures texts { IfOk result (λ cells. texts_of cells ≡ map (λ t. t.now) values.now) }
    ensures first { IfOk result (λ cells. IsFirst cells) }
{
    let codes = codes_of(alloc, texts, values)?;
    let held = held_texts(alloc, texts)?;
    Ok(Cells::Dictionary(held, codes))
}

/// The texts of a dictionary as a column.
fn held_texts(alloc: Global, texts: &[Text]) -> Result<TextColumn, AllocError>
    requires few { length texts.now ≤ 255 }
    requires short { list_all is_short texts.now ≡ true }
    ensures { IfOk result (λ held. held ≡ texts.now) }
{
    let listed = lent(alloc, texts)?;
    let held = TextColumn::try_of(alloc, listed.as_slice())?;
    Ok(held)
}

/// The value that all rows have, unless it is empty.
pub(crate) fn constant<'a>(values: &[&'a str]) -> Option<&'a str>
    ensures some { IfSome result (λ value. (is_constant (map (λ t. t.now) values.now) ≡ true)
        × (first_of (map (λ t. t.now) values.now) ≡ value.now)) }
    ensures none { IfNone result (is_constant (map (λ t. t.now) values.now) ≡ false) }
{
    if values.is_empty() {
        return None;
    }
    let first = values[0];
    if !is_filled_with(values, first) {
        return None;
    }
    Some(first)
}

fn is_filled_with(values: &[&str], first: &str) -> bool
    ensures { result ≡ (not (is_empty first.now) && list_all (λ t. bytes_eq first.now t.now) values.now) }
{
    !first.is_empty() && are_all(values, first)
}

fn are_all(values: &[&str], first: &str) -> bool
    ensures { result ≡ list_all (λ t. bytes_eq first.now t.now) values.now }
{
    values.iter().all(|value| first == *value)
}

/// The integers whose decimal texts all values are.
fn integers(alloc: Global, values: &[&str]) -> Result<Option<Vec<i64>>, AllocError>
    ensures { IfOk result (λ found. MatchOption found (are_integers (map (λ t. t.now) values.now) ≡ false)
        (λ ints. (are_integers (map (λ t. t.now) values.now) ≡ true)
        × (ints.items ≡ integers_in (map (λ t. t.now) values.now)))) }
{
    let mut ints = Vec::with_capacity(alloc, values.len())?;
    for value in values {
        let Some(int) = number(value) else {
            return Ok(None);
        };
        ints.push(int)?;
    }
    Ok(Some(ints))
}

/// Whether all values are decimal texts of integers.
pub(crate) fn are_integers(values: &[&str]) -> bool
    ensures { result ≡ list_all (λ t. is_number t.now) values.now }
{
    values.iter().all(|value| is_number(value))
}

fn is_number(value: &str) -> bool
    ensures { result ≡ is_number value.now }
{
    number(value).is_some()
}
