//! Values that were read, in the first kind that fits. They are mostly held in it already, and then they stay so.

ghost use Rattle.std.specs.Prelude.{◌≡◌, ◌↔◌, ◌<◌, ◌^◌, IfOk, IsTrue, false, length, map, replicate, sum_by, true};
ghost use Rattle.std.specs.List.{list_all};
ghost use Rattle.block_column.specs.Cells.{IsCells, IsFirst, texts_of};
ghost use Rattle.block_model.specs.Distinct.{is_short};
ghost use Rattle.block_column.specs.Kinds.{fits_dictionary};
ghost use Rattle.col_codec.specs.Ints.{is_i64};

use crate::cells::Cells;
use crate::codes::{MAX_VALUE_LEN, distinct_of};
use crate::dictionary::is_first_dictionary;
use crate::kinds::{are_integers, constant, first_kind};
use crate::members::each_of;
use crate::row_texts::RowTexts;
use col_codec::{IntColumn, TextColumn};
use std::alloc::{AllocError, Global};
use vl_row::Text;

/// The values in the first kind that fits.
pub(crate) fn into_first(alloc: Global, cells: Cells) -> Result<Cells, AllocError>
    requires codes { IsCells cells }
    requires small { sum_by length (texts_of cells) < 2 ^ 32 }
    ensures texts { IfOk result (λ made. texts_of made ≡ texts_of cells) }
    ensures first { IfOk result (λ made. IsFirst made) }
{
    if is_first(alloc, &cells)? {
        return Ok(cells);
    }
    first_by_texts(alloc, &cells)
}

/// The same, made anew of the text of each row.
fn first_by_texts(alloc: Global, cells: &Cells) -> Result<Cells, AllocError>
    requires codes { IsCells cells.now }
    requires small { sum_by length (texts_of cells.now) < 2 ^ 32 }
    ensures texts { IfOk result (λ made. texts_of made ≡ texts_of cells.now) }
    ensures first { IfOk result (λ made. IsFirst made) }
{
    let lent = RowTexts::try_of(alloc, cells)?;
    let texts = lent.texts(alloc)?;
    let made = first_kind(alloc, texts.as_slice())?;
    Ok(made)
}

/// Whether it is quickly seen that the values are held in the first kind that fits.
fn is_first(alloc: Global, cells: &Cells) -> Result<bool, AllocError>
    requires codes { IsCells cells.now }
    requires small { sum_by length (texts_of cells.now) < 2 ^ 32 }
    ensures { IfOk result (λ first. IsTrue first → IsFirst cells.now) }
{
    match cells {
        Cells::Constant(text, rows) => Ok(is_first_constant(text, *rows)),
        Cells::Integers(ints) => Ok(are_first_integers(ints)),
        Cells::Dictionary(held, codes) => is_first_dictionary(alloc, held, codes),
        Cells::Plain(texts) => are_first_texts(alloc, texts),
    }
}

fn is_first_constant(text: &Text, rows: usize) -> bool
    requires { sum_by length (replicate rows text.now) < 2 ^ 32 }
    ensures { IsTrue result → IsFirst (Cells.Constant text.now rows) }
{
    if rows == 0 {
        return false;
    }
    if text.as_str().is_empty() {
        return false;
    }
    true
}

/// Whether an integer is another than the first.
fn are_first_integers(ints: &IntColumn) -> bool
    requires { list_all is_i64 ints.now ≡ true }
    ensures { IsTrue result → IsFirst (Cells.Integers ints.now) }
{
    for i in 1..ints.len() {
        if differ_at(ints, i) {
            return true;
        }
    }
    false
}

/// Whether the integer at this place is another than the first.
fn differ_at(ints: &IntColumn, i: usize) -> bool
    requires fits { list_all is_i64 ints.now ≡ true }
    requires later { 0 < i }
    requires within { i < length ints.now }
    ensures { IsTrue result → IsFirst (Cells.Integers ints.now) }
{
    let first = ints.get(0);
    let other = ints.get(i);
    if first == other {
        return false;
    }
    true
}

fn are_first_texts(alloc: Global, column: &TextColumn) -> Result<bool, AllocError>
    ensures { IfOk result (λ first. IsTrue first → IsFirst (Cells.Plain column.now)) }
{
    let lent = each_of(alloc, column)?;
    let texts = lent.as_slice();
    let None = constant(texts) else {
        return Ok(false);
    };
    if are_integers(texts) {
        return Ok(false);
    }
    let many = are_too_many(alloc, texts)?;
    Ok(many)
}

/// Whether no dictionary can hold the texts: they are too many, or one is too long.
fn are_too_many(alloc: Global, texts: &[&str]) -> Result<bool, AllocError>
    ensures { IfOk result (λ many. IsTrue many ↔ (fits_dictionary (map (λ t. t.now) texts.now) ≡ false)) }
{
    if !are_short(texts) {
        return Ok(true);
    }
    match distinct_of(alloc, texts)? {
        None => Ok(true),
        Some(_) => Ok(false),
    }
}

pub(crate) fn are_short(texts: &[&str]) -> bool
    ensures { result ≡ list_all (λ t. is_short t.now) texts.now }
{
    texts.iter().all(|text| text.len() <= MAX_VALUE_LEN)
}
