//! Reading the body of a column.

ghost use Rattle.std.specs.Prelude.{◌≡◌, ◌<◌, ◌^◌, IfOk, true, nat_lt, length, map, sum_by};
ghost use Rattle.std.specs.Int.{w8, w16};
ghost use Rattle.std.specs.List.{list_all};
ghost use Rattle.byte_format.specs.Format.{front, many};
ghost use Rattle.byte_format.specs.Gives.{Gives};
ghost use Rattle.byte_format.specs.Items.{number, number_that, text};
ghost use Rattle.block_column.specs.Body.{body, code_below, constant_body, dictionary_body, dictionary_steps};
ghost use Rattle.block_column.specs.Body.{integers_body, kind_item};
ghost use Rattle.block_column.specs.Cells.{IsCells, texts_of};
ghost use Rattle.col_codec.specs.Texts.{texts};

use crate::cells::Cells;
use byte_format::{Stop, take_text16, take_text32, take_u8};
use col_codec::{IntColumn, TextColumn};
use std::alloc::Global;
use vl_row::Text;

/// The kind of a column.
pub fn take_kind(bytes: &[u8]) -> Result<(u8, &[u8]), Stop>
    ensures { Gives (λ x. (x.0, x.1.now)) result (front kind_item bytes.now) }
{
    let (kind, rest) = take_u8(bytes)?;
    if kind > 3 {
        return Err(Stop::Left(bytes.len()));
    }
    Ok((kind, rest))
}

/// The body of a column of this kind, and the bytes after it.
pub(crate) fn take_cells(
    alloc: Global,
    rows: usize,
    kind: u8,
    bytes: &[u8],
) -> Result<(Cells, &[u8]), Stop>
    ensures value { Gives (λ x. (texts_of x.0, x.1.now)) result (front (body rows kind) bytes.now) }
    ensures codes { IfOk result (λ x. IsCells x.0) }
    ensures count { IfOk result (λ x. length (texts_of x.0) ≡ rows) }
{
    match kind {
        0 => take_constant(alloc, rows, bytes),
        1 => take_integers(alloc, rows, bytes),
        2 => take_dictionary(alloc, rows, bytes),
        _ => take_plain(alloc, rows, bytes),
    }
}

fn take_constant(alloc: Global, rows: usize, bytes: &[u8]) -> Result<(Cells, &[u8]), Stop>
    ensures value { Gives (λ x. (texts_of x.0, x.1.now)) result (front (constant_body rows) bytes.now) }
    ensures codes { IfOk result (λ x. IsCells x.0) }
    ensures count { IfOk result (λ x. length (texts_of x.0) ≡ rows) }
{
    let (text, rest) = take_text32(bytes)?;
    Ok((Cells::Constant(Text::try_of(alloc, text)?, rows), rest))
}

fn take_integers(alloc: Global, rows: usize, bytes: &[u8]) -> Result<(Cells, &[u8]), Stop>
    ensures value { Gives (λ x. (texts_of x.0, x.1.now)) result (front (integers_body rows) bytes.now) }
    ensures codes { IfOk result (λ x. IsCells x.0) }
    ensures count { IfOk result (λ x. length (texts_of x.0) ≡ rows) }
{
    let (ints, rest) = IntColumn::take(alloc, rows, bytes)?;
    Ok((Cells::Integers(ints), rest))
}

fn take_plain(alloc: Global, rows: usize, bytes: &[u8]) -> Result<(Cells, &[u8]), Stop>
    ensures value { Gives (λ x. (texts_of x.0, x.1.now)) result (front (texts rows) bytes.now) }
    ensures codes { IfOk result (λ x. IsCells x.0) }
    ensures count { IfOk result (λ x. length (texts_of x.0) ≡ rows) }
{
    let (texts, rest) = TextColumn::take(alloc, rows, bytes)?;
    Ok((Cells::Plain(texts), rest))
}

fn take_dictionary(alloc: Global, rows: usize, bytes: &[u8]) -> Result<(Cells, &[u8]), Stop>
    ensures value { Gives (λ x. (texts_of x.0, x.1.now)) result (front (dictionary_body rows) bytes.now) }
    ensures codes { IfOk result (λ x. IsCells x.0) }
    ensures count { IfOk result (λ x. length (texts_of x.0) ≡ rows) }
{
    take_steps(alloc, rows, bytes)
}

#[tactic(auto, unfolding(crate::specs::Body::dictionary_steps))]
fn take_steps(alloc: Global, rows: usize, bytes: &[u8]) -> Result<(Cells, &[u8]), Stop>
    ensures value { Gives (λ x. (texts_of x.0, x.1.now)) result (dictionary_steps rows bytes.now) }
    ensures codes { IfOk result (λ x. IsCells x.0) }
    ensures count { IfOk result (λ x. length (texts_of x.0) ≡ rows) }
{
    let (count, rest) = take_u8(bytes)?;
    let (held, rest) = take_held(alloc, count, rest)?;
    let (codes, rest) = take_codes(alloc, rows, count, rest)?;
    Ok((Cells::Dictionary(held, codes), rest))
}

/// This many texts, each after its length.
fn take_held(alloc: Global, count: u8, bytes: &[u8]) -> Result<(TextColumn, &[u8]), Stop>
    ensures value { Gives (λ x. (x.0, x.1.now)) result (front (many count (text w16)) bytes.now) }
    ensures count { IfOk result (λ x. length x.0 ≡ count) }
{
    let (texts, rest) = take_lent(alloc, count, bytes)?;
    let held = TextColumn::try_of(alloc, texts.as_slice())?;
    Ok((held, rest))
}

/// The same, lent from the bytes.
fn take_lent(alloc: Global, count: u8, bytes: &[u8]) -> Result<(Vec<&str>, &[u8]), Stop>
    ensures value { Gives (λ x. (map (λ t. t.now) x.0.items, x.1.now)) result
        (front (many count (text w16)) bytes.now) }
    ensures count { IfOk result (λ x. length x.0.items ≡ count) }
    ensures small { IfOk result (λ x. sum_by (λ t. length t.now) x.0.items < 2 ^ 32) }
{
    let mut texts = Vec::with_capacity(alloc, count as usize)?;
    let mut rest = bytes;
    for _ in 0..count {
        let (text, after) = take_short(rest)?;
        texts.push(text)?;
        rest = after;
    }
    Ok((texts, rest))
}

/// A text after its length in two bytes.
fn take_short(bytes: &[u8]) -> Result<(&str, &[u8]), Stop>
    ensures value { Gives (λ x. (x.0.now, x.1.now)) result (front (text w16) bytes.now) }
    ensures short { IfOk result (λ x. length x.0.now < 65_536) }
{
    let (text, rest) = take_text16(bytes)?;
    Ok((text, rest))
}

/// A code below the count.
fn take_code(count: u8, bytes: &[u8]) -> Result<(u8, &[u8]), Stop>
    ensures value { Gives (λ x. (x.0, x.1.now)) result (front (code_below count) bytes.now) }
    ensures below { IfOk result (λ x. nat_lt x.0 count ≡ true) }
{
    let (code, rest) = take_u8(bytes)?;
    if code >= count {
        return Err(Stop::Left(bytes.len()));
    }
    Ok((code, rest))
}

/// This many codes below the count. They are read one by one only if they are not all there, or one is too high.
fn take_codes(alloc: Global, rows: usize, count: u8, bytes: &[u8]) -> Result<(Vec<u8>, &[u8]), Stop>
    ensures value { Gives (λ x. (x.0.items, x.1.now)) result (front (many rows (code_below count)) bytes.now) }
    ensures below { IfOk result (λ x. list_all (λ code. nat_lt code count) x.0.items ≡ true) }
    ensures count { IfOk result (λ x. length x.0.items ≡ rows) }
{
    if bytes.len() < rows {
        return take_each_code(alloc, rows, count, bytes);
    }
    let (codes, rest) = bytes.split_at(rows);
    if !are_below(codes, count) {
        return take_each_code(alloc, rows, count, bytes);
    }
    Ok((codes.to_vec(alloc)?, rest))
}

fn are_below(codes: &[u8], count: u8) -> bool
    ensures { result ≡ list_all (λ code. nat_lt code count) codes.now }
{
    codes.iter().all(|code| *code < count)
}

/// The same, one by one. Reserves memory only for those that the bytes can hold.
fn take_each_code(
    alloc: Global,
    rows: usize,
    count: u8,
    bytes: &[u8],
) -> Result<(Vec<u8>, &[u8]), Stop>
    ensures value { Gives (λ x. (x.0.items, x.1.now)) result (front (many rows (code_below count)) bytes.now) }
    ensures below { IfOk result (λ x. list_all (λ code. nat_lt code count) x.0.items ≡ true) }
    ensures count { IfOk result (λ x. length x.0.items ≡ rows) }
{
    let mut codes = Vec::with_capacity(alloc, rows.min(bytes.len()))?;
    let mut rest = bytes;
    for _ in 0..rows {
        let (code, after) = take_code(count, rest)?;
        codes.push(code)?;
        rest = after;
    }
    Ok((codes, rest))
}
