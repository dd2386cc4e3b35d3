//! Values whose texts can be lent.

ghost use Rattle.std.specs.Prelude.{◌≡◌, IfOk, length, map, nat_lt, replicate, true};
ghost use Rattle.std.specs.Fmt.{signed_decimal};
ghost use Rattle.std.specs.List.{list_all};
ghost use Rattle.block_model.specs.Distinct.{text_at};
ghost use Rattle.block_column.specs.Cells.{IsCells, decimals_in, texts_of};

use crate::cells::{Cells, coded};
use crate::codes::lent;
use crate::members::each_of;
use col_codec::{IntColumn, TextColumn};
use itoa::Buffer;
use std::alloc::{AllocError, Global};
use std::marker::Model;
use vl_row::Text;

/// The values of a column, with the decimal texts of the integers, if these are held.
///
/// A contract sees it as the list of the values, each as the bytes of its text.
#[derive(Drop)]
pub struct RowTexts<'a> {
    cells: &'a Cells,
    decimals: Vec<Text>,
}

impl<'a> Model for RowTexts<'a> {
    ghost use Rattle.std.specs.Prelude.{◌≡◌, List, ℕ};
    ghost use Rattle.block_column.specs.Cells.{IsCells, decimals_in, texts_of};

    ghost Value = { List (List ℕ) };

    ghost view = { λ s. texts_of s.cells.now };

    ghost invariant = { λ s. IsCells s.cells.now × (s.decimals.items ≡ decimals_in s.cells.now) };
}

impl<'a> RowTexts<'a> {
    pub(crate) fn try_of(alloc: Global, cells: &'a Cells) -> Result<RowTexts<'a>, AllocError>
        requires { IsCells cells.now }
        ensures { IfOk result (λ texts. texts ≡ texts_of cells.now) }
    {
        let decimals = decimals_of(alloc, cells)?;
        Ok(RowTexts { cells, decimals })
    }

    /// The text of each row.
    pub fn texts(&self, alloc: Global) -> Result<Vec<&str>, AllocError>
        ensures { IfOk result (λ texts. map (λ t. t.now) texts.items ≡ self.now) }
    {
        texts_of(alloc, self.cells, self.decimals.as_slice())
    }
}

/// The text of each row.
fn texts_of<'a>(
    alloc: Global,
    cells: &'a Cells,
    decimals: &'a [Text],
) -> Result<Vec<&'a str>, AllocError>
    requires codes { IsCells cells.now }
    requires decimals { decimals.now ≡ decimals_in cells.now }
    ensures { IfOk result (λ texts. map (λ t. t.now) texts.items ≡ texts_of cells.now) }
{
    match cells {
        Cells::Constant(text, rows) => {
            let alike = repeated(alloc, text.as_str(), *rows)?;
            Ok(alike)
        }
        Cells::Integers(_) => {
            let spelled = lent(alloc, decimals)?;
            Ok(spelled)
        }
        Cells::Dictionary(texts, codes) => {
            let listed = coded_texts(alloc, texts, codes.as_slice())?;
            Ok(listed)
        }
        Cells::Plain(texts) => {
            let all = each_of(alloc, texts)?;
            Ok(all)
        }
    }
}

fn repeated(alloc: Global, text: &str, rows: usize) -> Result<Vec<&str>, AllocError>
    ensures { IfOk result (λ texts. map (λ t. t.now) texts.items ≡ replicate rows text.now) }
{
    let texts = vec![in alloc; text; rows]?;
    Ok(texts)
}

/// The texts that codes stand for.
fn coded_texts<'a>(
    alloc: Global,
    texts: &'a TextColumn,
    codes: &[u8],
) -> Result<Vec<&'a str>, AllocError>
    requires { list_all (λ code. nat_lt code (length texts.now)) codes.now ≡ true }
    ensures { IfOk result (λ lent. map (λ t. t.now) lent.items ≡ map (text_at texts.now) codes.now) }
{
    let mut lent = Vec::with_capacity(alloc, codes.len())?;
    for i in 0..codes.len() {
        lent.push(coded(texts, codes, i))?;
    }
    Ok(lent)
}

/// The decimal texts of the integers, if integers are held, and else none.
fn decimals_of(alloc: Global, cells: &Cells) -> Result<Vec<Text>, AllocError>
    ensures { IfOk result (λ texts. texts.items ≡ decimals_in cells.now) }
{
    match cells {
        Cells::Integers(ints) => decimal_texts(alloc, ints),
        _ => Ok(Vec::new(alloc)),
    }
}

fn decimal_texts(alloc: Global, ints: &IntColumn) -> Result<Vec<Text>, AllocError>
    ensures { IfOk result (λ texts. texts.items ≡ map signed_decimal ints.now) }
{
    let mut texts = Vec::with_capacity(alloc, ints.len())?;
    let mut buffer = Buffer::new();
    for i in 0..ints.len() {
        texts.push(Text::try_of(alloc, buffer.format(ints.get(i)))?)?;
    }
    Ok(texts)
}
