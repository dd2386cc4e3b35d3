//! The distinct values that a column holds.

ghost use Rattle.std.specs.Prelude.{◌≡◌, ◌<◌, ◌^◌, ◌∷◌, [], IfOk, IfSome, is_some, length, map, sum_by};
ghost use Rattle.block_column.specs.Cells.{IsEach, IsNarrow, kind_in, texts_of};
ghost use Rattle.block_model.specs.Distinct.{distinct};
ghost use Rattle.block_column.specs.Kinds.{is_held_once};

use crate::cells::Cells;
use col_codec::TextColumn;
use std::alloc::{AllocError, Global};

/// The distinct values, each once, if equal values are held once, and else none.
pub(crate) fn members_of(alloc: Global, cells: &Cells) -> Result<Option<Vec<&str>>, AllocError>
    requires narrow { IsNarrow cells.now }
    requires each { IsEach cells.now }
    ensures once { IfOk result (λ found. is_some found ≡ is_held_once (kind_in cells.now)) }
    ensures each { IfOk result (λ found. IfSome found (λ texts.
        map (λ t. t.now) texts.items ≡ distinct (texts_of cells.now))) }
    ensures small { IfOk result (λ found. IfSome found (λ texts. sum_by (λ t. length t.now) texts.items < 2 ^ 32)) }
{
    match cells {
        Cells::Constant(text, _) => {
            let alone = one(alloc, text.as_str())?;
            Ok(Some(alone))
        }
        Cells::Dictionary(texts, _) => {
            let listed = each_of(alloc, texts)?;
            Ok(Some(listed))
        }
        _ => Ok(None),
    }
}

fn one(alloc: Global, text: &str) -> Result<Vec<&str>, AllocError>
    ensures { IfOk result (λ texts. map (λ t. t.now) texts.items ≡ text.now ∷ []) }
{
    let mut texts = Vec::with_capacity(alloc, 1)?;
    texts.push(text)?;
    Ok(texts)
}

/// The texts of a column.
pub(crate) fn each_of(alloc: Global, texts: &TextColumn) -> Result<Vec<&str>, AllocError>
    ensures { IfOk result (λ lent. map (λ t. t.now) lent.items ≡ texts.now) }
{
    let mut lent = Vec::with_capacity(alloc, texts.len())?;
    for i in 0..texts.len() {
        lent.push(texts.get(i))?;
    }
    Ok(lent)
}
