//! Texts in value order.
ghost use Rattle.std.specs.Prelude.{◌≡◌, IfOk, map};
ghost use Rattle.log_model.specs.Order.{value_cmp};
ghost use Rattle.lq_ast.specs.Tuples.{sorted_by};
ghost use Rattle.lq_stats.specs.Keyed.{keyed_text};

use crate::keyed::KeyedText;
use std::alloc::{AllocError, Global};
use vl_row::{Text, ValueKey};

/// Returns the texts in value order.
pub(crate) fn in_value_order<'a>(
    alloc: Global,
    texts: &'a [Text],
) -> Result<Vec<&'a str>, AllocError>
    ensures { IfOk result (λ ordered. map (λ text. text.now) ordered.items ≡ sorted_by value_cmp texts.entry.now) }
{
    let mut keyed = all_keyed(alloc, texts)?;
    keyed.sort_by(|a, b| a.key.cmp(&b.key))?;
    texts_of(alloc, keyed.as_slice())
}

fn all_keyed<'a>(alloc: Global, texts: &'a [Text]) -> Result<Vec<KeyedText<'a>>, AllocError>
    ensures { IfOk result (λ keyed. map keyed_text keyed.items ≡ texts.entry.now) }
{
    let mut keyed = Vec::with_capacity(alloc, texts.len())?;
    for text in texts {
        let text = text.as_str();
        let key = ValueKey::of(text);
        keyed.push(KeyedText { key, text })?;
    }
    Ok(keyed)
}

fn texts_of<'a>(alloc: Global, keyed: &[KeyedText<'a>]) -> Result<Vec<&'a str>, AllocError>
    ensures { IfOk result (λ texts. map (λ text. text.now) texts.items ≡ map keyed_text keyed.now) }
{
    let mut texts = Vec::with_capacity(alloc, keyed.len())?;
    for one in keyed {
        texts.push(one.text)?;
    }
    Ok(texts)
}
