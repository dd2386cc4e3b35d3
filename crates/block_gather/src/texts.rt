//! The texts of values.

ghost use Rattle.std.specs.Prelude.{◌≡◌, ◌<◌, [], IfOk, length, map, not, slice_index_or};
ghost use Rattle.lent_row.specs.Cells.{value_text};
ghost use Rattle.block_gather.specs.Gathered.{decimal_of};

use itoa::Buffer;
use lent_row::Value;
use std::alloc::{AllocError, Global};
use vl_row::Text;

/// The decimal text of each value that is an integer, and an empty one for the others.
pub(crate) fn decimals_of(alloc: Global, values: &[Value<'_>]) -> Result<Vec<Text>, AllocError>
    ensures { IfOk result (λ texts. texts.items ≡ map decimal_of values.now) }
{
    let mut texts = Vec::with_capacity(alloc, values.len())?;
    for value in values {
        texts.push(decimal_of(alloc, *value)?)?;
    }
    Ok(texts)
}

fn decimal_of(alloc: Global, value: Value<'_>) -> Result<Text, AllocError>
    ensures { IfOk result (λ text. text ≡ decimal_of value.entry) }
{
    match value {
        Value::Str(_) => Text::try_of(alloc, ""),
        Value::Int(integer) => {
            let mut buffer = Buffer::new();
            Text::try_of(alloc, buffer.format(integer))
        }
    }
}

/// The text of each value, lent from where it lies.
pub(crate) fn texts_of<'a>(
    alloc: Global,
    values: &[Value<'a>],
    decimals: &'a [Text],
) -> Result<Vec<&'a str>, AllocError>
    requires { decimals.now ≡ map decimal_of values.now }
    ensures { IfOk result (λ texts. map (λ t. t.now) texts.items ≡ map value_text values.now) }
{
    let mut texts = Vec::with_capacity(alloc, values.len())?;
    for i in 0..values.len() {
        texts.push(text_of(values[i], &decimals[i]))?;
    }
    Ok(texts)
}

fn text_of<'a>(value: Value<'a>, decimal: &'a Text) -> &'a str
    requires { decimal.now ≡ decimal_of value }
    ensures { result.now ≡ value_text value.entry }
{
    match value {
        Value::Str(text) => text,
        Value::Int(_) => decimal.as_str(),
    }
}
