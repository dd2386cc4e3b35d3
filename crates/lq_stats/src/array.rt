//! JSON arrays of texts.
ghost use Rattle.std.specs.Prelude.{◌≡◌, ◌++◌, ◌∷◌, IfOk, OnOk, map, string_bytes};
ghost use Rattle.json.specs.Print.{quoted};
ghost use Rattle.lq_ast.specs.Statistics.{array_text};

use std::alloc::{AllocError, Global};
use stream_label::push_quoted;

/// Returns the JSON array of some texts; no text where there are none.
pub(crate) fn array_text(alloc: Global, texts: &[&str]) -> Result<String, AllocError>
    ensures { IfOk result (λ text. string_bytes text ≡ array_text (map (λ text. text.now) texts.now)) }
{
    let mut text = String::new(alloc);
    let [first, others @ ..] = texts else {
        return Ok(text);
    };
    text.push_str("[")?;
    push_quoted(alloc, first, &mut text)?;
    let mut left = others;
    while let [one, later @ ..] = left {
        push_item(alloc, one, &mut text)?;
        left = later;
    }
    text.push_str("]")?;
    Ok(text)
}

/// Appends a comma and a text in quotes.
fn push_item(alloc: Global, item: &str, out: &mut String) -> Result<(), AllocError>
    ensures { OnOk result (string_bytes out.new ≡ string_bytes out.old ++ 44 ∷ quoted item.now) }
{
    out.push(',')?;
    push_quoted(alloc, item, out)
}
