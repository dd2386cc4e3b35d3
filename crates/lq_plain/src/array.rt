//! Formats JSON arrays.
ghost use Rattle.std.specs.Prelude.{◌≡◌, ◌++◌, IfOk, OnOk, map, string_bytes};
ghost use Rattle.std.specs.List.{join_with_byte};
ghost use Rattle.json.specs.Print.{quoted};
ghost use Rattle.lq_ast.specs.Statistics.{array_text};

use std::alloc::{AllocError, Global};
use stream_label::push_quoted;
use vl_row::Text;

/// Returns the JSON array of some texts, or an empty text if there are none.
pub(crate) fn array_text(alloc: Global, texts: &[Text]) -> Result<Text, AllocError>
    ensures { IfOk result (λ made. made ≡ array_text texts.now) }
{
    let mut made = String::new(alloc);
    match texts {
        [] => Ok(Text::new()),
        [_, ..] => {
            made.push('[')?;
            push_joined(alloc, texts, &mut made)?;
            made.push(']')?;
            Text::try_of(alloc, made.as_str())
        }
    }
}

/// Appends the texts as JSON strings, separated by commas.
fn push_joined(alloc: Global, texts: &[Text], out: &mut String) -> Result<(), AllocError>
    ensures { OnOk result (string_bytes out.new ≡ string_bytes out.old ++ join_with_byte 44 (map quoted texts.now)) }
{
    match texts {
        [] => Ok(()),
        [text] => push_quoted(alloc, text.as_str(), out),
        [text, others @ ..] => {
            push_quoted(alloc, text.as_str(), out)?;
            out.push(',')?;
            push_joined(alloc, others, out)
        }
    }
}
