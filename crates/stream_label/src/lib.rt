//! Formats a stream's labels, such as `{a="x",b="y"}`, and computes the stream's id.
//!
//! `label_text` and `stream_id` are the two public calls; `push_quoted` prints one JSON string. The formats are defined
//! in `log_model`'s `Stream`; `proofs/Joined` has the loop over labels.
#![tactic(auto)]

ghost use Rattle.std.specs.Prelude.{◌≡◌, [], ◌∷◌, ◌++◌, cond, IfOk, OnOk, OnErr, string_bytes};
ghost use Rattle.json.specs.Print.{quoted};
ghost use Rattle.log_model.specs.Stream.{label_text, labelled, stream_id};

use serde_json::Value;
use sha2::{Digest, Sha256};
use std::alloc::{AllocError, Global};
use vl_row::{Field, Stream, Text};

/// The number of digest bytes that make the id.
const ID_BYTES: usize = 16;

/// Appends the stream's labels, such as `{a="x",b="y"}`. If allocation fails, `out` is unchanged.
pub fn label_text(alloc: Global, s: &Stream, out: &mut Text) -> Result<(), AllocError>
    ensures ok { OnOk result (out.new ≡ out.old ++ label_text s.now) }
    ensures err { OnErr result (out.new ≡ out.old) }
{
    let text = format_labels(alloc, s.as_slice())?;
    out.push_str(alloc, text.as_str())
}

/// Appends the stream's id: the first half of the SHA-256 of its labels, in hexadecimal. If allocation fails, `out` is
/// unchanged.
#[tactic(auto, unfolding(log_model::specs::Stream::stream_id))]
pub fn stream_id(alloc: Global, s: &Stream, out: &mut Text) -> Result<(), AllocError>
    ensures ok { OnOk result (out.new ≡ out.old ++ stream_id s.now) }
    ensures err { OnErr result (out.new ≡ out.old) }
{
    let text = format_labels(alloc, s.as_slice())?;
    let id = hex::encode(alloc, &Sha256::digest(text.as_bytes())[..ID_BYTES])?;
    out.push_str(alloc, id.as_str())
}

fn format_labels(alloc: Global, labels: &[Field]) -> Result<String, AllocError>
    ensures { IfOk result (λ text. string_bytes text ≡ label_text labels.now) }
{
    let mut text = String::from_str(alloc, "{")?;
    for (place, label) in labels.iter().enumerate() {
        push_label(alloc, place > 0, label, &mut text)?;
    }
    text.push('}')?;
    Ok(text)
}

/// Appends a label, after a comma unless it is the first.
fn push_label(
    alloc: Global,
    needs_comma: bool,
    label: &Field,
    out: &mut String,
) -> Result<(), AllocError>
    ensures { OnOk result (string_bytes out.new
        ≡ string_bytes out.old ++ (cond needs_comma (44 ∷ []) [] ++ labelled label.now)) }
{
    if needs_comma {
        out.push(',')?;
    }
    out.push_str(label.name())?;
    out.push('=')?;
    push_quoted(alloc, label.value(), out)
}

/// Appends a text as a JSON string with the shortest escapes (RFC 8259, section 7). If allocation fails, part of it may
/// have been appended.
pub fn push_quoted(alloc: Global, text: &str, out: &mut String) -> Result<(), AllocError>
    ensures { OnOk result (string_bytes out.new ≡ string_bytes out.old ++ quoted text.now) }
{
    let value = Value::String(String::from_str(alloc, text)?);
    let printed = value.to_string(alloc)?;
    out.push_str(printed.as_str())
}
