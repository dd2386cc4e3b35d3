//! Records as lines.
ghost use Rattle.std.specs.Prelude.{◌≡◌, ◌++◌, [], IfOk, IsUtf8, OnErr, OnOk, string_bytes};
ghost use Rattle.log_model.specs.Print.{lines_text, object_text};

use crate::members::write_members;
use crate::record::LINE_BYTES;
use json::Writer;
use std::alloc::{AllocError, Global};
use vl_row::{FieldList, Recs, Text};

/// Appends each record as a compact JSON object with its keys in byte order and its values as texts, and a line feed.
/// If allocation fails, `out` is unchanged.
pub fn lines(alloc: Global, r: &Recs, out: &mut Text) -> Result<(), AllocError>
    ensures ok { OnOk result (out.new ≡ out.old ++ lines_text r.now) }
    ensures err { OnErr result (out.new ≡ out.old) }
{
    let text = text_of(alloc, r.as_slice())?;
    out.push_str(alloc, text.as_str())
}

fn text_of(alloc: Global, records: &[FieldList]) -> Result<String, AllocError>
    ensures { IfOk result (λ text. string_bytes text ≡ lines_text records.now) }
{
    let mut text = String::new(alloc);
    let mut line = Vec::with_capacity(alloc, LINE_BYTES)?;
    for record in records {
        line.clear();
        line = printed(line, record)?;
        text.push_str(unsafe { std::str::from_utf8_unchecked(&line) })?;
        text.push('\n')?;
    }
    Ok(text)
}

/// Returns the record as an object, in the memory of an empty buffer.
fn printed(line: Vec<u8>, r: &FieldList) -> Result<Vec<u8>, AllocError>
    requires { line.items ≡ [] }
    ensures text { IfOk result (λ line. line.items ≡ object_text r.now) }
    ensures utf8 { IfOk result (λ line. IsUtf8 line.items) }
{
    let mut writer = Writer::new(line);
    writer.begin_object()?;
    write_members(&mut writer, r.as_slice())?;
    writer.end_object()?;
    Ok(writer.into_inner())
}
