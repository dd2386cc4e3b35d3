//! The lines of rows, in the plainest way. It is slow, and there to be compared with.
ghost use Rattle.std.specs.Prelude.{◌≡◌, [], ◌∷◌, ◌++◌, cond, IfOk, OnOk, OnErr, string_bytes};
ghost use Rattle.log_model.specs.Print.{line_text, member_text};
ghost use Rattle.log_model.specs.Row.{record_of};

use std::alloc::{AllocError, Global};
use stream_label::{label_text, push_quoted, stream_id};
use time_text::plain::write_moment;
use vl_row::{Field, FieldList, Row, Text};

/// Appends the row's record as one JSON object with its keys in byte order, and a line feed.
pub(crate) fn write_row(alloc: Global, row: &Row, out: &mut Vec<u8>) -> Result<(), AllocError>
    ensures ok { OnOk result (out.new.items ≡ out.old.items ++ line_text (record_of row.now)) }
    ensures err { OnErr result (out.new.items ≡ out.old.items) }
{
    let record = record(alloc, row)?;
    let line = line(alloc, record.as_slice())?;
    out.extend_from_slice(line.as_bytes())
}

/// Returns the row's fields, and the computed ones set among them.
fn record(alloc: Global, row: &Row) -> Result<FieldList, AllocError>
    ensures { IfOk result (λ fields. fields ≡ record_of row.now) }
{
    let mut stream = Text::new();
    label_text(alloc, row.stream(), &mut stream)?;
    let mut id = Text::new();
    stream_id(alloc, row.stream(), &mut id)?;
    let mut moment = Text::new();
    write_moment(alloc, row.time(), &mut moment)?;
    let mut record = row.fields().try_copy(alloc)?;
    record.set(alloc, "_stream", stream.as_str())?;
    record.set(alloc, "_stream_id", id.as_str())?;
    record.set(alloc, "_time", moment.as_str())?;
    Ok(record)
}

/// Returns the fields as a line.
fn line(alloc: Global, fields: &[Field]) -> Result<String, AllocError>
    ensures { IfOk result (λ line. string_bytes line ≡ line_text fields.now) }
{
    let mut line = String::from_str(alloc, "{")?;
    for (place, field) in fields.iter().enumerate() {
        push_member(alloc, place > 0, field, &mut line)?;
    }
    line.push_str("}\n")?;
    Ok(line)
}

/// Appends a member, with a comma before it if it comes later than another.
fn push_member(
    alloc: Global,
    later: bool,
    field: &Field,
    out: &mut String,
) -> Result<(), AllocError>
    ensures { OnOk result (string_bytes out.new
        ≡ string_bytes out.old ++ (cond later (44 ∷ []) [] ++ member_text field.now)) }
{
    if later {
        out.push(',')?;
    }
    push_quoted(alloc, field.name(), out)?;
    out.push(':')?;
    push_quoted(alloc, field.value(), out)
}
