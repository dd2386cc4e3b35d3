//! From a message to its fields.
ghost use Rattle.std.specs.Prelude.{◌≡◌, ◌≢◌, ℕ, ℤ, List, [], Option, IfOk, IfErr, OnOk, codes};
ghost use Rattle.std.specs.Str.Lossy.{utf8_lossy};
ghost use Rattle.log_model.specs.Field.{Field as Pair, set_all, set_field};
ghost use Rattle.syslog_in.specs.Message.{IsMessage, header_fields, unless_nil};
ghost use Rattle.syslog_in.specs.NamesRead.{texts_of};
ghost use Rattle.syslog_in.specs.HeaderReading.{msg_at};
ghost use Rattle.syslog_in.specs.Message.{msg_bytes};
ghost use Rattle.syslog_in.specs.Parts.{IsMessageFault};

use crate::data::{set_bytes, set_data};
use crate::fault::MessageFault;
use crate::header::{Names, read_header};
use field_setter::FieldSetter;
use itoa::Buffer;
use std::alloc::{AllocError, Global};
use vl_row::FieldList;

/// How many fields are expected of a message.
const ROOM: usize = 12;

/// A message: its moment in nanoseconds since 1970-01-01T00:00:00Z, unless its timestamp is nil, and its fields.
#[derive(Drop)]
pub struct SyslogRow {
    pub time: Option<i64>,
    pub fields: FieldList,
}

/// Returns the name, or nothing where it is nil.
fn unless_nil(name: &str) -> &str
    ensures { result.now ≡ unless_nil name.now }
{
    if name == "-" { "" } else { name }
}

/// Sets the fields of the header.
fn set_header(
    alloc: Global,
    priority: u8,
    names: &Names<'_>,
    fields: &mut FieldSetter,
) -> Result<(), AllocError>
    ensures { OnOk result (fields.new ≡ set_all fields.old (header_fields priority (texts_of names.now))) }
{
    let mut digits = Buffer::new();
    fields.set(alloc, "app_name", unless_nil(names.app_name))?;
    fields.set(alloc, "facility", digits.format(priority / 8))?;
    fields.set(alloc, "format", "rfc5424")?;
    fields.set(alloc, "hostname", unless_nil(names.hostname))?;
    fields.set(alloc, "msg_id", unless_nil(names.msg_id))?;
    fields.set(alloc, "priority", digits.format(priority))?;
    fields.set(alloc, "proc_id", unless_nil(names.proc_id))?;
    fields.set(alloc, "severity", digits.format(priority % 8))
}

/// Returns no fields, with room for those of a message.
fn no_fields(alloc: Global) -> Result<FieldSetter, AllocError>
    ensures { IfOk result (λ fields. fields ≡ []) }
{
    let fields = FieldList::with_room(alloc, ROOM)?;
    Ok(FieldSetter::new(alloc, fields))
}

/// Returns the message proper, of what follows structured data: without the blank, and without the mark of UTF-8.
fn text_of(rest: &[u8]) -> &[u8]
    ensures { result.now ≡ msg_bytes (msg_at rest.now) }
{
    match rest {
        [_, 0xef, 0xbb, 0xbf, text @ ..] => text,
        [_, text @ ..] => text,
        [] => rest,
    }
}

/// Returns the moment and the fields of a message (RFC 5424, section 6). Fields that are nil or empty are left out, and
/// of parameters with one name the later counts. Bytes that are no UTF-8 become U+FFFD.
pub fn read_message(alloc: Global, m: &[u8]) -> Result<SyslogRow, MessageFault>
    ensures read { IfOk result (λ row. IsMessage m.now row.time row.fields) }
    // Bytes are one message at most.
    ensures only { IfOk result (λ row. (time : Option ℤ) (fields : List Pair) → IsMessage m.now time fields
        → (time ≡ row.time) × (fields ≡ row.fields)) }
    // What is refused is not a message, unless memory ran out.
    ensures none { IfErr result (λ fault. fault ≢ MessageFault.Memory
        → (time : Option ℤ) (fields : List Pair) → IsMessage m.now time fields → ⊥) }
    ensures fault { IfErr result (λ fault. IsMessageFault fault m.now) }
{
    let (header, rest) = read_header(m)?;
    let mut fields = no_fields(alloc)?;
    set_header(alloc, header.priority, &header.names, &mut fields)?;
    let Some(after) = set_data(alloc, rest, &mut fields)? else {
        return Err(MessageFault::BadData {
            at: m.len() - rest.len(),
        });
    };
    set_bytes(alloc, "_msg", text_of(after), &mut fields)?;
    let all = fields.finish()?;
    Ok(SyslogRow {
        time: header.time,
        fields: all,
    })
}
