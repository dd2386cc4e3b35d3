//! Structured data, whose parameters become fields (RFC 5424, section 6.3).
ghost use Rattle.std.specs.Prelude.{◌≡◌, ◌<◌, ◌≤◌, ◌++◌, ◌∷◌, IfOk, OnOk, length};
ghost use Rattle.std.specs.Option.{option_map};
ghost use Rattle.std.specs.List.{prefix_len};
ghost use Rattle.std.specs.Str.Lossy.{utf8_lossy};
ghost use Rattle.log_model.specs.Field.{set_field};
ghost use Rattle.syslog_in.specs.Message.{is_name_byte, is_special, data_fields};
ghost use Rattle.syslog_in.specs.DataReading.{name_len, name_at, is_plain, escaped_text, value_at, ending_at};
ghost use Rattle.syslog_in.specs.DataReading.{GivesValue, SetsValue};
ghost use Rattle.syslog_in.specs.DataReading.{FindsOne, FindsAny, SpellsParam, param_fields, SpellsElement};
ghost use Rattle.syslog_in.specs.DataReading.{element_fields, SpellsElements, SpellsParameters, SpellsData};
ghost use Rattle.syslog_in.specs.DataReading.{SpellsParams};
ghost use Rattle.syslog_in.specs.DataReading.{params_fields, is_end};
ghost use Rattle.syslog_in.specs.HeaderReading.{past};
ghost use Rattle.syslog_in.specs.Endings.{ending_of};

use crate::part::past;
use field_setter::FieldSetter;
use memchr::memchr3;
use std::alloc::{AllocError, Global};
use vl_row::Text;

/// Sets a field. Bytes that are no UTF-8 become U+FFFD.
pub(crate) fn set_bytes(
    alloc: Global,
    name: &str,
    value: &[u8],
    fields: &mut FieldSetter,
) -> Result<(), AllocError>
    requires { 0 < length name.now }
    ensures { OnOk result (fields.new ≡ set_field fields.old name.now (utf8_lossy value.now)) }
{
    if let Ok(text) = std::str::from_utf8(value) {
        return fields.set(alloc, name, text);
    }
    let text = String::from_utf8_lossy(alloc, value)?;
    fields.set(alloc, name, text.as_str())
}

fn is_name_byte(byte: u8) -> bool
    ensures { result ≡ is_name_byte byte }
{
    byte.is_ascii_graphic() && byte != b'=' && byte != b']' && byte != b'"'
}

fn name_len(text: &[u8]) -> usize
    ensures { result ≡ name_len text.now }
{
    text.iter().take_while(|byte| is_name_byte(**byte)).count()
}

/// Returns the name at the start, and what follows it.
#[tactic(auto, unfolding(crate::specs::DataReading::name_at))]
fn name_at(text: &[u8]) -> Option<(&str, &[u8])>
    ensures { option_map (λ x. (x.0.now, x.1.now)) result ≡ name_at text.now }
{
    let len = name_len(text);
    if len == 0 || len > 32 {
        return None;
    }
    let (name, rest) = text.split_at(len);
    Some((unsafe { std::str::from_utf8_unchecked(name) }, rest))
}

/// Returns how many bytes stand for themselves, up to the first quotation mark, backslash or bracket.
fn plain_len(text: &[u8]) -> usize
    ensures { result ≡ prefix_len is_plain text.now }
{
    match memchr3(b'"', b'\\', b']', text) {
        Some(end) => end,
        None => text.len(),
    }
}

/// What ends a run of such bytes.
#[derive(Clone, Copy)]
enum RunEnd<'a> {
    /// The quotation mark, and what follows it.
    Quote(&'a [u8]),
    /// A backslash, the byte after it, and what follows both.
    Escape(u8, &'a [u8]),
    /// What may not stand in a value.
    Nothing,
}

fn run_end(text: &[u8]) -> RunEnd<'_>
    ensures { ending_of result ≡ ending_at text.now }
{
    match text {
        [b'"', rest @ ..] => RunEnd::Quote(rest),
        [b'\\', byte, rest @ ..] => RunEnd::Escape(*byte, rest),
        _ => RunEnd::Nothing,
    }
}

fn is_special(byte: u8) -> bool
    ensures { result ≡ is_special byte }
{
    matches!(byte, b'"' | b'\\' | b']')
}

/// Appends what a backslash and this byte say.
fn push_escaped(byte: u8, out: &mut Vec<u8>) -> Result<(), AllocError>
    ensures { OnOk result (out.new.items ≡ out.old.items ++ escaped_text byte) }
{
    if !is_special(byte) {
        out.push(b'\\')?;
    }
    out.push(byte)?;
    Ok(())
}

/// Appends the value after its opening quotation mark, and gives what follows the closing one.
fn value<'a>(text: &'a [u8], out: &mut Vec<u8>) -> Result<Option<&'a [u8]>, AllocError>
    ensures { IfOk result (λ found. GivesValue (value_at text.now) out.old.items out.new.items
        (option_map (λ rest. rest.now) found)) }
{
    let mut rest = text;
    'runs: loop {
        let (run, after) = rest.split_at(plain_len(rest));
        out.extend_from_slice(run)?;
        match run_end(after) {
            RunEnd::Quote(end) => return Ok(Some(end)),
            RunEnd::Escape(byte, next) => {
                push_escaped(byte, out)?;
                rest = next;
            }
            RunEnd::Nothing => return Ok(None),
        }
    }
}

/// Returns the name of a parameter's field. Most are short, and take no memory of their own.
fn field_name(alloc: Global, id: &str, name: &str) -> Result<Text, AllocError>
    ensures { IfOk result (λ field. field ≡ id.now ++ 46 ∷ name.now) }
{
    let mut field = Text::try_of(alloc, id)?;
    field.push_str(alloc, ".")?;
    field.push_str(alloc, name)?;
    Ok(field)
}

/// Sets the field of this name to the value after its opening quotation mark, and gives what follows the closing one.
/// A value with a backslash is put together in `room`, any other is taken from where it stands.
fn set_value<'a>(
    alloc: Global,
    name: &str,
    text: &'a [u8],
    room: &mut Vec<u8>,
    fields: &mut FieldSetter,
) -> Result<Option<&'a [u8]>, AllocError>
    requires { 0 < length name.now }
    ensures { IfOk result (λ found. SetsValue (value_at text.now) name.now fields.old fields.new
        (option_map (λ rest. rest.now) found)) }
{
    let (run, after) = text.split_at(plain_len(text));
    if let RunEnd::Quote(rest) = run_end(after) {
        set_bytes(alloc, name, run, fields)?;
        return Ok(Some(rest));
    }
    room.clear();
    let Some(rest) = value(text, room)? else {
        return Ok(None);
    };
    set_bytes(alloc, name, room, fields)?;
    Ok(Some(rest))
}

/// Sets the field of the parameter after a blank, and gives what follows it.
fn set_param<'a>(
    alloc: Global,
    id: &str,
    text: &'a [u8],
    room: &mut Vec<u8>,
    fields: &mut FieldSetter,
) -> Result<Option<&'a [u8]>, AllocError>
    ensures one { IfOk result (λ found. FindsOne (SpellsParam text.now) (param_fields id.now) fields.old fields.new
        (option_map (λ rest. rest.now) found)) }
    ensures any { IfOk result (λ found. FindsAny (SpellsParam text.now) (param_fields id.now) fields.old fields.new
        (option_map (λ rest. rest.now) found)) }
{
    let Some((name, rest)) = name_at(text) else {
        return Ok(None);
    };
    let Some(quoted) = past(rest, b'=') else {
        return Ok(None);
    };
    let Some(inside) = past(quoted, b'"') else {
        return Ok(None);
    };
    let field = field_name(alloc, id, name)?;
    set_value(alloc, field.as_str(), inside, room, fields)
}

/// Sets the fields of the parameters of an element, and gives what follows the closing bracket.
fn set_params<'a>(
    alloc: Global,
    id: &str,
    text: &'a [u8],
    room: &mut Vec<u8>,
    fields: &mut FieldSetter,
) -> Result<Option<&'a [u8]>, AllocError>
    ensures one { IfOk result (λ found. FindsOne (SpellsParams text.now) (params_fields id.now) fields.old fields.new
        (option_map (λ rest. rest.now) found)) }
    ensures any { IfOk result (λ found. FindsAny (SpellsParams text.now) (params_fields id.now) fields.old fields.new
        (option_map (λ rest. rest.now) found)) }
{
    let mut rest = text;
    'params: loop {
        let Some(param) = past(rest, b' ') else {
            return Ok(past(rest, b']'));
        };
        match set_param(alloc, id, param, room, fields)? {
            Some(after) => rest = after,
            None => return Ok(None),
        }
    }
}

/// Sets the fields of the element after its opening bracket, and gives what follows the closing one.
fn set_element<'a>(
    alloc: Global,
    text: &'a [u8],
    room: &mut Vec<u8>,
    fields: &mut FieldSetter,
) -> Result<Option<&'a [u8]>, AllocError>
    ensures one { IfOk result (λ found. FindsOne (SpellsElement text.now) element_fields fields.old fields.new
        (option_map (λ rest. rest.now) found)) }
    ensures any { IfOk result (λ found. FindsAny (SpellsElement text.now) element_fields fields.old fields.new
        (option_map (λ rest. rest.now) found)) }
{
    match name_at(text) {
        Some((id, rest)) => set_params(alloc, id, rest, room, fields),
        None => Ok(None),
    }
}

/// Sets the fields of all elements, of which the first is after its opening bracket, and gives what follows them.
fn set_elements<'a>(
    alloc: Global,
    text: &'a [u8],
    room: &mut Vec<u8>,
    fields: &mut FieldSetter,
) -> Result<Option<&'a [u8]>, AllocError>
    ensures one { IfOk result (λ found. FindsOne (SpellsElements text.now) data_fields fields.old fields.new
        (option_map (λ rest. rest.now) found)) }
    ensures any { IfOk result (λ found. FindsAny (SpellsElements text.now) data_fields fields.old fields.new
        (option_map (λ rest. rest.now) found)) }
{
    let mut inside = text;
    'elements: loop {
        let Some(rest) = set_element(alloc, inside, room, fields)? else {
            return Ok(None);
        };
        match past(rest, b'[') {
            Some(next) => inside = next,
            None => return Ok(Some(rest)),
        }
    }
}

/// Sets the fields of structured data, and gives what follows it.
fn set_parameters<'a>(
    alloc: Global,
    text: &'a [u8],
    fields: &mut FieldSetter,
) -> Result<Option<&'a [u8]>, AllocError>
    ensures one { IfOk result (λ found. FindsOne (SpellsParameters text.now) data_fields fields.old fields.new
        (option_map (λ rest. rest.now) found)) }
    ensures any { IfOk result (λ found. FindsAny (SpellsData text.now) data_fields fields.old fields.new
        (option_map (λ rest. rest.now) found)) }
{
    let Some(inside) = past(text, b'[') else {
        return Ok(past(text, b'-'));
    };
    let mut room = Vec::new(alloc);
    set_elements(alloc, inside, &mut room, fields)
}

fn is_end(rest: &[u8]) -> bool
    ensures { result ≡ is_end rest.now }
{
    matches!(rest, [] | [b' ', ..])
}

/// Sets the fields of structured data that goes up to a blank or the end, and gives what follows it.
pub(crate) fn set_data<'a>(
    alloc: Global,
    text: &'a [u8],
    fields: &mut FieldSetter,
) -> Result<Option<&'a [u8]>, AllocError>
    ensures one { IfOk result (λ found. FindsOne (SpellsData text.now) data_fields fields.old fields.new
        (option_map (λ rest. rest.now) found)) }
    ensures any { IfOk result (λ found. FindsAny (SpellsData text.now) data_fields fields.old fields.new
        (option_map (λ rest. rest.now) found)) }
{
    let Some(rest) = set_parameters(alloc, text, fields)? else {
        return Ok(None);
    };
    if !is_end(rest) {
        return Ok(None);
    }
    Ok(Some(rest))
}
