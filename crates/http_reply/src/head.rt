//! Formats response heads: the status line and the header fields.
ghost use Rattle.std.specs.Prelude.{◌≡◌, ◌++◌, ℕ, IfOk, OnOk, decimal, false, flat_map, string_bytes};
ghost use Rattle.http_reply.specs.Reply.{allow_fields, close_fields, field_line, head_bytes, length_fields};

use crate::status::{Delivery, Status};
use itoa::Buffer;
use std::alloc::{AllocError, Global};

/// Returns the head of a response whose content has this length.
#[tactic(auto, unfolding(crate::specs::Reply::head_bytes))]
pub fn reply_head(
    alloc: Global,
    status: Status,
    length: usize,
    delivery: Delivery,
) -> Result<String, AllocError>
    ensures { IfOk result (λ text. string_bytes text ≡ head_bytes status length delivery) }
{
    let mut text = String::from_str(alloc, "HTTP/1.1 ")?;
    text.push_str(status.text())?;
    text.push_str("\r\n")?;
    push_allow(&mut text, status)?;
    push_field(&mut text, "Content-Type", status.kind().text())?;
    push_length(&mut text, delivery.bare, length)?;
    push_close(&mut text, delivery.closes)?;
    text.push_str("\r\n")?;
    Ok(text)
}

/// Returns the head of a response in two parts. The length of the content goes between them, in decimal digits, so the
/// head can be formatted before the length is known. A response to HEAD has no length.
#[tactic(auto, unfolding(crate::specs::Reply::head_bytes))]
pub fn head_around_length(
    alloc: Global,
    status: Status,
    delivery: Delivery,
) -> Result<(String, String), AllocError>
    requires has_length { delivery.bare ≡ false }
    ensures { IfOk result (λ parts. (length : ℕ) → string_bytes parts.0 ++ (decimal length ++ string_bytes parts.1)
        ≡ head_bytes status length delivery) }
{
    let mut before = String::from_str(alloc, "HTTP/1.1 ")?;
    before.push_str(status.text())?;
    before.push_str("\r\n")?;
    push_allow(&mut before, status)?;
    push_field(&mut before, "Content-Type", status.kind().text())?;
    before.push_str("Content-Length: ")?;
    let mut after = String::from_str(alloc, "\r\n")?;
    push_close(&mut after, delivery.closes)?;
    after.push_str("\r\n")?;
    Ok((before, after))
}

/// Appends the Allow field, if the status is 405.
fn push_allow(text: &mut String, status: Status) -> Result<(), AllocError>
    ensures { OnOk result (string_bytes text.new ≡ string_bytes text.old ++ flat_map field_line (allow_fields status)) }
{
    match status {
        Status::MethodNotAllowed(methods) => push_field(text, "Allow", methods.text()),
        _ => Ok(()),
    }
}

/// Appends the Content-Length field, unless the content is left out.
fn push_length(text: &mut String, bare: bool, length: usize) -> Result<(), AllocError>
    ensures { OnOk result (string_bytes text.new
        ≡ string_bytes text.old ++ flat_map field_line (length_fields bare length)) }
{
    if bare {
        return Ok(());
    }
    let mut digits = Buffer::new();
    push_field(text, "Content-Length", digits.format(length))
}

/// Appends `Connection: close`, if the connection closes.
fn push_close(text: &mut String, closes: bool) -> Result<(), AllocError>
    ensures { OnOk result (string_bytes text.new ≡ string_bytes text.old ++ flat_map field_line (close_fields closes)) }
{
    if closes {
        push_field(text, "Connection", "close")
    } else {
        Ok(())
    }
}

/// Appends one header field.
fn push_field(text: &mut String, name: &str, value: &str) -> Result<(), AllocError>
    ensures { OnOk result (string_bytes text.new ≡ string_bytes text.old ++ field_line (name.now, value.now)) }
{
    text.push_str(name)?;
    text.push_str(": ")?;
    text.push_str(value)?;
    text.push_str("\r\n")
}
