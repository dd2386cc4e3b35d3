//! What the header fields of an HTTP/1.1 request mean, and its arguments.
//!
//! - `framing`: how the body is framed by Content-Length and Transfer-Encoding (RFC 9112, section 6).
//! - `fields`: all relevant header fields: framing, form data, and whether the connection closes (RFC 9112, section 9).
//! - `push_arguments`, in this file, decodes the arguments in a query string or in form data; `takes_form` says which
//!   requests may have them in their body.
//! - `specs/Fields` defines what fields mean, `Arguments` the arguments of a request.
#![tactic(auto)]

ghost use Rattle.std.specs.Prelude.{◌≡◌, ◌&&◌, ◌++◌, IfOk, OnOk};
ghost use Rattle.http_said.specs.Arguments.{arguments, decode_text, is_post, is_select};

mod fields;
mod framing;

pub use fields::Facts;
use form_urlencoded::{decode, raw_pairs};
pub use framing::{BODY_LIMIT, FieldFault, Framing};
use std::alloc::{AllocError, Global};
use vl_row::{Field, Text};

/// Appends the decoded arguments of URL-encoded form data.
pub fn push_arguments(alloc: Global, form: &[u8], args: &mut Vec<Field>) -> Result<(), AllocError>
    ensures { OnOk result (args.new.items ≡ args.old.items ++ arguments form.now) }
{
    for (name, value) in raw_pairs(form) {
        let field = decode_argument(alloc, name, value)?;
        args.push(field)?;
    }
    Ok(())
}

/// Returns whether a request of this method and path may have arguments in form data in its body.
pub fn takes_form(method: &str, path: &str) -> bool
    ensures { result ≡ (is_post method.now && is_select path.now) }
{
    method == "POST" && path == "/select/logsql/query"
}

/// Decodes an argument.
fn decode_argument(alloc: Global, name: &[u8], value: &[u8]) -> Result<Field, AllocError>
    ensures { IfOk result (λ field. field ≡ (decode_text name.now, decode_text value.now)) }
{
    let name = decode_text(alloc, name)?;
    let value = decode_text(alloc, value)?;
    Ok(Field { name, value })
}

/// Decodes a name or a value.
fn decode_text(alloc: Global, piece: &[u8]) -> Result<Text, AllocError>
    ensures { IfOk result (λ text. text ≡ decode_text piece.now) }
{
    let text = decode(alloc, piece)?;
    Text::try_of(alloc, &text)
}
