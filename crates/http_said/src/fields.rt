//! What the header fields of a request mean.
ghost use Rattle.std.specs.Prelude.{◌≡◌, ◌==◌, ◌&&◌, ◌||◌, not, List, [], ◌∷◌, ◌++◌, map, take, length, All};
ghost use Rattle.std.specs.Prelude.{option_map};
ghost use Rattle.httparse.specs.Spans.{IsHeaderWithin, header_bytes};
ghost use Rattle.http1.specs.Fields.{Header};
ghost use Rattle.http_said.specs.Fields.{asks_to_close, begins_form, content_encodings, content_types, first_of};
ghost use Rattle.http_said.specs.Fields.{framing_of, is_encoded, is_form};
ghost use Rattle.http_said.specs.HeadFields.{HoldsFields};

use crate::framing::{Coding, FieldFault, Framing, Lengths, coding_with, framing_in};
use http1::fields::KnownFields;
use http1::text::eq_ignore_case;
use httparse::spans::HeaderSpan;

/// What the header fields of a request mean for its body and its connection.
#[derive(Debug, Drop)]
pub struct Facts {
    /// How the body is framed (RFC 9112, section 6.3).
    pub framing: Result<Framing, FieldFault>,
    /// Whether the first Content-Type is that of URL-encoded form data.
    pub form: bool,
    /// Whether the connection closes after the request (RFC 9112, section 9.3).
    pub last: bool,
}

impl Facts {
    /// Evaluates the headers at these spans of `buf`, in a request of HTTP/1 with this minor version.
    pub fn from_spans(buf: &[u8], headers: &[HeaderSpan], minor: u8) -> Facts
        requires { All (IsHeaderWithin (length buf.now)) headers.now }
        ensures framing { result.framing ≡ framing_of (map (header_bytes buf.now) headers.now) }
        ensures form { result.form ≡ is_form (map (header_bytes buf.now) headers.now) }
        ensures last { result.last ≡ asks_to_close minor (map (header_bytes buf.now) headers.now) }
    {
        let collected = HeadFields::from_spans(buf, headers);
        Facts {
            framing: collected.framing(),
            form: collected.is_form(),
            last: collected.asks_to_close(minor),
        }
    }
}

/// Returns whether the body is encoded, with one more header field.
fn encoded_with(encoded: bool, name: &[u8], value: &[u8]) -> bool
    ensures { (before : List Header) → encoded ≡ is_encoded (content_encodings before)
        → result ≡ is_encoded (content_encodings (before ++ (name.now, value.now) ∷ [])) }
{
    encoded || (eq_ignore_case(name, b"content-encoding") && !eq_ignore_case(value, b"identity"))
}

/// Returns whether the first Content-Type, if there is one, is that of a form, with one more header field.
fn form_with(form: Option<bool>, name: &[u8], value: &[u8]) -> Option<bool>
    ensures { (before : List Header) → form ≡ option_map begins_form (first_of (content_types before))
        → result ≡ option_map begins_form (first_of (content_types (before ++ (name.now, value.now) ∷ []))) }
{
    match form {
        None if eq_ignore_case(name, b"content-type") => Some(begins_form(value)),
        None => None,
        Some(form) => Some(form),
    }
}

/// Returns whether a Content-Type begins with the media type of form data.
fn begins_form(value: &[u8]) -> bool
    ensures { result ≡ begins_form value.now }
{
    front(value, 33) == b"application/x-www-form-urlencoded".as_slice()
}

/// Returns the first `count` bytes, or all if there are fewer.
fn front(bytes: &[u8], count: usize) -> &[u8]
    ensures { result.now ≡ take count bytes.now }
{
    if bytes.len() <= count {
        return bytes;
    }
    &bytes[..count]
}

/// The relevant header fields, collected one at a time.
#[derive(Drop)]
struct HeadFields<'a> {
    lengths: Lengths<'a>,
    coding: Coding,
    /// Whether there is a Content-Encoding other than `identity`.
    encoded: bool,
    /// Whether the first Content-Type is that of form data.
    form: Option<bool>,
    known: KnownFields,
}

impl<'a> HeadFields<'a> {
    fn new() -> HeadFields<'a>
        ensures { HoldsFields result [] }
    {
        HeadFields {
            lengths: Lengths::new(),
            coding: Coding::Absent,
            encoded: false,
            form: None,
            known: KnownFields::new(),
        }
    }

    /// Collects the headers at these spans of `buf`.
    fn from_spans(buf: &'a [u8], headers: &[HeaderSpan]) -> HeadFields<'a>
        requires { All (IsHeaderWithin (length buf.now)) headers.now }
        ensures { HoldsFields result (map (header_bytes buf.now) headers.now) }
    {
        let mut collected = HeadFields::new();
        for header in headers {
            collected.add(header.name.of(buf), header.value.of(buf));
        }
        collected
    }

    /// Adds a header field.
    fn add(&mut self, name: &[u8], value: &'a [u8])
        ensures { (before : List Header) → HoldsFields self.old before
            → HoldsFields self.new (before ++ (name.now, value.now) ∷ []) }
    {
        self.known.add(name, value);
        self.lengths.add(name, value);
        self.coding = coding_with(self.coding, name, value);
        self.encoded = encoded_with(self.encoded, name, value);
        self.form = form_with(self.form, name, value);
    }

    /// Returns how the body is framed, or the first error in the order of [`FieldFault`].
    fn framing(&self) -> Result<Framing, FieldFault>
        ensures { (fields : List Header) → HoldsFields self.now fields → result ≡ framing_of fields }
    {
        if self.lengths.large {
            return Err(FieldFault::BodyLarge);
        }
        if !self.lengths.agree {
            return Err(FieldFault::BadLength);
        }
        match framing_in(self.lengths.number(), self.coding) {
            Ok(_) if self.encoded => Err(FieldFault::Coding),
            Ok(framing) => Ok(framing),
            Err(fault) => Err(fault),
        }
    }

    /// Returns whether the first Content-Type is that of form data.
    fn is_form(&self) -> bool
        ensures { (fields : List Header) → HoldsFields self.now fields → result ≡ is_form fields }
    {
        match self.form {
            None => false,
            Some(form) => form,
        }
    }

    /// Returns whether the connection closes after a request of HTTP/1 with this minor version.
    fn asks_to_close(&self, minor: u8) -> bool
        ensures { (fields : List Header) → HoldsFields self.now fields → result ≡ asks_to_close minor fields }
    {
        closes(self.known.close, minor, self.known.keep_alive)
    }
}

/// Returns whether the connection closes, by its options.
fn closes(close: bool, minor: u8, keep_alive: bool) -> bool
    ensures { result ≡ (close || ((minor == 0) && not keep_alive)) }
{
    close || (minor == 0 && !keep_alive)
}
