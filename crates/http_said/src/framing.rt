//! How a body is framed: Content-Length and Transfer-Encoding.
ghost use Rattle.std.specs.Prelude.{◌≡◌, ℕ, List, [], ◌∷◌, ◌++◌, true, if◌then◌else◌};
ghost use Rattle.http1.specs.Fields.{Header};
ghost use Rattle.http_said.specs.Fields.{agree, coding_of, transfer_codings, framing_in, is_above_limit, length_of};
ghost use Rattle.http_said.specs.Fields.{content_lengths, number_of};
ghost use Rattle.http_said.specs.HeadFields.{HoldsLengths};

use http1::text::eq_ignore_case;

/// Why the header fields are refused. If several apply, the first one listed here is reported.
#[derive(Clone, Copy, Debug, PartialEq, Eq, Drop)]
pub enum FieldFault {
    /// A Content-Length is above 33,554,432 bytes.
    BodyLarge,
    /// The body length is invalid or ambiguous (RFC 9112, section 6.3).
    BadLength,
    /// The body has a Content-Encoding (RFC 9110, section 8.4).
    Coding,
}

/// The maximum length of a body in bytes.
pub const BODY_LIMIT: u64 = 33_554_432;

/// How a body is framed (RFC 9112, section 6.3).
#[derive(Clone, Copy, Debug, PartialEq, Eq, Drop)]
pub enum Framing {
    /// By its length in bytes.
    Sized(u64),
    /// In chunks.
    Chunked,
}

/// The value of the Transfer-Encoding fields (RFC 9112, section 6.1).
#[derive(Clone, Copy, Debug, PartialEq, Eq, Drop)]
pub enum Coding {
    /// There is no such field.
    Absent,
    /// There is one, and its value is `chunked`.
    Chunked,
    Other,
}

/// The values of the Content-Length fields (RFC 9112, section 6.2).
#[derive(Drop)]
pub(crate) struct Lengths<'a> {
    first: Option<&'a [u8]>,
    /// Whether all values are the same number, with the same digits.
    pub(crate) agree: bool,
    /// Whether one value is above the limit.
    pub(crate) large: bool,
}

impl<'a> Lengths<'a> {
    pub(crate) fn new() -> Lengths<'a>
        ensures { HoldsLengths result [] }
    {
        Lengths {
            first: None,
            agree: true,
            large: false,
        }
    }

    /// Adds a value.
    fn push(&mut self, value: &'a [u8])
        ensures { (before : List (List ℕ)) → HoldsLengths self.old before
            → HoldsLengths self.new (before ++ value.now ∷ []) }
    {
        let number = number(value);
        match self.first {
            None => {
                self.first = Some(value);
                self.agree = number.is_some();
            }
            Some(first) => self.agree = self.agree && first == value,
        }
        self.large = self.large || is_large(number);
    }

    /// Adds a header field.
    pub(crate) fn add(&mut self, name: &[u8], value: &'a [u8])
        ensures { (before : List Header) → HoldsLengths self.old (content_lengths before)
            → HoldsLengths self.new (content_lengths (before ++ (name.now, value.now) ∷ [])) }
    {
        if eq_ignore_case(name, b"content-length") {
            self.push(value);
        }
    }

    /// Returns the number in the first value.
    pub(crate) fn number(&self) -> Option<u64>
        ensures { (values : List (List ℕ)) → HoldsLengths self.now values → agree values ≡ true
            → result ≡ length_of values }
    {
        match self.first {
            None => None,
            Some(first) => number(first),
        }
    }
}

/// Returns whether a number is above the limit of a body.
fn is_large(number: Option<u64>) -> bool
    ensures { result ≡ is_above_limit number }
{
    match number {
        None => false,
        Some(number) => number > BODY_LIMIT,
    }
}

/// Parses 1*DIGIT below 2^64.
fn number(digits: &[u8]) -> Option<u64>
    ensures { result ≡ number_of digits.now }
{
    if digits.is_empty() {
        return None;
    }
    let mut n: u64 = 0;
    for b in digits {
        if !b.is_ascii_digit() {
            return None;
        }
        n = n.checked_mul(10)?.checked_add(u64::from(*b - b'0'))?;
    }
    Some(n)
}

impl Coding {
    /// Returns the coding with one more value.
    #[tactic(auto, using(crate::proofs::FieldLemmas::coding_first, crate::proofs::FieldLemmas::coding_second))]
    fn with(self, value: &[u8]) -> Coding
        ensures { (values : List (List ℕ)) → self ≡ coding_of values → result ≡ coding_of (values ++ value.now ∷ []) }
    {
        let chunked = eq_ignore_case(value, b"chunked");
        match self {
            Coding::Absent => coding_of_one(chunked),
            Coding::Chunked => Coding::Other,
            Coding::Other => Coding::Other,
        }
    }
}

/// Returns the coding of a single field.
fn coding_of_one(chunked: bool) -> Coding
    ensures { result ≡ (if chunked then Coding.Chunked else Coding.Other) }
{
    if chunked {
        Coding::Chunked
    } else {
        Coding::Other
    }
}

/// Returns the coding with one more header field.
pub(crate) fn coding_with(coding: Coding, name: &[u8], value: &[u8]) -> Coding
    ensures { (before : List Header) → coding ≡ coding_of (transfer_codings before)
        → result ≡ coding_of (transfer_codings (before ++ (name.now, value.now) ∷ [])) }
{
    if eq_ignore_case(name, b"transfer-encoding") {
        coding.with(value)
    } else {
        coding
    }
}

/// Returns how the body is framed, if the lengths agree.
pub(crate) fn framing_in(length: Option<u64>, coding: Coding) -> Result<Framing, FieldFault>
    ensures { result ≡ framing_in length coding }
{
    match (length, coding) {
        (None, Coding::Absent) => Ok(Framing::Sized(0)),
        (None, Coding::Chunked) => Ok(Framing::Chunked),
        (Some(length), Coding::Absent) => Ok(Framing::Sized(length)),
        _ => Err(FieldFault::BadLength),
    }
}
