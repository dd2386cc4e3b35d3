//! The frame that bytes begin with.
ghost use Rattle.std.specs.Prelude.{◌≡◌, ◌≤◌, length, IfSome};
ghost use Rattle.syslog_in.specs.Framing.{begins_length, without_return};
ghost use Rattle.syslog_in.specs.Reading.{line_len, length_at, counted_at, line_at, step_at, step_of};

use memchr::memchr;

/// The most bytes that a message may have, or a line with the carriage return before its end.
const FRAME_LIMIT: usize = 65_536;

/// What bytes begin with.
#[derive(Clone, Copy)]
pub(crate) enum Scan<'a> {
    /// A whole frame with this message, and what follows it.
    Whole { message: &'a [u8], rest: &'a [u8] },
    /// The front of a frame.
    Short,
    /// A length with a byte, at this place, that is neither digit nor blank.
    BadLength { at: usize },
    /// The front of a frame that is too long.
    TooLong,
}

/// Returns how many digits the bytes begin with, and what they say. Nothing if that is beyond the limit of a frame.
#[tactic(auto, unfolding(crate::specs::Reading::length_at))]
pub(crate) fn length_at(bytes: &[u8]) -> Option<(usize, usize)>
    ensures value { result ≡ length_at bytes.now }
    ensures bound { IfSome result (λ x. x.0 ≤ length bytes.now) }
{
    let mut value = 0;
    for (digits, byte) in bytes.iter().enumerate() {
        if !byte.is_ascii_digit() {
            return Some((digits, value));
        }
        value = value * 10 + (*byte - b'0') as usize;
        if value > FRAME_LIMIT {
            return None;
        }
    }
    Some((bytes.len(), value))
}

/// Returns how many bytes come before the first line feed, or all of them.
pub(crate) fn line_len(bytes: &[u8]) -> usize
    ensures value { result ≡ line_len bytes.now }
    ensures bound { result ≤ length bytes.now }
{
    match memchr(b'\n', bytes) {
        Some(end) => end,
        None => bytes.len(),
    }
}

/// Returns a line without the carriage return at its end.
fn without_return(line: &[u8]) -> &[u8]
    ensures { result.now ≡ without_return line.now }
{
    match line {
        [message @ .., b'\r'] => message,
        _ => line,
    }
}

#[tactic(auto, unfolding(crate::specs::Reading::counted_at))]
fn counted_at(bytes: &[u8]) -> Scan<'_>
    ensures { step_of result ≡ counted_at bytes.now }
{
    let Some((digits, value)) = length_at(bytes) else {
        return Scan::TooLong;
    };
    match &bytes[digits..] {
        [] => Scan::Short,
        [b' ', rest @ ..] if rest.len() >= value => Scan::Whole {
            message: &rest[..value],
            rest: &rest[value..],
        },
        [b' ', ..] => Scan::Short,
        _ => Scan::BadLength { at: digits },
    }
}

#[tactic(auto, unfolding(crate::specs::Reading::line_at))]
fn line_at(bytes: &[u8]) -> Scan<'_>
    ensures { step_of result ≡ line_at bytes.now }
{
    let len = line_len(bytes);
    if len > FRAME_LIMIT {
        return Scan::TooLong;
    }
    match &bytes[len..] {
        [] => Scan::Short,
        [_, rest @ ..] => Scan::Whole {
            message: without_return(&bytes[..len]),
            rest,
        },
    }
}

/// Returns whether the bytes begin with a digit from 1 to 9, and so with a length.
pub(crate) fn begins_length(bytes: &[u8]) -> bool
    ensures { result ≡ begins_length bytes.now }
{
    matches!(bytes, [b'1'..=b'9', ..])
}

#[tactic(auto, unfolding(crate::specs::Reading::step_at))]
pub(crate) fn first_frame(bytes: &[u8]) -> Scan<'_>
    ensures { step_of result ≡ step_at bytes.now }
{
    if bytes.is_empty() {
        return Scan::Short;
    }
    if begins_length(bytes) {
        counted_at(bytes)
    } else {
        line_at(bytes)
    }
}
