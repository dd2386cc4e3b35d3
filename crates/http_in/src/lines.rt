//! Cuts the bytes of a head or a trailer section after as many lines that are not empty as it may have.
ghost use Rattle.std.specs.Prelude.{◌≡◌, ◌+◌, ◌≤◌, IfSome, None};
ghost use Rattle.http_in.specs.Limits.{field_limit};
ghost use Rattle.http_in.specs.Lines.{EndsLine, IsFrontOf, begins_line, ends_line, lines_in};

use crate::head::HEAD_LIMIT;

/// A front of bytes, no longer than a head or a trailer section may be.
#[derive(Clone, Copy)]
pub(crate) struct Front<'a> {
    pub(crate) bytes: &'a [u8],
    /// Whether it may not be longer.
    pub(crate) full: bool,
}

/// Returns the bytes up to the limit of a head, and before the line feed that ends one line more than these.
pub(crate) fn front_of(bytes: &[u8], lines: usize) -> Front<'_>
    requires { lines ≤ field_limit + 1 }
    ensures { IsFrontOf bytes.now lines result.bytes.now result.full }
{
    let front = &bytes[..bytes.len().min(HEAD_LIMIT)];
    match end_of_line(front, lines) {
        Some(at) => Front {
            bytes: &front[..at],
            full: true,
        },
        None if bytes.len() >= HEAD_LIMIT => Front {
            bytes: front,
            full: true,
        },
        None => Front {
            bytes: front,
            full: false,
        },
    }
}

/// Returns where the line feed is that ends one line more than these, if there is one.
fn end_of_line(bytes: &[u8], lines: usize) -> Option<usize>
    requires { lines ≤ field_limit + 1 }
    ensures none { result ≡ None → lines_in bytes.now ≤ lines }
    ensures some { IfSome result (EndsLine bytes.now lines) }
{
    let mut ended = 0;
    let mut begun = false;
    for i in 0..bytes.len() {
        ended += ends_line(begun, bytes[i]);
        if ended > lines {
            return Some(i);
        }
        begun = begins_line(begun, bytes[i]);
    }
    None
}

/// Returns how many lines the byte ends, where `begun` says whether the line before it has bytes.
pub(crate) fn ends_line(begun: bool, b: u8) -> usize
    ensures { result ≡ ends_line begun b }
{
    if b == b'\n' && begun { 1 } else { 0 }
}

/// Returns whether the line that goes on after the byte has bytes.
pub(crate) fn begins_line(begun: bool, b: u8) -> bool
    ensures { result ≡ begins_line begun b }
{
    b != b'\n' && (begun || b != b'\r')
}
