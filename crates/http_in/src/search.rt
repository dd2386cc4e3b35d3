//! The end of a head, in bytes that come in pieces.
ghost use Rattle.std.specs.Prelude.{◌≡◌, ◌<◌, ◌≤◌, ◌==◌, ◌&&◌, ℕ, [], IsTrue, false, length, not, take};
ghost use Rattle.httparse.specs.Ascii.{line_feed};
ghost use Rattle.http_in.specs.Lacks.{EndsHead, IsPlace, LacksHead};
ghost use Rattle.http_in.specs.Limits.{head_limit};

use crate::head::HEAD_LIMIT;
use crate::lines::{begins_line, ends_line};

/// How far bytes were searched for the end of a head, so that each is searched once.
#[derive(Clone, Copy)]
pub(crate) struct Search {
    pub(crate) searched: usize,
    /// Whether the line that goes on after the searched bytes has bytes.
    pub(crate) begun: bool,
    /// Whether a line that has bytes ended in them.
    pub(crate) ended: bool,
    /// How many bytes were parsed.
    pub(crate) parsed: usize,
}

/// Returns the search of bytes that were not looked at.
pub(crate) fn new_search() -> Search
    ensures place { IsPlace result [] }
    ensures none { result.searched ≡ 0 }
{
    Search {
        searched: 0,
        begun: false,
        ended: false,
        parsed: 0,
    }
}

/// Returns whether it is time to parse the bytes: where a head may have ended in them, where they have doubled, and
/// where a head may have no more.
pub(crate) fn is_due(search: &mut Search, bytes: &[u8]) -> bool
    requires place { IsPlace search.old bytes.now }
    requires none { LacksHead (take search.old.searched bytes.now) }
    ensures place { IsPlace search.new bytes.now }
    ensures none { result ≡ false → LacksHead bytes.now }
    ensures limit { head_limit ≤ length bytes.now → IsTrue result }
{
    if bytes.len() / 2 >= search.parsed || bytes.len() >= HEAD_LIMIT {
        return true;
    }
    ends_head(search, bytes)
}

/// Searches the bytes to their end, and says whether a head may have ended in those that were not searched before.
fn ends_head(search: &mut Search, bytes: &[u8]) -> bool
    requires { IsPlace search.old bytes.now }
    ensures place { IsPlace search.new bytes.now }
    ensures ends { (at : ℕ) → search.old.searched ≤ at → EndsHead bytes.now at → IsTrue result }
{
    let mut found = false;
    let mut begun = search.begun;
    let mut ended = search.ended;
    for i in search.searched..bytes.len() {
        let b = bytes[i];
        found |= ends_empty_line(begun, b) & ended;
        ended |= ends_line(begun, b) > 0;
        begun = begins_line(begun, b);
    }
    search.searched = bytes.len();
    search.begun = begun;
    search.ended = ended;
    found
}

/// Returns whether the byte ends a line without bytes, where `begun` says whether the line before it has bytes.
fn ends_empty_line(begun: bool, b: u8) -> bool
    ensures { result ≡ ((b == line_feed) && not begun) }
{
    b == b'\n' && !begun
}
