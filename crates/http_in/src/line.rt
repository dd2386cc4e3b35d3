//! The chunk line.
ghost use Rattle.std.specs.Prelude.{◌≡◌, ◌⊎◌, ◌↔◌, ◌<◌, ◌≤◌, Contains, IfErr, IfOk, IfSome, IsTrue, Ok, Err, None};
ghost use Rattle.std.specs.Prelude.{drop, length, take};
ghost use Rattle.vl_io.specs.Bytes.{IsAtEnd};
ghost use Rattle.vl_io.specs.Faults.{Rose};
ghost use Rattle.httparse.specs.Ascii.{line_feed};
ghost use Rattle.http_in.specs.Faults.{HasBadLine, IsInLine};
ghost use Rattle.http_in.specs.Lacks.{AddsIf, LacksLine};
ghost use Rattle.http_in.specs.Limits.{head_limit};
ghost use Rattle.http_in.specs.Progress.{IsLineAt, StopsAtLine};

use crate::fault::RequestFault;
use crate::head::HEAD_LIMIT;
use crate::window::Window;
use httparse::{Status, parse_chunk_size};
use vl_io::Source;

/// A chunk line: how long it is, and the size that it gives.
#[derive(Clone, Copy)]
pub(crate) struct Line {
    pub(crate) len: usize,
    pub(crate) size: u64,
}

/// Reads on until a chunk line is whole. It begins at `place`, in the request that begins at `start`.
pub(crate) fn whole_line<S: Source>(
    window: &mut Window,
    start: u64,
    place: u64,
    src: &mut S,
) -> Result<Line, RequestFault>
    ensures adds { AddsIf S.left (LacksLine window.old) src.old src.new window.old window.new }
    ensures found { IfOk result (IsLineAt window.new) }
    ensures fault { IfErr result (StopsAtLine start place window.new (IsAtEnd (S.left src.new))) }
    ensures failed { result ≡ Err RequestFault.SourceFault → Rose (S.faults src.old) (S.faults src.new) }
    ensures faults { S.faults src.old ≤ S.faults src.new }
{
    let mut searched = 0;
    'reads: loop {
        match line_if_due(window.as_slice(), searched, place) {
            Ok(Some(line)) => return Ok(line),
            Ok(None) => {}
            Err(fault) => return Err(fault),
        }
        searched = window.as_slice().len();
        match window.fill(src) {
            Ok(true) => {}
            Ok(false) => return line_or(window.as_slice(), place, RequestFault::Cut { at: start }),
            Err(fault) => return line_or(window.as_slice(), place, fault),
        }
    }
}

/// Returns the chunk line at the front of the bytes, if it is whole and a line end may have come.
fn line_if_due(bytes: &[u8], searched: usize, place: u64) -> Result<Option<Line>, RequestFault>
    requires searched { searched ≤ length bytes.now }
    requires none { LacksLine (take searched bytes.now) }
    ensures found { IfOk result (λ found. IfSome found (IsLineAt bytes.now)) }
    ensures open { result ≡ Ok None → (length bytes.now < head_limit) × LacksLine bytes.now }
    ensures bad { IfErr result (λ fault. (fault ≡ RequestFault.BadChunk place) × HasBadLine bytes.now) }
{
    if !has_line_end(bytes, searched) {
        return Ok(None);
    }
    line_in(bytes, place)
}

/// Returns whether there is a line feed after this many bytes, or there are as many bytes as a line may have.
pub(crate) fn has_line_end(bytes: &[u8], searched: usize) -> bool
    requires { searched ≤ length bytes.now }
    ensures { IsTrue result ↔ (head_limit ≤ length bytes.now) ⊎ Contains (drop searched bytes.now) line_feed }
{
    bytes.len() >= HEAD_LIMIT || bytes[searched..].contains(&b'\n')
}

/// Returns the chunk line at the front of the bytes, and without one this fault.
fn line_or(bytes: &[u8], place: u64, fault: RequestFault) -> Result<Line, RequestFault>
    ensures found { IfOk result (IsLineAt bytes.now) }
    ensures fault { IfErr result (λ e. ((e ≡ fault) × IsInLine bytes.now)
        ⊎ ((e ≡ RequestFault.BadChunk place) × HasBadLine bytes.now)) }
{
    match line_in(bytes, place) {
        Ok(Some(line)) => Ok(line),
        Ok(None) => Err(fault),
        Err(fault) => Err(fault),
    }
}

/// Returns the chunk line at the front of the bytes, if it is whole.
fn line_in(bytes: &[u8], place: u64) -> Result<Option<Line>, RequestFault>
    ensures found { IfOk result (λ found. IfSome found (IsLineAt bytes.now)) }
    ensures open { result ≡ Ok None → IsInLine bytes.now }
    ensures bad { IfErr result (λ fault. (fault ≡ RequestFault.BadChunk place) × HasBadLine bytes.now) }
{
    let front = &bytes[..bytes.len().min(HEAD_LIMIT)];
    match parse_chunk_size(front) {
        Ok(Status::Complete((len, size))) => Ok(Some(Line { len, size })),
        Ok(Status::Partial) if bytes.len() >= HEAD_LIMIT => {
            Err(RequestFault::BadChunk { at: place })
        }
        Ok(Status::Partial) => Ok(None),
        Err(_) => Err(RequestFault::BadChunk { at: place }),
    }
}
