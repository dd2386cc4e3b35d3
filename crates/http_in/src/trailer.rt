//! The trailer section.
ghost use Rattle.std.specs.Prelude.{◌≡◌, ◌⊎◌, ◌<◌, ◌≤◌, IfErr, IfOk, IfSome, Ok, Err, None, length, take};
ghost use Rattle.vl_io.specs.Bytes.{IsAtEnd};
ghost use Rattle.vl_io.specs.Faults.{Rose};
ghost use Rattle.http_in.specs.Faults.{IsInSection};
ghost use Rattle.http_in.specs.Lacks.{AddsIf, LacksSection};
ghost use Rattle.http_in.specs.Limits.{head_limit};
ghost use Rattle.http_in.specs.Progress.{HasTrailerFault, IsTrailerAt, StopsAtTrailer};

use crate::fault::RequestFault;
use crate::head::{FIELD_LIMIT, HEAD_LIMIT};
use crate::line::has_line_end;
use crate::lines::front_of;
use crate::window::Window;
use httparse::spans::{EMPTY_HEADER_SPAN, parse_headers};
use httparse::{Error, Status};
use vl_io::Source;

/// Reads on until a trailer section is whole, and gives its length. It begins at `place`, in the request that begins at
/// `start`.
pub(crate) fn whole_trailer<S: Source>(
    window: &mut Window,
    start: u64,
    place: u64,
    src: &mut S,
) -> Result<usize, RequestFault>
    ensures adds { AddsIf S.left (LacksSection window.old) src.old src.new window.old window.new }
    ensures found { IfOk result (IsTrailerAt window.new) }
    ensures fault { IfErr result (StopsAtTrailer start place window.new (IsAtEnd (S.left src.new))) }
    ensures failed { result ≡ Err RequestFault.SourceFault → Rose (S.faults src.old) (S.faults src.new) }
    ensures faults { S.faults src.old ≤ S.faults src.new }
{
    let mut searched = 0;
    'reads: loop {
        match trailer_if_due(window.as_slice(), searched, place) {
            Ok(Some(len)) => return Ok(len),
            Ok(None) => {}
            Err(fault) => return Err(fault),
        }
        searched = window.as_slice().len();
        match window.fill(src) {
            Ok(true) => {}
            Ok(false) => return trailer_or(
                window.as_slice(),
                place,
                RequestFault::Cut { at: start },
            ),
            Err(fault) => return trailer_or(window.as_slice(), place, fault),
        }
    }
}

/// Returns the length of the trailer section at the front of the bytes, if it is whole and a line end may have come.
fn trailer_if_due(bytes: &[u8], searched: usize, place: u64) -> Result<Option<usize>, RequestFault>
    requires searched { searched ≤ length bytes.now }
    requires none { LacksSection (take searched bytes.now) }
    ensures found { IfOk result (λ found. IfSome found (IsTrailerAt bytes.now)) }
    ensures open { result ≡ Ok None → (length bytes.now < head_limit) × LacksSection bytes.now }
    ensures fault { IfErr result (HasTrailerFault place bytes.now) }
{
    if !has_line_end(bytes, searched) {
        return Ok(None);
    }
    trailer_in(bytes, place)
}

/// Returns the length of the trailer section at the front of the bytes, and without one this fault.
fn trailer_or(bytes: &[u8], place: u64, fault: RequestFault) -> Result<usize, RequestFault>
    ensures found { IfOk result (IsTrailerAt bytes.now) }
    ensures fault { IfErr result (λ e. ((e ≡ fault) × IsInSection bytes.now) ⊎ HasTrailerFault place bytes.now e) }
{
    match trailer_in(bytes, place) {
        Ok(Some(len)) => Ok(len),
        Ok(None) => Err(fault),
        Err(fault) => Err(fault),
    }
}

/// Returns the length of the trailer section at the front of the bytes, if it is whole.
fn trailer_in(bytes: &[u8], place: u64) -> Result<Option<usize>, RequestFault>
    ensures found { IfOk result (λ found. IfSome found (IsTrailerAt bytes.now)) }
    ensures open { result ≡ Ok None → IsInSection bytes.now }
    ensures fault { IfErr result (HasTrailerFault place bytes.now) }
{
    match whole_at_front(&bytes[..bytes.len().min(HEAD_LIMIT)]) {
        Some(len) => Ok(Some(len)),
        None => trailer_within(bytes, place),
    }
}

/// Returns the length of the trailer section at the front of no more bytes than it may have. `None` says no more than
/// that it is not there.
fn whole_at_front(front: &[u8]) -> Option<usize>
    requires { length front.now ≤ head_limit }
    ensures { IfSome result (IsTrailerAt front.now) }
{
    let mut headers = [EMPTY_HEADER_SPAN; FIELD_LIMIT];
    match parse_headers(front, &mut headers) {
        Ok(Status::Complete((len, _))) => Some(len),
        Ok(Status::Partial) => None,
        Err(_) => None,
    }
}

/// Returns the same, with a look at the lines, so that a line too many is found before what is after it.
fn trailer_within(bytes: &[u8], place: u64) -> Result<Option<usize>, RequestFault>
    ensures found { IfOk result (λ found. IfSome found (IsTrailerAt bytes.now)) }
    ensures open { result ≡ Ok None → IsInSection bytes.now }
    ensures fault { IfErr result (HasTrailerFault place bytes.now) }
{
    let front = front_of(bytes, FIELD_LIMIT);
    let mut headers = [EMPTY_HEADER_SPAN; FIELD_LIMIT];
    match parse_headers(front.bytes, &mut headers) {
        Ok(Status::Complete((len, _))) => Ok(Some(len)),
        Ok(Status::Partial) if front.full => Err(RequestFault::HeadLarge),
        Ok(Status::Partial) => Ok(None),
        Err(Error::TooManyHeaders) => unreachable!(),
        Err(_) => Err(RequestFault::BadChunk { at: place }),
    }
}
