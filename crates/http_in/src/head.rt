//! The head of a request.
ghost use Rattle.std.specs.Prelude.{◌≡◌, ◌≢◌, ◌+◌, ◌++◌, ◌<◌, ◌≤◌, ℕ, List, IfErr, IfOk, IfSome, IsSomeAnd, Ok, Err};
ghost use Rattle.std.specs.Prelude.{None, [], length, take, ⊤};
ghost use Rattle.vl_io.specs.Bytes.{IsAtEnd};
ghost use Rattle.vl_io.specs.Faults.{Rose};
ghost use Rattle.httparse.specs.Grammar.{HasNoRequest, MayBecomeRequest};
ghost use Rattle.httparse.specs.Spans.{IsRequestOf, IsRequestWithin};
ghost use Rattle.http_in.specs.Faults.{HasUnframed, IsHeadFront};
ghost use Rattle.http_in.specs.Head.{ExplainsHead, HasHeadFault, IsHeadAt, ParsesNot};
ghost use Rattle.http_in.specs.Lacks.{AddsIf, IsPlace, LacksHead};
ghost use Rattle.http_in.specs.Limits.{field_limit, head_limit};
ghost use Rattle.http_in.specs.Progress.{IsOutside};

use crate::fault::RequestFault;
use crate::lines::front_of;
use crate::search::{Search, is_due, new_search};
use crate::window::Window;
use http_said::{Facts, FieldFault, Framing};
use httparse::spans::{EMPTY_HEADER_SPAN, HeaderSpan, RequestSpans, Span, parse_request};
use httparse::{Error, Status};
use vl_io::Source;

/// The most bytes of a head, of a trailer section and of a chunk line.
pub(crate) const HEAD_LIMIT: usize = 16_384;

/// The most header lines of a head and of a trailer section.
pub(crate) const FIELD_LIMIT: usize = 100;

/// Where the parts of a head are, and what its fields say.
#[derive(Clone, Copy, Debug)]
pub(crate) struct Head {
    pub(crate) len: usize,
    pub(crate) method: Span,
    pub(crate) target: Span,
    pub(crate) framing: Framing,
    /// Whether its first Content-Type is that of a form.
    pub(crate) form: bool,
    pub(crate) last: bool,
}

/// Why bytes are not a head.
#[derive(Clone, Copy)]
pub(crate) enum HeadFault {
    /// They are out of form.
    Form,
    /// There are too many header lines.
    Lines,
    /// The fields are at fault.
    Fields(FieldFault),
}

/// Reads on until a head is whole. Without one the input is over.
pub(crate) fn whole_head<S: Source>(
    window: &mut Window,
    start: u64,
    src: &mut S,
) -> Result<Option<Head>, RequestFault>
    // Where a head is whole, nothing is asked of the source.
    ensures adds { AddsIf S.left (LacksHead window.old) src.old src.new window.old window.new }
    ensures found { IfOk result (λ found. IfSome found (IsHeadAt window.new)) }
    ensures none { result ≡ Ok None → (window.new ≡ []) × IsAtEnd (S.left src.new) }
    ensures fault { IfErr result (ExplainsHead start window.new (IsAtEnd (S.left src.new))) }
    ensures failed { result ≡ Err RequestFault.SourceFault → Rose (S.faults src.old) (S.faults src.new) }
    ensures faults { S.faults src.old ≤ S.faults src.new }
{
    let mut search = new_search();
    'reads: loop {
        match head_if_due(window.as_slice(), &mut search, start) {
            Ok(Some(head)) => return Ok(Some(head)),
            Ok(None) => {}
            Err(fault) => return Err(fault),
        }
        match window.fill(src) {
            Ok(true) => {}
            Ok(false) => return head_at_end(window.as_slice(), start),
            Err(fault) => return head_or(window.as_slice(), start, fault),
        }
    }
}

/// Returns the head at the front of the bytes, if it is whole and it is time to parse.
fn head_if_due(bytes: &[u8], search: &mut Search, start: u64) -> Result<Option<Head>, RequestFault>
    requires place { IsPlace search.old bytes.now }
    requires none { LacksHead (take search.old.searched bytes.now) }
    ensures place { IsPlace search.new bytes.now }
    ensures found { IfOk result (λ found. IfSome found (IsHeadAt bytes.now)) }
    ensures open { result ≡ Ok None → (length bytes.now < head_limit) × LacksHead bytes.now }
    ensures fault { IfErr result (HasHeadFault start bytes.now) }
{
    if !is_due(search, bytes) {
        return Ok(None);
    }
    search.parsed = bytes.len();
    head_in(bytes, start)
}

/// Returns the head at the front of all bytes that come.
fn head_at_end(bytes: &[u8], start: u64) -> Result<Option<Head>, RequestFault>
    ensures found { IfOk result (λ found. IfSome found (IsHeadAt bytes.now)) }
    ensures none { result ≡ Ok None → bytes.now ≡ [] }
    ensures fault { IfErr result (ExplainsHead start bytes.now ⊤) }
    ensures inside { result ≢ Err RequestFault.SourceFault }
{
    if bytes.is_empty() {
        return Ok(None);
    }
    match head_in(bytes, start) {
        Ok(Some(head)) => Ok(Some(head)),
        Ok(None) => Err(RequestFault::Cut { at: start }),
        Err(fault) => Err(fault),
    }
}

/// Returns the head at the front of the bytes, and without one this fault of the outside.
fn head_or(bytes: &[u8], start: u64, fault: RequestFault) -> Result<Option<Head>, RequestFault>
    requires { IsOutside fault }
    ensures found { IfOk result (λ found. IsSomeAnd found (IsHeadAt bytes.now)) }
    ensures fault { IfErr result (ExplainsHead start bytes.now ⊥) }
    ensures same { result ≡ Err RequestFault.SourceFault → fault ≡ RequestFault.SourceFault }
{
    match head_in(bytes, start) {
        Ok(Some(head)) => Ok(Some(head)),
        Ok(None) => Err(fault),
        Err(fault) => Err(fault),
    }
}

/// Returns the head at the front of the bytes, if it is whole.
fn head_in(bytes: &[u8], start: u64) -> Result<Option<Head>, RequestFault>
    ensures found { IfOk result (λ found. IfSome found (IsHeadAt bytes.now)) }
    ensures open { result ≡ Ok None → (length bytes.now < head_limit) × IsHeadFront bytes.now }
    ensures fault { IfErr result (HasHeadFault start bytes.now) }
{
    // Mostly the head is whole, and then its lines need not be counted.
    match parse_head(&bytes[..bytes.len().min(HEAD_LIMIT)]) {
        Ok(Some(head)) => Ok(Some(head)),
        Ok(None) => head_within(bytes, start),
        Err(HeadFault::Fields(fault)) => Err(RequestFault::from(fault)),
        Err(HeadFault::Form) => head_within(bytes, start),
        Err(HeadFault::Lines) => head_within(bytes, start),
    }
}

/// Returns the same, with a look at the lines, so that a line too many is found before what is after it.
fn head_within(bytes: &[u8], start: u64) -> Result<Option<Head>, RequestFault>
    ensures found { IfOk result (λ found. IfSome found (IsHeadAt bytes.now)) }
    ensures open { result ≡ Ok None → (length bytes.now < head_limit) × IsHeadFront bytes.now }
    ensures fault { IfErr result (HasHeadFault start bytes.now) }
{
    let front = front_of(bytes, FIELD_LIMIT + 1);
    match parse_head(front.bytes) {
        Ok(Some(head)) => Ok(Some(head)),
        Ok(None) if front.full => Err(RequestFault::HeadLarge),
        Ok(None) => Ok(None),
        Err(HeadFault::Form) => Err(RequestFault::BadHead { at: start }),
        Err(HeadFault::Fields(fault)) => Err(RequestFault::from(fault)),
        Err(HeadFault::Lines) => unreachable!(),
    }
}

/// Returns the head at the front of no more bytes than it may have.
fn parse_head(front: &[u8]) -> Result<Option<Head>, HeadFault>
    requires { length front.now ≤ head_limit }
    ensures found { IfOk result (λ found. IfSome found (IsHeadAt front.now)) }
    ensures open { result ≡ Ok None → HasNoRequest front.now × MayBecomeRequest front.now }
    ensures fault { IfErr result (ParsesNot front.now) }
{
    let mut headers = [EMPTY_HEADER_SPAN; FIELD_LIMIT];
    match parse_request(front, &mut headers) {
        Ok(Status::Complete(spans)) => match framed_head(front, &headers, spans) {
            Ok(head) => Ok(Some(head)),
            Err(fault) => Err(HeadFault::Fields(fault)),
        },
        Ok(Status::Partial) => Ok(None),
        Err(Error::TooManyHeaders) => Err(HeadFault::Lines),
        Err(_) => Err(HeadFault::Form),
    }
}

/// Returns what the fields of a head say.
fn framed_head(
    front: &[u8],
    headers: &[HeaderSpan],
    spans: RequestSpans,
) -> Result<Head, FieldFault>
    requires short { length front.now ≤ head_limit }
    requires room { length headers.now ≤ field_limit }
    requires within { IsRequestWithin front.now headers.now spans }
    requires read { IsRequestOf front.now headers.now spans }
    ensures ok { IfOk result (IsHeadAt front.now) }
    ensures fault { IfErr result (HasUnframed front.now) }
{
    let facts = Facts::from_spans(front, &headers[..spans.headers], spans.version);
    match facts.framing {
        Ok(framing) => Ok(Head {
            len: spans.len,
            method: spans.method,
            target: spans.path,
            framing,
            form: facts.form,
            last: facts.last,
        }),
        Err(fault) => Err(fault),
    }
}
