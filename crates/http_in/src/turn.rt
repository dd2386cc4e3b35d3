//! One request: its head, its body, and what is made of them.
ghost use Rattle.std.specs.Prelude.{◌≡◌, ◌++◌, ◌≤◌, ℕ, List, [], IfOk, OnErr, OnOk, Err, Some, None, IsSome, IsUtf8};
ghost use Rattle.std.specs.Prelude.{if◌then◌else◌};
ghost use Rattle.vl_io.specs.Bytes.{Consumes, IsAtEnd};
ghost use Rattle.vl_io.specs.Faults.{Rose};
ghost use Rattle.http_said.specs.Arguments.{arguments, path_of, query_of};
ghost use Rattle.http_said.specs.Fields.{IsWithinLimit};
ghost use Rattle.http_in.specs.Head.{IsHeadAt};
ghost use Rattle.http_in.specs.Reading.{FindsAt, FindsRequest, Holds, HoldsRequest, IsAskedAt, IsBegun, IsFirst};
ghost use Rattle.http_in.specs.Reading.{asked_by, held_by};

use crate::body::{Body, read_body};
use crate::fault::RequestFault;
use crate::head::{Head, whole_head};
use crate::request::Request;
use crate::stage::Stage;
use crate::window::Window;
use http_said::{Framing, push_arguments, takes_form};
use std::alloc::{AllocError, Global};
use std::mem;
use vl_io::Source;
use vl_row::{Field, Items, Text};

/// Of a request whose body is being read the head, and its bytes.
#[derive(Drop)]
pub(crate) struct Begun {
    pub(crate) head: Option<Head>,
    pub(crate) bytes: Vec<u8>,
}

/// Returns the next request, where this much of it came before.
pub(crate) fn read_request<S: Source>(
    alloc: Global,
    window: &mut Window,
    begun: &mut Begun,
    body: &mut Body,
    src: &mut S,
) -> Result<Option<Request>, RequestFault>
    requires begun { IsBegun begun.old.head begun.old.bytes.items body.old }
    ensures begun { IsBegun begun.new.head begun.new.bytes.items body.new }
    ensures taken { (piece : List ℕ) × Consumes (S.left src.old) (S.left src.new) piece
        × ((start : ℕ) (bytes : List ℕ) → Holds start bytes (held_by begun.old body.old window.old)
        → FindsAt start (bytes ++ piece) (IsAtEnd (S.left src.new)) (held_by begun.new body.new window.new) result) }
    ensures ready { HoldsRequest (held_by begun.old body.old window.old) → src.new ≡ src.old }
    ensures failed { result ≡ Err RequestFault.SourceFault → Rose (S.faults src.old) (S.faults src.new) }
    ensures faults { S.faults src.old ≤ S.faults src.new }
{
    match begun.head {
        Some(head) => rest_of_request(alloc, window, begun, body, src),
        None => new_request(alloc, window, begun, body, src),
    }
}

/// Returns the next request, of which no head was read.
fn new_request<S: Source>(
    alloc: Global,
    window: &mut Window,
    begun: &mut Begun,
    body: &mut Body,
    src: &mut S,
) -> Result<Option<Request>, RequestFault>
    requires none { begun.old.head ≡ None }
    requires begun { IsBegun begun.old.head begun.old.bytes.items body.old }
    ensures begun { IsBegun begun.new.head begun.new.bytes.items body.new }
    ensures taken { (piece : List ℕ) × Consumes (S.left src.old) (S.left src.new) piece
        × ((start : ℕ) (bytes : List ℕ) → Holds start bytes (held_by begun.old body.old window.old)
        → FindsAt start (bytes ++ piece) (IsAtEnd (S.left src.new)) (held_by begun.new body.new window.new) result) }
    ensures ready { HoldsRequest (held_by begun.old body.old window.old) → src.new ≡ src.old }
    ensures failed { result ≡ Err RequestFault.SourceFault → Rose (S.faults src.old) (S.faults src.new) }
    ensures faults { S.faults src.old ≤ S.faults src.new }
{
    match whole_head(window, body.start, src) {
        Ok(Some(head)) => match begin(window, begun, body, head) {
            Ok(()) => rest_of_request(alloc, window, begun, body, src),
            Err(AllocError) => Err(RequestFault::Memory),
        },
        Ok(None) => Ok(None),
        Err(fault) => Err(fault),
    }
}

/// Takes the head at the front of the window in, so that its body comes next.
fn begin(
    window: &mut Window,
    begun: &mut Begun,
    body: &mut Body,
    head: Head,
) -> Result<(), AllocError>
    requires at { IsHeadAt window.old head }
    requires none { begun.old.head ≡ None }
    requires begun { IsBegun begun.old.head begun.old.bytes.items body.old }
    ensures begun { IsBegun begun.new.head begun.new.bytes.items body.new }
    ensures held { (start : ℕ) (bytes : List ℕ) → Holds start bytes (held_by begun.old body.old window.old)
        → Holds start bytes (held_by begun.new body.new window.new) }
    ensures ok { OnOk result (begun.new.head ≡ Some head) }
{
    begun.bytes.clear();
    begun
        .bytes
        .extend_from_slice(&window.as_slice()[..head.len])?;
    window.use_up(head.len);
    body.place = body.place.saturating_add(head.len as u64);
    body.stage = first_stage(head.framing);
    begun.head = Some(head);
    Ok(())
}

/// Returns what comes first of a body.
fn first_stage(framing: Framing) -> Stage
    requires { IsWithinLimit framing }
    ensures { IsFirst framing result }
{
    match framing {
        Framing::Sized(length) => Stage::Rest(length as usize),
        Framing::Chunked => Stage::Line,
    }
}

/// Reads the rest of a request whose head was read.
fn rest_of_request<S: Source>(
    alloc: Global,
    window: &mut Window,
    begun: &mut Begun,
    body: &mut Body,
    src: &mut S,
) -> Result<Option<Request>, RequestFault>
    requires some { IsSome begun.old.head }
    requires begun { IsBegun begun.old.head begun.old.bytes.items body.old }
    ensures begun { IsBegun begun.new.head begun.new.bytes.items body.new }
    ensures taken { (piece : List ℕ) × Consumes (S.left src.old) (S.left src.new) piece
        × ((start : ℕ) (bytes : List ℕ) → Holds start bytes (held_by begun.old body.old window.old)
        → FindsAt start (bytes ++ piece) (IsAtEnd (S.left src.new)) (held_by begun.new body.new window.new) result) }
    ensures ready { HoldsRequest (held_by begun.old body.old window.old) → src.new ≡ src.old }
    ensures failed { result ≡ Err RequestFault.SourceFault → Rose (S.faults src.old) (S.faults src.new) }
    ensures faults { S.faults src.old ≤ S.faults src.new }
{
    match read_body(window, body, src) {
        Ok(()) => {}
        Err(fault) => return Err(fault),
    }
    match end_request(alloc, begun, body) {
        Ok(request) => Ok(Some(request)),
        Err(AllocError) => Err(RequestFault::Memory),
    }
}

/// Hands the request out, now that all of it is there.
fn end_request(alloc: Global, begun: &mut Begun, body: &mut Body) -> Result<Request, AllocError>
    requires some { IsSome begun.old.head }
    requires begun { IsBegun begun.old.head begun.old.bytes.items body.old }
    requires done { body.old.stage ≡ Stage.Done }
    ensures begun { IsBegun begun.new.head begun.new.bytes.items body.new }
    ensures ok { IfOk result (λ request. (start : ℕ) (bytes ahead : List ℕ)
        → Holds start bytes (held_by begun.old body.old ahead)
        → FindsRequest start bytes (held_by begun.new body.new ahead) (asked_by request)) }
    ensures err { OnErr result ((begun.new ≡ begun.old) × (body.new ≡ body.old)) }
{
    let Some(head) = begun.head else {
        unreachable!();
    };
    let request = request_of(alloc, &begun.bytes, head, &mut body.bytes)?;
    begun.head = None;
    body.start = body.place;
    Ok(request)
}

/// Returns the request with this head and this body, which goes over to it.
fn request_of(
    alloc: Global,
    bytes: &[u8],
    head: Head,
    body: &mut Vec<u8>,
) -> Result<Request, AllocError>
    requires { IsHeadAt bytes.now head }
    ensures asked { IfOk result (λ request. IsAskedAt bytes.now head (asked_by request)) }
    ensures body { IfOk result (λ request. request.body ≡ body.old.items) }
    ensures taken { OnOk result (body.new.items ≡ []) }
    ensures err { OnErr result (body.new ≡ body.old) }
{
    let method = text_of(head.method.of(bytes));
    let (path, query) = split_target(text_of(head.target.of(bytes)));
    let form = head.form && takes_form(method, path);
    let args = arguments_in(alloc, query, form, body)?;
    let method = Text::try_of(alloc, method)?;
    let path = Text::try_of(alloc, path)?;
    let taken = mem::replace(body, Vec::new(alloc));
    Ok(Request {
        method,
        path,
        args: Items::of(args),
        body: Items::of(taken),
        last: head.last,
    })
}

/// Returns the arguments of the target, and after them those of the body where that is a form.
fn arguments_in(
    alloc: Global,
    query: &str,
    form: bool,
    body: &[u8],
) -> Result<Vec<Field>, AllocError>
    ensures { IfOk result (λ args. args.items ≡ arguments query.now ++ (if form then arguments body.now else [])) }
{
    let mut args = Vec::new(alloc);
    push_arguments(alloc, query.as_bytes(), &mut args)?;
    if form {
        push_arguments(alloc, body, &mut args)?;
    }
    Ok(args)
}

/// Returns the target up to its first question mark, and what stands after it.
fn split_target(target: &str) -> (&str, &str)
    ensures path { result.0.now ≡ path_of target.now }
    ensures query { result.1.now ≡ query_of target.now }
{
    match target.split_once('?') {
        Some((path, query)) => (path, query),
        None => (target, ""),
    }
}

/// Bytes that are text.
fn text_of(bytes: &[u8]) -> &str
    requires { IsUtf8 bytes.now }
    ensures { result.now ≡ bytes.now }
{
    match str::from_utf8(bytes) {
        Ok(text) => text,
        Err(_) => unreachable!(),
    }
}
