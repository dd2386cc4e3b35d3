//! One connection in memory.
ghost use Rattle.turn_lock.specs.Passes.{IsPassOf};

use log_desk::{Desk, Pass};
use std::alloc::{AllocError, Global};
use std::fmt::Write;
use std::random::RandomSource;
use std::sync::Wait;
use vl_io::{MemClock, MemSink, MemSource};
use vl_session::{Report, serve_session};

/// What a session reports, and what it wrote.
#[derive(Drop)]
pub(crate) struct Told {
    pub report: Report,
    pub written: Vec<u8>,
}

/// Returns a session over these bytes.
pub(crate) fn tell<R: Wait + RandomSource>(
    rt: &R,
    alloc: Global,
    desk: &Desk,
    pass: &mut Pass,
    bytes: &[u8],
) -> Result<Told, AllocError>
    requires { IsPassOf desk.now pass.old }
    ensures { IsPassOf desk.now pass.new }
{
    let mut source = MemSource::of(alloc, bytes, &[], &[])?;
    let mut sink = MemSink::of(alloc, &[])?;
    let mut clock = MemClock::of(alloc, &[5])?;
    let report = serve_session(rt, alloc, desk, pass, &mut source, &mut sink, &mut clock);
    let written = Vec::from_slice(alloc, sink.bytes())?;
    Ok(Told { report, written })
}

/// A request that inserts one line.
pub(crate) fn push_insert(text: &mut String, line: &str) -> Result<(), AllocError> {
    let length = line.len();
    write!(
        text,
        "POST /insert/jsonline HTTP/1.1\r\nContent-Length: {length}\r\n\r\n{line}"
    )
}

/// A request that asks a query, which is percent-encoded.
pub(crate) fn push_select(text: &mut String, query: &str) -> Result<(), AllocError> {
    write!(
        text,
        "GET /select/logsql/query?query={query} HTTP/1.1\r\n\r\n"
    )
}

/// The reply to one line that is the batch with this number.
pub(crate) fn push_inserted(text: &mut String, number: u64) -> Result<(), AllocError> {
    let digits = number.checked_ilog10().unwrap_or(0) as u64;
    let length = digits.saturating_add(43);
    write!(
        text,
        "HTTP/1.1 200 OK\r\nContent-Type: application/json\r\nContent-Length: {length}\r\n\r\n\
        {{\"accepted\":\"1\",\"batch\":\"{number}\",\"refused\":\"0\"}}\n"
    )
}

/// The reply to a query that has these lines.
pub(crate) fn push_found(text: &mut String, lines: &str) -> Result<(), AllocError> {
    let length = lines.len();
    write!(
        text,
        "HTTP/1.1 200 OK\r\nContent-Type: application/stream+json\r\nContent-Length: {length}\r\n\r\n\
        {lines}"
    )
}
