//! Doors in memory.
ghost use Rattle.std.specs.Prelude.{◌≤◌, IfOk, length};

use crate::visitors_tests::{Awaited, Counter, CountingSink, WaitingSource};
use std::alloc::{AllocError, Global};
use std::rt::Clock as SystemTimer;
use std::sync::Arc;
use vl_io::{MemClock, MemDoors, SystemClock, Visit, VisitKind};

/// Doors whose visitors can wait for one another.
pub type TestDoors<R> = MemDoors<WaitingSource<R>, CountingSink, MemClock>;

pub type TestVisit<R> = Visit<WaitingSource<R>, CountingSink, MemClock>;

/// What a visitor asks, and what its sink counts.
#[derive(Clone, Copy, Debug, PartialEq, Eq)]
pub enum Asks {
    /// A batch of one row by HTTP. Its reply is counted.
    Insert,
    /// A batch of one row by syslog, to which no reply comes.
    Message,
    /// All rows. The reply is counted.
    Query,
    /// How many batches there are. A reply that there is one, and that it is settled, is counted.
    Status,
}

const INSERT: &[u8] =
    b"POST /insert/jsonline HTTP/1.1\r\nContent-Length: 13\r\n\r\n{\"_msg\":\"a\"}\n";

const MESSAGE: &[u8] = b"<13>1 - - - - - - a\n";

const QUERY: &[u8] = b"GET /select/logsql/query?query=* HTTP/1.1\r\n\r\n";

const STATUS: &[u8] = b"GET /status HTTP/1.1\r\n\r\n";

const OK: &[u8] = b"HTTP/1.1 200 OK\r\n";

const ANY: &[u8] = b"";

const SETTLED: &[u8] = b"{\"batches\":\"1\",\"settled\":\"1\"}\n";

/// Returns a visit that asks this once `awaited` has come to what it waits for, and whose sink counts in `replies`.
pub fn visit_of<R: SystemTimer + Copy + Drop>(
    rt: R,
    alloc: Global,
    asks: Asks,
    replies: &Counter,
    counter: &Counter,
    awaited: Awaited,
) -> Result<TestVisit<R>, AllocError> {
    let (kind, bytes, end) = match asks {
        Asks::Insert => (VisitKind::Http, INSERT, ANY),
        Asks::Message => (VisitKind::Syslog, MESSAGE, ANY),
        Asks::Query => (VisitKind::Http, QUERY, ANY),
        Asks::Status => (VisitKind::Http, STATUS, SETTLED),
    };
    let source = WaitingSource {
        counter: Arc::try_clone(counter)?,
        awaited,
        clock: SystemClock::new(rt),
        bytes,
        at: 0,
        faults: 0,
    };
    let sink = CountingSink {
        counter: Arc::try_clone(replies)?,
        front: OK,
        end,
    };
    let clock = MemClock::of(alloc, &[5])?;
    Ok(Visit {
        kind,
        source,
        sink,
        clock,
    })
}

/// Returns a door for visitors, each of whom asks this once so many replies were written. It fails at the calls of
/// these numbers.
pub fn door_of<R: SystemTimer + Copy + Drop>(
    rt: R,
    alloc: Global,
    replies: &Counter,
    visitors: &[(Asks, u64)],
    failing: &[u64],
) -> Result<TestDoors<R>, AllocError> {
    let mut visits = Vec::new(alloc);
    for (asks, awaited) in visitors {
        let awaited = Awaited::Count(*awaited);
        visits.push(visit_of(rt, alloc, *asks, replies, replies, awaited)?)?;
    }
    MemDoors::of(alloc, visits, failing)
}

/// Four doors with two visitors each. The first visitors come one after another, each once the one before has its
/// reply, and then the second ones. So no door can be served to its end before each other one is begun.
pub fn crossing_doors<R: SystemTimer + Copy + Drop>(
    rt: R,
    alloc: Global,
    replies: &Counter,
) -> Result<Vec<TestDoors<R>>, AllocError>
    ensures few { IfOk result (λ doors. length doors.items ≤ 64) }
{
    let insert = Asks::Insert;
    let mut doors = Vec::new(alloc);
    doors.push(door_of(rt, alloc, replies, &[(insert, 0), (insert, 4)], &[])?)?;
    doors.push(door_of(rt, alloc, replies, &[(insert, 1), (insert, 5)], &[])?)?;
    doors.push(door_of(rt, alloc, replies, &[(insert, 2), (insert, 6)], &[])?)?;
    doors.push(door_of(rt, alloc, replies, &[(insert, 3), (insert, 7)], &[])?)?;
    Ok(doors)
}
