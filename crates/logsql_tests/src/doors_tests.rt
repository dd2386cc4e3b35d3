//! That doors are served, and side by side, by the program.
ghost use Rattle.std.specs.Prelude.{◌≤◌, IfOk, length};

use crate::program_tests::{new_vault, text_of};
use crate::visitors_tests::{CountingSink, Replies, WaitingSource};
use std::alloc::{AllocError, AllocGlobal, Global};
use std::random::RandomSource;
use std::rt::Clock as SystemTimer;
use std::sync::atomic::{AtomicU64, Ordering};
use std::sync::{Arc, Wait};
use std::thread::Threads;
use vl_io::{MemClock, MemDoors, MemSink, MemSource, SystemClock, Visit, VisitKind};
use vl_top::run;

/// Doors whose visitors can wait for one another.
type TestDoors<R> = MemDoors<WaitingSource<R>, CountingSink, MemClock>;

const INSERT: &[u8] =
    b"POST /insert/jsonline HTTP/1.1\r\nContent-Length: 13\r\n\r\n{\"_msg\":\"a\"}\n";

const MESSAGE: &[u8] = b"<13>1 - - - - - - a\n";

/// Returns a door for visitors of this kind, each of whom sends the bytes once this many replies were written.
fn door_for<R: SystemTimer + Copy + Drop>(
    rt: R,
    alloc: Global,
    replies: &Replies,
    visitors: &[(VisitKind, u64)],
    failing: &[u64],
) -> Result<TestDoors<R>, AllocError> {
    let mut visits = Vec::new(alloc);
    for (kind, awaited) in visitors {
        let bytes = match kind {
            VisitKind::Http => INSERT,
            VisitKind::Syslog => MESSAGE,
        };
        let source = WaitingSource {
            replies: Arc::try_clone(replies)?,
            awaited: *awaited,
            clock: SystemClock::new(rt),
            bytes,
            at: 0,
            faults: 0,
        };
        let sink = CountingSink {
            replies: Arc::try_clone(replies)?,
        };
        let clock = MemClock::of(alloc, &[5])?;
        visits.push(Visit {
            kind: *kind,
            source,
            sink,
            clock,
        })?;
    }
    MemDoors::of(alloc, visits, failing)
}

/// Four doors with two visitors each. The first visitors come one after another, each once the one before has its
/// reply, and then the second ones. So no door can be served to its end before each other one is begun.
fn crossing_doors<R: SystemTimer + Copy + Drop>(
    rt: R,
    alloc: Global,
    replies: &Replies,
) -> Result<Vec<TestDoors<R>>, AllocError>
    ensures few { IfOk result (λ doors. length doors.items ≤ 64) }
{
    let http = VisitKind::Http;
    let mut doors = Vec::new(alloc);
    doors.push(door_for(rt, alloc, replies, &[(http, 0), (http, 4)], &[])?)?;
    doors.push(door_for(rt, alloc, replies, &[(http, 1), (http, 5)], &[])?)?;
    doors.push(door_for(rt, alloc, replies, &[(http, 2), (http, 6)], &[])?)?;
    doors.push(door_for(rt, alloc, replies, &[(http, 3), (http, 7)], &[])?)?;
    Ok(doors)
}

/// The words of a server. Nothing listens at the address, since the doors are in memory.
const SERVER: &[&str] = &["serve", "--dir", "d", "--http", "x"];

/// Runs a server over the doors. Returns its status, how many bytes it writes to its output, and its error text.
fn server_end<
    R: AllocGlobal + Threads + Wait + RandomSource + Sync + SystemTimer + Copy + Drop + Send,
>(rt: &R, doors: &mut Vec<TestDoors<R>>) -> Result<String, AllocError>
    requires few { length doors.old.items ≤ 64 }
{
    let alloc = rt.alloc();
    let mut src = MemSource::of(alloc, b"x\n", &[], &[])?;
    let mut out = MemSink::of(alloc, &[])?;
    let mut err = MemSink::of(alloc, &[])?;
    let vault = new_vault(alloc)?;
    let mut clock = MemClock::of(alloc, &[5])?;
    let (ended, _) = run(
        rt, SERVER, &mut src, &mut out, &mut err, vault, doors, &mut clock,
    );
    let said = text_of(err.bytes());
    format!(in alloc; "{ended} {} {said:?}", out.bytes().len())
}

/// Appends how serving ends.
pub fn write_all<
    R: AllocGlobal + Threads + Wait + RandomSource + Sync + SystemTimer + Copy + Drop + Send,
>(rt: &R, text: &mut String) -> Result<(), AllocError> {
    write_served(rt, text)?;
    write_failing(rt, text)
}

/// The program serves doors side by side.
fn write_served<
    R: AllocGlobal + Threads + Wait + RandomSource + Sync + SystemTimer + Copy + Drop + Send,
>(rt: &R, text: &mut String) -> Result<(), AllocError> {
    let alloc = rt.alloc();
    let replies: Replies = Arc::new(alloc, AtomicU64::new(0))?;
    let mut doors = crossing_doors(*rt, alloc, &replies)?;
    let end = server_end(rt, &mut doors)?;
    write!(text, "serve {end} {}\n", replies.load(Ordering::SeqCst))
}

/// A door that fails is told. The first door fails after its first visit.
fn write_failing<
    R: AllocGlobal + Threads + Wait + RandomSource + Sync + SystemTimer + Copy + Drop + Send,
>(rt: &R, text: &mut String) -> Result<(), AllocError> {
    let alloc = rt.alloc();
    let http = (VisitKind::Http, 0);
    let replies: Replies = Arc::new(alloc, AtomicU64::new(0))?;
    let mut doors = Vec::new(alloc);
    doors.push(door_for(*rt, alloc, &replies, &[http, http], &[1])?)?;
    doors.push(door_for(*rt, alloc, &replies, &[http, http], &[])?)?;
    let end = server_end(rt, &mut doors)?;
    write!(
        text,
        "failing door {end} {}\n",
        replies.load(Ordering::SeqCst)
    )
}
