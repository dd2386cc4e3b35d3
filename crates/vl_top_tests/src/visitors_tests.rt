//! Visitors of a server, each of whom inserts one row.
ghost use Rattle.std.specs.Prelude.{◌≤◌, IfOk, None, length};
ghost use Rattle.vl_io.specs.Bytes.{ReadConsumes, TakesSome, WriteAppends};
ghost use Rattle.vl_io.specs.Faults.{HasCause};

use std::alloc::{AllocError, Global};
use std::rt::Clock as SystemTimer;
use std::sync::Arc;
use std::sync::atomic::{AtomicU64, Ordering};
use vl_io::{
    Clock, Failed, MemClock, MemDoors, MemSource, Sink, Source, SystemClock, Visit, VisitKind,
};

/// How many replies of the status 200 were written to all visitors.
pub type Replies = Arc<AtomicU64, Global>;

/// Doors of such visitors.
pub type TestDoors<R> = MemDoors<PacedSource<R>, ReplySink, MemClock>;

/// It pauses before each read, so that rounds of the keeper run between the visits.
#[derive(Drop)]
pub struct PacedSource<R> {
    source: MemSource,
    clock: SystemClock<R>,
    pauses: u64,
}

/// Pauses this often, for ten milliseconds each.
fn pause_for<R: SystemTimer>(clock: &mut SystemClock<R>, pauses: u64) {
    for _ in 0..pauses {
        clock.pause();
    }
}

impl<R: SystemTimer> Source for PacedSource<R> {
    ghost left = { λ _. None };

    ghost faults = { λ s. s.source.faults };

    fn read(&mut self, buf: &mut [u8]) -> Result<usize, Failed>
        ensures bound { IfOk result (λ n. n ≤ length buf.new) }
        ensures bytes { ReadConsumes None None result buf.new }
        ensures cause { HasCause self.old.source.faults self.new.source.faults result }
    {
        pause_for(&mut self.clock, self.pauses);
        self.source.read(buf)
    }
}

/// It counts the replies of the status 200 that are written to it.
#[derive(Drop)]
pub struct ReplySink {
    replies: Replies,
}

impl Sink for ReplySink {
    ghost written = { λ _. None };

    ghost faults = { λ _. 0 };

    fn write(&mut self, piece: &[u8]) -> Result<usize, Failed>
        ensures bound { TakesSome result piece.now }
        ensures bytes { WriteAppends None None result piece.now }
        ensures cause { HasCause 0 0 result }
    {
        if piece.starts_with(b"HTTP/1.1 200 OK\r\n") {
            self.replies.fetch_add(1, Ordering::SeqCst);
        }
        Ok(piece.len())
    }
}

/// Returns a door for this many visitors. The message of each is the letter of the door and the visitor's number.
pub fn insertions<R: SystemTimer + Copy + Drop>(
    rt: R,
    alloc: Global,
    replies: &Replies,
    letter: &str,
    visitors: u64,
    pauses: u64,
) -> Result<TestDoors<R>, AllocError> {
    let mut visits = Vec::new(alloc);
    for number in 0..visitors {
        let row = format!(in alloc; "{{\"_msg\":\"{letter}{number}\"}}\n")?;
        let head = format!(in alloc;
            "POST /insert/jsonline HTTP/1.1\r\nContent-Length: {}\r\n\r\n{}",
            row.as_str().len(),
            row.as_str()
        )?;
        let source = PacedSource {
            source: MemSource::of(alloc, head.as_bytes(), &[], &[])?,
            clock: SystemClock::new(rt),
            pauses,
        };
        let sink = ReplySink {
            replies: Arc::try_clone(replies)?,
        };
        let clock = MemClock::of(alloc, &[5])?;
        visits.push(Visit {
            kind: VisitKind::Http,
            source,
            sink,
            clock,
        })?;
    }
    MemDoors::of(alloc, visits, &[])
}
