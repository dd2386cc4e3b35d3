//! Visitors that can wait for one another.
ghost use Rattle.std.specs.Prelude.{◌≤◌, IfOk, None, length};
ghost use Rattle.vl_io.specs.Bytes.{ReadConsumes, TakesSome, WriteAppends};
ghost use Rattle.vl_io.specs.Faults.{HasCause};

use std::alloc::Global;
use std::rt::Clock as SystemTimer;
use std::sync::Arc;
use std::sync::atomic::{AtomicU64, Ordering};
use vl_io::{Clock, Failed, Sink, Source, SystemClock};

/// How many replies were written to all visitors.
pub type Replies = Arc<AtomicU64, Global>;

/// The most waits for a reply. One takes a millisecond.
const MOST_WAITS: u64 = 10_000;

/// It sends its bytes once this many replies were written to other visitors. Where they are not, it fails.
#[derive(Drop)]
pub struct WaitingSource<R> {
    pub replies: Replies,
    pub awaited: u64,
    pub clock: SystemClock<R>,
    pub bytes: &'static [u8],
    pub at: usize,
    pub faults: u64,
}

/// Waits until this many replies were written, and says whether they were.
fn have_come<R: SystemTimer>(replies: &Replies, awaited: u64, clock: &mut SystemClock<R>) -> bool {
    for _ in 0..MOST_WAITS {
        if replies.load(Ordering::SeqCst) >= awaited {
            return true;
        }
        clock.pause();
    }
    false
}

impl<R: SystemTimer> Source for WaitingSource<R> {
    ghost left = { λ _. None };

    ghost faults = { λ s. s.faults };

    fn read(&mut self, buf: &mut [u8]) -> Result<usize, Failed>
        ensures bound { IfOk result (λ n. n ≤ length buf.new) }
        ensures bytes { ReadConsumes None None result buf.new }
        ensures cause { HasCause self.old.faults self.new.faults result }
    {
        if !have_come(&self.replies, self.awaited, &mut self.clock) {
            self.faults = self.faults.saturating_add(1);
            return Err(Failed);
        }
        let rest = self.bytes.get(self.at..).unwrap_or(&[]);
        let count = rest.len().min(buf.len());
        buf[..count].copy_from_slice(&rest[..count]);
        self.at = self.at.saturating_add(count);
        Ok(count)
    }
}

/// It counts the replies of the status 200 that are written to it.
#[derive(Drop)]
pub struct CountingSink {
    pub replies: Replies,
}

impl Sink for CountingSink {
    ghost written = { λ _. None };

    ghost faults = { λ _. 0 };

    fn write(&mut self, piece: &[u8]) -> Result<usize, Failed>
        ensures bound { TakesSome result piece.now }
        ensures bytes { WriteAppends None None result piece.now }
        ensures cause { HasCause 0 0 result }
    {
        if piece.starts_with(b"HTTP/1.1 200 OK\r\n") {
            self.replies.fetch_add(1, Ordering::SeqCst);
        }
        Ok(piece.len())
    }
}
