//! Visitors that can wait for one another, and for the keeper.
ghost use Rattle.std.specs.Prelude.{◌≤◌, IfOk, None, length};
ghost use Rattle.vl_io.specs.Bytes.{ReadConsumes, TakesSome, WriteAppends};
ghost use Rattle.vl_io.specs.Faults.{HasCause};

use std::alloc::Global;
use std::rt::Clock as SystemTimer;
use std::sync::Arc;
use std::sync::atomic::{AtomicU64, Ordering};
use vl_io::{Clock, Failed, Sink, Source, SystemClock};

/// A number that visitors and the keeper share.
pub type Counter = Arc<AtomicU64, Global>;

/// The most waits for a counter. One takes ten milliseconds.
const MOST_WAITS: u64 = 1_000;

/// What a counter has to come to.
#[derive(Clone, Copy, Debug, PartialEq, Eq)]
pub enum Awaited {
    /// This number.
    Count(u64),
    /// So many more.
    Further(u64),
}

/// It sends its bytes once the counter came to what it waits for. Where it does not come, it fails.
#[derive(Drop)]
pub struct WaitingSource<R> {
    pub counter: Counter,
    pub awaited: Awaited,
    pub clock: SystemClock<R>,
    pub bytes: &'static [u8],
    pub at: usize,
    pub faults: u64,
}

/// Waits until the counter came to this, and says whether it did.
fn has_come<R: SystemTimer>(
    counter: &Counter,
    awaited: Awaited,
    clock: &mut SystemClock<R>,
) -> bool {
    let wanted = match awaited {
        Awaited::Count(count) => count,
        Awaited::Further(count) => counter.load(Ordering::SeqCst).saturating_add(count),
    };
    for _ in 0..MOST_WAITS {
        if counter.load(Ordering::SeqCst) >= wanted {
            return true;
        }
        clock.pause();
    }
    false
}

impl<R: SystemTimer> Source for WaitingSource<R> {
    ghost left = { λ _. None };

    ghost faults = { λ s. s.faults };

    fn read(&mut self, buf: &mut [u8]) -> Result<usize, Failed>
        ensures bound { IfOk result (λ n. n ≤ length buf.new) }
        ensures bytes { ReadConsumes None None result buf.new }
        ensures cause { HasCause self.old.faults self.new.faults result }
    {
        if !has_come(&self.counter, self.awaited, &mut self.clock) {
            self.faults = self.faults.saturating_add(1);
            return Err(Failed);
        }
        let rest = self.bytes.get(self.at..).unwrap_or(&[]);
        let count = rest.len().min(buf.len());
        buf[..count].copy_from_slice(&rest[..count]);
        self.at = self.at.saturating_add(count);
        Ok(count)
    }
}

/// It counts the pieces written to it that begin and end so.
#[derive(Drop)]
pub struct CountingSink {
    pub counter: Counter,
    pub front: &'static [u8],
    pub end: &'static [u8],
}

impl Sink for CountingSink {
    ghost written = { λ _. None };

    ghost faults = { λ _. 0 };

    fn write(&mut self, piece: &[u8]) -> Result<usize, Failed>
        ensures bound { TakesSome result piece.now }
        ensures bytes { WriteAppends None None result piece.now }
        ensures cause { HasCause 0 0 result }
    {
        if piece.starts_with(self.front) && piece.ends_with(self.end) {
            self.counter.fetch_add(1, Ordering::SeqCst);
        }
        Ok(piece.len())
    }
}

/// A clock that counts its pauses, and does not wait.
#[derive(Drop)]
pub struct CountingClock {
    pub counter: Counter,
}

impl Clock for CountingClock {
    ghost moments = { λ _. None };

    fn now(&mut self) -> i64 {
        0
    }

    fn pause(&mut self) {
        self.counter.fetch_add(1, Ordering::SeqCst);
    }
}
