//! A source, a sink, a clock and doors in memory, which tell all that they give and take.
ghost use Rattle.std.specs.Prelude.{◌≡◌, ◌↔◌, ◌<◌, ◌≤◌, ◌++◌, [], All, Contains, IfOk, IsErr, OnErr, OnOk, Some};
ghost use Rattle.std.specs.Prelude.{drop, length, min, take};
ghost use Rattle.vl_io.specs.Bytes.{ReadConsumes, TakesSome, WriteAppends};
ghost use Rattle.vl_io.specs.Faults.{HasCause};
ghost use Rattle.std.specs.Option.{option_to_list};
ghost use Rattle.vl_io.specs.Memory.{counted, moment_at, moments_told, read_count, visits_left};
ghost use Rattle.vl_io.specs.Moments.{IsMoment, Tells};
ghost use Rattle.vl_io.specs.Visits.{NextGives};

use crate::outside::{Clock, Doors, Failed, Sink, Source, Visit};
use std::alloc::{AllocError, Global};
use std::marker::Model;
use std::vec::IntoIter;

/// A source over bytes in memory. It can give them in pieces, and fail at chosen calls.
#[derive(Debug, Drop)]
pub struct MemSource {
    bytes: Vec<u8>,
    // How many of the bytes were given.
    at: usize,
    pieces: Vec<usize>,
    failing: Vec<u64>,
    calls: u64,
    faults: u64,
}

impl Model for MemSource {
    ghost use Rattle.std.specs.Prelude.{◌<◌, ◌≤◌, All, drop, vec_len};
    ghost use Rattle.vl_io.specs.Memory.{SourceState};

    ghost Value = { SourceState };

    ghost view = { λ s. record {
      left = drop s.at s.bytes.items;
      pieces = s.pieces.items;
      failing = s.failing.items;
      calls = s.calls;
      faults = s.faults;
    } };

    ghost invariant = { λ s. (s.at ≤ vec_len s.bytes) × All (λ piece. 0 < piece) s.pieces.items };
}

impl MemSource {
    /// Returns a source that gives these bytes. Read k, counted from 0, gives at most `pieces[k]` bytes, and
    /// past the list's end as many as fit. The reads whose numbers are in `failing` fail.
    pub fn of(
        alloc: Global,
        bytes: &[u8],
        pieces: &[usize],
        failing: &[u64],
    ) -> Result<MemSource, AllocError>
        requires { All (λ piece. 0 < piece) pieces.now }
        ensures { IfOk result (λ source. source ≡ record {
          left = bytes.now;
          pieces = pieces.now;
          failing = failing.now;
          calls = 0;
          faults = 0;
        }) }
    {
        Ok(MemSource {
            bytes: Vec::from_slice(alloc, bytes)?,
            at: 0,
            pieces: Vec::from_slice(alloc, pieces)?,
            failing: Vec::from_slice(alloc, failing)?,
            calls: 0,
            faults: 0,
        })
    }
}

impl Source for MemSource {
    ghost left = { λ s. Some s.left };

    ghost faults = { λ s. s.faults };

    fn read(&mut self, buf: &mut [u8]) -> Result<usize, Failed>
        ensures bound { IfOk result (λ n. n ≤ length buf.new) }
        ensures bytes { ReadConsumes (Some self.old.left) (Some self.new.left) result buf.new }
        ensures cause { HasCause self.old.faults self.new.faults result }

        ensures fails { IsErr result ↔ Contains self.old.failing self.old.calls }
        ensures count { IfOk result (λ n. n ≡ read_count self.old (length buf.old)) }
        ensures ok { OnOk result (self.new.faults ≡ self.old.faults) }
        ensures err { OnErr result (self.new.faults ≡ counted self.old.faults) }
        ensures calls { self.new.calls ≡ counted self.old.calls }
        ensures pieces { self.new.pieces ≡ self.old.pieces }
        ensures failing { self.new.failing ≡ self.old.failing }
    {
        let call = self.calls;
        self.calls = call.saturating_add(1);
        if self.failing.contains(&call) {
            self.faults = self.faults.saturating_add(1);
            return Err(Failed);
        }
        let most = self.pieces.get(call as usize).copied().unwrap_or(buf.len());
        let count = copy_front(&self.bytes[self.at..], most, buf);
        self.at += count;
        Ok(count)
    }
}

/// Copies the bytes to the front of the buffer, as many as fit and are allowed, and says how many.
fn copy_front(bytes: &[u8], most: usize, buf: &mut [u8]) -> usize
    ensures count { result ≡ min (min most (length buf.old)) (length bytes.now) }
    ensures copied { take result buf.new ≡ take result bytes.now }
{
    let count = most.min(buf.len()).min(bytes.len());
    buf[..count].copy_from_slice(&bytes[..count]);
    count
}

/// A sink that keeps what is written to it. It can fail at chosen calls.
#[derive(Debug, Drop)]
pub struct MemSink {
    bytes: Vec<u8>,
    failing: Vec<u64>,
    calls: u64,
    faults: u64,
}

impl Model for MemSink {
    ghost use Rattle.vl_io.specs.Memory.{SinkState};

    ghost Value = { SinkState };

    ghost view = { λ s. record {
      written = s.bytes.items;
      failing = s.failing.items;
      calls = s.calls;
      faults = s.faults;
    } };
}

impl MemSink {
    /// Returns a sink with nothing written. The writes whose numbers, counted from 0, are in `failing` fail.
    pub fn of(alloc: Global, failing: &[u64]) -> Result<MemSink, AllocError>
        ensures { IfOk result (λ sink. sink ≡ record {
          written = [];
          failing = failing.now;
          calls = 0;
          faults = 0;
        }) }
    {
        Ok(MemSink {
            bytes: Vec::new(alloc),
            failing: Vec::from_slice(alloc, failing)?,
            calls: 0,
            faults: 0,
        })
    }

    /// Returns what was written.
    pub fn bytes(&self) -> &[u8]
        ensures { result.now ≡ self.now.written }
    {
        self.bytes.as_slice()
    }
}

impl Sink for MemSink {
    ghost written = { λ s. Some s.written };

    ghost faults = { λ s. s.faults };

    /// Writes the whole piece. Out of memory counts as a fault.
    fn write(&mut self, piece: &[u8]) -> Result<usize, Failed>
        ensures bound { TakesSome result piece.now }
        ensures bytes { WriteAppends (Some self.old.written) (Some self.new.written) result piece.now }
        ensures cause { HasCause self.old.faults self.new.faults result }

        ensures fails { Contains self.old.failing self.old.calls → IsErr result }
        ensures count { IfOk result (λ n. n ≡ length piece.now) }
        ensures ok { OnOk result (self.new.faults ≡ self.old.faults) }
        ensures err { OnErr result (self.new.faults ≡ counted self.old.faults) }
        ensures calls { self.new.calls ≡ counted self.old.calls }
        ensures failing { self.new.failing ≡ self.old.failing }
    {
        let call = self.calls;
        self.calls = call.saturating_add(1);
        if !self.failing.contains(&call) && self.bytes.extend_from_slice(piece).is_ok() {
            return Ok(piece.len());
        }
        self.faults = self.faults.saturating_add(1);
        Err(Failed)
    }
}

/// A clock that gives chosen moments.
#[derive(Debug, Drop)]
pub struct MemClock {
    moments: Vec<i64>,
    calls: u64,
}

impl Model for MemClock {
    ghost use Rattle.std.specs.Prelude.{◌<◌, All, vec_len};
    ghost use Rattle.vl_io.specs.Moments.{IsMoment};
    ghost use Rattle.vl_io.specs.Memory.{ClockState};

    ghost Value = { ClockState };

    ghost view = { λ c. record { moments = c.moments.items; calls = c.calls } };

    ghost invariant = { λ c. (0 < vec_len c.moments) × All IsMoment c.moments.items };
}

impl MemClock {
    /// Returns a clock that gives these moments in turn, and then the last again.
    pub fn of(alloc: Global, moments: &[i64]) -> Result<MemClock, AllocError>
        requires not_empty { 0 < length moments.now }
        requires in_range { All IsMoment moments.now }
        ensures given { IfOk result (λ clock. clock ≡ record { moments = moments.now; calls = 0 }) }
        ensures told { IfOk result (λ clock. moments_told clock ≡ Some []) }
    {
        Ok(MemClock {
            moments: Vec::from_slice(alloc, moments)?,
            calls: 0,
        })
    }
}

impl Clock for MemClock {
    ghost moments = { moments_told };

    fn now(&mut self) -> i64
        ensures in_range { IsMoment result }
        ensures told { Tells (moments_told self.old) (moments_told self.new) result }

        ensures moment { result ≡ moment_at self.old.moments self.old.calls }
        ensures calls { self.new.calls ≡ counted self.old.calls }
        ensures moments { self.new.moments ≡ self.old.moments }
    {
        let last = self.moments.len() - 1;
        let moment = self.moments[last.min(self.calls as usize)];
        self.calls = self.calls.saturating_add(1);
        moment
    }

    fn pause(&mut self)
        ensures kept { moments_told self.new ≡ moments_told self.old }
        ensures same { self.new ≡ self.old }
    {}
}

/// Doors that give chosen visits. They can fail at chosen calls.
#[derive(Debug, Drop)]
pub struct MemDoors<S, K, C> {
    visits: IntoIter<Visit<S, K, C>, Global>,
    failing: Vec<u64>,
    calls: u64,
    faults: u64,
}

impl<S, K, C> Model for MemDoors<S, K, C> {
    ghost use Rattle.std.specs.Vec.Iter.{into_iter_items};
    ghost use Rattle.vl_io.specs.Memory.{DoorsState};
    ghost use Rattle.vl_io.specs.declared.outside.Visit.{Visit};

    ghost Value = { DoorsState (Visit S K C) };

    ghost view = { λ d. record {
      visits = into_iter_items d.visits;
      failing = d.failing.items;
      calls = d.calls;
      faults = d.faults;
    } };
}

impl<S: Drop, K: Drop, C: Drop> MemDoors<S, K, C> {
    /// Doors that give these visits in turn. The calls whose numbers, counted from 0, are in `failing` fail.
    pub fn of(
        alloc: Global,
        visits: Vec<Visit<S, K, C>>,
        failing: &[u64],
    ) -> Result<MemDoors<S, K, C>, AllocError>
        ensures { IfOk result (λ doors. doors ≡ record {
          visits = visits.items;
          failing = failing.now;
          calls = 0;
          faults = 0;
        }) }
    {
        Ok(MemDoors {
            failing: Vec::from_slice(alloc, failing)?,
            visits: visits.into_iter(),
            calls: 0,
            faults: 0,
        })
    }
}

impl<S: Source + Drop, K: Sink + Drop, C: Clock + Drop> Doors for MemDoors<S, K, C> {
    type S = S;

    type K = K;

    type C = C;

    ghost left = { λ d. Some (visits_left d) };

    ghost faults = { λ d. d.faults };

    fn next(&mut self) -> Result<Option<Visit<S, K, C>>, Failed>
        ensures visits { NextGives (Some (visits_left self.old)) (Some (visits_left self.new)) result }
        ensures cause { HasCause self.old.faults self.new.faults result }

        ensures fails { IsErr result ↔ Contains self.old.failing self.old.calls }
        ensures given { IfOk result (λ visit. self.old.visits ≡ option_to_list visit ++ self.new.visits) }
        ensures ok { OnOk result (self.new.faults ≡ self.old.faults) }
        ensures err { OnErr result ((self.new.visits ≡ self.old.visits)
            × (self.new.faults ≡ counted self.old.faults)) }
        ensures calls { self.new.calls ≡ counted self.old.calls }
        ensures failing { self.new.failing ≡ self.old.failing }
    {
        let call = self.calls;
        self.calls = call.saturating_add(1);
        if self.failing.contains(&call) {
            self.faults = self.faults.saturating_add(1);
            return Err(Failed);
        }
        Ok(self.visits.next())
    }
}
