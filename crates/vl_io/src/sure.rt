//! A source and a sink whose calls never fail.
ghost use Rattle.std.specs.Prelude.{◌≡◌, ◌<◌, ◌≤◌, [], All, IfOk, IsOk, None, Some, length};
ghost use Rattle.vl_io.specs.Bytes.{ReadConsumes, TakesSome, WriteAppends};
ghost use Rattle.vl_io.specs.Faults.{HasCause};
ghost use Rattle.vl_io.specs.Memory.{counted, read_count};

use crate::memory::MemSource;
use crate::outside::{Failed, Sink, Source};
use std::alloc::{AllocError, Global};
use std::marker::Model;

/// A source over bytes in memory whose reads never fail. It can give the bytes in pieces.
#[derive(Debug, Drop)]
pub struct SureSource {
    source: MemSource,
}

impl Model for SureSource {
    ghost use Rattle.std.specs.Prelude.{◌≡◌, []};
    ghost use Rattle.vl_io.specs.Memory.{SourceState};

    ghost Value = { SourceState };

    ghost view = { λ s. s.source };

    ghost invariant = { λ s. s.source.failing ≡ [] };
}

impl SureSource {
    /// Returns a source that gives these bytes. Read k, counted from 0, gives at most `pieces[k]` bytes, and
    /// past the list's end as many as fit.
    pub fn of(alloc: Global, bytes: &[u8], pieces: &[usize]) -> Result<SureSource, AllocError>
        requires { All (λ piece. 0 < piece) pieces.now }
        ensures { IfOk result (λ source. source ≡ record {
          left = bytes.now;
          pieces = pieces.now;
          failing = [];
          calls = 0;
          faults = 0;
        }) }
    {
        Ok(SureSource {
            source: MemSource::of(alloc, bytes, pieces, &[])?,
        })
    }
}

impl Source for SureSource {
    ghost left = { λ s. Some s.left };

    ghost faults = { λ _. 0 };

    fn read(&mut self, buf: &mut [u8]) -> Result<usize, Failed>
        ensures bound { IfOk result (λ n. n ≤ length buf.new) }
        ensures bytes { ReadConsumes (Some self.old.left) (Some self.new.left) result buf.new }
        ensures cause { HasCause 0 0 result }

        ensures sure { IsOk result }
        ensures count { IfOk result (λ n. n ≡ read_count self.old (length buf.old)) }
        ensures calls { self.new.calls ≡ counted self.old.calls }
        ensures pieces { self.new.pieces ≡ self.old.pieces }
        ensures failing { self.new.failing ≡ [] }
        ensures faults { self.new.faults ≡ self.old.faults }
    {
        self.source.read(buf)
    }
}

/// A sink that takes each piece whole and keeps no byte.
#[derive(Clone, Copy, Debug)]
pub struct SureSink;

impl SureSink {
    /// Returns a sink that never fails.
    pub fn new() -> SureSink
        ensures { ⟦<SureSink as Sink>⟧.written result ≡ None }
    {
        SureSink
    }
}

impl Sink for SureSink {
    ghost written = { λ _. None };

    ghost faults = { λ _. 0 };

    fn write(&mut self, piece: &[u8]) -> Result<usize, Failed>
        ensures bound { TakesSome result piece.now }
        ensures bytes { WriteAppends None None result piece.now }
        ensures cause { HasCause 0 0 result }
        ensures whole { result ≡ Ok (length piece.now) }
    {
        Ok(piece.len())
    }
}
