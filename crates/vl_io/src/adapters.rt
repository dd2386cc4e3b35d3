//! The real outside: standard streams and the system's clock. No clause says what these give and
//! take, so the forms here tell nothing. Each counts its faults in a number that stops at its largest
//! value. Of a reader or a writer that does tell its bytes, it is proved that they are passed on.
ghost use Rattle.std.specs.Io.KnownBytes.{ReadConsumes as ReaderGives, WriteAppends as WriterTakes};
ghost use Rattle.std.specs.Prelude.{◌≡◌, ◌≤◌, IfOk, None, length};
ghost use Rattle.vl_io.specs.Adapters.{read_faults, reader_of, write_faults, writer_of};
ghost use Rattle.vl_io.specs.Bytes.{ReadConsumes, TakesSome, WriteAppends};
ghost use Rattle.vl_io.specs.Faults.{HasCause};

use crate::outside::{Clock, Failed, Sink, Source};
use std::io::{ErrorKind, Read, Write};
use std::rt::Clock as SystemTimer;
use std::thread;
use std::time::{Duration, SystemTime, UNIX_EPOCH};

/// A source over a reader, as standard input. A read that is interrupted is tried again.
#[derive(Debug, Drop)]
pub struct InputSource<R> {
    reader: R,
    faults: u64,
}

impl<R: Read> InputSource<R> {
    /// Returns a source that gives what the reader has left.
    pub fn new(reader: R) -> InputSource<R>
        ensures reader { reader_of result ≡ reader }
        ensures faults { read_faults result ≡ 0 }
    {
        InputSource { reader, faults: 0 }
    }
}

impl<R: Read> Source for InputSource<R> {
    ghost left = { λ _. None };

    ghost faults = { read_faults };

    #[tactic(auto, using(crate::proofs::Passing::reads_at_last))]
    fn read(&mut self, buf: &mut [u8]) -> Result<usize, Failed>
        ensures bound { IfOk result (λ n. n ≤ length buf.new) }
        ensures bytes { ReadConsumes None None result buf.new }
        ensures cause { HasCause (read_faults self.old) (read_faults self.new) result }
        ensures passed { ReaderGives (R.remaining (reader_of self.old))
            (R.remaining (reader_of self.new)) result buf.new }
    {
        for _ in 0..u64::MAX {
            match self.reader.read(buf) {
                Ok(count) => return Ok(count),
                Err(fault) if fault.kind() == ErrorKind::Interrupted => {
                    self.faults = self.faults.saturating_add(1);
                }
                Err(_) => break,
            }
        }
        self.faults = self.faults.saturating_add(1);
        Err(Failed)
    }
}

/// A sink over a writer that has no buffer of its own, as standard output and standard error. A write that is
/// interrupted is tried again.
#[derive(Debug, Drop)]
pub struct OutputSink<W> {
    writer: W,
    faults: u64,
}

impl<W: Write> OutputSink<W> {
    /// Returns a sink that writes to the writer, and never flushes it.
    pub fn new(writer: W) -> OutputSink<W>
        ensures writer { writer_of result ≡ writer }
        ensures faults { write_faults result ≡ 0 }
    {
        OutputSink { writer, faults: 0 }
    }
}

impl<W: Write> Sink for OutputSink<W> {
    ghost written = { λ _. None };

    ghost faults = { write_faults };

    /// Writes to the writer. A writer that takes no byte of a piece that is not empty has failed.
    #[tactic(auto, using(crate::proofs::Passing::writes_at_last))]
    fn write(&mut self, piece: &[u8]) -> Result<usize, Failed>
        ensures bound { TakesSome result piece.now }
        ensures bytes { WriteAppends None None result piece.now }
        ensures cause { HasCause (write_faults self.old) (write_faults self.new) result }
        ensures passed { WriterTakes (W.contents (writer_of self.old))
            (W.contents (writer_of self.new)) result piece.now }
    {
        for _ in 0..u64::MAX {
            match self.writer.write(piece) {
                Ok(count) if count > 0 || piece.is_empty() => return Ok(count),
                Err(fault) if fault.kind() == ErrorKind::Interrupted => {
                    self.faults = self.faults.saturating_add(1);
                }
                _ => break,
            }
        }
        self.faults = self.faults.saturating_add(1);
        Err(Failed)
    }
}

/// How long `pause` of the system's clock waits, in milliseconds.
const PAUSE: u64 = 10;

/// The system's clock. Where it can't be read, or stands before 1970, it gives 0, and after the last
/// moment of an `i64` that moment.
#[derive(Debug, Drop)]
pub struct SystemClock<R> {
    rt: R,
}

impl<R: SystemTimer> SystemClock<R> {
    /// Returns the clock of this runtime.
    pub fn new(rt: R) -> SystemClock<R>
        ensures { ⟦<SystemClock<R> as Clock>⟧.moments result ≡ None }
    {
        SystemClock { rt }
    }
}

impl<R: SystemTimer> Clock for SystemClock<R> {
    ghost moments = { λ _. None };

    fn now(&mut self) -> i64 {
        let Ok(now) = SystemTime::now(&self.rt) else {
            return 0;
        };
        let Ok(elapsed) = now.duration_since(UNIX_EPOCH) else {
            return 0;
        };
        i64::try_from(elapsed.as_nanos()).unwrap_or(i64::MAX)
    }

    fn pause(&mut self) {
        thread::sleep(&self.rt, Duration::from_millis(PAUSE));
    }
}
