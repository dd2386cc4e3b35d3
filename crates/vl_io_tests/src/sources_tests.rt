//! Sources, sinks and clocks (`vl_io`).

use std::alloc::{AllocError, Global};
use std::io;
use std::io::{ErrorKind, Read, Write};
use vl_io::{
    Clock, Failed, GroupReader, InputSource, MemClock, MemSink, MemSource, OutputSink, ReadFault,
    Sink, Source, SureSink, SureSource, SystemClock, put_all,
};

/// Takes at most three bytes a call, and fails at one of its calls.
#[derive(Drop)]
struct ShortWriter<'a> {
    taken: &'a mut Vec<u8>,
    calls_left: u32,
}

impl Write for ShortWriter<'_> {
    fn write(&mut self, buf: &[u8]) -> io::Result<usize> {
        if self.calls_left == 0 {
            return Err(ErrorKind::BrokenPipe.into());
        }
        self.calls_left -= 1;
        let count = buf.len().min(3);
        self.taken.extend_from_slice(&buf[..count])?;
        Ok(count)
    }

    fn flush(&mut self) -> io::Result<()> {
        Ok(())
    }
}

/// Gives one byte, and then fails.
#[derive(Drop)]
struct BrokenReader {
    gave: bool,
}

impl Read for BrokenReader {
    fn read(&mut self, buf: &mut [u8]) -> io::Result<usize> {
        if self.gave || buf.is_empty() {
            return Err(ErrorKind::ConnectionReset.into());
        }
        self.gave = true;
        buf[0] = b'a';
        Ok(1)
    }
}

/// Reads from a slice and writes to a list. Each of its first calls is interrupted.
#[derive(Drop)]
struct Interrupted<'a> {
    given: &'a [u8],
    taken: &'a mut Vec<u8>,
    interruptions: u32,
}

impl Interrupted<'_> {
    /// Fails, as long as interruptions are left.
    fn interrupted(&mut self) -> io::Result<()> {
        if self.interruptions == 0 {
            return Ok(());
        }
        self.interruptions -= 1;
        Err(ErrorKind::Interrupted.into())
    }
}

impl Read for Interrupted<'_> {
    fn read(&mut self, buf: &mut [u8]) -> io::Result<usize> {
        self.interrupted()?;
        self.given.read(buf)
    }
}

impl Write for Interrupted<'_> {
    fn write(&mut self, buf: &[u8]) -> io::Result<usize> {
        self.interrupted()?;
        self.taken.extend_from_slice(buf)?;
        Ok(buf.len())
    }

    fn flush(&mut self) -> io::Result<()> {
        Ok(())
    }
}

/// Returns what a read gave, and `failed` where it failed.
fn given<'a, S: Source>(source: &mut S, buf: &'a mut [u8]) -> &'a [u8] {
    match source.read(buf) {
        Ok(count) => &buf[..count],
        Err(Failed) => b"failed",
    }
}

/// Returns whether a source gives these pieces in turn, into this much room.
fn gives<S: Source>(source: &mut S, room: usize, pieces: &[&str]) -> bool {
    let mut buffer = [0; 4];
    let room = room.min(4);
    for piece in pieces {
        if given(source, &mut buffer[..room]) != piece.as_bytes() {
            return false;
        }
    }
    true
}

/// Returns whether sources give their bytes in pieces.
pub fn gives_pieces(alloc: Global) -> Result<bool, AllocError> {
    let mut source = MemSource::of(alloc, b"first line", &[3, 9, 1], &[1])?;
    let pieces = ["fir", "failed", "s", "t li", "ne", "", ""];
    let given = gives(&mut source, 4, &pieces);
    let mut source = SureSource::of(alloc, b"line", &[1])?;
    Ok(given && gives(&mut source, 2, &["l", "in", "e", ""]))
}

/// Returns what a writer took that fails after this many calls, and whether the sink failed.
pub fn writes(alloc: Global, calls: &str) -> Result<String, AllocError> {
    let mut taken = Vec::new(alloc);
    let mut sink = OutputSink::new(ShortWriter {
        taken: &mut taken,
        calls_left: calls.parse::<u32>().unwrap_or(0),
    });
    let end = if put_all(&mut sink, b"stored").is_ok() {
        ""
    } else {
        " failed"
    };
    drop(sink);
    let front = String::from_utf8_lossy(alloc, taken.as_slice())?;
    format!(in alloc; "{front}{end}")
}

/// Returns whether a sink in memory fails at its second call only, and keeps what it was given at the others.
pub fn keeps(alloc: Global) -> Result<bool, AllocError> {
    let mut sink = MemSink::of(alloc, &[1])?;
    let first = put_all(&mut sink, b"one,").is_ok() && put_all(&mut sink, b"").is_ok();
    let second = put_all(&mut sink, b"two,").is_err() && put_all(&mut sink, b"three").is_ok();
    Ok(first && second && sink.bytes() == b"one,three".as_slice())
}

/// Returns whether a sink that cannot fail takes a piece.
pub fn sure_sink() -> bool {
    put_all(&mut SureSink::new(), b"piece").is_ok()
}

/// Returns whether a clock gives its moments, and then the last one.
pub fn memory_clock(alloc: Global) -> Result<bool, AllocError> {
    let mut clock = MemClock::of(alloc, &[1_700_000_000_000_000_000, 5])?;
    let mut same = true;
    for want in [1_700_000_000_000_000_000, 5, 5] {
        clock.pause();
        same = clock.now() == want && same;
    }
    Ok(same)
}

/// Returns whether the system's clock stands after the year 2020, in nanoseconds.
pub fn system_clock(rt: &HostRuntime) -> bool {
    let mut clock = SystemClock::new(rt);
    clock.pause();
    clock.now() > 1_600_000_000_000_000_000
}

/// Returns whether a read that is interrupted is tried again.
pub fn interrupted_source(alloc: Global) -> Result<bool, AllocError> {
    let mut taken = Vec::new(alloc);
    let mut source = InputSource::new(Interrupted {
        given: b"line",
        taken: &mut taken,
        interruptions: 3,
    });
    Ok(gives(&mut source, 4, &["line", ""]))
}

/// Returns whether a write that is interrupted is tried again.
pub fn interrupted_sink(alloc: Global) -> Result<bool, AllocError> {
    let mut taken = Vec::new(alloc);
    let mut sink = OutputSink::new(Interrupted {
        given: b"",
        taken: &mut taken,
        interruptions: 3,
    });
    let stored = put_all(&mut sink, b"stored").is_ok();
    drop(sink);
    Ok(stored && taken.as_slice() == b"stored".as_slice())
}

/// Returns whether a source is read in these groups of two lines, up to this many bytes, and then so ended.
fn reads(
    alloc: Global,
    source: &mut MemSource,
    limit: usize,
    groups: &[&str],
    end: Result<bool, ReadFault>,
) -> Result<bool, ReadFault> {
    let mut reader = GroupReader::of(alloc, 2, limit)?;
    for group in groups {
        if !reader.advance(source)? || reader.group() != group.as_bytes() {
            return Ok(false);
        }
    }
    Ok(reader.advance(source) == end)
}

/// Returns whether input is read in groups, up to the limit.
pub fn reads_groups(alloc: Global) -> Result<bool, ReadFault> {
    for (limit, groups, end) in [
        (9, ["a\nb\n", "\ncd\n", "e"].as_slice(), Ok(false)),
        (8, &["a\nb\n", "\ncd\n"], Err(ReadFault::Long)),
        (0, &[], Err(ReadFault::Long)),
    ] {
        let mut source = MemSource::of(alloc, b"a\nb\n\ncd\ne", &[1, 6, 1], &[])?;
        if !reads(alloc, &mut source, limit, groups, end)? {
            return Ok(false);
        }
    }
    Ok(true)
}

/// Returns whether a read that fails ends the groups.
pub fn reads_failed_group(alloc: Global) -> Result<bool, ReadFault> {
    let mut source = MemSource::of(alloc, b"a\nb\nc\n", &[5], &[1])?;
    let failed = Err(ReadFault::Failed);
    reads(alloc, &mut source, 9, &["a\nb\n"], failed)
}

/// Returns whether a fault of a reader is a fault of the source.
pub fn broken_reader(alloc: Global) -> Result<bool, ReadFault> {
    let mut reader = GroupReader::of(alloc, 1, 9)?;
    let mut source = InputSource::new(BrokenReader { gave: false });
    Ok(reader.advance(&mut source) == Err(ReadFault::Failed))
}

/// Returns whether a group of 200,000 bytes is read whole.
pub fn long_group(alloc: Global) -> Result<bool, ReadFault> {
    let long = vec![in alloc; 7; 200_000]?;
    let mut reader = GroupReader::of(alloc, 1, 200_000)?;
    let mut source = InputSource::new(long.as_slice());
    Ok(reader.advance(&mut source)? && reader.group() == long.as_slice())
}
