//! The two directions of a connection, each with a deadline. They count bytes, and know nothing of what these say.
ghost use Rattle.std.specs.Prelude.{◌<◌, ◌≤◌, IfOk};

use crate::outside::VisitKind;
use std::alloc::Global;
use std::io;
use std::io::{ErrorKind, Read, Write};
use std::net::TcpStream;
use std::rt::Clock as SystemTimer;
use std::sync::Arc;
use std::sync::atomic::{AtomicU64, Ordering};
use std::time::{Duration, Instant};

/// How long a visitor that speaks HTTP may be silent before a request, in seconds.
const LONGEST_PAUSE: u64 = 5;

/// How long a request may take from its first byte, in seconds. Each `PAID_BYTES` of it give one more.
const REQUEST_TIME: u64 = 30;

/// How long writing a reply may wait, in seconds. Each `PAID_BYTES` that are taken give one more.
const REPLY_TIME: u64 = 10;

/// For how many bytes a deadline moves by a second.
const PAID_BYTES: u64 = 65_536;

/// How long a visitor that speaks syslog may be silent, in seconds.
const LONGEST_SILENCE: u64 = 3600;

/// Who had the word last in a connection: its visitor ..
const VISITOR: u64 = 0;

/// .. or the program.
const PROGRAM: u64 = 1;

/// A connection, which its two directions share.
#[derive(Drop)]
pub struct Connection {
    pub(crate) stream: TcpStream,
    /// Who had the word last. So each direction sees where the other one began, and a request or a reply with it.
    speaker: AtomicU64,
}

impl Connection {
    /// Returns a connection in which nothing was said yet. What is written to it is sent at once.
    pub(crate) fn over(stream: TcpStream) -> io::Result<Connection> {
        stream.set_nodelay(true)?;
        Ok(Connection {
            stream,
            speaker: AtomicU64::new(VISITOR),
        })
    }

    /// Gives the word to one side, and says whether the other one had it.
    fn turns_to(&self, speaker: u64) -> bool {
        self.speaker.swap(speaker, Ordering::SeqCst) != speaker
    }
}

/// What comes over a connection. A read that lasts past its deadline fails.
#[derive(Drop)]
pub struct TimedReader<R> {
    rt: R,
    connection: Arc<Connection, Global>,
    kind: VisitKind,
    /// When the first byte of the present request came.
    begun: Option<Instant>,
    /// How many bytes of it came.
    came: u64,
    /// The time-out that was set last, in seconds.
    timeout: u64,
}

impl<R: SystemTimer> TimedReader<R> {
    /// Returns the reader of a connection over which nothing came yet.
    pub(crate) fn of(
        rt: R,
        connection: Arc<Connection, Global>,
        kind: VisitKind,
    ) -> TimedReader<R> {
        TimedReader {
            rt,
            connection,
            kind,
            begun: None,
            came: 0,
            timeout: 0,
        }
    }

    /// Returns how long the next read may wait, in seconds.
    fn time_left(&mut self) -> io::Result<u64>
        ensures { IfOk result (λ seconds. 0 < seconds) }
    {
        if self.kind == VisitKind::Syslog {
            return Ok(LONGEST_SILENCE);
        }
        if self.connection.turns_to(VISITOR) {
            self.begun = None;
        }
        match self.begun {
            Some(begun) => seconds_left(REQUEST_TIME, self.came, begun.elapsed(&self.rt)?),
            None => Ok(LONGEST_PAUSE),
        }
    }

    /// Notes bytes that came.
    fn note(&mut self, count: u64) {
        if self.begun.is_none() {
            self.begun = Instant::now(&self.rt).ok();
            self.came = 0;
        }
        self.came = self.came.saturating_add(count);
    }
}

impl<R: SystemTimer> Read for TimedReader<R> {
    fn read(&mut self, buf: &mut [u8]) -> io::Result<usize> {
        let seconds = self.time_left()?;
        if seconds != self.timeout {
            let timeout = Some(Duration::from_secs(seconds));
            self.connection.stream.set_read_timeout(timeout)?;
            self.timeout = seconds;
        }
        let count = (&self.connection.stream).read(buf)?;
        self.note(count as u64);
        Ok(count)
    }
}

/// What goes over a connection. A write that waits past its deadline fails.
#[derive(Drop)]
pub struct TimedWriter<R> {
    rt: R,
    connection: Arc<Connection, Global>,
    /// How long writing the present reply has waited.
    waited: Duration,
    /// How many bytes of it were taken.
    taken: u64,
    /// The time-out that was set last, in seconds.
    timeout: u64,
}

impl<R: SystemTimer> TimedWriter<R> {
    /// Returns the writer of a connection over which nothing went yet.
    pub(crate) fn of(rt: R, connection: Arc<Connection, Global>) -> TimedWriter<R> {
        TimedWriter {
            rt,
            connection,
            waited: Duration::ZERO,
            taken: 0,
            timeout: 0,
        }
    }
}

impl<R: SystemTimer> Write for TimedWriter<R> {
    fn write(&mut self, buf: &[u8]) -> io::Result<usize> {
        if self.connection.turns_to(PROGRAM) {
            self.waited = Duration::ZERO;
            self.taken = 0;
        }
        let seconds = seconds_left(REPLY_TIME, self.taken, self.waited)?;
        if seconds != self.timeout {
            let timeout = Some(Duration::from_secs(seconds));
            self.connection.stream.set_write_timeout(timeout)?;
            self.timeout = seconds;
        }
        let start = Instant::now(&self.rt)?;
        let count = (&self.connection.stream).write(buf)?;
        if let Ok(waited) = start.elapsed(&self.rt) {
            self.waited = self.waited.saturating_add(waited);
        }
        self.taken = self.taken.saturating_add(count as u64);
        Ok(count)
    }

    fn flush(&mut self) -> io::Result<()> {
        Ok(())
    }
}

/// Returns how many seconds of a deadline are left, where there are any: it allows these, and one more for each
/// `PAID_BYTES` of these bytes.
fn seconds_left(allowed: u64, bytes: u64, passed: Duration) -> io::Result<u64>
    requires { allowed ≤ 100 }
    ensures { IfOk result (λ seconds. 0 < seconds) }
{
    match (allowed + bytes / PAID_BYTES).checked_sub(passed.as_secs()) {
        Some(seconds) if seconds > 0 => Ok(seconds),
        _ => Err(ErrorKind::TimedOut.into()),
    }
}
