//! Doors over a TCP listener. No clause says which connections come, so they tell nothing.
ghost use Rattle.std.specs.Prelude.{◌≡◌, ◌≤◌, IfOk, IfSome, IsErr, IsSome, None, false};
ghost use Rattle.vl_io.specs.Adapters.{door_faults, has_listener, kind_of};
ghost use Rattle.vl_io.specs.Faults.{HasCause};
ghost use Rattle.vl_io.specs.Visits.{NextGives};

use crate::adapters::{InputSource, OutputSink, SystemClock};
use crate::outside::{Doors, Failed, Visit, VisitKind};
use crate::timed::{Connection, TimedReader, TimedWriter};
use std::alloc::{AllocError, Global};
use std::io::{ErrorKind, Read};
use std::net::{Net, Shutdown, SocketAddr, TcpListener, TcpStream};
use std::rt::Clock as SystemTimer;
use std::sync::Arc;
use std::time::{Duration, Instant};
use std::{io, thread};

/// A visit over a connection, which its two directions share.
pub type TcpVisit<R> = Visit<
    InputSource<TimedReader<R>>,
    OutputSink<TimedWriter<R>>,
    SystemClock<R>,
>;

/// How long a visitor that speaks HTTP may go on sending once its visit is over, in seconds.
const LONGEST_LINGER: u64 = 2;

/// How long accepting waits where the system is out of descriptors or memory, in milliseconds.
const SCARCE_PAUSE: u64 = 100;

/// The system's codes for a descriptor that is no listener: EBADF, EINVAL and ENOTSOCK. Others come from a connection
/// that failed before it was accepted, or from a system that is out of descriptors or memory (accept(2)).
const GONE: [i32; 3] = [9, 22, 88];

/// Doors over a TCP listener. A call waits for the next visitor, and never returns `None`.
///
/// A visitor that speaks HTTP may still be sending when its visit is over. Closing the connection then could take the
/// last reply away from it (RFC 9112, 9.6). So the next call first ends what is sent, and reads what still comes.
#[derive(Drop)]
pub struct TcpDoors<R> {
    rt: R,
    alloc: Global,
    listener: Option<Arc<TcpListener, Global>>,
    kind: VisitKind,
    // The connection of the visit that was given last.
    last: Option<Arc<Connection, Global>>,
    faults: u64,
}

/// A listener that doors share, or why there is none.
#[derive(Drop)]
pub struct Listening {
    listener: Option<Arc<TcpListener, Global>>,
    address: io::Result<SocketAddr>,
}

impl Listening {
    /// Listens at the address, `HOST:PORT`.
    pub fn at<R: Net<Listener = TcpListener, Stream = TcpStream>>(
        rt: &R,
        alloc: Global,
        address: &str,
    ) -> Result<Listening, AllocError> {
        let (listener, address) = match bound_at(rt, address) {
            Ok((listener, address)) => (Some(Arc::new(alloc, listener)?), Ok(address)),
            Err(fault) => (None, Err(fault)),
        };
        Ok(Listening { listener, address })
    }

    /// Returns where it listens, with the port that the system chose if none was asked for; or why it does not.
    pub fn address(&self) -> io::Result<SocketAddr> {
        self.address
    }

    /// Returns a door that accepts from the listener. Without one it fails at each call.
    pub fn door<R: SystemTimer + Copy>(
        &self,
        rt: R,
        alloc: Global,
        kind: VisitKind,
    ) -> Result<TcpDoors<R>, AllocError>
        ensures { IfOk result (λ door. kind_of door ≡ kind) }
    {
        let listener = match &self.listener {
            Some(listener) => Some(Arc::try_clone(listener)?),
            None => None,
        };
        Ok(TcpDoors {
            rt,
            alloc,
            listener,
            kind,
            last: None,
            faults: 0,
        })
    }
}

/// Returns a listener at the address, and where it listens.
fn bound_at<R: Net<Listener = TcpListener, Stream = TcpStream>>(
    rt: &R,
    address: &str,
) -> io::Result<(TcpListener, SocketAddr)> {
    let listener = TcpListener::bind(rt, address)?;
    let address = listener.local_addr()?;
    Ok((listener, address))
}

impl<R: SystemTimer + Copy + Drop> Doors for TcpDoors<R> {
    type S = InputSource<TimedReader<R>>;

    type K = OutputSink<TimedWriter<R>>;

    type C = SystemClock<R>;

    ghost left = { λ _. None };

    ghost faults = { door_faults };

    /// Each connection that fails before it is a visit, and each time that the system is out of descriptors, raises
    /// the count of faults. `Failed` says that the listener is gone.
    fn next(&mut self) -> Result<Option<TcpVisit<R>>, Failed>
        ensures visits { NextGives None None result }
        ensures cause { HasCause (door_faults self.old) (door_faults self.new) result }

        ensures closed { has_listener self.old ≡ false → IsErr result }
        ensures kind { IfOk result (λ next. IfSome next (λ visit. visit.kind ≡ kind_of self.old)) }
        ensures given { IfOk result IsSome }
        ensures same_listener { has_listener self.new ≡ has_listener self.old }
        ensures same_kind { kind_of self.new ≡ kind_of self.old }
    {
        if let Some(connection) = self.last.take() {
            let _ = linger(&self.rt, &connection.stream);
        }
        if let Some(listener) = &self.listener {
            let given = accepted(self.rt, self.alloc, listener, self.kind, &mut self.faults);
            if let Some((visit, connection)) = given {
                self.last = connection;
                return Ok(Some(visit));
            }
        }
        self.faults = self.faults.saturating_add(1);
        Err(Failed)
    }
}

/// What `next` keeps of a connection, beside its visit.
type Given<R> = (TcpVisit<R>, Option<Arc<Connection, Global>>);

/// Returns the next connection that can be served, and a handle on it for when its visit is over. One that fails before
/// is passed over, and counted. There is none where the listener is gone.
fn accepted<R: SystemTimer + Copy>(
    rt: R,
    alloc: Global,
    listener: &TcpListener,
    kind: VisitKind,
    faults: &mut u64,
) -> Option<Given<R>>
    ensures kind { IfSome result (λ given. given.0.kind ≡ kind) }
    ensures faults { faults.old ≤ faults.new }
{
    for connection in listener.incoming() {
        match connection {
            Ok(stream) => match visit_over(rt, alloc, stream, kind) {
                Ok(given) => return Some(given),
                Err(fault) => pause_after(&rt, &fault),
            },
            Err(fault) if is_gone(&fault) => return None,
            Err(fault) => pause_after(&rt, &fault),
        }
        *faults = faults.saturating_add(1);
    }
    None
}

/// Whether accepting fails like this for good.
fn is_gone(fault: &io::Error) -> bool {
    match fault.raw_os_error() {
        Some(code) => GONE.contains(&code),
        None => false,
    }
}

/// Waits, unless the fault is that of one connection only: the system may be out of descriptors or memory.
fn pause_after<R: SystemTimer>(rt: &R, fault: &io::Error) {
    match fault.kind() {
        ErrorKind::ConnectionAborted | ErrorKind::ConnectionReset | ErrorKind::InvalidInput => {}
        _ => thread::sleep(rt, Duration::from_millis(SCARCE_PAUSE)),
    }
}

/// Closes with lingering: sends no more, and ignores what the peer still sends, until it closes, is silent for a
/// second or has had its time.
fn linger<R: SystemTimer>(rt: &R, mut stream: &TcpStream) -> io::Result<()> {
    stream.shutdown(Shutdown::Write)?;
    stream.set_read_timeout(Some(Duration::from_secs(1)))?;
    let start = Instant::now(rt)?;
    let longest = Duration::from_secs(LONGEST_LINGER);
    let mut passed_over = [0; 4096];
    for _ in 0..u64::MAX {
        if stream.read(&mut passed_over)? == 0 || start.elapsed(rt)? >= longest {
            break;
        }
    }
    Ok(())
}

/// Returns the visit over a connection. The handle is for a visitor that speaks HTTP.
fn visit_over<R: SystemTimer + Copy>(
    rt: R,
    alloc: Global,
    stream: TcpStream,
    kind: VisitKind,
) -> io::Result<Given<R>>
    ensures { IfOk result (λ given. given.0.kind ≡ kind) }
{
    let connection = Arc::new(alloc, Connection::over(stream)?)?;
    let reader = TimedReader::of(rt, Arc::try_clone(&connection)?, kind);
    let writer = TimedWriter::of(rt, Arc::try_clone(&connection)?);
    let visit = Visit {
        kind,
        source: InputSource::new(reader),
        sink: OutputSink::new(writer),
        clock: SystemClock::new(rt),
    };
    let handle = match kind {
        VisitKind::Http => Some(connection),
        VisitKind::Syslog => None,
    };
    Ok((visit, handle))
}
