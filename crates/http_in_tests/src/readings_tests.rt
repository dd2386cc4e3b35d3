//! A connection, read to its end.
ghost use Rattle.std.specs.Prelude.{◌<◌, All};

use crate::counted_tests::Counted;
use crate::spelling_tests::push_spelled;
use http_in::{Reader, Request, RequestFault};
use std::alloc::{AllocError, Global};
use std::fmt::Write;
use vl_io::MemSource;

/// More calls than any case needs.
const CALLS: u32 = 2_000;

/// How a source gives its bytes: read k gives this many, and the reads with these numbers fail.
#[derive(Clone, Copy)]
pub struct Cutting<'a> {
    pub pieces: &'a [usize],
    pub failing: &'a [u64],
}

/// All in as few reads as may be.
pub const WHOLE: Cutting<'static> = Cutting {
    pieces: &[],
    failing: &[],
};

/// The result of a connection.
#[derive(Drop)]
pub struct Reading {
    pub text: String,
    /// How often the answer was that the source failed.
    pub faults: u32,
    /// How often the source was asked.
    pub reads: u64,
    /// How often it had been asked once each request was there.
    pub behind: Vec<u64>,
    /// Whether it ended with a fault of the bytes, and not with their end.
    pub out_of_form: bool,
}

pub fn read(alloc: Global, bytes: &[u8], cutting: Cutting) -> Result<Reading, AllocError>
    requires { All (λ piece. 0 < piece) cutting.pieces.now }
{
    let source = MemSource::of(alloc, bytes, cutting.pieces, cutting.failing)?;
    let mut source = Counted::of(source);
    let mut reader = Reader::new(alloc);
    let mut reading = Reading {
        text: String::new(alloc),
        faults: 0,
        reads: 0,
        behind: Vec::new(alloc),
        out_of_form: false,
    };
    for _ in 0..CALLS {
        if !read_next(&mut reader, &mut source, &mut reading)? {
            break;
        }
    }
    reading.reads = source.reads();
    Ok(reading)
}

/// Reads one request more, and says whether more may come.
fn read_next(
    reader: &mut Reader,
    source: &mut Counted,
    reading: &mut Reading,
) -> Result<bool, AllocError> {
    match reader.next(source) {
        Ok(Some(request)) => {
            reading.behind.push(source.reads())?;
            push_request(&request, &mut reading.text)?;
            if request.last {
                reading.text.push_str("AskedClose")?;
            }
            Ok(!request.last)
        }
        Ok(None) => {
            reading.text.push_str("Closed")?;
            Ok(false)
        }
        Err(RequestFault::SourceFault) => {
            reading.faults = reading.faults.saturating_add(1);
            Ok(true)
        }
        Err(fault) => {
            reading.out_of_form = !matches!(fault, RequestFault::Cut { .. });
            push_fault(fault, &mut reading.text)?;
            let again = reader.next(source);
            if !matches!(again, Err(other) if other == fault) {
                reading.text.push_str(", and not again")?;
            }
            Ok(false)
        }
    }
}

fn push_request(request: &Request, text: &mut String) -> Result<(), AllocError> {
    text.push_str("[")?;
    push_spelled(request.method.as_str().as_bytes(), text)?;
    text.push_str(" ")?;
    push_spelled(request.path.as_str().as_bytes(), text)?;
    for field in request.args.as_slice() {
        text.push_str(" ")?;
        push_spelled(field.name().as_bytes(), text)?;
        text.push_str("=")?;
        push_spelled(field.value().as_bytes(), text)?;
    }
    text.push_str(" : ")?;
    push_spelled(request.body.as_slice(), text)?;
    text.push_str("] ")
}

fn push_fault(fault: RequestFault, text: &mut String) -> Result<(), AllocError> {
    match fault {
        RequestFault::SourceFault => text.push_str("SourceFault"),
        RequestFault::BadHead { at } => write!(text, "BadHead at {at}"),
        RequestFault::Cut { at } => write!(text, "Cut at {at}"),
        RequestFault::HeadLarge => text.push_str("HeadLarge"),
        RequestFault::BodyLarge => text.push_str("BodyLarge"),
        RequestFault::BadLength => text.push_str("BadLength"),
        RequestFault::BadChunk { at } => write!(text, "BadChunk at {at}"),
        RequestFault::Coding => text.push_str("Coding"),
        RequestFault::Memory => text.push_str("Memory"),
    }
}
