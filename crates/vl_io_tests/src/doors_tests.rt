//! Doors and their visits.

use std::alloc::{AllocError, AllocGlobal, Global};
use std::io::Write;
use std::net::TcpStream;
use std::rt::Clock as SystemTimer;
use std::thread::Threads;
use std::{io, thread};
use vl_io::{
    Doors, Failed, GroupReader, Listening, MemClock, MemDoors, MemSource, ReadFault, Source,
    SureSink, TcpDoors, TcpVisit, Visit, VisitKind, put_all,
};

/// Doors in memory, whose visitors send these texts.
fn doors_of(
    alloc: Global,
    texts: &[&str],
    failing: &[u64],
) -> Result<MemDoors<MemSource, SureSink, MemClock>, AllocError> {
    let mut visits = Vec::new(alloc);
    for text in texts {
        visits.push(Visit {
            kind: VisitKind::Syslog,
            source: MemSource::of(alloc, text.as_bytes(), &[], &[])?,
            sink: SureSink::new(),
            clock: MemClock::of(alloc, &[5])?,
        })?;
    }
    MemDoors::of(alloc, visits, failing)
}

/// Returns what doors answer: the front of what the next visitor sends, `none` or `failed`.
fn answer<'a, D: Doors>(doors: &mut D, buf: &'a mut [u8]) -> &'a [u8] {
    match doors.next() {
        Ok(Some(mut visit)) => match visit.source.read(buf) {
            Ok(count) => &buf[..count],
            Err(Failed) => b"unread",
        },
        Ok(None) => b"none",
        Err(Failed) => b"failed",
    }
}

/// Returns the numbers of a text, with spaces between them.
fn numbers_of(alloc: Global, text: &str) -> Result<Vec<u64>, AllocError> {
    let mut numbers = Vec::new(alloc);
    for word in text.split(' ') {
        if let Ok(number) = word.parse::<u64>() {
            numbers.push(number)?;
        }
    }
    Ok(numbers)
}

/// Returns what doors of two visitors answer five times, of which the calls of these numbers fail.
pub fn answers_text(alloc: Global, failing: &str) -> Result<String, AllocError> {
    let failing = numbers_of(alloc, failing)?;
    let mut doors = doors_of(alloc, &["first", "second"], failing.as_slice())?;
    let mut text = String::new(alloc);
    let mut buffer = [0; 8];
    for _ in 0..5 {
        let front = String::from_utf8_lossy(alloc, answer(&mut doors, &mut buffer))?;
        write!(text, "{front} ")?;
    }
    Ok(text)
}

/// Returns whether doors that are asked side by side give their visits, so that both have none left.
pub fn side_by_side<R: AllocGlobal + Threads + Sync>(rt: &R) -> Result<bool, AllocError> {
    let alloc = rt.alloc();
    let mut two = Vec::new(alloc);
    two.push(doors_of(alloc, &["a"], &[])?)?;
    two.push(doors_of(alloc, &[], &[])?)?;
    thread::for_each_mut(
        rt,
        two.as_mut_slice(),
        2,
        &|_, doors| {
            let _ = doors.next();
        },
    );
    let mut none = true;
    for doors in &mut two {
        none = matches!(doors.next(), Ok(None)) && none;
    }
    Ok(none)
}

/// Returns whether doors without a listener fail, each time. An address needs a port.
pub fn no_listener(rt: &HostRuntime) -> Result<bool, AllocError> {
    let nowhere = Listening::at(rt, rt.alloc(), "127.0.0.1")?;
    let mut closed = nowhere.door(rt, rt.alloc(), VisitKind::Http)?;
    let first = matches!(closed.next(), Err(Failed));
    let second = matches!(closed.next(), Err(Failed));
    Ok(nowhere.address().is_err() && first && second)
}

/// Sends the visitor's first line back.
fn echo<R: SystemTimer + Drop>(alloc: Global, mut visit: TcpVisit<R>) -> Result<(), ReadFault> {
    let mut reader = GroupReader::of(alloc, 1, 16)?;
    reader.advance(&mut visit.source)?;
    put_all(&mut visit.sink, reader.group())?;
    Ok(())
}

/// Takes the next visit, and sends its first line back.
fn serve_next<R: SystemTimer + Copy + Drop>(
    alloc: Global,
    doors: &mut TcpDoors<R>,
) -> Result<(), ReadFault> {
    match doors.next() {
        Ok(Some(visit)) if visit.kind == VisitKind::Http => echo(alloc, visit),
        _ => Err(ReadFault::Failed),
    }
}

/// Returns whether a listener gives its connections, and each peer gets its line back.
pub fn gives_connections(rt: &HostRuntime) -> io::Result<bool> {
    // The system chooses the port.
    let listening = Listening::at(rt, rt.alloc(), "127.0.0.1:0")?;
    let address = listening.address()?;
    let mut doors = listening.door(rt, rt.alloc(), VisitKind::Http)?;
    let mut first = TcpStream::connect(rt, address)?;
    let mut second = TcpStream::connect(rt, address)?;
    first.write_all(b"first\n")?;
    second.write_all(b"second\n")?;
    let mut served = serve_next(rt.alloc(), &mut doors).is_ok();
    // What comes when the visit is over takes nothing away from its peer.
    first.write_all(b"late\n")?;
    served = serve_next(rt.alloc(), &mut doors).is_ok() && served;
    drop(doors);
    let first = io::read_to_string(rt.alloc(), first)?;
    let second = io::read_to_string(rt.alloc(), second)?;
    Ok(served && first.as_str() == "first\n" && second.as_str() == "second\n")
}
