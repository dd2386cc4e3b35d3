//! One session of HTTP over a desk that is empty before.
use crate::case_tests::{listed, pieces};
use crate::spelling_tests::push_spelled;
use log_desk::Desk;
use std::alloc::{AllocError, AllocGlobal, Global};
use std::fmt::Write;
use std::random::RandomSource;
use std::sync::Wait;
use vl_io::{MemClock, MemSink, MemSource};
use vl_session::{End, Report, serve_session};

/// How many turns are shown.
const TURNS: usize = 12;

/// How the outside behaves.
#[derive(Clone, Copy, Default)]
pub struct Setting {
    pub by_bytes: bool,
    pub failing_read: Option<u64>,
    pub failing_write: Option<u64>,
}

/// The outcome of a session.
#[derive(Drop)]
pub struct Told {
    pub text: String,
    pub written: Vec<u8>,
    pub end: End,
}

pub fn tell<R: AllocGlobal + Wait + RandomSource>(
    rt: &R,
    bytes: &[u8],
    setting: Setting,
) -> Result<Told, AllocError> {
    let alloc = rt.alloc();
    let pieces = pieces(alloc, bytes.len(), if setting.by_bytes { 1 } else { 0 })?;
    let reads = listed(alloc, setting.failing_read)?;
    let writes = listed(alloc, setting.failing_write)?;
    let mut source = MemSource::of(alloc, bytes, &pieces, &reads)?;
    let mut sink = MemSink::of(alloc, &writes)?;
    let mut clock = MemClock::of(alloc, &[5, 6, 7])?;
    let (desk, mut pass) = Desk::fresh(rt, alloc, 1)?;
    let report = serve_session(
        rt,
        alloc,
        &desk,
        &mut pass,
        &mut source,
        &mut sink,
        &mut clock,
    );
    let written = Vec::from_slice(alloc, sink.bytes())?;
    let text = shown(alloc, &written, &report)?;
    Ok(Told {
        text,
        written,
        end: report.end,
    })
}

/// Returns what was written, the first turns, and how the session ended.
pub fn shown(alloc: Global, written: &[u8], report: &Report) -> Result<String, AllocError> {
    let mut text = String::new(alloc);
    push_spelled(written, &mut text)?;
    let turns = report.turns.as_slice();
    for done in turns.iter().take(TURNS) {
        let settled = done.settled;
        write!(
            text,
            " at {} with {}, {settled} settled;",
            done.now, done.front
        )?;
    }
    write!(text, " {} turns, {:?}", turns.len(), report.end)?;
    Ok(text)
}
