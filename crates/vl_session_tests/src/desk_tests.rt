//! That each session of a desk is what it says, whatever the others do.
use crate::callers_tests::eight;
use crate::connection_tests::{push_select, tell};
use crate::http_sessions_tests::shown;
use crate::scripted_tests::Scripted;
use log_desk::Desk;
use std::alloc::{AllocError, AllocGlobal, Global};
use std::random::RandomSource;
use std::sync::Wait;
use std::thread::Threads;
use vl_io::{MemClock, MemSink};
use vl_session::serve_session;

/// Makes each check, and adds its line.
pub fn push_desks<R: AllocGlobal + Threads + Wait + RandomSource + Sync>(
    rt: &R,
    out: &mut String,
) -> Result<(), AllocError> {
    let alloc = rt.alloc();
    out.push_str("two sessions: ")?;
    out.push_str(two_sessions(rt, alloc)?.as_str())?;
    out.push_str("\neight sessions insert and ask: ")?;
    out.push_str(eight_sessions(rt, alloc)?.as_str())?;
    out.push('\n')
}

/// Serves two sessions of one desk, of which the second runs inside the third read of the first one, and returns what
/// came of the first: its second answer has what the other one inserted meanwhile.
fn two_sessions<R: Wait + RandomSource>(rt: &R, alloc: Global) -> Result<String, AllocError> {
    let (desk, mut pass) = Desk::fresh(rt, alloc, 2)?;
    let Ok(other) = desk.split(&mut pass) else {
        return String::from_str(alloc, "no second pass");
    };
    let mut source = Scripted {
        rt,
        alloc,
        desk: &desk,
        pass: other,
        reads: 0,
    };
    let mut sink = MemSink::of(alloc, &[])?;
    let mut clock = MemClock::of(alloc, &[5])?;
    let report = serve_session(
        rt,
        alloc,
        &desk,
        &mut pass,
        &mut source,
        &mut sink,
        &mut clock,
    );
    shown(alloc, sink.bytes(), &report)
}

/// Serves eight sessions at once, and returns how many rows are there after them: all of all sessions, and each once.
fn eight_sessions<R: Threads + Wait + RandomSource + Sync>(
    rt: &R,
    alloc: Global,
) -> Result<String, AllocError> {
    let (desk, pass) = Desk::fresh(rt, alloc, 8)?;
    let Some(mut pass) = eight(rt, alloc, &desk, pass) else {
        return String::from_str(alloc, "not all was as it should be");
    };
    let mut request = String::new(alloc);
    push_select(&mut request, "*+%7C+stats+count()+as+n")?;
    let told = tell(rt, alloc, &desk, &mut pass, request.as_bytes())?;
    shown(alloc, &told.written, &told.report)
}
