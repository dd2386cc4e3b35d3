//! What the cases and the checks answer.
use crate::desk_tests::push_desks;
use crate::endless_tests::push_endless;
use crate::limits_tests::push_limits;
use crate::opened_tests::push_opened;
use crate::{http_answers_tests, syslog_answers_tests};
use std::alloc::{AllocError, AllocGlobal};
use std::io;
use std::random::RandomSource;
use std::sync::Wait;
use std::thread::Threads;

/// Answers each case, and then makes the checks.
pub(crate) fn answer_all<R: AllocGlobal + Threads + Wait + RandomSource + Sync>(
    handle: &R,
    rt: HostRuntime,
) -> io::Result<()> {
    for line in rt.lines(rt.alloc()) {
        let answer = answer(handle, line?.as_str())?;
        println!(rt; "{answer}")?;
    }
    let mut checks = String::new(rt.alloc());
    push_endless(handle, &mut checks)?;
    push_limits(handle, &mut checks)?;
    push_opened(handle, &mut checks)?;
    push_desks(handle, &mut checks)?;
    print!(rt; "{checks}")
}

/// Answers a case of its kind.
fn answer<R: AllocGlobal + Wait + RandomSource>(rt: &R, line: &str) -> Result<String, AllocError> {
    match line.strip_prefix("syslog / ") {
        Some(case) => syslog_answers_tests::answer(rt, case),
        None => http_answers_tests::answer(rt, line),
    }
}
