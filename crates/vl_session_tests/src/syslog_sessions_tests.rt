//! One session of syslog over a desk that is empty before.
ghost use Rattle.turn_lock.specs.Passes.{IsPassOf};

use crate::case_tests::{listed, pieces};
use log_desk::{Desk, Pass};
use std::alloc::{AllocError, AllocGlobal};
use std::fmt::Write;
use std::random::RandomSource;
use std::sync::Wait;
use vl_io::{MemClock, MemSource};
use vl_session::{Steps, SyslogReport, answer_query, syslog_session};

/// Tells the counter of the query from others.
#[derive(Drop)]
struct Queries;

/// How the input comes.
#[derive(Clone, Copy)]
pub struct Setting {
    /// How many bytes a read gives at most, or 0 for as many as there is room for.
    pub piece: usize,
    pub failing_read: Option<u64>,
}

/// The outcome of a session.
#[derive(Drop)]
pub struct Told {
    pub report: SyslogReport,
    pub batches: u64,
    pub lines: String,
}

pub fn tell<R: AllocGlobal + Wait + RandomSource>(
    rt: &R,
    bytes: &[u8],
    query: &str,
    setting: Setting,
) -> Result<Told, AllocError> {
    let alloc = rt.alloc();
    let pieces = pieces(alloc, bytes.len(), setting.piece)?;
    let reads = listed(alloc, setting.failing_read)?;
    let mut source = MemSource::of(alloc, bytes, &pieces, &reads)?;
    let mut clock = MemClock::of(alloc, &[5, 6, 7])?;
    let (desk, mut pass) = Desk::fresh(rt, alloc, 1)?;
    let report = syslog_session(rt, alloc, &desk, &mut pass, &mut source, &mut clock);
    let mut lines = String::new(alloc);
    push_lines(rt, &desk, &mut pass, query, &mut lines)?;
    Ok(Told {
        report,
        batches: pass.front(),
        lines,
    })
}

/// The lines that answer the query, each after a blank.
fn push_lines<R: AllocGlobal + Wait + RandomSource>(
    rt: &R,
    desk: &Desk,
    pass: &mut Pass,
    query: &str,
    out: &mut String,
) -> Result<(), AllocError>
    requires { IsPassOf desk.now pass.old }
{
    let mut steps = Steps::<Queries>::new();
    let Ok(answer) = answer_query(rt, rt.alloc(), desk, pass, query, 9, &mut steps) else {
        return out.push_str(" no answer");
    };
    for line in answer.lines.as_str().lines() {
        write!(out, " {line}")?;
    }
    Ok(())
}
