//! The program over objects in memory.
ghost use Rattle.std.specs.Prelude.{IfOk};
ghost use Rattle.vl_io.specs.Moments.{IsMoment};
ghost use Rattle.part_store.specs.Reopening.{AreListedDurable};

use std::alloc::{AllocError, AllocGlobal, Global};
use std::fmt::Write;
use std::random::RandomSource;
use std::sync::Wait;
use std::thread::Threads;
use vl_io::{MemClock, MemDoors, MemSink, MemSource};
use vl_top::run;
use vl_vault::MemoryVault;

/// Doors that nothing opens.
type NoDoors = MemDoors<MemSource, MemSink, MemClock>;

/// Which calls of each object fail, counted from 0.
#[derive(Clone, Copy)]
pub struct Failing<'a> {
    pub reads: &'a [u64],
    pub answers: &'a [u64],
    pub reports: &'a [u64],
}

/// No call fails.
pub const NONE: Failing<'static> = Failing {
    reads: &[],
    answers: &[],
    reports: &[],
};

/// How a run ended: its status, its output and its error text.
#[derive(Drop)]
pub struct Ended {
    pub status: u8,
    pub out: MemSink,
    pub err: MemSink,
}

/// What a query is asked of.
#[derive(Drop)]
pub struct Setting {
    /// The lines on standard input.
    pub rows: String,
    /// The value of `--stream-fields`, or nothing where the option is left out.
    pub stream_fields: String,
    /// What the clock reads, in nanoseconds since the start of 1970.
    pub now: i64,
}

impl Setting {
    /// No rows, no stream fields, and the clock at the start of 2026.
    pub fn new(alloc: Global) -> Setting {
        Setting {
            rows: String::new(alloc),
            stream_fields: String::new(alloc),
            now: 1_767_225_600_000_000_000,
        }
    }
}

/// Runs `pipe QUERY`. Returns the lines of its output, the lines of its error text, and its status unless that is 0.
pub fn ask<R: AllocGlobal + Threads + Wait + RandomSource + Sync>(
    rt: &R,
    setting: &Setting,
    query: &str,
) -> Result<String, AllocError> {
    let names = setting.stream_fields.as_str();
    let rows = setting.rows.as_bytes();
    let now = setting.now;
    if now < 0 {
        return format!(in rt.alloc(); "no clock reads {now}\n");
    }
    let clock = clock_at(rt.alloc(), now)?;
    if names.is_empty() {
        let ended = run_words(rt, &["pipe", "--", query], rows, NONE, clock)?;
        return lines_of(rt.alloc(), &ended);
    }
    let words = ["pipe", "--stream-fields", names, "--", query];
    let ended = run_words(rt, &words, rows, NONE, clock)?;
    lines_of(rt.alloc(), &ended)
}

/// The lines of the output, the lines of the error text, and the status unless that is 0.
fn lines_of(alloc: Global, ended: &Ended) -> Result<String, AllocError> {
    let mut shown = String::new(alloc);
    shown.push_str(text_of(ended.out.bytes()))?;
    shown.push_str(text_of(ended.err.bytes()))?;
    if ended.status != 0 {
        write!(shown, "status {}\n", ended.status)?;
    }
    Ok(shown)
}

/// Runs a command on a clock that stands at 5 ns at first. Returns its status, its output and its error text.
pub fn end_of<R: AllocGlobal + Threads + Wait + RandomSource + Sync>(
    rt: &R,
    words: &[&str],
    input: &[u8],
    failing: Failing<'_>,
) -> Result<String, AllocError> {
    let clock = clock_at(rt.alloc(), 5)?;
    let ended = run_words(rt, words, input, failing, clock)?;
    let out = text_of(ended.out.bytes());
    let err = text_of(ended.err.bytes());
    format!(in rt.alloc(); "{} {out:?} {err:?}", ended.status)
}

/// A clock that reads this moment first, and then another.
pub fn clock_at(alloc: Global, now: i64) -> Result<MemClock, AllocError>
    requires { IsMoment now }
{
    MemClock::of(alloc, &[now, 7])
}

/// Runs the program with these words. Its source gives the input in small pieces first.
pub fn run_words<R: AllocGlobal + Threads + Wait + RandomSource + Sync>(
    rt: &R,
    words: &[&str],
    input: &[u8],
    failing: Failing<'_>,
    mut clock: MemClock,
) -> Result<Ended, AllocError> {
    let alloc = rt.alloc();
    let mut src = MemSource::of(alloc, input, &[7, 1, 30], failing.reads)?;
    let mut out = MemSink::of(alloc, failing.answers)?;
    let mut err = MemSink::of(alloc, failing.reports)?;
    let vault = new_vault(alloc)?;
    let mut doors: Vec<NoDoors> = Vec::new(alloc);
    let (status, _) = run(
        rt, words, &mut src, &mut out, &mut err, vault, &mut doors, &mut clock,
    );
    Ok(Ended { status, out, err })
}

/// Returns a vault of no files.
#[tactic(auto, using(crate::proofs::Vaults::new_durable))]
pub fn new_vault(alloc: Global) -> Result<MemoryVault, AllocError>
    ensures { IfOk result (λ vault. AreListedDurable vault.past) }
{
    MemoryVault::of(alloc, &[])
}

/// The bytes as text.
pub fn text_of(bytes: &[u8]) -> &str {
    str::from_utf8(bytes).unwrap_or("not UTF-8\n")
}
