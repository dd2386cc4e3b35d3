//! The trial.
ghost use Rattle.std.specs.Prelude.{◌≡◌, ◌≢◌, ◌≤◌, ℕ};
ghost use Rattle.vl_io.specs.Change.{change_of};
ghost use Rattle.vl_io.specs.Moments.{FirstTold};
ghost use Rattle.vl_top.specs.Trial.{EndsTrial};

use std::alloc::AllocGlobal;
use std::random::RandomSource;
use std::sync::Wait;
use vl_io::{Clock, Failed, Sink, put_all};
use vl_status::{Status, report_no_memory};
use vl_trial::trial_lines;

/// What `trial` asks.
#[derive(Clone, Copy, Debug)]
pub(crate) struct Trial {
    /// What the rows are made from.
    pub(crate) seed: u64,
    /// How many there are.
    pub(crate) rows: u64,
}

/// Makes the rows, and writes the answers to the queries over them.
pub(crate) fn run_trial<R: AllocGlobal + Wait + RandomSource, O: Sink, E: Sink, C: Clock>(
    rt: &R,
    asked: Trial,
    out: &mut O,
    err: &mut E,
    clock: &mut C,
) -> Status
    requires { asked.rows ≤ 1_000_000 }
    ensures ends { (now : ℕ) × FirstTold (C.moments clock.old) (C.moments clock.new) now
        × EndsTrial asked.seed asked.rows now (change_of O.written O.faults out.old out.new)
        (change_of E.written E.faults err.old err.new) result }
    ensures untouched { result ≢ Status.Done → result ≢ Status.WriteFault → out.new ≡ out.old }
{
    let now = clock.now();
    let Ok(lines) = trial_lines(rt, rt.alloc(), asked.seed, asked.rows, now) else {
        return report_no_memory(err);
    };
    match put_all(out, lines.as_bytes()) {
        Ok(()) => Status::Done,
        Err(Failed) => Status::WriteFault,
    }
}
