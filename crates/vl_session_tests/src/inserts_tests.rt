//! The same lines, inserted again and again by one thread or by several.
ghost use Rattle.std.specs.Prelude.{◌≡◌, IfOk};
ghost use Rattle.std.specs.List.{AllByRecursion};
ghost use Rattle.turn_lock.specs.Passes.{IsPassOf};
ghost use Rattle.vl_session_tests.specs.Callers.{IsCallerOf};

use ingest_row::Options;
use log_desk::{Desk, Pass};
use std::alloc::{AllocError, AllocGlobal, Global};
use std::sync::Wait;
use std::thread::{self, Threads};
use vl_session::insert_lines;

/// How often each caller inserts the lines.
const ROUNDS: u32 = 100;

/// Who inserts the lines.
#[derive(Drop)]
struct Caller {
    pass: Pass,
    /// Whether all was inserted.
    is_done: bool,
}

impl Caller {
    /// Inserts the lines so often.
    fn insert<R: Wait>(&mut self, rt: &R, alloc: Global, desk: &Desk, body: &[u8])
        requires { IsPassOf desk.now self.old.pass }
        ensures { IsPassOf desk.now self.new.pass }
    {
        let options = Options::plain(alloc);
        for _ in 0..ROUNDS {
            if insert_lines(rt, alloc, desk, &mut self.pass, &options, 5, body).is_err() {
                return;
            }
        }
        self.is_done = true;
    }
}

/// Returns this many callers after the first, each with a pass that is split from its own, or fewer where no more can
/// be split.
fn callers_of(
    alloc: Global,
    desk: &Desk,
    mut pass: Pass,
    others: usize,
) -> Result<Vec<Caller>, AllocError>
    requires { IsPassOf desk.now pass }
    ensures { IfOk result (λ callers. AllByRecursion (IsCallerOf desk.now) callers.items) }
{
    let mut callers = Vec::new(alloc);
    for _ in 0..others {
        let Ok(own) = desk.split(&mut pass) else {
            break;
        };
        callers.push(Caller {
            pass: own,
            is_done: false,
        })?;
    }
    callers.push(Caller {
        pass,
        is_done: false,
    })?;
    Ok(callers)
}

/// Inserts the lines in this many threads beside this one, as far as there are passes, and says whether all was
/// inserted.
pub(crate) fn insert_all<R: AllocGlobal + Threads + Wait + Sync>(
    rt: &R,
    desk: &Desk,
    pass: Pass,
    body: &[u8],
    others: usize,
) -> Result<bool, AllocError>
    requires { IsPassOf desk.now pass }
{
    let alloc = rt.alloc();
    let mut callers = callers_of(alloc, desk, pass, others)?;
    let threads = callers.len().max(1);
    thread::for_each_mut(
        rt,
        callers.as_mut_slice(),
        threads,
        &|_i: usize, caller: &mut Caller|
            requires { IsCallerOf desk.now caller.old }
            ensures { IsCallerOf desk.entry.now caller.new }
        { caller.insert(rt, alloc, desk, body) },
    );
    Ok(callers.iter().all(|caller| caller.is_done))
}
