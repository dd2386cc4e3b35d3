// Callers that need more than one pass.
ghost use Rattle.std.specs.Prelude.{◌≡◌, ◌+◌, ◌<◌, ◌≤◌, ◌⊎◌, [], IfOk, IfSome};
ghost use Rattle.turn_lock.specs.Totals.{times};
ghost use Rattle.turn_lock.specs.Passes.{IsPassOf, mine};
ghost use Rattle.turn_lock_tests.specs.OneTurn.{StandsAt};

use crate::log::Log;
use crate::turns::insert;
use std::alloc::{AllocError, Global};
use std::sync::Wait;
use turn_lock::{Pass, SplitFault, TurnLock};

/// Returns a lock over no number.
pub fn fresh<R>(
    rt: &R,
    alloc: Global,
    passes: u32,
) -> Result<(TurnLock<Log>, Pass<Log>), AllocError>
    requires { (0 < passes) × (passes ≤ 65536) }
    ensures lock { IfOk result (λ r. IsPassOf r.0 r.1 × (r.0.passes ≡ passes)) }
    ensures pass { IfOk result (λ r. (r.1.seen ≡ []) × (r.1.seen_drawn ≡ 1) × (r.1.may_settle ≡ 1)) }
{
    TurnLock::new(rt, alloc, Log::empty(alloc), passes)
}

/// Returns why the pass of a lock with one number is not split.
pub fn fault_of_one<R>(rt: &R, alloc: Global) -> Result<SplitFault, AllocError>
    ensures { IfOk result (λ fault. fault ≡ SplitFault.Spent 1) }
{
    let (lock, mut pass) = fresh(rt, alloc, 1)?;
    match lock.split(&mut pass) {
        Ok(_) => unreachable!(),
        Err(fault) => Ok(fault),
    }
}

/// Splits the pass, inserts 10 with it and 20 with the other, and joins them again. It answers the places, counted from
/// 1; the pass has made both.
pub fn both_insert<R: Wait>(
    rt: &R,
    lock: &TurnLock<Log>,
    pass: &mut Pass<Log>,
) -> Option<(u64, u64)>
    requires { IsPassOf lock.now pass.old }
    ensures lock { IsPassOf lock.now pass.new }
    ensures draws { (pass.new.draws ≡ pass.old.draws + 1) ⊎ (pass.new.seen_drawn ≡ lock.now.passes) }
    ensures first { IfSome result (λ r. StandsAt 10 r.0 pass.new.seen × (0 < times r.0 (mine pass.new))) }
    ensures second { IfSome result (λ r. StandsAt 20 r.1 pass.new.seen × (0 < times r.1 (mine pass.new))) }
{
    let mut other = lock.split(pass).ok()?;
    let first = insert(rt, lock, pass, 10);
    let second = insert(rt, lock, &mut other, 20);
    lock.join(pass, other);
    match (first, second) {
        (Ok(first), Ok(second)) => Some((first, second)),
        _ => None,
    }
}
