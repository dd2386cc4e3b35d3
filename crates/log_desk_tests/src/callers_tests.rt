//! Callers that need more than one pass.
ghost use Rattle.std.specs.Prelude.{◌≡◌, ℕ, ◌+◌, ◌<◌, ◌≤◌, ◌++◌, ◌∷◌, [], IfOk, IfSome};
ghost use Rattle.turn_lock.specs.Totals.{times};
ghost use Rattle.turn_lock.specs.Passes.{HasMineOf, IsPassOf, mine};

use log_desk::{Desk, Pass};
use std::alloc::{AllocError, Global};
use std::sync::Wait;
use turn_lock::SplitFault;
use vl_row::Batch;

/// Returns why the pass of a desk with one number is not split.
pub fn fault_of_one<R>(rt: &R, alloc: Global) -> Result<SplitFault, AllocError>
    ensures { IfOk result (λ fault. fault ≡ SplitFault.Spent 1) }
{
    let (desk, mut pass) = Desk::fresh(rt, alloc, 1)?;
    match desk.split(&mut pass) {
        Ok(_) => unreachable!(),
        Err(fault) => Ok(fault),
    }
}

/// Inserts a batch, splits the pass, looks and inserts another batch with the new pass, and joins the two again. It
/// answers the numbers of the batches, and between them the front of the look. The pass has made these two more.
pub fn insert_by_two<R: Wait>(
    rt: &R,
    alloc: Global,
    desk: &Desk,
    pass: &mut Pass,
    batches: (Batch, Batch),
) -> Option<(u64, u64, u64)>
    requires { IsPassOf desk.now pass.old }
    ensures lock { IsPassOf desk.now pass.new }
    ensures first { IfSome result (λ r. 0 < times r.0 (mine pass.new)) }
    ensures second { IfSome result (λ r. 0 < times r.2 (mine pass.new)) }
    ensures no_other { IfSome result (λ r. (k : ℕ)
        → times k (mine pass.new) ≤ times k (mine pass.old ++ r.0 ∷ []) + times k (r.2 ∷ [])) }

    // The look holds the first batch, and the second one comes after all that it holds.
    ensures front { IfSome result (λ r. (r.0 ≤ r.1) × (r.1 < r.2)) }
{
    let (first, second) = batches;
    let Ok(first) = desk.insert(rt, alloc, pass, first) else {
        return None;
    };
    let Ok(mut other) = desk.split(pass) else {
        return None;
    };
    let look = desk.look(rt, &mut other);
    let second = desk.insert(rt, alloc, &mut other, second);
    desk.join(pass, other);
    let (Ok(look), Ok(second)) = (look, second) else {
        return None;
    };
    Some((first, look.front(), second))
}
