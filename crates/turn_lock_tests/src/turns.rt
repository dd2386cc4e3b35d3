// Calls that take one turn each.
ghost use Rattle.std.specs.Prelude.{ℕ, ◌≡◌, ◌+◌, ◌<◌, ◌≤◌, ◌++◌, ◌∷◌, [], List, length, IfOk, IfErr};
ghost use Rattle.turn_lock.specs.declared.view.Entry.{Entry};
ghost use Rattle.turn_lock.specs.Passes.{IsPassOf, mine};
ghost use Rattle.turn_lock.specs.Entries.{Continues, made, maker_of};
ghost use Rattle.turn_lock_tests.specs.Room.{room};
ghost use Rattle.turn_lock_tests.specs.Refusal.{Refuses};
ghost use Rattle.turn_lock_tests.specs.OneTurn.{GoesOn, TakesOneTurn, KeepsMark};

use crate::log::{Log, PushFault};
use std::sync::Wait;
use turn_lock::{Pass, Stands, TurnLock};

/// Inserts a number, and answers its place, counted from 1.
///
/// It is refused as `Full` exactly where all has then been seen and there is no room, and as `Memory` where memory ran
/// out.
#[tactic(auto, using(crate::proofs::Last::last_of_push))]
pub fn insert<R: Wait>(
    rt: &R,
    lock: &TurnLock<Log>,
    pass: &mut Pass<Log>,
    number: u64,
) -> Result<u64, PushFault>
    requires { IsPassOf lock.now pass.old }
    ensures lock { IsPassOf lock.now pass.new }
    ensures turn { TakesOneTurn pass.old pass.new }
    ensures mark { KeepsMark pass.old pass.new }

    // What was seen goes on. Each further entry is the given number, which this pass made, or another caller's.
    ensures adds { GoesOn (made (maker_of pass.old.numbers) number) pass.old pass.new }

    // The given number is the last. It is the one place more of the pass's own.
    ensures last { IfOk result (λ place. (length pass.new.seen ≡ place) × ((before : List (Entry ℕ))
        × (pass.new.seen ≡ before ++ made (maker_of pass.old.numbers) number ∷ []))) }
    ensures mine { IfOk result (λ place. mine pass.new ≡ mine pass.old ++ place ∷ []) }
    ensures room { IfOk result (λ place. place ≤ pass.new.mark + room) }
    ensures refused { IfErr result (λ fault. Refuses fault (length pass.new.seen) pass.new.mark
        × (mine pass.new ≡ mine pass.old)) }
{
    let mut turn = lock.enter(rt, pass);
    match turn.value().push(number) {
        Ok(()) => {
            turn.commit();
            let place = turn.value().count();
            turn.leave();
            Ok(place)
        }
        Err(fault) => {
            turn.leave();
            Err(fault)
        }
    }
}

/// Returns how many numbers there are, and how many of them are settled.
pub fn status<R: Wait>(rt: &R, lock: &TurnLock<Log>, pass: &mut Pass<Log>) -> (u64, u64)
    requires { IsPassOf lock.now pass.old }
    ensures lock { IsPassOf lock.now pass.new }
    ensures turn { TakesOneTurn pass.old pass.new }
    ensures mark { KeepsMark pass.old pass.new }
    ensures adds { Continues lock.now.passes pass.old.numbers pass.old.seen pass.new.seen }
    ensures mine { mine pass.new ≡ mine pass.old }
    ensures numbers { (result.0 ≡ length pass.new.seen) × (result.1 ≡ pass.new.mark) }
{
    let mut turn = lock.enter(rt, pass);
    let value = turn.value();
    let status = (value.count(), value.mark());
    turn.leave();
    status
}

/// Settles all numbers.
pub fn settle_all<R: Wait>(rt: &R, lock: &TurnLock<Log>, pass: &mut Pass<Log>)
    requires { IsPassOf lock.now pass.old × (0 < pass.old.may_settle) }
    ensures lock { IsPassOf lock.now pass.new }
    ensures turn { TakesOneTurn pass.old pass.new }
    ensures adds { Continues lock.now.passes pass.old.numbers pass.old.seen pass.new.seen }
    ensures mark { (pass.old.mark ≤ pass.new.mark) × (pass.new.mark ≡ length pass.new.seen) }
{
    let mut turn = lock.enter(rt, pass);
    turn.value().settle();
    turn.settle();
    turn.leave();
}
