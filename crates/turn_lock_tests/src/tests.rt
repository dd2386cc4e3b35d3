// Tests with threads, and that each call does what it says.
ghost use Rattle.std.specs.Prelude.{◌≡◌, ◌<◌, IfSome};
ghost use Rattle.turn_lock.specs.Passes.{IsPassOf};

use crate::callers::{both_insert, fault_of_one, fresh};
use crate::log::{Log, PushFault};
use crate::turns::{insert, settle_all, status};
use std::sync::Wait;
use std::test::Fail;
use std::thread::{Threads, join};
use turn_lock::{Pass, SplitFault, TurnLock};

/// How many turns each thread takes.
const TURNS: u64 = 2_000;

/// Where the numbers of the next maker begin.
const NEXT_MAKER: u64 = 10_000;

fn insert_many<R: Wait>(rt: &R, lock: &TurnLock<Log>, mut pass: Pass<Log>, maker: u64) -> Pass<Log>
    requires { IsPassOf lock.now pass }
    ensures { IsPassOf lock.now result }
{
    for turn in 0..TURNS {
        let _ = insert(
            rt,
            lock,
            &mut pass,
            maker.wrapping_mul(NEXT_MAKER).wrapping_add(turn),
        );
    }
    pass
}

// The maker's numbers are all there, in order.
fn has_in_order(numbers: &[u64], maker: u64) -> bool {
    let mut next = 0;
    for &number in numbers {
        if number / NEXT_MAKER == maker {
            if number % NEXT_MAKER != next {
                return false;
            }
            next += 1;
        }
    }
    next == TURNS
}

fn all_in_order(log: &Log) -> bool {
    let numbers = log.items.as_slice();
    numbers.len() == 8_000
        && has_in_order(numbers, 0)
        && has_in_order(numbers, 1)
        && has_in_order(numbers, 2)
        && has_in_order(numbers, 3)
}

fn found_in_order<R: Wait>(rt: &R, lock: &TurnLock<Log>, pass: &mut Pass<Log>) -> bool
    requires { IsPassOf lock.now pass.old }
    ensures { IsPassOf lock.now pass.new }
{
    let mut turn = lock.enter(rt, pass);
    let found = all_in_order(turn.value());
    turn.leave();
    found
}

// Returns the log has no room for a number more.
fn is_full<R: Wait>(rt: &R, lock: &TurnLock<Log>, pass: &mut Pass<Log>) -> bool
    requires { IsPassOf lock.now pass.old }
{
    matches!(
        insert(rt, lock, pass, 0),
        Err(PushFault::Full { held: 8_000 })
    )
}

// Two threads insert, each with a pass of its own. The pass has then both.
fn two_insert<R: Threads + Wait + Sync>(
    rt: &R,
    lock: &TurnLock<Log>,
    mut pass: Pass<Log>,
    maker: u64,
) -> Option<Pass<Log>>
    requires { IsPassOf lock.now pass }
    ensures { IfSome result (λ p. IsPassOf lock.now p) }
{
    let other = lock.split(&mut pass).ok()?;
    let next = maker.wrapping_add(1);
    let (mut pass, other) = join(
        rt,
        || -> Pass<Log>
            requires { IsPassOf lock.now pass }
            ensures { IsPassOf lock.entry.now result }
        { insert_many(rt, lock, pass, maker) },
        || -> Pass<Log>
            requires { IsPassOf lock.now other }
            ensures { IsPassOf lock.entry.now result }
        { insert_many(rt, lock, other, next) },
    );
    lock.join(&mut pass, other);
    Some(pass)
}

// Twice two threads insert. Whether each maker's numbers are all there at the end, in order, and the log is full.
fn four_insert<R: Threads + Wait + Sync>(
    rt: &R,
    lock: &TurnLock<Log>,
    mut pass: Pass<Log>,
) -> Option<bool>
    requires { IsPassOf lock.now pass }
{
    let other = lock.split(&mut pass).ok()?;
    let (pass, other) = join(
        rt,
        || -> Option<Pass<Log>>
            requires { IsPassOf lock.now pass }
            ensures { IfSome result (λ p. IsPassOf lock.entry.now p) }
        { two_insert(rt, lock, pass, 0) },
        || -> Option<Pass<Log>>
            requires { IsPassOf lock.now other }
            ensures { IfSome result (λ p. IsPassOf lock.entry.now p) }
        { two_insert(rt, lock, other, 2) },
    );
    let (mut pass, other) = (pass?, other?);
    lock.join(&mut pass, other);
    Some(found_in_order(rt, lock, &mut pass) && is_full(rt, lock, &mut pass))
}

#[test]
fn four_threads_take_2000_turns_each(rt: HostRuntime) -> Result<(), Fail> {
    let (lock, pass) = fresh(&rt, rt.alloc(), 4)?;
    assert!(rt; four_insert(&rt, &lock, pass) == Some(true));
    Ok(())
}

#[test]
fn spent_split(rt: HostRuntime) -> Result<(), Fail> {
    let fault = fault_of_one(&rt, rt.alloc())?;
    assert!(rt; matches!(fault, SplitFault::Spent { made: 1 }));
    Ok(())
}

#[test]
fn a_pass_is_split_and_joined(rt: HostRuntime) -> Result<(), Fail> {
    let (lock, mut pass) = fresh(&rt, rt.alloc(), 2)?;
    assert!(rt; both_insert(&rt, &lock, &mut pass) == Some((1, 2)));
    assert!(rt; status(&rt, &lock, &mut pass) == (2, 0));
    // Both numbers of the lock were drawn.
    assert!(rt; both_insert(&rt, &lock, &mut pass) == None);
    Ok(())
}

fn places_and_status<R: Wait>(
    rt: &R,
    lock: &TurnLock<Log>,
    pass: &mut Pass<Log>,
) -> Result<(u64, (u64, u64)), PushFault>
    requires { IsPassOf lock.now pass.old × (0 < pass.old.may_settle) }
{
    insert(rt, lock, pass, 7)?;
    insert(rt, lock, pass, 8)?;
    settle_all(rt, lock, pass);
    let place = insert(rt, lock, pass, 9)?;
    Ok((place, status(rt, lock, pass)))
}

#[test]
fn the_first_pass_settles(rt: HostRuntime) -> Result<(), Fail> {
    let (lock, mut pass) = fresh(&rt, rt.alloc(), 1)?;
    assert!(rt; matches!(places_and_status(&rt, &lock, &mut pass), Ok((3, (3, 2)))));
    Ok(())
}
