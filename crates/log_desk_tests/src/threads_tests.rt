//! Eight callers at once, each with a pass and a thread of its own.
ghost use Rattle.std.specs.Prelude.{IfSome};
ghost use Rattle.turn_lock.specs.Passes.{IsPassOf};

use crate::batches_tests::{insert_one, row_count, rows_of};
use log_desk::{Desk, Pass};
use std::alloc::{AllocError, AllocGlobal, Global};
use std::io;
use std::sync::Wait;
use std::thread::{Threads, join};
use std::time::{Clock, Instant};

/// How many batches each caller inserts.
const ROUNDS: u64 = 64;

/// How many callers there are.
const CALLERS: u64 = 8;

/// The most seconds that they may take, in a slow build and on a busy machine too.
const MOST_SECONDS: u64 = 10;

/// Returns the front of a look, and how many of its rows have this message.
fn look_for<R: Wait>(
    rt: &R,
    desk: &Desk,
    pass: &mut Pass,
    message: &str,
) -> Result<(u64, u64), AllocError>
    requires { IsPassOf desk.now pass.old }
    ensures { IsPassOf desk.now pass.new }
{
    let look = desk.look(rt, pass)?;
    Ok((look.front(), rows_of(&look, message)))
}

/// Inserts batches and looks after each. Whether each look holds all that this caller inserted, and is longer than the
/// one before.
fn insert_and_look<R: Wait>(
    rt: &R,
    alloc: Global,
    desk: &Desk,
    pass: &mut Pass,
    caller: u64,
) -> Result<bool, AllocError>
    requires { IsPassOf desk.now pass.old }
    ensures { IsPassOf desk.now pass.new }
{
    let message = caller.to_string(alloc)?;
    let mut last = 0;
    for round in 1..=ROUNDS {
        let number = insert_one(rt, alloc, desk, pass, message.as_str())?;
        let (front, own) = look_for(rt, desk, pass, message.as_str())?;
        if number.is_none() || own != round || front <= last {
            return Ok(false);
        }
        last = front;
    }
    Ok(true)
}

/// One caller. The pass comes back where all was as it should be.
fn one<R: Wait>(rt: &R, alloc: Global, desk: &Desk, mut pass: Pass, caller: u64) -> Option<Pass>
    requires { IsPassOf desk.now pass }
    ensures { IfSome result (λ p. IsPassOf desk.now p) }
{
    match insert_and_look(rt, alloc, desk, &mut pass, caller) {
        Ok(true) => Some(pass),
        _ => None,
    }
}

/// Two callers at once. The pass has then both.
fn two<R: Threads + Wait + Sync>(
    rt: &R,
    alloc: Global,
    desk: &Desk,
    mut pass: Pass,
    caller: u64,
) -> Option<Pass>
    requires { IsPassOf desk.now pass }
    ensures { IfSome result (λ p. IsPassOf desk.now p) }
{
    let other = desk.split(&mut pass).ok()?;
    let next = caller.wrapping_add(1);
    let (pass, other) = join(
        rt,
        || -> Option<Pass>
            requires { IsPassOf desk.now pass }
            ensures { IfSome result (λ p. IsPassOf desk.entry.now p) }
        { one(rt, alloc, desk, pass, caller) },
        || -> Option<Pass>
            requires { IsPassOf desk.now other }
            ensures { IfSome result (λ p. IsPassOf desk.entry.now p) }
        { one(rt, alloc, desk, other, next) },
    );
    let (mut pass, other) = (pass?, other?);
    desk.join(&mut pass, other);
    Some(pass)
}

/// Four callers at once. The pass has then all four.
fn four<R: Threads + Wait + Sync>(
    rt: &R,
    alloc: Global,
    desk: &Desk,
    mut pass: Pass,
    caller: u64,
) -> Option<Pass>
    requires { IsPassOf desk.now pass }
    ensures { IfSome result (λ p. IsPassOf desk.now p) }
{
    let other = desk.split(&mut pass).ok()?;
    let next = caller.wrapping_add(2);
    let (pass, other) = join(
        rt,
        || -> Option<Pass>
            requires { IsPassOf desk.now pass }
            ensures { IfSome result (λ p. IsPassOf desk.entry.now p) }
        { two(rt, alloc, desk, pass, caller) },
        || -> Option<Pass>
            requires { IsPassOf desk.now other }
            ensures { IfSome result (λ p. IsPassOf desk.entry.now p) }
        { two(rt, alloc, desk, other, next) },
    );
    let (mut pass, other) = (pass?, other?);
    desk.join(&mut pass, other);
    Some(pass)
}

/// Eight callers at once. The pass has then all eight.
fn eight<R: Threads + Wait + Sync>(
    rt: &R,
    alloc: Global,
    desk: &Desk,
    mut pass: Pass,
) -> Option<Pass>
    requires { IsPassOf desk.now pass }
    ensures { IfSome result (λ p. IsPassOf desk.now p) }
{
    let other = desk.split(&mut pass).ok()?;
    let (pass, other) = join(
        rt,
        || -> Option<Pass>
            requires { IsPassOf desk.now pass }
            ensures { IfSome result (λ p. IsPassOf desk.entry.now p) }
        { four(rt, alloc, desk, pass, 0) },
        || -> Option<Pass>
            requires { IsPassOf desk.now other }
            ensures { IfSome result (λ p. IsPassOf desk.entry.now p) }
        { four(rt, alloc, desk, other, 4) },
    );
    let (mut pass, other) = (pass?, other?);
    desk.join(&mut pass, other);
    Some(pass)
}

/// Returns whether a look holds all rows of each caller, and no other row.
fn holds_all<R: Wait>(
    rt: &R,
    alloc: Global,
    desk: &Desk,
    pass: &mut Pass,
) -> Result<bool, AllocError>
    requires { IsPassOf desk.now pass.old }
    ensures { IsPassOf desk.now pass.new }
{
    let look = desk.look(rt, pass)?;
    for caller in 0..CALLERS {
        let message = caller.to_string(alloc)?;
        if rows_of(&look, message.as_str()) != ROUNDS {
            return Ok(false);
        }
    }
    Ok(row_count(&look) == 512 && look.front() == 512)
}

/// Returns whether eight callers insert and look as they should, within these seconds.
pub fn eight_callers<R: AllocGlobal + Clock + Threads + Wait + Sync>(rt: &R) -> io::Result<bool> {
    let alloc = rt.alloc();
    let start = Instant::now(rt)?;
    let (desk, pass) = Desk::fresh(rt, alloc, 8)?;
    let Some(mut pass) = eight(rt, alloc, &desk, pass) else {
        return Ok(false);
    };
    let all = holds_all(rt, alloc, &desk, &mut pass)?;
    let counted = desk.status(rt, &mut pass) == (512, 0);
    let took = start.elapsed(rt)?;
    Ok(all && counted && took.as_secs() < MOST_SECONDS)
}
