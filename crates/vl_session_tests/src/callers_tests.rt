//! Eight sessions at once, each with a pass and a thread of its own.
ghost use Rattle.std.specs.Prelude.{IfSome};
ghost use Rattle.turn_lock.specs.Passes.{IsPassOf};

use crate::connection_tests::{Told, push_found, push_insert, push_inserted, push_select, tell};
use log_desk::{Desk, Pass};
use std::alloc::{AllocError, Global};
use std::fmt::Write;
use std::random::RandomSource;
use std::sync::Wait;
use std::thread::{Threads, join};
use vl_session::End;

/// How often each session inserts a row and asks how many of its own there are.
const ROUNDS: u64 = 16;

/// Returns the requests of a session: it inserts a row of its own and asks for these, again and again.
fn requests(alloc: Global, caller: u64) -> Result<String, AllocError> {
    let line = format!(in alloc; "{{\"caller\":\"{caller}\"}}\n")?;
    let query = format!(in alloc; "caller%3A{caller}+%7C+stats+count()+as+n")?;
    let mut text = String::new(alloc);
    for _ in 0..ROUNDS {
        push_insert(&mut text, line.as_str())?;
        push_select(&mut text, query.as_str())?;
    }
    Ok(text)
}

/// Returns what is written to these requests, where the inserts have these numbers: each answer has all rows of its
/// own.
fn replies(alloc: Global, told: &Told) -> Result<String, AllocError> {
    let mut text = String::new(alloc);
    let mut own: u64 = 0;
    for (i, turn) in told.report.turns.as_slice().iter().enumerate() {
        if i % 2 == 0 {
            push_inserted(&mut text, turn.front)?;
        } else {
            own = own.saturating_add(1);
            let line = format!(in alloc; "{{\"n\":\"{own}\"}}\n")?;
            push_found(&mut text, line.as_str())?;
        }
    }
    Ok(text)
}

/// Returns whether each front holds that of the turn before, and an insert's one more.
fn grows(told: &Told) -> bool {
    let mut last = 0;
    for (i, turn) in told.report.turns.as_slice().iter().enumerate() {
        if turn.front < last || (i % 2 == 0 && turn.front == last) {
            return false;
        }
        last = turn.front;
    }
    true
}

/// Serves a session. Whether all was as it should be.
fn is_served<R: Wait + RandomSource>(
    rt: &R,
    alloc: Global,
    desk: &Desk,
    pass: &mut Pass,
    caller: u64,
) -> Result<bool, AllocError>
    requires { IsPassOf desk.now pass.old }
    ensures { IsPassOf desk.now pass.new }
{
    let requests = requests(alloc, caller)?;
    let told = tell(rt, alloc, desk, pass, requests.as_bytes())?;
    let replies = replies(alloc, &told)?;
    let same = told.written.as_slice() == replies.as_bytes();
    let all = told.report.turns.as_slice().len() == 32 && told.report.end == End::Closed;
    Ok(same && all && grows(&told))
}

/// One session. The pass comes back where all was as it should be.
fn one<R: Wait + RandomSource>(
    rt: &R,
    alloc: Global,
    desk: &Desk,
    mut pass: Pass,
    caller: u64,
) -> Option<Pass>
    requires { IsPassOf desk.now pass }
    ensures { IfSome result (λ p. IsPassOf desk.now p) }
{
    match is_served(rt, alloc, desk, &mut pass, caller) {
        Ok(true) => Some(pass),
        _ => None,
    }
}

/// Two sessions at once. The pass has then both.
fn two<R: Threads + Wait + RandomSource + Sync>(
    rt: &R,
    alloc: Global,
    desk: &Desk,
    mut pass: Pass,
    caller: u64,
) -> Option<Pass>
    requires { IsPassOf desk.now pass }
    ensures { IfSome result (λ p. IsPassOf desk.now p) }
{
    let other = desk.split(&mut pass).ok()?;
    let next = caller.wrapping_add(1);
    let (pass, other) = join(
        rt,
        || -> Option<Pass>
            requires { IsPassOf desk.now pass }
            ensures { IfSome result (λ p. IsPassOf desk.entry.now p) }
        { one(rt, alloc, desk, pass, caller) },
        || -> Option<Pass>
            requires { IsPassOf desk.now other }
            ensures { IfSome result (λ p. IsPassOf desk.entry.now p) }
        { one(rt, alloc, desk, other, next) },
    );
    let (mut pass, other) = (pass?, other?);
    desk.join(&mut pass, other);
    Some(pass)
}

/// Four sessions at once. The pass has then all four.
fn four<R: Threads + Wait + RandomSource + Sync>(
    rt: &R,
    alloc: Global,
    desk: &Desk,
    mut pass: Pass,
    caller: u64,
) -> Option<Pass>
    requires { IsPassOf desk.now pass }
    ensures { IfSome result (λ p. IsPassOf desk.now p) }
{
    let other = desk.split(&mut pass).ok()?;
    let next = caller.wrapping_add(2);
    let (pass, other) = join(
        rt,
        || -> Option<Pass>
            requires { IsPassOf desk.now pass }
            ensures { IfSome result (λ p. IsPassOf desk.entry.now p) }
        { two(rt, alloc, desk, pass, caller) },
        || -> Option<Pass>
            requires { IsPassOf desk.now other }
            ensures { IfSome result (λ p. IsPassOf desk.entry.now p) }
        { two(rt, alloc, desk, other, next) },
    );
    let (mut pass, other) = (pass?, other?);
    desk.join(&mut pass, other);
    Some(pass)
}

/// Eight sessions at once. The pass has then all eight.
pub(crate) fn eight<R: Threads + Wait + RandomSource + Sync>(
    rt: &R,
    alloc: Global,
    desk: &Desk,
    mut pass: Pass,
) -> Option<Pass>
    requires { IsPassOf desk.now pass }
    ensures { IfSome result (λ p. IsPassOf desk.now p) }
{
    let other = desk.split(&mut pass).ok()?;
    let (pass, other) = join(
        rt,
        || -> Option<Pass>
            requires { IsPassOf desk.now pass }
            ensures { IfSome result (λ p. IsPassOf desk.entry.now p) }
        { four(rt, alloc, desk, pass, 0) },
        || -> Option<Pass>
            requires { IsPassOf desk.now other }
            ensures { IfSome result (λ p. IsPassOf desk.entry.now p) }
        { four(rt, alloc, desk, other, 4) },
    );
    let (mut pass, other) = (pass?, other?);
    desk.join(&mut pass, other);
    Some(pass)
}
