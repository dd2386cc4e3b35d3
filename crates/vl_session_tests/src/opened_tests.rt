//! How many blocks queries open.
ghost use Rattle.turn_lock.specs.Passes.{IsPassOf};

use crate::limits_tests::inserted;
use log_desk::{Desk, Pass};
use std::alloc::{AllocError, AllocGlobal};
use std::fmt::Write;
use std::random::RandomSource;
use std::sync::Wait;
use vl_session::{Steps, answer_query};

/// Tells this counter from others.
#[derive(Drop)]
struct Queries;

/// One block has no `error` and no `x`, the other both.
const FIRST: &str = "{\"_msg\":\"ok\"}\n{\"_msg\":\"fine\"}\n";

const SECOND: &str = "{\"_msg\":\"an error\",\"x\":\"1\"}\n";

const TEXTS: &[&str] = &["!error", "error", "ok", "ok or x:*"];

/// Asks a desk of one block and then of two, and adds a line on what was opened.
pub fn push_opened<R: AllocGlobal + Wait + RandomSource>(
    rt: &R,
    out: &mut String,
) -> Result<(), AllocError> {
    let (desk, mut pass) = Desk::fresh(rt, rt.alloc(), 1)?;
    let first = inserted(rt, &desk, &mut pass, FIRST)?;
    write!(out, "a query opens the blocks that it needs: {first}")?;
    push_answers(rt, &desk, &mut pass, out)?;
    let second = inserted(rt, &desk, &mut pass, SECOND)?;
    write!(out, "; {second}")?;
    push_answers(rt, &desk, &mut pass, out)?;
    out.push_str("\n")
}

/// Adds what came of each query. One counter counts for all.
fn push_answers<R: AllocGlobal + Wait + RandomSource>(
    rt: &R,
    desk: &Desk,
    pass: &mut Pass,
    out: &mut String,
) -> Result<(), AllocError>
    requires { IsPassOf desk.now pass.old }
    ensures { IsPassOf desk.now pass.new }
{
    let mut steps = Steps::<Queries>::new();
    for query in TEXTS {
        let told = asked(rt, desk, pass, query, &mut steps)?;
        write!(out, "; {told}")?;
    }
    Ok(())
}

/// Returns by how much the counter rose, whether the answer's look is over as many batches as it says, and its lines.
fn asked<R: AllocGlobal + Wait + RandomSource>(
    rt: &R,
    desk: &Desk,
    pass: &mut Pass,
    query: &str,
    steps: &mut Steps<Queries>,
) -> Result<String, AllocError>
    requires { IsPassOf desk.now pass.old }
    ensures { IsPassOf desk.now pass.new }
{
    let alloc = rt.alloc();
    let before = steps.count();
    let Ok(answer) = answer_query(rt, alloc, desk, pass, query, 5, steps) else {
        return format!(in alloc; "{query}: no answer");
    };
    let rose = steps.count().saturating_sub(before);
    let is_same = answer.snapshot.front() == answer.front;
    let mut told = format!(in alloc; "{query}: {rose} steps, {} batches {is_same}", answer.front)?;
    for line in answer.lines.as_str().lines() {
        write!(told, " {line}")?;
    }
    Ok(told)
}
