//! Lines that are inserted and queries that are asked without a session, and the limits of what is held.
ghost use Rattle.turn_lock.specs.Passes.{IsPassOf};

use crate::connection_tests::tell;
use crate::http_sessions_tests::shown;
use crate::spelling_tests::push_spelled;
use ingest_row::Options;
use log_desk::{Desk, Pass};
use std::alloc::{AllocError, AllocGlobal, Global};
use std::fmt::Write;
use std::random::RandomSource;
use std::sync::Wait;
use vl_session::{AnswerFault, InsertionFault, Steps, answer_query, insert_lines};

/// Tells the counter of these queries from others.
#[derive(Drop)]
struct Queries;

/// Makes each check, and adds its line.
pub fn push_limits<R: AllocGlobal + Wait + RandomSource>(
    rt: &R,
    out: &mut String,
) -> Result<(), AllocError> {
    push_batches(rt, out)?;
    push_queries(rt, out)?;
    push_refusals(rt, out)?;
    push_full(rt, out)?;
    push_heavy(rt, out)
}

/// Inserts these lines, and tells the counts of accepted and refused lines and the number of the batch, or 0.
fn insert<R: AllocGlobal + Wait>(
    rt: &R,
    desk: &Desk,
    pass: &mut Pass,
    lines: &str,
) -> Result<(u64, usize, u64), InsertionFault>
    requires { IsPassOf desk.now pass.old }
    ensures { IsPassOf desk.now pass.new }
{
    let options = Options::plain(rt.alloc());
    let body = lines.as_bytes();
    let told = insert_lines(rt, rt.alloc(), desk, pass, &options, 5, body)?;
    Ok((
        told.accepted,
        told.refused.as_slice().len(),
        told.batch.unwrap_or(0),
    ))
}

/// Inserts these lines, and returns what came of it as a text.
pub(crate) fn inserted<R: AllocGlobal + Wait>(
    rt: &R,
    desk: &Desk,
    pass: &mut Pass,
    lines: &str,
) -> Result<String, AllocError>
    requires { IsPassOf desk.now pass.old }
    ensures { IsPassOf desk.now pass.new }
{
    match insert(rt, desk, pass, lines) {
        Ok((accepted, refused, batch)) => {
            format!(in rt.alloc(); "accepted {accepted}, refused {refused}, batch {batch}")
        }
        Err(fault) => format!(in rt.alloc(); "{fault:?}"),
    }
}

fn push_batches<R: AllocGlobal + Wait>(rt: &R, out: &mut String) -> Result<(), AllocError> {
    let (desk, mut pass) = Desk::fresh(rt, rt.alloc(), 1)?;
    let lines = "{\"_msg\":\"a\"}\n\nx\n{\"_msg\":\"b\"}";
    let two = inserted(rt, &desk, &mut pass, lines)?;
    let none = inserted(rt, &desk, &mut pass, "x\n")?;
    let one = inserted(rt, &desk, &mut pass, "{\"_msg\":\"c\"}\n")?;
    let front = pass.front();
    write!(
        out,
        "lines become one batch: {two}; {none}; {one}; front {front}\n"
    )
}

/// Returns what a query over the desk says as a text: its lines and over how many batches, or why it has no answer.
fn asked<R: AllocGlobal + Wait + RandomSource>(
    rt: &R,
    desk: &Desk,
    pass: &mut Pass,
    query: &str,
) -> Result<String, AllocError>
    requires { IsPassOf desk.now pass.old }
    ensures { IsPassOf desk.now pass.new }
{
    let alloc = rt.alloc();
    let mut steps = Steps::<Queries>::new();
    match answer_query(rt, alloc, desk, pass, query, 5, &mut steps) {
        Ok(answer) => {
            let mut text = format!(in alloc; "{} batches ", answer.front)?;
            push_spelled(answer.lines.as_str().as_bytes(), &mut text)?;
            Ok(text)
        }
        Err(AnswerFault::Query(fault)) => format!(in alloc; "query {fault}"),
        Err(AnswerFault::RegexRefused { nth }) => format!(in alloc; "pattern {nth}"),
        Err(AnswerFault::ManyRows) => String::from_str(alloc, "many rows"),
        Err(AnswerFault::Overflow { name }) => format!(in alloc; "overflow in {}", name.as_str()),
        Err(AnswerFault::Memory) => Err(AllocError),
    }
}

fn push_queries<R: AllocGlobal + Wait + RandomSource>(
    rt: &R,
    out: &mut String,
) -> Result<(), AllocError> {
    let (desk, mut pass) = Desk::fresh(rt, rt.alloc(), 1)?;
    let none = asked(rt, &desk, &mut pass, "*")?;
    let _ = insert(rt, &desk, &mut pass, "{\"_msg\":\"a\"}\n");
    let _ = insert(
        rt,
        &desk,
        &mut pass,
        "{\"_msg\":\"b\"}\n{\"_msg\":\"a c\"}\n",
    );
    let both = asked(rt, &desk, &mut pass, "a | fields _msg")?;
    write!(out, "a query sees all batches: {none}; {both}\n")
}

fn push_refusals<R: AllocGlobal + Wait + RandomSource>(
    rt: &R,
    out: &mut String,
) -> Result<(), AllocError> {
    let (desk, mut pass) = Desk::fresh(rt, rt.alloc(), 1)?;
    let lines = "{\"a\":\"9223372036854775807\"}\n{\"a\":\"1\"}\n";
    let told = inserted(rt, &desk, &mut pass, lines)?;
    let unspelled = asked(rt, &desk, &mut pass, "a | stats by (x)")?;
    let unreadable = asked(rt, &desk, &mut pass, "b:~\"c\" or ~\"(\"")?;
    let overflow = asked(rt, &desk, &mut pass, "* | stats sum(a) as s")?;
    write!(
        out,
        "a query is refused by name: {told}; {unspelled}; {unreadable}; {overflow}\n"
    )
}

/// Inserts one row so often, and tells whether each was accepted under its number.
fn fill<R: AllocGlobal + Wait>(rt: &R, desk: &Desk, pass: &mut Pass, count: u64) -> bool
    requires { IsPassOf desk.now pass.old }
    ensures { IsPassOf desk.now pass.new }
{
    let mut in_turn = true;
    for number in 1..=count {
        let told = insert(rt, desk, pass, "{\"_msg\":\"a\"}\n");
        in_turn = in_turn && told == Ok((1, 0, number));
    }
    in_turn
}

const ONE_ROW: &str =
    "POST /insert/jsonline HTTP/1.1\r\nContent-Length: 13\r\n\r\n{\"_msg\":\"a\"}\n";

fn push_full<R: AllocGlobal + Wait + RandomSource>(
    rt: &R,
    out: &mut String,
) -> Result<(), AllocError> {
    let (desk, mut pass) = Desk::fresh(rt, rt.alloc(), 1)?;
    let in_turn = fill(rt, &desk, &mut pass, 4_096);
    let full = inserted(rt, &desk, &mut pass, "{\"_msg\":\"a\"}\n")?;
    let none = inserted(rt, &desk, &mut pass, "x\n")?;
    let told = tell(rt, rt.alloc(), &desk, &mut pass, ONE_ROW.as_bytes())?;
    let session = shown(rt.alloc(), &told.written, &told.report)?;
    let front = pass.front();
    write!(
        out,
        "no more than 4,096 batches wait: {in_turn}; {full}; {none}; {session}; front {front}\n"
    )
}

/// Returns this many lines, to each of which a field of 14,000 bytes is added.
fn heavy(alloc: Global, lines: usize) -> Result<Vec<u8>, AllocError> {
    let mut bytes = Vec::new(alloc);
    bytes.extend_from_slice(b"POST /insert/jsonline?extra_fields=a=")?;
    for _ in 0..14_000 {
        bytes.push(b'x')?;
    }
    bytes.extend_from_slice(b" HTTP/1.1\r\nContent-Length: 50000\r\n\r\n")?;
    for _ in 0..lines {
        bytes.extend_from_slice(b"{\"bc\":1}\n\n")?;
    }
    Ok(bytes)
}

fn push_heavy<R: AllocGlobal + Wait + RandomSource>(
    rt: &R,
    out: &mut String,
) -> Result<(), AllocError> {
    let alloc = rt.alloc();
    let (desk, mut pass) = Desk::fresh(rt, alloc, 1)?;
    let bytes = heavy(alloc, 5_000)?;
    let told = tell(rt, alloc, &desk, &mut pass, &bytes)?;
    let session = shown(alloc, &told.written, &told.report)?;
    let front = pass.front();
    write!(
        out,
        "rows that are too heavy are not taken in: {session}; front {front}\n"
    )
}
