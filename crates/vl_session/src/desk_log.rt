//! The desk as the log of one of its callers.
ghost use Rattle.std.specs.Prelude.{◌≡◌, ◌≤ℤ◌, IfOk, IsOkAnd, OnErr, pos, string_bytes, unsigned_abs};
ghost use Rattle.log_desk.specs.Passes.{IsPassOf};
ghost use Rattle.log_desk.specs.Seen.{Follows, caller_of, seen_of};
ghost use Rattle.http_in.specs.Reading.{asked_by};
ghost use Rattle.http_route.specs.Route.{wanted_of};
ghost use Rattle.vl_session.specs.Answering.{Answered, SaysOutcome, TakesIn};
ghost use Rattle.vl_session.specs.Sent.{bytes_of};

use crate::access::Access;
use crate::answer::answer_query;
use crate::insert::Incoming;
use crate::insert_reply::refusal_reply;
use crate::log::{Log, Reply};
use crate::pages::{health_reply, status_reply};
use crate::prepared_reply::PreparedReply;
use crate::query_reply::{lines_reply, unanswered_reply};
use http_in::Request;
use http_reply::{Delivery, no_memory};
use http_route::{WantFault, Wanted, delivery_to};
use log_desk::Pass;
use query_run::Steps;
use std::alloc::AllocError;
use std::random::RandomSource;
use std::sync::Wait;

/// The desk, and the pass of a caller.
#[derive(Drop)]
pub(crate) struct DeskLog<'s, R> {
    pub(crate) access: Access<'s, R>,
    pub(crate) pass: &'s mut Pass,
}

impl<R: Wait + RandomSource> Log for DeskLog<'_, R> {
    ghost use Rattle.log_desk.specs.Passes.{IsPassOf};
    ghost use Rattle.log_desk.specs.Seen.{caller_of, seen_of};

    ghost seen = { λ log. seen_of log.pass.now };

    ghost caller = { λ log. caller_of log.pass.now };

    ghost may_ask = { λ log. IsPassOf log.access.desk.now log.pass.now };

    ghost name = { λ log. log.pass.ghost_name };

    fn serve(&mut self, request: &Request, now: i64, closes: bool) -> Reply {
        let delivery = delivery_to(request, closes);
        match reply_to(&self.access, self.pass, request, now, delivery) {
            Ok(reply) => reply,
            Err(AllocError) => Reply::Fixed(no_memory(delivery)),
        }
    }

    fn front(&self) -> u64 {
        self.pass.front()
    }

    fn settled(&self) -> u64 {
        self.pass.settled()
    }
}

/// Returns the reply to a request. Where memory runs out there is none, and nothing was added.
fn reply_to<R: Wait + RandomSource>(
    access: &Access<'_, R>,
    pass: &mut Pass,
    request: &Request,
    now: i64,
    delivery: Delivery,
) -> Result<Reply, AllocError>
    requires pass { IsPassOf access.now.desk.now pass.old }
    requires moment { pos 0 ≤ℤ now }
    ensures answered { IfOk result (λ reply. Answered (caller_of pass.old) (wanted_of (asked_by request.now))
        (asked_by request.now).body (unsigned_abs now) (seen_of pass.old) (seen_of pass.new) delivery
        (bytes_of reply)) }
    ensures unanswered { OnErr result (Follows (caller_of pass.old) (seen_of pass.old) (seen_of pass.new)) }
    ensures pass { IsPassOf access.now.desk.now pass.new }
    ensures caller { caller_of pass.new ≡ caller_of pass.old }
{
    match Wanted::of(access.alloc, request) {
        Ok(Wanted::Insert(options)) => {
            let body = request.body.as_slice();
            match Incoming::read(access.alloc, &options, now, body) {
                Ok(incoming) => {
                    let reply = take_in(access, pass, incoming, delivery)?;
                    Ok(reply)
                }
                Err(fault) => whole(refusal_reply(access.alloc, fault, delivery)),
            }
        }
        Ok(Wanted::Query(text)) => {
            let reply = query_reply(access, pass, text, now, delivery)?;
            Ok(reply)
        }
        Ok(Wanted::Status) => {
            let (batches, settled) = access.status(pass);
            let text = status_reply(access.alloc, batches, settled, delivery)?;
            Ok(Reply::Whole(text))
        }
        Ok(Wanted::Health) => whole(health_reply(access.alloc, delivery)),
        Err(WantFault::Refused(refusal)) => whole(refusal.reply(access.alloc, delivery)),
        Err(WantFault::Memory) => Err(AllocError),
    }
}

/// Inserts the rows of lines, if there are any. The reply is prepared before, so that there is memory for it.
fn take_in<R: Wait>(
    access: &Access<'_, R>,
    pass: &mut Pass,
    incoming: Incoming,
    delivery: Delivery,
) -> Result<Reply, AllocError>
    requires pass { IsPassOf access.now.desk.now pass.old }
    ensures taken { IfOk result (λ reply. TakesIn (caller_of pass.old) incoming (seen_of pass.old) (seen_of pass.new)
        delivery (bytes_of reply)) }
    ensures untaken { OnErr result (Follows (caller_of pass.old) (seen_of pass.old) (seen_of pass.new)) }
    ensures pass { IsPassOf access.now.desk.now pass.new }
    ensures caller { caller_of pass.new ≡ caller_of pass.old }
{
    let prepared = PreparedReply::of(access.alloc, &incoming, delivery)?;
    match incoming.commit(access, pass) {
        // Where there is no batch the reply names none.
        Ok(insertion) => {
            let number = insertion.batch.unwrap_or(0);
            Ok(Reply::Whole(prepared.with_number(number)))
        }
        Err(fault) => whole(refusal_reply(access.alloc, fault, delivery)),
    }
}

/// Returns the reply to a query.
fn query_reply<R: Wait + RandomSource>(
    access: &Access<'_, R>,
    pass: &mut Pass,
    text: &str,
    now: i64,
    delivery: Delivery,
) -> Result<Reply, AllocError>
    requires pass { IsPassOf access.now.desk.now pass.old }
    requires moment { pos 0 ≤ℤ now }
    ensures said { IfOk result (λ reply. SaysOutcome (caller_of pass.old) text.now (unsigned_abs now)
        (seen_of pass.old) (seen_of pass.new) delivery (bytes_of reply)) }
    ensures unsaid { OnErr result (Follows (caller_of pass.old) (seen_of pass.old) (seen_of pass.new)) }
    ensures pass { IsPassOf access.now.desk.now pass.new }
    ensures caller { caller_of pass.new ≡ caller_of pass.old }
{
    let mut steps: Steps<()> = Steps::new();
    let asked = answer_query(
        access.rt,
        access.alloc,
        access.desk,
        pass,
        text,
        now,
        &mut steps,
    );
    match asked {
        Ok(answer) => {
            let reply = lines_reply(access.alloc, answer.lines, delivery)?;
            Ok(reply)
        }
        Err(fault) => {
            let text = unanswered_reply(access.alloc, fault, delivery)?;
            Ok(Reply::Whole(text))
        }
    }
}

/// Returns a text as a reply.
fn whole(text: Result<String, AllocError>) -> Result<Reply, AllocError>
    ensures { IfOk result (λ reply. IsOkAnd text (λ text. bytes_of reply ≡ string_bytes text)) }
{
    match text {
        Ok(text) => Ok(Reply::Whole(text)),
        Err(AllocError) => Err(AllocError),
    }
}
