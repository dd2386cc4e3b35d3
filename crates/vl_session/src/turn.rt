//! One turn of a session.
ghost use Rattle.std.specs.Prelude.{◌≡◌, ◌+◌, ◌++◌, ◌<◌, ◌≤◌, ◌≤ℤ◌, [], ◌∷◌, ◌||◌, ◌==◌, pos, unsigned_abs};
ghost use Rattle.std.specs.Prelude.{vec_capacity, vec_len};
ghost use Rattle.vl_io.specs.Change.{change_of};
ghost use Rattle.vl_io.specs.Moments.{Tells};
ghost use Rattle.http_in.specs.Reading.{asked_by};
ghost use Rattle.vl_session.specs.Sent.{GoesOn, Serves, bytes_of};
ghost use Rattle.vl_session.specs.Turns.{Turn, turn_limit};

use crate::log::{Log, Reply};
use crate::report::{Done, End};
use crate::send::put_reply;
use http_in::Request;
use vl_io::{Clock, Failed, Sink};

/// The most requests of one connection.
pub(crate) const TURN_LIMIT: usize = 1_000;

/// Serves one request, notes it in the list, which has room for it, and writes the reply.
pub(crate) fn take_turn<L: Log, K: Sink, C: Clock>(
    log: &mut L,
    request: &Request,
    turns: &mut Vec<Done>,
    sink: &mut K,
    clock: &mut C,
) -> Result<(), End>
    requires may_ask { L.may_ask log.old }
    requires room { vec_len turns.old < vec_capacity turns.old }
    requires few { vec_len turns.old < turn_limit }
    ensures turn { (turn : Turn) × Serves (L.caller log.old) (asked_by request.now) (L.seen log.old) (L.seen log.new)
        turns.old.items turns.new.items turn
        × Tells (C.moments clock.old) (C.moments clock.new) (pos turn.now)
        × GoesOn turn (change_of K.written K.faults sink.old sink.new) result }
    ensures may_ask { L.may_ask log.new }
    ensures same { L.caller log.new ≡ L.caller log.old }
    ensures lent { L.name log.new ≡ L.name log.old }
    ensures faults { K.faults sink.old ≤ K.faults sink.new }
{
    let now = clock.now();
    let reply = serve(log, request, turns, now);
    match put_reply(sink, &reply) {
        Err(Failed) => Err(End::SinkFault),
        Ok(()) if request.last => Err(End::AskedClose),
        Ok(()) => Ok(()),
    }
}

/// Serves one request, and notes it in the list, which has room for it.
fn serve<L: Log>(log: &mut L, request: &Request, turns: &mut Vec<Done>, now: i64) -> Reply
    requires may_ask { L.may_ask log.old }
    requires room { vec_len turns.old < vec_capacity turns.old }
    requires few { vec_len turns.old < turn_limit }
    requires moment { pos 0 ≤ℤ now }
    ensures served { (turn : Turn) × Serves (L.caller log.old) (asked_by request.now) (L.seen log.old) (L.seen log.new)
        turns.old.items turns.new.items turn × (turn.now ≡ unsigned_abs now) × (turn.reply ≡ bytes_of result) }
    ensures may_ask { L.may_ask log.new }
    ensures same { L.caller log.new ≡ L.caller log.old }
    ensures lent { L.name log.new ≡ L.name log.old }
{
    let closes = closes_after(turns.len(), request.last);
    let reply = log.serve(request, now, closes);
    let done = Done {
        now,
        front: log.front(),
        settled: log.settled(),
    };
    note(turns, done);
    reply
}

/// Returns whether the connection ends after the reply to a request before which this many were served.
fn closes_after(before: usize, last: bool) -> bool
    requires { before < turn_limit }
    ensures { result ≡ (last || (before + 1 == turn_limit)) }
{
    last || before + 1 == TURN_LIMIT
}

/// Notes a turn in the list, which has room for it.
fn note(turns: &mut Vec<Done>, done: Done)
    requires { vec_len turns.old < vec_capacity turns.old }
    ensures { turns.new.items ≡ turns.old.items ++ done ∷ [] }
{
    match turns.push(done) {
        Ok(()) => {}
        Err(_) => unreachable!(),
    }
}
