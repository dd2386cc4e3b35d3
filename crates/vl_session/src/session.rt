//! A session: the requests of one connection, served one after another.
ghost use Rattle.std.specs.Prelude.{◌≡◌};
ghost use Rattle.vl_io.specs.Change.{change_of};
ghost use Rattle.vl_session.specs.Session.{IsSession, connection};

use crate::log::Log;
use crate::report::{Done, End, Report};
use crate::request::next_request;
use crate::turn::{TURN_LIMIT, take_turn};
use http_in::Reader;
use std::alloc::{AllocError, Global};
use vl_io::{Clock, Sink, Source};
use vl_row::Items;

/// Serves the requests of a connection, until one asks to close, the input ends, something fails, or 1,000 were served.
/// Room for a turn is taken before its request is read.
pub(crate) fn serve_requests<L: Log, S: Source, K: Sink, C: Clock>(
    alloc: Global,
    log: &mut L,
    src: &mut S,
    sink: &mut K,
    clock: &mut C,
) -> Report
    requires { L.may_ask log.old }
    ensures session { IsSession (connection (L.caller log.old) (L.seen log.old) (L.seen log.new)
        (change_of S.left S.faults src.old src.new) (change_of K.written K.faults sink.old sink.new)
        (C.moments clock.old) (C.moments clock.new) result.turns result.end) }
    ensures may_ask { L.may_ask log.new }
    ensures same { L.caller log.new ≡ L.caller log.old }
    ensures lent { L.name log.new ≡ L.name log.old }
{
    let mut reader = Reader::new(alloc);
    let mut turns = Vec::new(alloc);
    'turns: while turns.len() < TURN_LIMIT {
        match turns.reserve(1) {
            Ok(()) => {}
            Err(AllocError) => return report(turns, End::Memory),
        }
        let request = match next_request(&mut reader, src, sink) {
            Ok(request) => request,
            Err(end) => return report(turns, end),
        };
        match take_turn(log, &request, &mut turns, sink, clock) {
            Ok(()) => {}
            Err(end) => return report(turns, end),
        }
    }
    report(turns, End::Limit)
}

fn report(turns: Vec<Done>, end: End) -> Report
    ensures turns { result.turns ≡ turns.items }
    ensures end { result.end ≡ end }
{
    let turns = Items::of(turns);
    Report { turns, end }
}
