//! Sessions over the desk.
ghost use Rattle.std.specs.Prelude.{◌≡◌};
ghost use Rattle.vl_io.specs.Change.{change_of};
ghost use Rattle.log_desk.specs.Passes.{IsPassOf};
ghost use Rattle.log_desk.specs.Seen.{caller_of, seen_of};
ghost use Rattle.vl_session.specs.Session.{IsSession};

use crate::access::Access;
use crate::desk_log::DeskLog;
use crate::report::Report;
use crate::session::serve_requests;
use log_desk::{Desk, Pass};
use std::alloc::Global;
use std::random::RandomSource;
use std::sync::Wait;
use vl_io::{Clock, Sink, Source};

/// Serves the requests of one connection (RFC 9112). It ends where a request asks to close, the input ends, something
/// fails, or 1,000 requests were served.
///
/// Whatever other callers of the desk do meanwhile, there is one history. Each reply is the one that its request has
/// over a front of it, which holds all that the pass had seen before, or says that memory ran out. A query's reply is
/// the lines of its evaluation over all rows of that front. The entries that the pass adds to the history are the
/// batches of the inserts that were accepted, in their order.
pub fn serve_session<R: Wait + RandomSource, S: Source, K: Sink, C: Clock>(
    rt: &R,
    alloc: Global,
    desk: &Desk,
    pass: &mut Pass,
    src: &mut S,
    sink: &mut K,
    clock: &mut C,
) -> Report
    requires { IsPassOf desk.now pass.old }
    ensures session { IsSession (record {
      caller = caller_of pass.old;
      first = seen_of pass.old;
      last = seen_of pass.new;
      source = change_of S.left S.faults src.old src.new;
      sink = change_of K.written K.faults sink.old sink.new;
      moments_old = C.moments clock.old;
      moments_new = C.moments clock.new;
      dones = result.turns;
      end = result.end;
    }) }
    ensures pass { IsPassOf desk.now pass.new }
    ensures caller { caller_of pass.new ≡ caller_of pass.old }
{
    let access = Access { rt, alloc, desk };
    let mut log = DeskLog { access, pass };
    serve_requests(alloc, &mut log, src, sink, clock)
}
