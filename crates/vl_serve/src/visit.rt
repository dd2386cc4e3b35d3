//! One visit.
ghost use Rattle.std.specs.Prelude.{◌≡◌};
ghost use Rattle.vl_io.specs.Change.{change_of};
ghost use Rattle.log_desk.specs.Calls.{KeepsMark};
ghost use Rattle.log_desk.specs.Passes.{IsPassOf};
ghost use Rattle.log_desk.specs.Seen.{caller_of, seen_of};
ghost use Rattle.vl_serve.specs.Doors.{GoesOn};
ghost use Rattle.vl_serve.specs.Visit.{IsVisit};

use log_desk::{Desk, Pass};
use std::alloc::Global;
use std::random::RandomSource;
use std::sync::Wait;
use vl_io::{Clock, Sink, Source, Visit, VisitKind};
use vl_session::{serve_session, session_law, syslog_law, syslog_session};

/// Serves a visit as one session, by what the visitor speaks. What the session reports is for the visitor only.
pub(crate) fn serve_visit<R: Wait + RandomSource, S: Source, K: Sink, C: Clock>(
    rt: &R,
    alloc: Global,
    desk: &Desk,
    pass: &mut Pass,
    visit: &mut Visit<S, K, C>,
)
    requires { IsPassOf desk.now pass.old }

    // What the pass has then seen, what was read and what was written are those of that session over these objects.
    ensures visit { IsVisit visit.old.kind (record {
      caller = caller_of pass.old;
      first = seen_of pass.old;
      last = seen_of pass.new;
      source = change_of S.left S.faults visit.old.source visit.new.source;
      sink = change_of K.written K.faults visit.old.sink visit.new.sink;
      moments_old = C.moments visit.old.clock;
      moments_new = C.moments visit.new.clock;
    }) }
    ensures pass { IsPassOf desk.now pass.new }
    ensures caller { caller_of pass.new ≡ caller_of pass.old }
    ensures mark { KeepsMark pass.old pass.new }
    ensures goes_on { GoesOn (seen_of pass.old) (seen_of pass.new) }
{
    let (source, clock) = (&mut visit.source, &mut visit.clock);
    match visit.kind {
        VisitKind::Http => {
            session_law();
            let _ = serve_session(rt, alloc, desk, pass, source, &mut visit.sink, clock);
        }
        VisitKind::Syslog => {
            syslog_law();
            let _ = syslog_session(rt, alloc, desk, pass, source, clock);
        }
    }
}
