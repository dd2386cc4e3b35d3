//! A session of syslog: the messages of one stream, inserted one read at a time.
ghost use Rattle.std.specs.Prelude.{◌≡◌};
ghost use Rattle.vl_io.specs.Change.{change_of};
ghost use Rattle.log_desk.specs.Passes.{IsPassOf};
ghost use Rattle.log_desk.specs.Seen.{caller_of, seen_of};
ghost use Rattle.vl_session.specs.SyslogSession.{IsSyslogSession};

use crate::access::Access;
use crate::syslog_inflow::{Inflow, piece_buffer};
use crate::syslog_intake::{Counts, arrival_moment, take_in};
use crate::syslog_report::{SyslogEnd, SyslogReport};
use log_desk::{Desk, Pass};
use std::alloc::{AllocError, Global};
use std::sync::Wait;
use vl_io::{Clock, Source};

/// Inserts the messages of a stream (RFC 5424, in the frames of RFC 6587), until the input ends, something fails, or
/// 268,435,456 bytes came. The readable messages that one read completes become batches of 256, of which the last may
/// have fewer. The clock is asked once for each read that completes a message, and a message without a moment of its
/// own has that one.
///
/// What was inserted before an end stays. Batches of other callers may lie between those of the stream.
pub fn syslog_session<R: Wait, S: Source, C: Clock>(
    rt: &R,
    alloc: Global,
    desk: &Desk,
    pass: &mut Pass,
    src: &mut S,
    clock: &mut C,
) -> SyslogReport
    requires { IsPassOf desk.now pass.old }
    ensures session { IsSyslogSession (caller_of pass.old) (seen_of pass.old) (seen_of pass.new)
        (change_of S.left S.faults src.old src.new) (C.moments clock.old) (C.moments clock.new) result }
    ensures pass { IsPassOf desk.now pass.new }
    ensures caller { caller_of pass.new ≡ caller_of pass.old }
{
    let access = Access { rt, alloc, desk };
    let mut counts = Counts {
        accepted: 0,
        refused: 0,
    };
    let mut inflow = Inflow::new(alloc);
    let mut buffer = match piece_buffer(alloc) {
        Ok(buffer) => buffer,
        Err(AllocError) => return counts.report(SyslogEnd::Memory),
    };
    let piece = buffer.as_mut_slice();
    'reads: loop {
        let ended = inflow.advance(alloc, src, piece);
        let now = arrival_moment(&inflow.messages, clock);
        match take_in(&access, pass, &inflow.messages, now, &mut counts) {
            Ok(()) => {}
            Err(end) => return counts.report(end),
        }
        match ended {
            Some(end) => return counts.report(end),
            None => {}
        }
    }
}
