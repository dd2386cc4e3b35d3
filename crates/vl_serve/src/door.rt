//! One door.
ghost use Rattle.std.specs.Prelude.{◌≡◌, true, false};
ghost use Rattle.log_desk.specs.Calls.{KeepsMark};
ghost use Rattle.log_desk.specs.Passes.{IsPassOf};
ghost use Rattle.log_desk.specs.Seen.{caller_of, seen_of};
ghost use Rattle.vl_serve.specs.Doors.{GoesOn, IsServed, door_change};

use crate::visit::serve_visit;
use log_desk::{Desk, Pass};
use std::alloc::Global;
use std::random::RandomSource;
use std::sync::Wait;
use vl_io::{Doors, Failed};

/// Serves the visits of a door one after another, until none is left or the door fails. It answers whether it failed.
pub(crate) fn serve_door<R: Wait + RandomSource, D: Doors>(
    rt: &R,
    alloc: Global,
    desk: &Desk,
    pass: &mut Pass,
    door: &mut D,
) -> bool
    requires { IsPassOf desk.now pass.old }
    ensures served { IsServed (door_change D.left D.faults door.old door.new) result }
    ensures pass { IsPassOf desk.now pass.new }
    ensures caller { caller_of pass.new ≡ caller_of pass.old }
    ensures mark { KeepsMark pass.old pass.new }
    ensures goes_on { GoesOn (seen_of pass.old) (seen_of pass.new) }
{
    'visits: for _ in rt.forever() {
        match door.next() {
            Ok(Some(mut visit)) => serve_visit(rt, alloc, desk, pass, &mut visit),
            Ok(None) => return false,
            Err(Failed) => return true,
        }
    }
    unreachable!()
}
