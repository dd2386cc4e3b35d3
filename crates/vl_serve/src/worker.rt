//! The workers of doors.
ghost use Rattle.std.specs.Prelude.{◌≡◌};
ghost use Rattle.log_desk.specs.Calls.{KeepsMark};
ghost use Rattle.log_desk.specs.Passes.{IsPassOf};
ghost use Rattle.log_desk.specs.Seen.{caller_of, seen_of};
ghost use Rattle.vl_serve.specs.Doors.{GoesOn, IsServed, door_change};
ghost use Rattle.vl_serve.specs.Workers.{EndsAs, HasWorked, IsOfDesk};

use crate::door::serve_door;
use log_desk::{Desk, Pass};
use std::alloc::Global;
use std::random::RandomSource;
use std::sync::Wait;
use vl_io::Doors;

/// Who serves the visits of a door.
#[derive(Drop)]
pub(crate) struct Worker<D> {
    pub(crate) door: D,
    /// Its own, where there was one more.
    pub(crate) pass: Option<Pass>,
    /// Whether the door ended at a fault.
    pub(crate) is_fault: bool,
}

impl<D: Doors + Drop> Worker<D> {
    /// Serves the door with the worker's own pass, if it has one.
    pub(crate) fn work<R: Wait + RandomSource>(&mut self, rt: &R, alloc: Global, desk: &Desk)
        requires { IsOfDesk desk.now self.old }
        ensures { HasWorked (door_change D.left D.faults) self.old self.new }
    {
        if let Some(pass) = &mut self.pass {
            self.is_fault = serve_door(rt, alloc, desk, pass, &mut self.door);
        }
    }

    /// Returns its door, and whether that ended at a fault. The door of a worker without a pass is served now, with
    /// this one.
    pub(crate) fn finish<R: Wait + RandomSource>(
        self,
        rt: &R,
        alloc: Global,
        desk: &Desk,
        pass: &mut Pass,
    ) -> (D, bool)
        requires { IsPassOf desk.now pass.old }
        ensures ended { EndsAs (door_change D.left D.faults) self result }
        ensures pass { IsPassOf desk.now pass.new }
        ensures caller { caller_of pass.new ≡ caller_of pass.old }
        ensures mark { KeepsMark pass.old pass.new }
        ensures goes_on { GoesOn (seen_of pass.old) (seen_of pass.new) }
    {
        let Worker {
            mut door,
            pass: own,
            is_fault,
        } = self;
        match own {
            Some(_) => (door, is_fault),
            None => {
                let is_fault = serve_door(rt, alloc, desk, pass, &mut door);
                (door, is_fault)
            }
        }
    }
}
