//! The desk, as sessions use it.
ghost use Rattle.std.specs.Prelude.{◌≡◌, IfErr, IfOk, OnOk, length};
ghost use Rattle.log_desk.specs.Passes.{IsPassOf};
ghost use Rattle.log_desk.specs.Seen.{caller_of, seen_of};
ghost use Rattle.log_model.specs.Core.{Stands};
ghost use Rattle.vl_session.specs.Seen.{IsRefused, Looks, Takes};

use log_core::Snapshot;
use log_desk::{Desk, InsertFault, Pass, PreparedBatch};
use part_file::Part;
use std::alloc::{AllocError, Global};
use std::sync::Wait;
use vl_row::Batch;

/// The desk, and what its calls take besides a pass.
#[derive(Drop)]
pub struct Access<'d, R> {
    pub rt: &'d R,
    pub alloc: Global,
    pub desk: &'d Desk,
}

impl<R: Wait> Access<'_, R> {
    /// Returns what the desk holds, in one turn.
    pub(crate) fn look(&self, pass: &mut Pass) -> Result<Snapshot<Part>, AllocError>
        requires { IsPassOf self.now.desk.now pass.old }
        ensures looks { Looks (caller_of pass.old) (seen_of pass.old) (seen_of pass.new) }
        ensures stands { IfOk result (λ look. Stands (λ rows. rows) look (seen_of pass.new).history) }
        ensures pass { IsPassOf self.now.desk.now pass.new }
        ensures caller { caller_of pass.new ≡ caller_of pass.old }
    {
        self.desk.look(self.rt, pass)
    }

    /// Returns how many batches there are, and how many of them are settled, in one turn.
    pub(crate) fn status(&self, pass: &mut Pass) -> (u64, u64)
        requires { IsPassOf self.now.desk.now pass.old }
        ensures looks { Looks (caller_of pass.old) (seen_of pass.old) (seen_of pass.new) }
        ensures numbers { (result.0 ≡ length (seen_of pass.new).history)
            × (result.1 ≡ (seen_of pass.new).settled) }
        ensures pass { IsPassOf self.now.desk.now pass.new }
        ensures caller { caller_of pass.new ≡ caller_of pass.old }
    {
        self.desk.status(self.rt, pass)
    }

    /// Inserts the batch, and answers its number.
    pub(crate) fn insert(&self, pass: &mut Pass, batch: Batch) -> Result<u64, InsertFault>
        requires { IsPassOf self.now.desk.now pass.old }
        ensures takes { OnOk result (Takes (caller_of pass.old) (seen_of pass.old) (seen_of pass.new) batch) }
        ensures number { IfOk result (λ number. number ≡ length (seen_of pass.new).history) }
        ensures refused { IfErr result (IsRefused (caller_of pass.old) (seen_of pass.old) (seen_of pass.new)) }
        ensures pass { IsPassOf self.now.desk.now pass.new }
        ensures caller { caller_of pass.new ≡ caller_of pass.old }
    {
        match self.desk.insert(self.rt, self.alloc, pass, batch) {
            Ok(number) => Ok(number),
            Err((fault, _)) => Err(fault),
        }
    }

    /// Does what [`insert`](Access::insert) does, for a batch whose part was made before.
    pub(crate) fn insert_prepared(
        &self,
        pass: &mut Pass,
        batch: PreparedBatch,
    ) -> Result<u64, InsertFault>
        requires { IsPassOf self.now.desk.now pass.old }
        ensures takes { OnOk result (Takes (caller_of pass.old) (seen_of pass.old) (seen_of pass.new) batch) }
        ensures number { IfOk result (λ number. number ≡ length (seen_of pass.new).history) }
        ensures refused { IfErr result (IsRefused (caller_of pass.old) (seen_of pass.old) (seen_of pass.new)) }
        ensures pass { IsPassOf self.now.desk.now pass.new }
        ensures caller { caller_of pass.new ≡ caller_of pass.old }
    {
        match self.desk.insert_prepared(self.rt, self.alloc, pass, batch) {
            Ok(number) => Ok(number),
            Err((fault, _)) => Err(fault),
        }
    }
}
