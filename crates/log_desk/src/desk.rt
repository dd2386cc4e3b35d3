//! The desk and its calls.
ghost use Rattle.std.specs.Prelude.{◌≡◌, ◌<◌, ◌≤◌, ◌∷◌, [], length, take, IfErr, IfOk, OnErr, OnOk};
ghost use Rattle.log_model.specs.Batches.{AreOf};
ghost use Rattle.log_model.specs.Core.{Stands};
ghost use Rattle.turn_lock.specs.Entries.{made_by_nobody};
ghost use Rattle.turn_lock.specs.Passes.{IsPassOf, Joins, SplitsOff, StaysAtSplit};
ghost use Rattle.log_core.specs.Entries.{seen_history};
ghost use Rattle.log_core.specs.Shared.{shared_parts};
ghost use Rattle.log_desk.specs.Calls.{Inserted, IsRefused, Looked};
ghost use Rattle.log_desk.specs.Faults.{HasRoom};
ghost use Rattle.log_desk.specs.Keeping.{GoesOn, batches_seen};

use crate::fault::InsertFault;
use crate::pass::Pass;
use crate::prepared::PreparedBatch;
use log_core::{Shelf, Snapshot, SwapFault};
use part_file::Part;
use std::alloc::{AllocError, Global};
use std::marker::Model;
use std::sync::{Arc, Wait};
use turn_lock::{SplitFault, TurnLock};
use vl_row::Batch;

/// The state that all callers share. `insert`, `look` and `status` take one turn each; an insert that runs out of
/// memory, one at most.
#[derive(Drop)]
pub struct Desk {
    lock: TurnLock<Shelf<Part>>,
}

impl Model for Desk {
    ghost use Rattle.turn_lock.specs.Passes.{LockId};

    ghost Value = { LockId };

    ghost view = { λ d. d.lock };
}

impl Desk {
    /// Returns a desk of no batch, and its first pass, which has the number 0 and may settle. There are never more
    /// passes than `passes`.
    pub fn fresh<R>(rt: &R, alloc: Global, passes: u32) -> Result<(Desk, Pass), AllocError>
        requires { (0 < passes) × (passes ≤ 65536) }
        ensures lock { IfOk result (λ r. IsPassOf r.0 r.1 × (r.0.passes ≡ passes)) }
        ensures pass { IfOk result (λ r. (r.1.numbers ≡ 0 ∷ []) × (r.1.seen_drawn ≡ 1)
            × (r.1.draws ≡ 0) × (r.1.turns ≡ [])) }
        ensures mark { IfOk result (λ r. (r.1.mark ≡ 0) × (r.1.may_settle ≡ 1)) }
        ensures history { IfOk result (λ r. r.1.seen ≡ []) }
    {
        let shelf = Shelf::fresh(alloc)?;
        let (desk, pass) = Desk::over(rt, alloc, shelf, passes)?;
        Ok((desk, pass))
    }

    /// Returns a desk over a shelf, and its first pass, which has seen all batches and may settle. No one made them.
    pub(crate) fn over<R>(
        rt: &R,
        alloc: Global,
        shelf: Shelf<Part>,
        passes: u32,
    ) -> Result<(Desk, Pass), AllocError>
        requires { (0 < passes) × (passes ≤ 65536) }
        ensures lock { IfOk result (λ r. IsPassOf r.0 r.1 × (r.0.passes ≡ passes)) }
        ensures pass { IfOk result (λ r. (r.1.numbers ≡ 0 ∷ []) × (r.1.seen_drawn ≡ 1)
            × (r.1.draws ≡ 0) × (r.1.turns ≡ [])) }
        ensures mark { IfOk result (λ r. (r.1.mark ≡ shelf.settled) × (r.1.may_settle ≡ 1)) }
        ensures history { IfOk result (λ r. Stands (λ rows. rows) shelf (seen_history r.1.seen)
            × (made_by_nobody r.1.seen ≡ length r.1.seen)) }
    {
        let front = shelf.count();
        let settled = shelf.settled();
        let (lock, at_lock) = TurnLock::new(rt, alloc, shelf, passes)?;
        let pass = Pass {
            at_lock,
            front,
            settled,
        };
        Ok((Desk { lock }, pass))
    }

    /// Makes another pass, with a number of its own. It has seen what `pass` has seen, made none of it and may not
    /// settle.
    ///
    /// It answers `Spent` exactly where the pass has then seen all numbers drawn, none of them by this call.
    pub fn split(&self, pass: &mut Pass) -> Result<Pass, SplitFault>
        requires { IsPassOf self.now pass.old }
        ensures lock { IsPassOf self.now pass.new × IfOk result (λ p. IsPassOf self.now p) }
        ensures stays { StaysAtSplit pass.old pass.new }
        ensures new { IfOk result (SplitsOff pass.old pass.new) }
        ensures spent { IfErr result (λ e. (e ≡ SplitFault.Spent self.now.passes)
            × (pass.new.seen_drawn ≡ self.now.passes) × (pass.new.draws ≡ pass.old.draws)) }
    {
        let at_lock = self.lock.split(&mut pass.at_lock)?;
        Ok(Pass {
            at_lock,
            front: pass.front,
            settled: pass.settled,
        })
    }

    /// Puts `other` into `pass`, which has then the numbers of both, the longer of what they had seen and the greater
    /// mark.
    pub fn join(&self, pass: &mut Pass, other: Pass)
        requires { IsPassOf self.now pass.old × IsPassOf self.now other }
        ensures lock { IsPassOf self.now pass.new }
        ensures joins { Joins self.now.passes pass.old other pass.new }
    {
        let Pass {
            at_lock,
            front,
            settled,
        } = other;
        self.lock.join(&mut pass.at_lock, at_lock);
        pass.front = pass.front.max(front);
        pass.settled = pass.settled.max(settled);
    }

    /// Inserts the batch, in one turn, as the last one of the history that the pass has then seen, and answers its
    /// number. After a refusal the batch comes back.
    ///
    /// All memory is taken before the history grows.
    pub fn insert<R: Wait>(
        &self,
        rt: &R,
        alloc: Global,
        pass: &mut Pass,
        batch: Batch,
    ) -> Result<u64, (InsertFault, Batch)>
        requires { IsPassOf self.now pass.old }
        ensures pass { IsPassOf self.now pass.new }
        ensures inserted { IfOk result (λ number. Inserted batch number pass.old pass.new) }
        ensures refused { IfErr result (λ refusal. IsRefused self.now refusal.0 pass.old pass.new) }
        ensures returned { IfErr result (λ refusal. refusal.1 ≡ batch) }

        // So with room for it the batch is inserted, or memory ran out.
        ensures complete { HasRoom (length pass.new.seen) pass.new.mark
            → IfErr result (λ refusal. refusal.0 ≡ InsertFault.Memory) }
    {
        let Ok(prepared) = PreparedBatch::of(alloc, &batch) else {
            return Err((InsertFault::Memory, batch));
        };
        match self.insert_prepared(rt, alloc, pass, prepared) {
            Ok(number) => Ok(number),
            Err((fault, _)) => Err((fault, batch)),
        }
    }

    /// Does what [`insert`](Desk::insert) does, for a batch whose part was made before.
    pub fn insert_prepared<R: Wait>(
        &self,
        rt: &R,
        alloc: Global,
        pass: &mut Pass,
        prepared: PreparedBatch,
    ) -> Result<u64, (InsertFault, PreparedBatch)>
        requires { IsPassOf self.now pass.old }
        ensures pass { IsPassOf self.now pass.new }
        ensures inserted { IfOk result (λ number. Inserted prepared number pass.old pass.new) }
        ensures refused { IfErr result (λ refusal. IsRefused self.now refusal.0 pass.old pass.new) }
        ensures returned { IfErr result (λ refusal. refusal.1 ≡ prepared) }
        ensures complete { HasRoom (length pass.new.seen) pass.new.mark
            → IfErr result (λ refusal. refusal.0 ≡ InsertFault.Memory) }
    {
        let PreparedBatch { part } = prepared;
        let mut turn = self.lock.enter(rt, &mut pass.at_lock);
        let shelf = turn.value();
        pass.front = shelf.count();
        pass.settled = shelf.settled();
        match shelf.commit_shared(alloc, part) {
            Ok(number) => {
                turn.commit();
                turn.leave();
                pass.front = number;
                Ok(number)
            }
            Err((fault, part)) => {
                turn.leave();
                Err((InsertFault::from(fault), PreparedBatch { part }))
            }
        }
    }

    /// Returns what the desk holds, in one turn: all batches of the history that the pass has then seen. Where memory
    /// runs out, the turn was taken all the same.
    pub fn look<R: Wait>(&self, rt: &R, pass: &mut Pass) -> Result<Snapshot<Part>, AllocError>
        requires { IsPassOf self.now pass.old }
        ensures pass { IsPassOf self.now pass.new }
        ensures looked { Looked self.now pass.old pass.new }

        // It stands for all that the pass has then seen.
        ensures stands { IfOk result (λ look. Stands (λ rows. rows) look (seen_history pass.new.seen)) }
        ensures settled { IfOk result (λ look. look.settled ≡ pass.new.mark) }
    {
        let mut turn = self.lock.enter(rt, &mut pass.at_lock);
        let shelf = turn.value();
        pass.front = shelf.count();
        pass.settled = shelf.settled();
        let look = shelf.look();
        turn.leave();
        look
    }

    /// Returns how many batches there are, and how many of them are settled. It takes one turn, and no memory.
    pub fn status<R: Wait>(&self, rt: &R, pass: &mut Pass) -> (u64, u64)
        requires { IsPassOf self.now pass.old }
        ensures pass { IsPassOf self.now pass.new }
        ensures looked { Looked self.now pass.old pass.new }
        ensures numbers { (result.0 ≡ length pass.new.seen) × (result.1 ≡ pass.new.mark) }
    {
        let mut turn = self.lock.enter(rt, &mut pass.at_lock);
        let shelf = turn.value();
        pass.front = shelf.count();
        pass.settled = shelf.settled();
        turn.leave();
        (pass.front, pass.settled)
    }
    /// Has the first `front` batches as these day parts from now on, in one turn, and raises the mark.
    ///
    /// Its caller keeps a look at the parts in whose place these come, so that they are not freed within the turn.
    pub(crate) fn swap<R: Wait>(
        &self,
        rt: &R,
        alloc: Global,
        pass: &mut Pass,
        days: Vec<Arc<Part>>,
        front: u64,
    ) -> Result<(), AllocError>
        requires pass { IsPassOf self.now pass.old × (0 < pass.old.may_settle) }
        requires front { (pass.old.mark ≤ front) × (front ≤ length pass.old.seen) }
        requires days { AreOf (λ rows. rows) (shared_parts days.items) (take front (batches_seen pass.old.seen)) }
        ensures pass { IsPassOf self.now pass.new }
        ensures sees { GoesOn self.now pass.old pass.new }
        ensures ok { OnOk result (pass.new.mark ≡ front) }
        ensures err { OnErr result (pass.new.mark ≡ pass.old.mark) }
    {
        let mut turn = self.lock.enter(rt, &mut pass.at_lock);
        let shelf = turn.value();
        pass.front = shelf.count();
        pass.settled = shelf.settled();
        match shelf.swap(alloc, front, days) {
            Ok(()) => {
                turn.settle();
                turn.leave();
                pass.settled = front;
                Ok(())
            }
            Err(SwapFault::Memory) => {
                turn.leave();
                Err(AllocError)
            }
            Err(SwapFault::Behind { .. }) => unreachable!(),
        }
    }
}
