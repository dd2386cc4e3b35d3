//! The keeper of a store.
ghost use Rattle.std.specs.Prelude.{◌≡◌, ◌++◌, ◌-◌, ◌≤◌, Err, IfOk, IsTrue, MatchResult, None, OnOk, Some, drop};
ghost use Rattle.std.specs.Prelude.{flat_map};
ghost use Rattle.std.specs.Prelude.{ℕ, length, map};
ghost use Rattle.std.specs.List.{AllByRecursion};
ghost use Rattle.vl_vault.specs.Moments.{EachImage};
ghost use Rattle.log_model.specs.Core.{Stands, count_of, parts_of};
ghost use Rattle.log_model.specs.History.{History, batches_in};
ghost use Rattle.turn_lock.specs.Passes.{IsPassOf};
ghost use Rattle.log_core.specs.Shared.{shared_parts};
ghost use Rattle.part_store.specs.Finds.{FindsParts};
ghost use Rattle.part_store.specs.State.{AreInOrder, LiesInDay, day_part_of, listed_of};
ghost use Rattle.block_format.specs.Rows.{are_numbered_apart};
ghost use Rattle.merge_plan.specs.Planned.{rows_of_listed};
ghost use Rattle.log_desk.specs.Keeping.{EndsRound, GoesOn, HasKept, HoldsFront, IsRound, MayKeep};
ghost use Rattle.log_desk.specs.Keeping.{batches_seen, later_batches, rows_listed};
ghost use Rattle.log_desk.specs.Writing.{IsPlanOf, IsWrittenOut};

use crate::desk::Desk;
use crate::fault::KeepFault;
use crate::pass::Pass;
use log_core::Snapshot;
use merge_plan::{Plan, plan_merges};
use part_file::Part;
use part_store::{Store, Stored};
use std::alloc::{AllocError, Global};
use std::marker::Model;
use std::sync::{Arc, Wait};
use vl_vault::Vault;

/// Writes the batches of a desk to a store.
///
/// A contract sees it as the store.
#[derive(Drop)]
pub struct Keeper<V: Vault> {
    store: Store<V>,
}

impl<V: Vault> Model for Keeper<V> {
    ghost use Rattle.part_store.specs.State.{StoreState};

    ghost Value = { StoreState V };

    ghost view = { λ k. k.store };
}

impl<V: Vault> Keeper<V> {
    /// Returns the keeper of this store.
    pub fn beside(store: Store<V>) -> Keeper<V>
        requires { store.halted ≡ None }
        ensures { result ≡ store }
    {
        Keeper { store }
    }

    /// Returns how many batches its store holds.
    pub fn front(&self) -> u64
        ensures { result ≡ self.now.front }
    {
        self.store.front()
    }

    /// Lends its store.
    pub fn store(&self) -> &Store<V>
        ensures { result.now ≡ self.now }
    {
        &self.store
    }

    /// Returns the store.
    pub fn into_store(self) -> Store<V>
        ensures { result ≡ self }
    {
        let Keeper { store } = self;
        store
    }

    /// Says what a crash now would leave. This does nothing.
    pub fn finds_law(&self)
        ensures { V.is_told → self.now.halted ≡ None
            → EachImage (FindsParts self.now.front self.now.parts) (V.past self.now.vault) }
    {
        self.store.finds_law();
    }

    /// Writes the batches after the store's front to the store, and has the desk hold them as the store's parts. It
    /// answers how many batches the desk had at the first of its two turns.
    ///
    /// Where memory runs out between the two, the next round goes on with the second.
    pub fn round<R: Wait>(
        &mut self,
        rt: &R,
        alloc: Global,
        desk: &Desk,
        pass: &mut Pass,
    ) -> Result<u64, KeepFault>
        requires { MayKeep desk.now self.old pass.old }

        // So another round may follow.
        ensures keeps { MayKeep desk.now self.new pass.new }
        ensures sees { GoesOn desk.now pass.old pass.new }
        ensures round { (count : ℕ) × IsRound V.is_told V.past count self.old self.new pass.old pass.new
            × MatchResult result (HasKept V.is_told V.past count self.old self.new pass.new)
            (EndsRound V.faults (later_batches self.old count (batches_seen pass.new.seen)) self.old self.new) }
        ensures halted { (n : ℕ) → self.old.halted ≡ Some n → result ≡ Err (KeepFault.Halted n) }
        ensures stays { V.faults self.old.vault ≤ V.faults self.new.vault }
    {
        if let Some(fault) = self.store.halted() {
            return Err(KeepFault::Halted { fault });
        }
        self.store.finds_law();
        let Ok(look) = desk.look(rt, pass) else {
            return Err(KeepFault::Memory);
        };
        match self.write_out(alloc, &look) {
            Ok(()) => {}
            Err(fault) => return Err(fault),
        }
        match self.show(rt, alloc, desk, pass) {
            Ok(()) => {}
            Err(AllocError) => return Err(KeepFault::Memory),
        }
        self.store.finds_law();
        Ok(look.front())
    }

    /// Writes the batches of the look after the store's front.
    fn write_out(&mut self, alloc: Global, look: &Snapshot<Part>) -> Result<(), KeepFault>
        requires front { (look.now.settled ≤ self.old.front) × (self.old.front ≤ count_of look.now) }
        requires on { self.old.halted ≡ None }
        requires stands { (history : History) × Stands (λ rows. rows) look.now history
            × HoldsFront self.old (batches_in history) }
        ensures written { (history : History) → Stands (λ rows. rows) look.now history
            → HoldsFront self.old (batches_in history)
            → IsWrittenOut V.is_told V.past V.faults (batches_in history) self.old self.new result }
        ensures quiet { count_of look.now ≡ self.old.front → self.new ≡ self.old }
        ensures stays { V.faults self.old.vault ≤ V.faults self.new.vault }
    {
        self.store.finds_law();
        let front = self.store.front();
        if front == look.front() {
            return Ok(());
        }
        let Ok(plan) = plan_of(alloc, self.store.parts(), look, front) else {
            return Err(KeepFault::Memory);
        };
        match self
            .store
            .replace(alloc, &plan.old, &plan.new, look.front())
        {
            Ok(()) => Ok(()),
            Err(fault) => Err(KeepFault::from(fault)),
        }
    }

    /// Has the desk hold the store's parts as its day parts, unless it does.
    fn show<R: Wait>(
        &self,
        rt: &R,
        alloc: Global,
        desk: &Desk,
        pass: &mut Pass,
    ) -> Result<(), AllocError>
        requires { MayKeep desk.now self.now pass.old }
        ensures keeps { MayKeep desk.now self.now pass.new }
        ensures sees { GoesOn desk.now pass.old pass.new }
        ensures ok { OnOk result (pass.new.mark ≡ self.now.front) }
    {
        if pass.settled() == self.store.front() {
            return Ok(());
        }
        let days = shared(alloc, self.store.parts())?;
        desk.swap(rt, alloc, pass, days, self.store.front())
    }
}

/// Returns the plan for the stored parts and the batches of a look after the first `front`.
fn plan_of(
    alloc: Global,
    stored: &[Stored],
    look: &Snapshot<Part>,
    front: u64,
) -> Result<Plan, AllocError>
    requires front { (look.now.settled ≤ front) × (front ≤ count_of look.now) }
    requires order { AreInOrder (map listed_of stored.now) }
    requires days { AllByRecursion LiesInDay (map listed_of stored.now) }
    requires apart { IsTrue (are_numbered_apart (rows_of_listed (map listed_of stored.now)
        ++ flat_map (λ rows. rows) (drop (front - look.now.settled) look.now.unsettled))) }
    ensures { IfOk result (λ plan. IsPlanOf (map listed_of stored.now)
        (drop (front - look.now.settled) look.now.unsettled) plan.old.items (map day_part_of plan.new.items)) }
{
    let later = (look.front() - front) as usize;
    let batches = parts_from(alloc, look, look.len() - later)?;
    plan_merges(alloc, stored, batches.as_slice())
}

/// Returns the parts of a look from this place on.
fn parts_from(
    alloc: Global,
    look: &Snapshot<Part>,
    from: usize,
) -> Result<Vec<Arc<Part>>, AllocError>
    requires { from ≤ length (parts_of look.now) }
    ensures { IfOk result (λ parts. shared_parts parts.items ≡ drop from (parts_of look.now)) }
{
    let mut parts = Vec::with_capacity(alloc, look.len() - from)?;
    for place in from..look.len() {
        parts.push(Arc::try_clone(look.part(place))?)?;
    }
    Ok(parts)
}

/// Returns the parts of a store, shared.
pub(crate) fn shared(alloc: Global, stored: &[Stored]) -> Result<Vec<Arc<Part>>, AllocError>
    ensures { IfOk result (λ parts. shared_parts parts.items ≡ rows_listed (map listed_of stored.now)) }
{
    let mut parts = Vec::with_capacity(alloc, stored.len())?;
    for one in stored {
        parts.push(Arc::try_clone(&one.part)?)?;
    }
    Ok(parts)
}
