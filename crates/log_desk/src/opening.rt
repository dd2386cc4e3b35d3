//! The desk of a store.
ghost use Rattle.std.specs.Prelude.{◌≡◌, ◌<◌, ◌≤◌, ◌∷◌, [], IfErr, IfOk, None, length};
ghost use Rattle.turn_lock.specs.Entries.{made_by_nobody};
ghost use Rattle.log_core.specs.Settled.{settled_only};
ghost use Rattle.part_store.specs.Finds.{HoldsBatches, HoldsWhole};
ghost use Rattle.log_desk.specs.Keeping.{MayKeep, batches_seen, rows_listed};

use crate::desk::Desk;
use crate::keeper::{Keeper, shared};
use crate::pass::Pass;
use log_core::Shelf;
use part_file::Part;
use part_store::Store;
use std::alloc::{AllocError, Global};
use vl_vault::Vault;

impl Desk {
    /// Returns a desk of the batches that a store holds, its first pass, which has the number 0 and may settle, and the
    /// keeper of the store. No one made these batches. There are never more passes than `passes`.
    pub fn of_store<V: Vault, R>(
        rt: &R,
        alloc: Global,
        store: Store<V>,
        passes: u32,
    ) -> Result<(Desk, Pass, Keeper<V>), (AllocError, Store<V>)>
        requires passes { (0 < passes) × (passes ≤ 65536) }
        requires holds { HoldsBatches store }
        requires on { store.halted ≡ None }
        ensures keeper { IfOk result (λ r. (r.2 ≡ store) × MayKeep r.0 r.2 r.1 × (r.0.passes ≡ passes)) }
        ensures pass { IfOk result (λ r. (r.1.numbers ≡ 0 ∷ []) × (r.1.seen_drawn ≡ 1)
            × (r.1.draws ≡ 0) × (r.1.turns ≡ [])) }
        ensures mark { IfOk result (λ r. (r.1.mark ≡ store.front) × (r.1.may_settle ≡ 1)) }
        ensures history { IfOk result (λ r. HoldsWhole store (batches_seen r.1.seen)
            × (made_by_nobody r.1.seen ≡ length r.1.seen)) }
        ensures back { IfErr result (λ refusal. refusal.1 ≡ store) }
    {
        let Ok(shelf) = shelf_of(alloc, &store) else {
            return Err((AllocError, store));
        };
        match Desk::over(rt, alloc, shelf, passes) {
            Ok((desk, pass)) => Ok((desk, pass, Keeper::beside(store))),
            Err(AllocError) => Err((AllocError, store)),
        }
    }
}

/// Returns a shelf of what the store holds.
fn shelf_of<V: Vault>(alloc: Global, store: &Store<V>) -> Result<Shelf<Part>, AllocError>
    requires { HoldsBatches store.now }
    ensures { IfOk result (λ shelf. shelf ≡ settled_only store.now.front (rows_listed store.now.parts)) }
{
    let days = shared(alloc, store.parts())?;
    Shelf::of_days(alloc, days, store.front())
}
