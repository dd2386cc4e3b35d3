//! A desk over a store, and the rounds of its keeper.
ghost use Rattle.std.specs.Prelude.{◌≡◌, ◌≤◌, IfErr, IfOk, None};
ghost use Rattle.log_model.specs.History.{batches_in};
ghost use Rattle.part_store.specs.Finds.{HoldsBatches, HoldsWhole};
ghost use Rattle.lone_desk.specs.Kept.{MayKeepAlone, RoundsAlone};

use crate::desk::LoneDesk;
use log_desk::{Desk, KeepFault, Keeper};
use part_store::Store;
use std::alloc::{AllocError, Global};
use std::sync::Wait;
use vl_vault::Vault;

impl<'d, R: Wait> LoneDesk<'d, R> {
    /// Returns a desk of the batches that a store holds, and the keeper of the store. Where memory runs out the store
    /// comes back.
    pub fn of_store<V: Vault>(
        rt: &'d R,
        alloc: Global,
        store: Store<V>,
    ) -> Result<(LoneDesk<'d, R>, Keeper<V>), (AllocError, Store<V>)>
        requires holds { HoldsBatches store }
        requires on { store.halted ≡ None }
        ensures keeper { IfOk result (λ r. (r.1 ≡ store) × MayKeepAlone r.1 r.0) }
        ensures history { IfOk result (λ r. HoldsWhole store (batches_in r.0.history) × (r.0.settled ≡ store.front)) }
        ensures back { IfErr result (λ refusal. refusal.1 ≡ store) }
    {
        match Desk::of_store(rt, alloc, store, 1) {
            Ok((desk, pass, keeper)) => {
                let lone = LoneDesk {
                    rt,
                    alloc,
                    desk,
                    pass,
                };
                Ok((lone, keeper))
            }
            Err(refusal) => Err(refusal),
        }
    }

    /// Runs a round of the desk's keeper: all batches go to its store.
    pub fn round<V: Vault>(&mut self, keeper: &mut Keeper<V>) -> Result<u64, KeepFault>
        requires { MayKeepAlone keeper.old self.old }
        ensures keeps { MayKeepAlone keeper.new self.new }
        ensures same { self.new.history ≡ self.old.history }
        ensures round { RoundsAlone V.is_told V.past V.faults (batches_in self.old.history) keeper.old keeper.new
            self.new.settled result }
        ensures stays { V.faults keeper.old.vault ≤ V.faults keeper.new.vault }
    {
        keeper.round(self.rt, self.alloc, &self.desk, &mut self.pass)
    }
}
