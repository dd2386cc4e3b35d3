//! A desk over a store in memory, with the keeper of that store.
ghost use Rattle.std.specs.Prelude.{◌≡◌, ℕ, IfSome, None};
ghost use Rattle.vl_vault.specs.Moments.{IsDurable};
ghost use Rattle.part_store.specs.Finds.{HoldsBatches};

use log_core::Snapshot;
use log_desk::{Desk, InsertFault, KeepFault, Keeper, Pass};
use part_file::Part;
use part_store::Store;
use std::alloc::{AllocError, Global};
use std::marker::Model;
use std::sync::Wait;
use vl_row::Batch;
use vl_vault::MemoryVault;

/// A desk of the batches of a store in memory, its first pass, and the keeper of the store. A round may follow at any
/// time.
///
/// A contract sees how many batches the store holds.
#[derive(Drop)]
pub(crate) struct KeptDesk {
    desk: Desk,
    pass: Pass,
    keeper: Keeper<MemoryVault>,
}

impl Model for KeptDesk {
    ghost use Rattle.std.specs.Prelude.{ℕ};
    ghost use Rattle.log_desk.specs.Keeping.{MayKeep};

    ghost Value = { ℕ };

    ghost view = { λ k. k.keeper.front };

    ghost invariant = { λ k. MayKeep k.desk k.keeper k.pass };
}

impl KeptDesk {
    /// Returns the desk of a new vault, whose calls of these numbers fail, or `None` where one of the first fails.
    pub(crate) fn fresh<R>(
        rt: &R,
        alloc: Global,
        failing: &[u64],
    ) -> Result<Option<KeptDesk>, AllocError> {
        let vault = MemoryVault::of(alloc, failing)?;
        KeptDesk::of_vault(rt, alloc, vault)
    }

    /// Returns the desk of what a crash after all calls of the vault leaves, or `None` where that is refused.
    pub(crate) fn after_crash<R>(
        rt: &R,
        alloc: Global,
        vault: &MemoryVault,
        choice: u64,
    ) -> Result<Option<KeptDesk>, AllocError> {
        let image = vault.image(vault.calls(), choice)?;
        KeptDesk::of_vault(rt, alloc, image)
    }

    /// Returns the desk of the store that the vault has, or `None` where it is refused.
    fn of_vault<R>(
        rt: &R,
        alloc: Global,
        vault: MemoryVault,
    ) -> Result<Option<KeptDesk>, AllocError>
        requires { (file : ℕ) → IsDurable vault.past file }
    {
        let Some(store) = reopened(alloc, vault) else {
            return Ok(None);
        };
        match Desk::of_store(rt, alloc, store, 1) {
            Ok((desk, pass, keeper)) => Ok(Some(KeptDesk { desk, pass, keeper })),
            Err(_) => Err(AllocError),
        }
    }

    /// Inserts the batch, and answers its number.
    pub(crate) fn insert<R: Wait>(
        &mut self,
        rt: &R,
        alloc: Global,
        batch: Batch,
    ) -> Result<u64, InsertFault> {
        match self.desk.insert(rt, alloc, &mut self.pass, batch) {
            Ok(number) => Ok(number),
            Err((fault, _)) => Err(fault),
        }
    }

    /// Writes the batches after the store's front, and answers how many the desk had.
    pub(crate) fn round<R: Wait>(&mut self, rt: &R, alloc: Global) -> Result<u64, KeepFault> {
        self.keeper.round(rt, alloc, &self.desk, &mut self.pass)
    }

    /// Returns what the desk holds.
    pub(crate) fn look<R: Wait>(&mut self, rt: &R) -> Result<Snapshot<Part>, AllocError> {
        self.desk.look(rt, &mut self.pass)
    }

    /// Returns how many batches there are, and how many of them are settled.
    pub(crate) fn status<R: Wait>(&mut self, rt: &R) -> (u64, u64) {
        self.desk.status(rt, &mut self.pass)
    }

    /// Returns how many batches are settled, as far as the pass has seen.
    pub(crate) fn settled(&self) -> u64 {
        self.pass.settled()
    }

    /// Lends the store.
    pub(crate) fn store(&self) -> &Store<MemoryVault> {
        self.keeper.store()
    }

    /// Returns the vault.
    pub(crate) fn into_vault(self) -> MemoryVault {
        let KeptDesk { keeper, .. } = self;
        keeper.into_store().into_vault()
    }
}

/// Returns the store that the vault has, or `None` where it refuses.
pub(crate) fn reopened(alloc: Global, vault: MemoryVault) -> Option<Store<MemoryVault>>
    requires { (file : ℕ) → IsDurable vault.past file }
    ensures holds { IfSome result HoldsBatches }
    ensures on { IfSome result (λ store. store.halted ≡ None) }
{
    Store::reopen(alloc, vault).ok()
}
