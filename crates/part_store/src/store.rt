//! The store.
ghost use Rattle.std.specs.Prelude.{◌≡◌, ◌≢◌, ◌^◌, ◌<◌, ◌≤◌, All, Contains, Err, IfErr, IfOk, None, OnErr, OnOk};
ghost use Rattle.std.specs.Prelude.{Some, map};
ghost use Rattle.std.specs.Prelude.{ℕ};
ghost use Rattle.day_model.specs.Days.{AreOfTheirDays};
ghost use Rattle.vl_io.specs.Faults.{Rose};
ghost use Rattle.vl_vault.specs.Disk.{content};
ghost use Rattle.vl_vault.specs.Moments.{Always, EachImage};
ghost use Rattle.part_store.specs.Finds.{FindsBatches, FindsOldOrNew, FindsParts, HoldsBatches};
ghost use Rattle.part_store.specs.Reopening.{AreListedDurable, HasNumbersIn, IsOnlySynced, IsOutside, IsReopenFault};
ghost use Rattle.part_store.specs.Reopening.{vault_after};
ghost use Rattle.part_store.specs.State.{AreStored, HasSameList, IsReplaced, IsSpent, day_part_of, listed_of};

use crate::catalog::Catalog;
use crate::fault::{ReopenFault, StoreFault};
use crate::files::put_on_vault;
use crate::prepare::prepare;
use crate::reopen::read_catalog;
use part_file::Part;
use std::alloc::Global;
use std::marker::Model;
use std::sync::Arc;
use vl_io::Failed;
use vl_vault::Vault;

/// A part, and where it stands.
#[derive(Drop)]
pub struct Stored {
    /// The day of its rows.
    pub day: u32,
    /// The file that it stands in.
    pub file: u64,
    pub part: Arc<Part>,
}

/// The parts of the first so many batches, on a vault. Each has a file of its own, and a list names them.
#[derive(Drop)]
pub struct Store<V: Vault> {
    vault: V,
    catalog: Catalog,
    /// The vault's count of faults when a call on it failed.
    halted: Option<u64>,
}

impl<V: Vault> Model for Store<V> {
    ghost use Rattle.std.specs.Prelude.{map};
    ghost use Rattle.part_store.specs.State.{StoreState, as_state, listed_of};
    ghost use Rattle.part_store.specs.Finds.{IsStore};

    ghost Value = { StoreState V };

    ghost view = { λ s. as_state s.vault s.catalog.parts.items s.catalog.list s.halted };

    ghost invariant = { λ s.
        IsStore V.is_told (V.past s.vault) s.catalog.list (map listed_of s.catalog.parts.items) s.halted };
}

impl<V: Vault> Store<V> {
    /// Syncs the slots of the list, and reads the list and its parts. After a refusal the vault comes back.
    pub fn reopen(alloc: Global, vault: V) -> Result<Store<V>, (ReopenFault, V)>
        requires durable { V.is_told → AreListedDurable (V.past vault) }
        ensures found { V.is_told → IfOk result (λ store. FindsParts store.front store.parts (content (V.past vault))) }
        ensures numbers { V.is_told → IfOk result (HasNumbersIn (content (V.past vault))) }
        ensures batches { IfOk result HoldsBatches }
        ensures on { IfOk result (λ store. store.halted ≡ None) }
        ensures only { V.is_told → FindsBatches (content (V.past vault))
            → IfErr result (λ refused. IsOutside refused.0) }
        ensures damaged { V.is_told → IfErr result (λ refused. IsReopenFault refused.0 (content (V.past vault))) }
        ensures moments { V.is_told → Always (IsOnlySynced (V.past vault))
            (V.past vault) (V.past (vault_after result)) }
        ensures fault { IfErr result (λ refused. refused.0 ≡ ReopenFault.VaultFault
            → Rose (V.faults vault) (V.faults refused.1)) }
        ensures stays { V.faults vault ≤ V.faults (vault_after result) }
    {
        let mut vault = vault;
        match read_catalog(alloc, &mut vault) {
            Ok(catalog) => Ok(Store {
                vault,
                catalog,
                halted: None,
            }),
            Err(fault) => Err((fault, vault)),
        }
    }

    /// Returns how many batches its parts hold.
    pub fn front(&self) -> u64
        ensures value { result ≡ self.now.front }
        ensures small { result < 2 ^ 63 }
    {
        self.catalog.list.front
    }

    /// Returns how many lists were written, up to that of its parts.
    pub fn generation(&self) -> u64
        ensures { result ≡ self.now.generation }
    {
        self.catalog.list.generation
    }

    /// Returns the file that the next part gets.
    pub fn next_file(&self) -> u64
        ensures { result ≡ self.now.next_file }
    {
        self.catalog.list.next_file
    }

    /// Returns the parts, in order of day and file.
    pub fn parts(&self) -> &[Stored]
        ensures value { map listed_of result.now ≡ self.now.parts }
        ensures stored { AreStored self.now.next_file self.now.parts }
    {
        self.catalog.parts.as_slice()
    }

    /// Returns the vault's count of faults when the store halted, if it did.
    pub fn halted(&self) -> Option<u64>
        ensures { result ≡ self.now.halted }
    {
        self.halted
    }

    /// Says what a crash now would leave. This does nothing.
    pub fn finds_law(&self)
        ensures { V.is_told → self.now.halted ≡ None
            → EachImage (FindsParts self.now.front self.now.parts) (V.past self.now.vault) }
    {
        let _ = &self.catalog;
    }

    /// Says that the numbers are those of the list that the vault has now. This does nothing.
    pub fn numbers_law(&self)
        ensures { V.is_told → self.now.halted ≡ None
            → HasNumbersIn (content (V.past self.now.vault)) self.now }
    {
        let _ = &self.catalog;
    }

    /// Returns the vault.
    pub fn into_vault(self) -> V
        ensures { result ≡ self.vault }
    {
        let Store { vault, .. } = self;
        vault
    }

    /// Puts the new parts, each beside its day, in the place of those of the old files. They get the next files, in
    /// their order.
    pub fn replace(
        &mut self,
        alloc: Global,
        old: &[u64],
        new: &[(u32, Arc<Part>)],
        front: u64,
    ) -> Result<(), StoreFault>
        requires front { front < 2 ^ 63 }
        requires listed { All (Contains (map (λ part. part.file) self.old.parts)) old.now }
        requires days { AreOfTheirDays (map day_part_of new.now) }
        ensures ok { OnOk result (IsReplaced old.now (map day_part_of new.now) front self.old self.new) }
        ensures err { OnErr result (HasSameList self.old self.new) }

        // It halts where the vault fails, and is as before after each other refusal.
        ensures halted { (n : ℕ) → self.old.halted ≡ Some n → result ≡ Err (StoreFault.Halted n) }
        ensures halted_only { (n : ℕ) → result ≡ Err (StoreFault.Halted n) → self.old.halted ≡ Some n }
        ensures spent { self.old.halted ≡ None → IsSpent old.now (map day_part_of new.now) self.old
            → result ≡ Err StoreFault.Spent }
        ensures spent_only { result ≡ Err StoreFault.Spent → IsSpent old.now (map day_part_of new.now) self.old }
        ensures fault { result ≡ Err StoreFault.VaultFault → Rose (V.faults self.old.vault) (V.faults self.new.vault)
            × (self.new.halted ≡ Some (V.faults self.new.vault)) }
        ensures untouched { IfErr result (λ fault. fault ≢ StoreFault.VaultFault → self.new ≡ self.old) }
        ensures stays { V.faults self.old.vault ≤ V.faults self.new.vault }

        // At every moment each image finds the parts from before or the new ones.
        ensures moments { V.is_told → self.old.halted ≡ None
            → Always (EachImage (FindsOldOrNew old.now (map day_part_of new.now) front self.old))
            (V.past self.old.vault) (V.past self.new.vault) }
    {
        if let Some(fault) = self.halted {
            return Err(StoreFault::Halted { fault });
        }
        if self.catalog.is_spent(old, new) {
            return Err(StoreFault::Spent);
        }
        let Ok(next) = prepare(alloc, &self.catalog, old, new, front) else {
            return Err(StoreFault::Memory);
        };
        match put_on_vault(&mut self.vault, &self.catalog, &next, old, new) {
            Ok(()) => {
                self.catalog = next.catalog;
                Ok(())
            }
            Err(Failed) => {
                self.halted = Some(self.vault.faults());
                Err(StoreFault::VaultFault)
            }
        }
    }
}
