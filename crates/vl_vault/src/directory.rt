//! A vault over a directory. No clause says what a file system holds, so it tells nothing.
ghost use Rattle.std.specs.Prelude.{◌≡◌, ◌≤◌, [], IfOk, IsErr, Ok, OnErr, OnOk, length};
ghost use Rattle.vl_io.specs.Faults.{HasCause, Rose};
ghost use Rattle.vl_vault.specs.Directory.{AreNamesSynced, GoesOn, HasFailedSync, HasOpen, MayChange};
ghost use Rattle.vl_vault.specs.Directory.{NoSyncFailed, directory_faults};

use crate::files::{Access, FileTable};
use crate::vault::Vault;
use std::alloc::{AllocError, Global};
use std::fs::{File, Files};
use std::io;
use vl_io::Failed;

/// A vault over a directory. File n is the file under the decimal name n, and a missing file is an empty one.
///
/// No clause speaks of what the files hold. Every call that fails is counted, and the first writes one line with the
/// system's reason to standard error. A directory that cannot be used gives a vault that fails at its first call.
#[derive(Drop)]
pub struct DirVault<R> {
    rt: R,
    files: FileTable,
    faults: u64,
}

impl<R: Files<File = File> + Eprint + Drop> DirVault<R> {
    /// Returns a vault over the directory, which is created if it does not exist. The vault holds the lock on the
    /// directory, so that no other program can use it.
    pub fn open(rt: R, alloc: Global, directory: &str) -> Result<DirVault<R>, AllocError>
        ensures faults { IfOk result (λ vault. directory_faults vault ≡ 0) }
        ensures writes { IfOk result MayChange }
        ensures syncs { IfOk result NoSyncFailed }
    {
        DirVault::with_access(rt, alloc, directory, Access::Write)
    }

    /// Returns a vault over the directory that only reads. It creates nothing, and every call that would change a file
    /// fails. Other vaults that only read can share the directory with it.
    pub fn open_for_reading(
        rt: R,
        alloc: Global,
        directory: &str,
    ) -> Result<DirVault<R>, AllocError>
        ensures faults { IfOk result (λ vault. directory_faults vault ≡ 0) }
        ensures reads { IfOk result (λ vault. MayChange vault → ⊥) }
        ensures syncs { IfOk result NoSyncFailed }
    {
        DirVault::with_access(rt, alloc, directory, Access::Read)
    }

    fn with_access(
        rt: R,
        alloc: Global,
        directory: &str,
        access: Access,
    ) -> Result<DirVault<R>, AllocError>
        ensures faults { IfOk result (λ vault. directory_faults vault ≡ 0) }
        ensures access { IfOk result (λ vault. vault.files.access ≡ access) }
        ensures syncs { IfOk result NoSyncFailed }
    {
        let files = FileTable::open(&rt, alloc, directory, access)?;
        Ok(DirVault {
            rt,
            files,
            faults: 0,
        })
    }

    /// Counts the call if it failed, and writes the reason of the first one.
    fn counted<T>(&mut self, done: io::Result<T>) -> Result<T, Failed>
        ensures files { self.new.files ≡ self.old.files }
        ensures ok { IfOk result (λ value. done ≡ Ok value) }
        ensures err { OnErr result (IsErr done) }
        ensures cause { HasCause (directory_faults self.old) (directory_faults self.new) result }
    {
        match done {
            Ok(value) => Ok(value),
            Err(reason) => Err(self.fail(&reason)),
        }
    }

    /// Counts a fault, and writes the reason of the first.
    fn fail(&mut self, reason: &io::Error) -> Failed
        ensures files { self.new.files ≡ self.old.files }
        ensures rose { Rose (directory_faults self.old) (directory_faults self.new) }
        ensures stays { directory_faults self.old ≤ directory_faults self.new }
    {
        if self.faults == 0 {
            // An error of writing this line cannot be reported.
            let path = self.files.path();
            let _ = eprintln!(self.rt; "{path}: {reason}");
        }
        self.faults = self.faults.saturating_add(1);
        Failed
    }
}

impl<R: Files<File = File> + Eprint + Drop> Vault for DirVault<R> {
    ghost is_told = { ⊥ };

    ghost past = { λ _. [] };

    ghost faults = { directory_faults };

    fn length(&mut self, file: u64) -> Result<u64, Failed>
        ensures cause { HasCause (directory_faults self.old) (directory_faults self.new) result }

        ensures goes_on { GoesOn self.old self.new }
    {
        let done = self.files.length(&self.rt, file);
        self.counted(done)
    }

    fn read(&mut self, file: u64, at: u64, buf: &mut [u8]) -> Result<usize, Failed>
        ensures bound { IfOk result (λ n. n ≤ length buf.new) }
        ensures cause { HasCause (directory_faults self.old) (directory_faults self.new) result }

        ensures goes_on { GoesOn self.old self.new }
    {
        let done = self.files.read(&self.rt, file, at, buf);
        self.counted(done)
    }

    fn write_at(&mut self, file: u64, at: u64, piece: &[u8]) -> Result<(), Failed>
        ensures cause { HasCause (directory_faults self.old) (directory_faults self.new) result }

        ensures goes_on { GoesOn self.old self.new }
        ensures writes { OnOk result (MayChange self.old) }
        ensures open { OnOk result (HasOpen self.new file) }
    {
        let done = self.files.write_at(&self.rt, file, at, piece);
        self.counted(done)
    }

    fn cut(&mut self, file: u64, length: u64) -> Result<(), Failed>
        ensures cause { HasCause (directory_faults self.old) (directory_faults self.new) result }

        ensures goes_on { GoesOn self.old self.new }
        ensures writes { OnOk result (MayChange self.old) }
    {
        let done = self.files.cut(&self.rt, file, length);
        self.counted(done)
    }

    fn sync(&mut self, file: u64) -> Result<(), Failed>
        ensures cause { HasCause (directory_faults self.old) (directory_faults self.new) result }

        ensures goes_on { GoesOn self.old self.new }
        ensures names { OnOk result (AreNamesSynced self.new) }
        ensures none_failed { OnOk result (NoSyncFailed self.old) }
        ensures last { OnErr result (HasFailedSync self.new) }
    {
        let done = self.files.sync(&self.rt, file);
        self.counted(done)
    }

    fn remove(&mut self, file: u64) -> Result<(), Failed>
        ensures cause { HasCause (directory_faults self.old) (directory_faults self.new) result }

        ensures goes_on { GoesOn self.old self.new }
        ensures writes { OnOk result (MayChange self.old) }
        ensures names { OnOk result (AreNamesSynced self.new → ⊥) }
    {
        let done = self.files.remove(&self.rt, file);
        self.counted(done)
    }

    fn faults(&self) -> u64 {
        self.faults
    }
}
