//! A vault in memory, which keeps a record of its calls and fails at chosen ones.
ghost use Rattle.std.specs.Prelude.{
  ◌≡◌,
  ◌↔◌,
  ◌≤◌,
  ℕ,
  [],
  Contains,
  IfOk,
  IsErr,
  IsTrue,
  OnOk,
  drop,
  false,
  length,
  take,
  ⊤,
};
ghost use Rattle.vl_io.specs.Faults.{HasCause, Rose};
ghost use Rattle.vl_vault.specs.Calls.{Adds, DidCut, DidRead, DidSync, DidWrite, overwritten};
ghost use Rattle.vl_vault.specs.Disk.{IsCrashImage, IsCut, IsTorn, content};
ghost use Rattle.vl_vault.specs.Memory.{CountsCall, moment};
ghost use Rattle.vl_vault.specs.Moments.{IsDurable};
ghost use Rattle.vl_vault.specs.Record.{event_of};

use crate::call::{Call, after_cut, content, note, overwrite};
use crate::image::{crash_contents, torn, write_outcomes};
use crate::vault::Vault;
use std::alloc::{AllocError, Global};
use std::marker::Model;
use vl_io::Failed;

/// A vault in memory. It follows the disk model, and gives the images that a crash may leave.
#[derive(Debug, Drop)]
pub struct MemoryVault {
    alloc: Global,
    /// The contents that the vault began with, and then the calls.
    entries: Vec<Call>,
    /// How many of the first entries are not calls.
    initial: usize,
    failing: Vec<u64>,
    faults: u64,
}

impl Model for MemoryVault {
    ghost use Rattle.std.specs.Prelude.{◌-◌, ◌≤◌, vec_len};
    ghost use Rattle.vl_vault.specs.Record.{past_of};
    ghost use Rattle.vl_vault.specs.Memory.{VaultState};

    ghost Value = { VaultState };

    ghost view = { λ v. record {
      past = past_of v.entries.items;
      calls = vec_len v.entries - v.initial;
      failing = v.failing.items;
      faults = v.faults;
    } };

    ghost invariant = { λ v. v.initial ≤ vec_len v.entries };
}

impl MemoryVault {
    /// Returns a vault of empty files. The calls whose numbers, counted from 0, are in `failing` fail.
    pub fn of(alloc: Global, failing: &[u64]) -> Result<MemoryVault, AllocError>
        ensures { IfOk result (λ vault. vault ≡ record {
          past = [];
          calls = 0;
          failing = failing.now;
          faults = 0;
        }) }
    {
        Ok(MemoryVault {
            alloc,
            entries: Vec::new(alloc),
            initial: 0,
            failing: Vec::from_slice(alloc, failing)?,
            faults: 0,
        })
    }

    /// Returns how many calls were made.
    pub fn calls(&self) -> u64
        ensures { result ≡ self.now.calls }
    {
        (self.entries.len() - self.initial) as u64
    }

    /// Returns a vault with contents that a crash after this many calls may leave. The choice selects among them: it is
    /// spent on the calls that were pending then, the newest first.
    pub fn image(&self, call: u64, choice: u64) -> Result<MemoryVault, AllocError>
        requires { call ≤ self.now.calls }
        ensures contents { IfOk result (λ image. IsCrashImage (moment self.now call) (content image.past)) }
        ensures calls { IfOk result (λ image. image.calls ≡ 0) }
        ensures failing { IfOk result (λ image. image.failing ≡ []) }
        ensures faults { IfOk result (λ image. image.faults ≡ 0) }
        ensures durable { IfOk result (λ image. (file : ℕ) → IsDurable image.past file) }
    {
        let end = self.initial + call as usize;
        let entries = crash_contents(self.alloc, &self.entries[..end], choice)?;
        Ok(MemoryVault {
            alloc: self.alloc,
            initial: entries.len(),
            entries,
            failing: Vec::new(self.alloc),
            faults: 0,
        })
    }

    /// Returns whether the next call is to fail.
    fn fails_next(&self) -> bool
        ensures { IsTrue result ↔ Contains self.now.failing self.now.calls }
    {
        self.failing.contains(&self.calls())
    }

    /// Returns what a read gives after a write. One that fails leaves an outcome that its number chooses: nothing was
    /// written, or a front of the range has its own bytes, or 0, 1 or 255 throughout.
    fn content_after_write(
        &self,
        file: u64,
        at: u64,
        piece: &[u8],
        fails: bool,
    ) -> Result<Vec<u8>, AllocError>
        requires { at ≤ length (content self.now.past file) }
        ensures torn { IfOk result (λ new. IsTorn at (length piece.now) (content self.now.past file) new.items) }
        ensures whole { fails ≡ false → IfOk result (λ new.
            new.items ≡ overwritten (content self.now.past file) at piece.now) }
    {
        let old = content(&self.entries, file);
        if fails {
            let outcome = self.calls() % write_outcomes(piece.len());
            return torn(self.alloc, old, at, piece, outcome);
        }
        overwrite(self.alloc, old, at as usize, piece)
    }

    /// Returns what a read gives after a cut. One that fails is done if its number is odd.
    fn content_after_cut(&self, file: u64, length: u64, fails: bool) -> Result<Vec<u8>, AllocError>
        ensures cut { IfOk result (λ new. IsCut length (content self.now.past file) new.items) }
        ensures whole { fails ≡ false → IfOk result (λ new. new.items ≡ take length (content self.now.past file)) }
    {
        let old = content(&self.entries, file);
        let done = !fails || self.calls() % 2 == 1;
        after_cut(self.alloc, old, length, done)
    }

    /// Adds the call to the record. Fails if the call is to fail, or if there is no memory for it.
    fn make(&mut self, call: Call, fails: bool) -> Result<(), Failed>
        requires { IsTrue fails ↔ Contains self.old.failing self.old.calls }
        ensures told { Adds result self.old.past (event_of call) self.new.past }
        ensures done { OnOk result (fails ≡ false) }
        ensures cause { HasCause self.old.faults self.new.faults result }
        ensures fails { Contains self.old.failing self.old.calls → IsErr result }
        ensures counts { CountsCall self.old self.new result }
    {
        if note(&mut self.entries, call).is_err() {
            return Err(count_fault(&mut self.faults));
        }
        if fails {
            return Err(count_fault(&mut self.faults));
        }
        Ok(())
    }
}

/// Counts a fault.
fn count_fault(faults: &mut u64) -> Failed
    ensures rose { Rose faults.old faults.new }
    ensures stays { faults.old ≤ faults.new }
{
    *faults = faults.saturating_add(1);
    Failed
}

/// Copies the bytes from `at` on to the front of the buffer, as many as there are and fit, and returns how many.
fn copy_from(bytes: &[u8], at: u64, buf: &mut [u8]) -> usize
    ensures bound { result ≤ length buf.new }
    ensures copied { take result buf.new ≡ take (length buf.old) (drop at bytes.now) }
{
    if at >= bytes.len() as u64 {
        return 0;
    }
    let rest = &bytes[at as usize..];
    let count = rest.len().min(buf.len());
    buf[..count].copy_from_slice(&rest[..count]);
    count
}

impl Vault for MemoryVault {
    ghost is_told = { ⊤ };

    ghost past = { λ v. v.past };

    ghost faults = { λ v. v.faults };

    fn length(&mut self, file: u64) -> Result<u64, Failed>
        ensures length { ⊤ → IfOk result (λ n. n ≡ length (content self.old.past file)) }
        ensures told { ⊤ → DidRead self.old.past self.new.past result }
        ensures cause { HasCause self.old.faults self.new.faults result }

        ensures fails { Contains self.old.failing self.old.calls → IsErr result }
        ensures counts { CountsCall self.old self.new result }
    {
        let fails = self.fails_next();
        let length = content(&self.entries, file).len() as u64;
        self.make(Call::Unchanged, fails)?;
        Ok(length)
    }

    fn read(&mut self, file: u64, at: u64, buf: &mut [u8]) -> Result<usize, Failed>
        ensures bound { IfOk result (λ n. n ≤ length buf.new) }
        ensures bytes { ⊤ → IfOk result (λ n.
            take n buf.new ≡ take (length buf.old) (drop at (content self.old.past file))) }
        ensures told { ⊤ → DidRead self.old.past self.new.past result }
        ensures cause { HasCause self.old.faults self.new.faults result }

        ensures fails { Contains self.old.failing self.old.calls → IsErr result }
        ensures counts { CountsCall self.old self.new result }
    {
        let fails = self.fails_next();
        let count = copy_from(content(&self.entries, file), at, buf);
        self.make(Call::Unchanged, fails)?;
        Ok(count)
    }

    fn write_at(&mut self, file: u64, at: u64, piece: &[u8]) -> Result<(), Failed>
        requires { ⊤ → at ≤ length (content self.old.past file) }
        ensures told { ⊤ → DidWrite self.old.past self.new.past file at piece.now result }
        ensures cause { HasCause self.old.faults self.new.faults result }

        ensures fails { Contains self.old.failing self.old.calls → IsErr result }
        ensures counts { CountsCall self.old self.new result }
    {
        let fails = self.fails_next();
        let Ok(after) = self.content_after_write(file, at, piece, fails) else {
            return Err(count_fault(&mut self.faults));
        };
        let Ok(piece) = Vec::from_slice(self.alloc, piece) else {
            return Err(count_fault(&mut self.faults));
        };
        let call = Call::Write {
            file,
            at,
            piece,
            after,
        };
        self.make(call, fails)?;
        Ok(())
    }

    fn cut(&mut self, file: u64, length: u64) -> Result<(), Failed>
        ensures told { ⊤ → DidCut self.old.past self.new.past file length result }
        ensures cause { HasCause self.old.faults self.new.faults result }

        ensures fails { Contains self.old.failing self.old.calls → IsErr result }
        ensures counts { CountsCall self.old self.new result }
    {
        let fails = self.fails_next();
        let Ok(after) = self.content_after_cut(file, length, fails) else {
            return Err(count_fault(&mut self.faults));
        };
        let call = Call::Shorten {
            file,
            length,
            after,
        };
        self.make(call, fails)?;
        Ok(())
    }

    fn sync(&mut self, file: u64) -> Result<(), Failed>
        ensures told { ⊤ → DidSync self.old.past self.new.past file result }
        ensures cause { HasCause self.old.faults self.new.faults result }

        ensures fails { Contains self.old.failing self.old.calls → IsErr result }
        ensures counts { CountsCall self.old self.new result }
    {
        let fails = self.fails_next();
        if fails {
            return self.make(Call::Unchanged, fails);
        }
        self.make(Call::Sync { file }, fails)
    }

    fn remove(&mut self, file: u64) -> Result<(), Failed>
        ensures told { ⊤ → DidCut self.old.past self.new.past file 0 result }
        ensures cause { HasCause self.old.faults self.new.faults result }

        ensures fails { Contains self.old.failing self.old.calls → IsErr result }
        ensures counts { CountsCall self.old self.new result }
    {
        self.cut(file, 0)
    }

    fn faults(&self) -> u64 {
        self.faults
    }
}
