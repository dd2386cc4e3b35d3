//! The trait of a vault.
ghost use Rattle.std.specs.Prelude.{◌≡◌, ℕ, ◌≤◌, IfOk, drop, length, take};
ghost use Rattle.vl_io.specs.Faults.{HasCause};
ghost use Rattle.vl_vault.specs.Calls.{DidCut, DidRead, DidSync, DidWrite};
ghost use Rattle.vl_vault.specs.Disk.{Past, content};

use vl_io::Failed;

/// Files named by numbers. Every file exists, and is empty until it is written.
pub trait Vault {
    // Whether the vault tells what its calls do. One that does follows the disk model.
    ghost is_told: { Type 0 };

    // What the calls so far did, the newest first.
    ghost past: { Self → Past };

    // How often the vault failed.
    ghost faults: { Self → ℕ };

    /// Returns how many bytes the file has.
    fn length(&mut self, file: u64) -> Result<u64, Failed>
        ensures length { is_told → IfOk result (λ n. n ≡ length (content (past self.old) file)) }
        ensures told { is_told → DidRead (past self.old) (past self.new) result }
        ensures cause { HasCause (faults self.old) (faults self.new) result };

    /// Fills the front of `buf` with the file's bytes from `at` on, as many as there are and fit, and returns how many.
    fn read(&mut self, file: u64, at: u64, buf: &mut [u8]) -> Result<usize, Failed>
        ensures bound { IfOk result (λ n. n ≤ length buf.new) }
        ensures bytes { is_told → IfOk result (λ n.
            take n buf.new ≡ take (length buf.old) (drop at (content (past self.old) file))) }
        ensures told { is_told → DidRead (past self.old) (past self.new) result }
        ensures cause { HasCause (faults self.old) (faults self.new) result };

    /// Writes the piece over the file's bytes from `at` on, and past its end. A write that fails may have changed any
    /// bytes of that range.
    fn write_at(&mut self, file: u64, at: u64, piece: &[u8]) -> Result<(), Failed>
        requires { is_told → at ≤ length (content (past self.old) file) }
        ensures told { is_told → DidWrite (past self.old) (past self.new) file at piece.now result }
        ensures cause { HasCause (faults self.old) (faults self.new) result };

    /// Shortens the file to this length. A shorter file stays as it is.
    fn cut(&mut self, file: u64, length: u64) -> Result<(), Failed>
        ensures told { is_told → DidCut (past self.old) (past self.new) file length result }
        ensures cause { HasCause (faults self.old) (faults self.new) result };

    /// Makes the file's content durable: after `Ok` a crash leaves what a read gives.
    fn sync(&mut self, file: u64) -> Result<(), Failed>
        ensures told { is_told → DidSync (past self.old) (past self.new) file result }
        ensures cause { HasCause (faults self.old) (faults self.new) result };

    /// Leaves the file empty.
    fn remove(&mut self, file: u64) -> Result<(), Failed>
        ensures told { is_told → DidCut (past self.old) (past self.new) file 0 result }
        ensures cause { HasCause (faults self.old) (faults self.new) result };

    /// Returns how often the vault failed. The count ends at 2^64 - 1.
    fn faults(&self) -> u64
        ensures { result ≡ faults self.now };
}
