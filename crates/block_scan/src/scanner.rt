//! Scans of blocks at one moment.

ghost use Rattle.std.specs.Prelude.{◌≡◌, IfOk, map};
ghost use Rattle.lq_filter.specs.Tree.{condition_of};
ghost use Rattle.block_scan.specs.Scans.{condition_of_scanner, moment_of_scanner, row_holds};

use crate::keeping::keep;
use crate::mask::Mask;
use crate::rows_at::RowsAt;
use column_block::Open;
use lq_filter::{Asking, Prepared, Tree};
use std::alloc::{AllocError, Global};

/// A scan of many blocks at one moment, which makes the matcher of each pattern once.
#[derive(Drop)]
pub struct Scanner<'p> {
    now: i64,
    filter: &'p Tree,
    asking: Asking<'p>,
}

impl<'p> Scanner<'p> {
    /// Begins a scan of blocks, at the moment `now`, in nanoseconds since 1970.
    pub fn new(alloc: Global, p: &'p Prepared, now: i64) -> Scanner<'p>
        ensures filter { condition_of_scanner result ≡ condition_of p.now }
        ensures moment { moment_of_scanner result ≡ now }
    {
        Scanner {
            now,
            filter: p.tree(),
            asking: Asking::new(alloc),
        }
    }

    /// Returns for each row of the block whether the filter holds.
    pub fn scan(&mut self, b: &Open<'_>) -> Result<Mask, AllocError>
        ensures mask { IfOk result (λ mask.
            mask ≡ map (row_holds (moment_of_scanner self.old) (condition_of_scanner self.old)) b.now) }
        ensures filter { condition_of_scanner self.new ≡ condition_of_scanner self.old }
        ensures moment { moment_of_scanner self.new ≡ moment_of_scanner self.old }
    {
        let mut marks = vec![in self.asking.alloc(); true; b.len()]?;
        let at = RowsAt {
            moment: self.now,
            rows: b,
        };
        keep(self.filter, &mut self.asking, &at, marks.as_mut_slice())?;
        Ok(Mask::new(marks))
    }
}

/// Returns for each row of the block whether the filter holds at the moment `now`, in nanoseconds since 1970.
pub fn scan(alloc: Global, b: &Open<'_>, p: &Prepared, now: i64) -> Result<Mask, AllocError>
    ensures { IfOk result (λ mask. mask ≡ map (row_holds now (condition_of p.now)) b.now) }
{
    let mut scanner = Scanner::new(alloc, p, now);
    scanner.scan(b)
}
