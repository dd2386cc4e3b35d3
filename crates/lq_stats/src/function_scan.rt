//! Functions, asked of one record after another.
ghost use Rattle.std.specs.Prelude.{◌≡◌, IfOk, map};
ghost use Rattle.lq_stats.specs.Function.{is_asked, scanned_statistic, statistic_of};

use crate::function::Function;
use lq_filter::RecordScan;
use std::alloc::{AllocError, Global};
use vl_row::FieldList;

/// A function of `stats` and a scan of the records of which it is asked, which makes the matcher of a pattern once.
#[derive(Drop)]
pub(crate) struct FunctionScan<'f> {
    pub(crate) function: &'f Function,
    only: Option<RecordScan<'f>>,
}

impl<'f> FunctionScan<'f> {
    fn new(alloc: Global, function: &'f Function) -> FunctionScan<'f>
        ensures { scanned_statistic result ≡ statistic_of function.entry.now }
    {
        let only = match &function.only {
            Some(only) => Some(only.scan(alloc)),
            None => None,
        };
        FunctionScan { function, only }
    }

    /// Returns whether the function is asked of the record.
    pub(crate) fn is_asked(&mut self, fields: &FieldList) -> Result<bool, AllocError>
        ensures value { IfOk result (λ asked. asked ≡ is_asked (scanned_statistic self.old) fields.now) }
        ensures same { scanned_statistic self.new ≡ scanned_statistic self.old }
    {
        match &mut self.only {
            Some(only) => only.holds(fields),
            None => Ok(true),
        }
    }
}

/// Begins a scan for each function.
pub(crate) fn scans(
    alloc: Global,
    functions: &[Function],
) -> Result<Vec<FunctionScan<'_>>, AllocError>
    ensures { IfOk result (λ scans. map scanned_statistic scans.items ≡ map statistic_of functions.entry.now) }
{
    let mut scans = Vec::with_capacity(alloc, functions.len())?;
    for function in functions {
        scans.push(FunctionScan::new(alloc, function))?;
    }
    Ok(scans)
}
