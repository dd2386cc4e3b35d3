//! Filters of records, as those in pipes (LogsQL, "filter pipe", "stats with additional filters").
ghost use Rattle.std.specs.Prelude.{◌≡◌, ◌+◌, length, IfOk, IfErr, IsOk, OnErr};
ghost use Rattle.std.specs.List.{AllByRecursion};
ghost use Rattle.lq_ast.specs.Holds.{record_holds};
ghost use Rattle.lq_ast.specs.Patterns.{CanBeRead, patterns_of};
ghost use Rattle.lq_ast.specs.View.{condition};
ghost use Rattle.lq_filter.specs.Inner.{inner_condition, record_condition};
ghost use Rattle.lq_filter.specs.Refusal.{IsRefusal};

use crate::asking::Asking;
use crate::fault::PrepareFault;
use crate::room::Room;
use crate::subject::Subject;
use crate::tree::Tree;
use lq_ast::Filter;
use std::alloc::{AllocError, Global};
use vl_row::{FieldList, Row};

/// A filter that is asked of records, prepared.
#[derive(Drop)]
pub struct Inner {
    filter: Tree,
}

/// Prepares a filter that is asked of records: each regular expression is read. It is prepared only where each of its
/// regular expressions can be read, and `RegexRefused` comes only where the one with that number is the first that
/// cannot be; numbers count from 0 within the filter, in the order of the text.
pub fn prepare_inner(alloc: Global, f: &Filter) -> Result<Inner, PrepareFault>
    ensures same { IfOk result (λ inner. inner_condition inner ≡ condition f.now) }
    ensures readable { IfOk result (λ _. AllByRecursion CanBeRead (patterns_of (condition f.now))) }
    ensures refused { IfErr result (IsRefusal 0 (patterns_of (condition f.now))) }
{
    let mut nth = 0;
    prepare_inner_numbered(alloc, f, &mut nth)
}

/// Prepares a filter that is asked of records, whose regular expressions are numbered on from `nth`: each is read, and
/// `nth` rises by how many there are. It is prepared only where each of them can be read, and `RegexRefused` comes only
/// where the one with that number is the first that cannot be. After a fault `nth` is as it was.
pub fn prepare_inner_numbered(
    alloc: Global,
    f: &Filter,
    nth: &mut u32,
) -> Result<Inner, PrepareFault>
    ensures same { IfOk result (λ inner. inner_condition inner ≡ condition f.now) }
    ensures counted { IsOk result → nth.new ≡ nth.old + length (patterns_of (condition f.now)) }
    ensures kept { OnErr result (nth.new ≡ nth.old) }
    ensures readable { IfOk result (λ _. AllByRecursion CanBeRead (patterns_of (condition f.now))) }
    ensures refused { IfErr result (IsRefusal nth.old (patterns_of (condition f.now))) }
{
    let mut room = Room::new(alloc);
    let mut next = *nth;
    let filter = Tree::new(&mut room, f, &mut next)?;
    *nth = next;
    Ok(Inner { filter })
}

impl Inner {
    /// Returns whether the filter holds for the record, which is of no moment and of no stream. Memory is taken only
    /// where a pattern or a text in any case of its letters is asked.
    pub fn holds(&self, alloc: Global, r: &FieldList) -> Result<bool, AllocError>
        ensures { IfOk result (λ found. found ≡ record_holds (inner_condition self.now) r.now) }
    {
        let mut scan = self.scan(alloc);
        scan.holds(r)
    }

    /// Begins a scan of records, which makes the matcher of a pattern once.
    pub fn scan(&self, alloc: Global) -> RecordScan<'_>
        ensures { record_condition result ≡ inner_condition self.now }
    {
        RecordScan {
            filter: &self.filter,
            asking: Asking::new(alloc),
        }
    }
}

/// A scan of many records, which makes the matcher of a pattern once.
#[derive(Drop)]
pub struct RecordScan<'p> {
    filter: &'p Tree,
    asking: Asking<'p>,
}

impl<'p> RecordScan<'p> {
    /// Returns whether the filter holds for the record.
    pub fn holds(&mut self, r: &FieldList) -> Result<bool, AllocError>
        ensures value { IfOk result (λ found. found ≡ record_holds (record_condition self.old) r.now) }
        ensures filter { record_condition self.new ≡ record_condition self.old }
    {
        let subject: Subject<'_, Row> = Subject::Record(r);
        self.filter.holds(&mut self.asking, &subject)
    }
}
