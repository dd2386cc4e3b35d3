ghost use Rattle.std.specs.Prelude.{◌≡◌, IfOk, IfErr};
ghost use Rattle.std.specs.List.{AllByRecursion};
ghost use Rattle.lq_ast.specs.Holds.{holds, selects};
ghost use Rattle.lq_ast.specs.Patterns.{CanBeRead, all_patterns};
ghost use Rattle.lq_ast.specs.Question.{question};
ghost use Rattle.lq_ast.specs.View.{condition, groups_of};
ghost use Rattle.lq_filter.specs.Labels.{groups_of as prepared_groups};
ghost use Rattle.lq_filter.specs.Refusal.{IsRefusal};
ghost use Rattle.lq_filter.specs.Tree.{condition_of, condition_of_tree, moment_of, scanned};

use crate::asking::Asking;
use crate::fault::PrepareFault;
use crate::labels::Selector;
use crate::pipes::read_pipes;
use crate::room::Room;
use crate::subject::Subject;
use crate::tree::Tree;
use lent_row::LentRow;
use lq_ast::{Query, Select};
use std::alloc::{AllocError, Global};
use vl_row::Stream;

/// A query whose filter is prepared.
#[derive(Drop)]
pub struct Prepared {
    filter: Tree,
}

/// Prepares a query: each regular expression is read, those of its pipes too, and all that does not depend on a row is
/// done. A query is prepared only where each of its regular expressions can be read, and `RegexRefused` comes only
/// where the one with that number is the first that cannot be; numbers count from 0 in the order of the text.
pub fn prepare(alloc: Global, q: &Query) -> Result<Prepared, PrepareFault>
    ensures same { IfOk result (λ prepared. condition_of prepared ≡ condition q.now.filter) }
    ensures readable { IfOk result (λ _. AllByRecursion CanBeRead (all_patterns (question q.now))) }
    ensures refused { IfErr result (IsRefusal 0 (all_patterns (question q.now))) }
{
    let mut room = Room::new(alloc);
    let mut nth = 0;
    let filter = Tree::new(&mut room, &q.filter, &mut nth)?;
    read_pipes(&mut room, q.pipes.as_slice(), &mut nth)?;
    Ok(Prepared { filter })
}

impl Prepared {
    /// Returns whether the filter holds for the row, at the moment `now`, in nanoseconds since 1970. Memory is taken
    /// only where a pattern, a text in any case of its letters, or a computed text of the row is asked.
    pub fn holds<R: LentRow>(&self, alloc: Global, now: i64, row: &R) -> Result<bool, AllocError>
        ensures { IfOk result (λ found. found ≡ holds now (condition_of self.now) (R.event row.now)) }
    {
        let mut scan = self.scan(alloc, now);
        scan.holds(row)
    }

    /// Returns whether the selector selects the stream.
    pub fn selects(&self, alloc: Global, group: &Select, s: &Stream) -> Result<bool, AllocError>
        ensures { IfOk result (λ found. found ≡ selects (groups_of group.now) s.now) }
    {
        match self.filter.selector_of(group) {
            Some(selector) => selects_by(selector, alloc, s),
            None => selects_anew(alloc, group, s),
        }
    }

    /// Lends the filter.
    pub fn tree(&self) -> &Tree
        ensures { condition_of_tree result.now ≡ condition_of self.now }
    {
        &self.filter
    }

    /// Begins a scan of rows, at the moment `now`, which makes the matcher of a pattern once.
    pub fn scan(&self, alloc: Global, now: i64) -> Scan<'_>
        ensures filter { scanned result ≡ condition_of self.now }
        ensures moment { moment_of result ≡ now }
    {
        Scan {
            now,
            filter: &self.filter,
            asking: Asking::new(alloc),
        }
    }
}

// By a selector that is not part of the query.
fn selects_anew(alloc: Global, group: &Select, s: &Stream) -> Result<bool, AllocError>
    ensures { IfOk result (λ found. found ≡ selects (groups_of group.now) s.now) }
{
    let selector = selector_of(alloc, group)?;
    selects_by(&selector, alloc, s)
}

fn selector_of(alloc: Global, group: &Select) -> Result<Selector, AllocError>
    ensures { IfOk result (λ selector. prepared_groups selector ≡ groups_of group.now) }
{
    let mut room = Room::new(alloc);
    let mut nth = 0;
    match Selector::new(&mut room, group, &mut nth) {
        Ok(selector) => Ok(selector),
        Err(_) => Err(AllocError),
    }
}

fn selects_by<'p>(selector: &'p Selector, alloc: Global, s: &Stream) -> Result<bool, AllocError>
    ensures { IfOk result (λ found. found ≡ selects (prepared_groups selector.now) s.now) }
{
    let mut asking: Asking<'p> = Asking::new(alloc);
    selector.selects(&mut asking, s)
}

/// A scan of many rows, which makes the matcher of a pattern once.
#[derive(Drop)]
pub struct Scan<'p> {
    now: i64,
    filter: &'p Tree,
    asking: Asking<'p>,
}

impl<'p> Scan<'p> {
    /// Returns whether the filter holds for the row.
    pub fn holds<R: LentRow>(&mut self, row: &R) -> Result<bool, AllocError>
        ensures value { IfOk result (λ found.
            found ≡ holds (moment_of self.old) (scanned self.old) (R.event row.now)) }
        ensures filter { scanned self.new ≡ scanned self.old }
        ensures moment { moment_of self.new ≡ moment_of self.old }
    {
        let subject = Subject::Row { now: self.now, row };
        self.filter.holds(&mut self.asking, &subject)
    }
}
