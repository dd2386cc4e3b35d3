//! Partial statistics.
ghost use Rattle.std.specs.Prelude.{◌≡◌, ◌+◌, ◌≤◌, ◌<◌, ◌^◌, ◌++◌, [], ◌∷◌, List, length, Ok, IfOk, IfErr, IsOk};
ghost use Rattle.std.specs.Prelude.{OnOk, OnErr};
ghost use Rattle.std.specs.List.{AllByRecursion};
ghost use Rattle.lq_ast.specs.Grouping.{grouped};
ghost use Rattle.lq_ast.specs.Patterns.{CanBeRead, patterns_of_grouping};
ghost use Rattle.lq_ast.specs.PipeView.{grouping};
ghost use Rattle.lq_ast.specs.Records.{Record};
ghost use Rattle.lq_ast.specs.Stage.{Grouping};
ghost use Rattle.lq_filter.specs.Refusal.{IsRefusal};
ghost use Rattle.lq_stats.specs.Finish.{IsFault};
ghost use Rattle.lq_stats.specs.Partial.{StandsFor, rows};

use crate::fault::StatFault;
use crate::gathered::Gathered;
use crate::plan::Plan;
use lq_ast::StatsPipe;
use lq_filter::PrepareFault;
use lq_tuple::HashSeed;
use std::alloc::{AllocError, Global};
use std::slice;
use vl_row::{FieldList, Recs};

/// A plan of statistics, and what is gathered for it of the records so far. The seed of its tables is the fixed one; a
/// `Plan` takes another.
#[derive(Drop)]
pub struct Partial {
    pub(crate) plan: Plan,
    pub(crate) gathered: Gathered,
}

impl Partial {
    /// Returns the statistics of no records. The regular expressions of the functions' conditions are read:
    /// `RegexRefused` comes only where the one with that number is the first that cannot be; numbers count from 0
    /// within the pipe, in the order of the text.
    pub fn of(alloc: Global, p: &StatsPipe) -> Result<Partial, PrepareFault>
        ensures same { IfOk result (λ partial. StandsFor partial (grouping p.now) []) }
        ensures readable { IfOk result (λ _. AllByRecursion CanBeRead (patterns_of_grouping (grouping p.now))) }
        ensures refused { IfErr result (IsRefusal 0 (patterns_of_grouping (grouping p.now))) }
    {
        let mut nth = 0;
        Partial::of_numbered(alloc, p, &mut nth)
    }

    /// Returns the statistics of no records, where the regular expressions of the functions' conditions are numbered on
    /// from `nth`: each is read, and `nth` rises by how many there are. `RegexRefused` comes only where the one with
    /// that number is the first that cannot be read. After a fault `nth` is as it was.
    pub fn of_numbered(alloc: Global, p: &StatsPipe, nth: &mut u32) -> Result<Partial, PrepareFault>
        ensures same { IfOk result (λ partial. StandsFor partial (grouping p.now) []) }
        ensures counted { IsOk result → nth.new ≡ nth.old + length (patterns_of_grouping (grouping p.now)) }
        ensures kept { OnErr result (nth.new ≡ nth.old) }
        ensures readable { IfOk result (λ _. AllByRecursion CanBeRead (patterns_of_grouping (grouping p.now))) }
        ensures refused { IfErr result (IsRefusal nth.old (patterns_of_grouping (grouping p.now))) }
    {
        let mut next = *nth;
        let plan = Plan::seeded(alloc, HashSeed::fixed(), p, &mut next)?;
        let gathered = plan.begin(alloc)?;
        *nth = next;
        Ok(Partial { plan, gathered })
    }

    /// Takes one more record, for which the matcher of each regular expression is made anew. After an allocation fails
    /// the statistics may only be dropped.
    pub fn add(&mut self, alloc: Global, r: &FieldList) -> Result<(), AllocError>
        requires few { rows self.old < 2 ^ 32 }
        ensures { OnOk result ((g : Grouping) (records : List Record) → StandsFor self.old g records
            → StandsFor self.new g (records ++ r.now ∷ [])) }
    {
        self.add_all(alloc, slice::from_ref(r))
    }

    /// Takes more records. After an allocation fails the statistics may only be dropped.
    pub fn add_all(&mut self, alloc: Global, records: &[FieldList]) -> Result<(), AllocError>
        requires few { rows self.old + length records.now ≤ 2 ^ 32 }
        ensures { OnOk result ((g : Grouping) (before : List Record) → StandsFor self.old g before
            → StandsFor self.new g (before ++ records.now)) }
    {
        self.plan.add_all(alloc, &mut self.gathered, records)
    }

    /// Takes the statistics of other records, which are of the same pipe: these are then of the records of both. After
    /// an allocation fails the statistics may only be dropped.
    pub fn merge(&mut self, alloc: Global, other: Partial) -> Result<(), AllocError>
        requires few { rows self.old + rows other ≤ 2 ^ 32 }
        ensures { OnOk result ((g : Grouping) (records others : List Record) → StandsFor self.old g records
            → StandsFor other g others → StandsFor self.new g (records ++ others)) }
    {
        let Partial { gathered, .. } = other;
        self.plan.merge(alloc, &mut self.gathered, gathered)
    }

    /// Returns a record for each group in tuple order, without keys always one. `Overflow` names the first function of
    /// the first group whose total is not a 64-bit integer.
    pub fn finish(self, alloc: Global) -> Result<Recs, StatFault>
        ensures made { IfOk result (λ made. (g : Grouping) (records : List Record) → StandsFor self g records
            → grouped g records ≡ Ok made) }
        ensures fault { IfErr result (λ fault. (g : Grouping) (records : List Record) → StandsFor self g records
            → IsFault (grouped g records) fault) }
    {
        let Partial { plan, gathered } = self;
        plan.finish(alloc, gathered)
    }
}
