//! Plans of statistics.
ghost use Rattle.std.specs.Prelude.{◌≡◌, ◌+◌, ◌≤◌, ◌^◌, ◌++◌, [], List, length, Ok, IfOk, IfErr, IsOk};
ghost use Rattle.std.specs.Prelude.{OnErr, OnOk, map};
ghost use Rattle.std.specs.List.{AllByRecursion};
ghost use Rattle.lq_ast.specs.Grouping.{grouped};
ghost use Rattle.lq_ast.specs.Patterns.{CanBeRead, patterns_of_grouping};
ghost use Rattle.lq_ast.specs.PipeView.{grouping};
ghost use Rattle.lq_ast.specs.Records.{Record};
ghost use Rattle.lq_ast.specs.Stage.{Grouping};
ghost use Rattle.lq_filter.specs.Refusal.{IsRefusal};
ghost use Rattle.lq_stats.specs.Finish.{IsFault};
ghost use Rattle.lq_stats.specs.Function.{statistic_of};
ghost use Rattle.lq_stats.specs.Groups.{AreGroups};
ghost use Rattle.lq_stats.specs.Key.{grouped_by};
ghost use Rattle.lq_stats.specs.Plan.{IsGathered, IsPlanOf, gathered_rows, opening};

use crate::fault::StatFault;
use crate::finish::records;
use crate::function::Function;
use crate::function_scan::scans;
use crate::functions::functions;
use crate::gathered::Gathered;
use crate::groups::Groups;
use crate::key::Key;
use crate::keys::{key_names, keys};
use crate::read::read_groups;
use crate::scratch::Scratch;
use lq_ast::StatsPipe;
use lq_filter::PrepareFault;
use lq_tuple::HashSeed;
use std::alloc::{AllocError, Global};
use vl_row::{FieldList, Recs};

/// What a `stats` pipe asks: its keys, and its functions with the regular expressions of their conditions read. What is
/// gathered of pieces of many records shares one plan.
#[derive(Drop)]
pub struct Plan {
    pub(crate) keys: Vec<Key>,
    pub(crate) functions: Vec<Function>,
    pub(crate) seed: HashSeed,
}

impl Plan {
    /// Returns the plan of a pipe, with this seed of the tables of tuples. The regular expressions of the functions'
    /// conditions are numbered on from `nth`: each is read, and `nth` rises by how many there are. `RegexRefused` comes
    /// only where the one with that number is the first that cannot be read. After a fault `nth` is as it was.
    pub fn seeded(
        alloc: Global,
        seed: HashSeed,
        p: &StatsPipe,
        nth: &mut u32,
    ) -> Result<Plan, PrepareFault>
        ensures same { IfOk result (λ plan. IsPlanOf plan (grouping p.now)) }
        ensures counted { IsOk result → nth.new ≡ nth.old + length (patterns_of_grouping (grouping p.now)) }
        ensures kept { OnErr result (nth.new ≡ nth.old) }
        ensures readable { IfOk result (λ _. AllByRecursion CanBeRead (patterns_of_grouping (grouping p.now))) }
        ensures refused { IfErr result (IsRefusal nth.old (patterns_of_grouping (grouping p.now))) }
    {
        let mut next = *nth;
        let functions = functions(alloc, p.funcs.as_slice(), &mut next)?;
        let keys = keys(alloc, p.keys.as_slice())?;
        *nth = next;
        Ok(Plan {
            keys,
            functions,
            seed,
        })
    }

    /// Returns what is gathered of no records. No function is prepared for it.
    pub fn begin(&self, alloc: Global) -> Result<Gathered, AllocError>
        ensures none { IfOk result (λ gathered. gathered_rows gathered ≡ 0) }
        ensures same { IfOk result (λ gathered. (g : Grouping) → IsPlanOf self.now g → IsGathered gathered g []) }
    {
        let keys = self.keys.as_slice();
        let functions = self.functions.as_slice();
        let mut scratch = Scratch::new(alloc, self.seed)?;
        let groups = groups_before(alloc, &mut scratch, keys, functions)?;
        Ok(Gathered {
            groups,
            scratch,
            rows: 0,
        })
    }

    /// Takes more records, for which the matcher of each regular expression is made once. After an allocation fails,
    /// what is gathered may only be dropped.
    pub fn add_all(
        &self,
        alloc: Global,
        gathered: &mut Gathered,
        records: &[FieldList],
    ) -> Result<(), AllocError>
        requires few { gathered_rows gathered.old + length records.now ≤ 2 ^ 32 }
        ensures counted { OnOk result (gathered_rows gathered.new ≡ gathered_rows gathered.old + length records.now) }
        ensures taken { OnOk result ((g : Grouping) (before : List Record) → IsPlanOf self.now g
            → IsGathered gathered.old g before → IsGathered gathered.new g (before ++ records.now)) }
    {
        let keys = self.keys.as_slice();
        let mut scans = scans(alloc, self.functions.as_slice())?;
        let scans = scans.as_mut_slice();
        gathered
            .groups
            .add_all(&mut gathered.scratch, keys, scans, records)?;
        gathered.rows += records.len() as u64;
        Ok(())
    }

    /// Takes what is gathered of other records for the same plan. After an allocation fails, what is gathered may only
    /// be dropped.
    pub fn merge(
        &self,
        alloc: Global,
        gathered: &mut Gathered,
        other: Gathered,
    ) -> Result<(), AllocError>
        requires few { gathered_rows gathered.old + gathered_rows other ≤ 2 ^ 32 }
        ensures counted { OnOk result (gathered_rows gathered.new ≡ gathered_rows gathered.old + gathered_rows other) }
        ensures taken { OnOk result ((g : Grouping) (before others : List Record) → IsPlanOf self.now g
            → IsGathered gathered.old g before → IsGathered other g others
            → IsGathered gathered.new g (before ++ others)) }
    {
        let Gathered { groups, rows, .. } = other;
        gathered.groups.merge(alloc, groups)?;
        gathered.rows += rows;
        Ok(())
    }

    /// Returns a record for each group in tuple order, without keys always one. `Overflow` names the first function of
    /// the first group whose total is not a 64-bit integer.
    pub fn finish(&self, alloc: Global, gathered: Gathered) -> Result<Recs, StatFault>
        ensures made { IfOk result (λ made. (g : Grouping) (records : List Record) → IsPlanOf self.now g
            → IsGathered gathered g records → grouped g records ≡ Ok made) }
        ensures fault { IfErr result (λ fault. (g : Grouping) (records : List Record) → IsPlanOf self.now g
            → IsGathered gathered g records → IsFault (grouped g records) fault) }
    {
        let keys = self.keys.as_slice();
        let texts = gathered.groups.places.texts(alloc)?;
        let states = gathered.groups.states.as_slice();
        let groups = read_groups(alloc, texts.as_slice(), states, keys.len())?;
        let names = key_names(alloc, keys)?;
        let functions = self.functions.as_slice();
        records(alloc, names.as_slice(), functions, groups.as_slice())
    }
}

/// Returns the groups of no records: without keys there is one.
fn groups_before(
    alloc: Global,
    scratch: &mut Scratch,
    keys: &[Key],
    functions: &[Function],
) -> Result<Groups, AllocError>
    ensures { IfOk result (λ groups. AreGroups (map grouped_by keys.now) (map statistic_of functions.now) groups
        (opening (map grouped_by keys.now)) []) }
{
    let mut groups = Groups::new(alloc, scratch.seed);
    if !keys.is_empty() {
        return Ok(groups);
    }
    let scans = scans(alloc, functions)?;
    groups.place(scratch, keys, scans.as_slice(), &FieldList::new(alloc))?;
    Ok(groups)
}
