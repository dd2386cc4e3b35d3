//! Parts of one day that become one part.
ghost use Rattle.std.specs.Prelude.{◌≡◌, ◌+◌, ◌≤◌, ◌++◌, IfOk, IsTrue, OnOk};
ghost use Rattle.std.specs.Arc.{arc_value};
ghost use Rattle.std.specs.List.Sorted.{IsPermutation};
ghost use Rattle.block_format.specs.Rows.{are_numbered_apart};
ghost use Rattle.day_model.specs.Days.{LieInDay};
ghost use Rattle.log_model.specs.Row.{batch_limit};
ghost use Rattle.part_model.specs.Part.{rows_weight};

use part_file::Part;
use part_merge::merge;
use std::alloc::{AllocError, Global};
use std::marker::Model;
use std::sync::Arc;
use vl_row::Held;

/// How much a part may weigh.
pub(crate) const PART_LIMIT: u64 = 67_108_864;

/// Parts of one day that fit into one part.
///
/// A contract sees it as the day and all rows, one part after another.
#[derive(Drop)]
pub(crate) struct Job {
    day: u32,
    weight: u64,
    parts: Vec<Arc<Part>>,
}

impl Model for Job {
    ghost use Rattle.std.specs.Prelude.{map};
    ghost use Rattle.std.specs.Arc.{arc_value};
    ghost use Rattle.day_model.specs.Days.{DayRows};
    ghost use Rattle.merge_plan.specs.Grouping.{HoldsJob, rows_in_parts};

    ghost Value = { DayRows };

    ghost view = { λ j. (j.day, rows_in_parts (map arc_value j.parts.items)) };

    ghost invariant = { λ j. HoldsJob j.day j.weight (map arc_value j.parts.items) };
}

impl Job {
    /// Returns a group of one part.
    pub(crate) fn of(alloc: Global, day: u32, part: &Arc<Part>) -> Result<Job, AllocError>
        requires { LieInDay day (arc_value part.now) }
        ensures { IfOk result (λ job. job ≡ (day, arc_value part.now)) }
    {
        let weight = light_weight(part);
        let mut parts = Vec::new(alloc);
        parts.push(Arc::try_clone(part)?)?;
        Ok(Job { day, weight, parts })
    }

    /// Appends a part, which fits.
    pub(crate) fn add(&mut self, part: &Arc<Part>) -> Result<(), AllocError>
        requires days { LieInDay self.old.0 (arc_value part.now) }
        requires light { rows_weight self.old.1 + rows_weight (arc_value part.now) ≤ batch_limit }
        ensures { OnOk result (self.new ≡ (self.old.0, self.old.1 ++ arc_value part.now)) }
    {
        let weight = self.weight + light_weight(part);
        self.parts.push(Arc::try_clone(part)?)?;
        self.weight = weight;
        Ok(())
    }

    pub(crate) fn day(&self) -> u32
        ensures { result ≡ self.now.0 }
    {
        self.day
    }

    pub(crate) fn weight(&self) -> u64
        ensures value { result ≡ rows_weight self.now.1 }
        ensures light { result ≤ batch_limit }
    {
        self.weight
    }

    /// Returns all rows as one part. A group of one part is that part.
    pub(crate) fn merged(&self, alloc: Global) -> Result<Arc<Part>, AllocError>
        requires { IsTrue (are_numbered_apart self.now.1) }
        ensures same { IfOk result (λ part. IsPermutation (arc_value part) self.now.1) }
        ensures days { IfOk result (λ part. LieInDay self.now.0 (arc_value part)) }
    {
        if self.parts.len() == 1 {
            return Ok(Arc::try_clone(&self.parts[0])?);
        }
        let part = merge(alloc, self.parts.as_slice())?;
        Ok(Arc::new(alloc, part)?)
    }
}

/// Returns the weight of a part, which is within the limit.
pub(crate) fn light_weight(part: &Part) -> u64
    ensures value { result ≡ rows_weight part.now }
    ensures light { result ≤ batch_limit }
{
    part.rules();
    part.weight()
}
