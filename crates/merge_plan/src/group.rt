//! Which pieces become one part.
ghost use Rattle.std.specs.Prelude.{◌≡◌, ◌≢◌, ◌++◌, IfNone, IfOk, IfSome, IsTrue, List, OnOk, [], ◌∷◌, map};
ghost use Rattle.std.specs.Arc.{arc_value};
ghost use Rattle.std.specs.List.{AllByRecursion, AllZip};
ghost use Rattle.block_format.specs.Rows.{are_numbered_apart};
ghost use Rattle.day_model.specs.Days.{AreOfTheirDays, DayRows, LieInDay};
ghost use Rattle.part_store.specs.State.{AreInOrder, LiesInDay, day_part_of, listed_of};
ghost use Rattle.merge_plan.specs.Grouping.{AreRising, Begins, EndsElsewhere, IsGrouped, IsMerged, IsOfItsDay};
ghost use Rattle.merge_plan.specs.Grouping.{with_piece};
ghost use Rattle.merge_plan.specs.Planned.{rows_of_parts};

use crate::job::{Job, PART_LIMIT, light_weight};
use crate::youngest::youngest;
use part_file::Part;
use part_store::Stored;
use std::alloc::{AllocError, Global};
use std::sync::Arc;

/// The listed files that are replaced, and the groups that become parts.
#[derive(Drop)]
pub(crate) struct Groups {
    pub(crate) files: Vec<u64>,
    pub(crate) jobs: Vec<Job>,
}

/// Groups pieces, which are in order of their days. The first of a day is joined with the day's last stored part if
/// both fit into one part, and each other one with the group before it.
pub(crate) fn grouped(
    alloc: Global,
    stored: &[Stored],
    pieces: &[(u32, Arc<Part>)],
) -> Result<Groups, AllocError>
    requires order { AreInOrder (map listed_of stored.now) }
    requires days { AllByRecursion LiesInDay (map listed_of stored.now) }
    requires rising { AreRising (map day_part_of pieces.now) }
    requires pieces { AreOfTheirDays (map day_part_of pieces.now) }
    ensures { IfOk result (λ groups. IsGrouped (map listed_of stored.now) (map day_part_of pieces.now) []
        groups.files.items groups.jobs.items) }
{
    let mut groups = Groups {
        files: Vec::new(alloc),
        jobs: Vec::new(alloc),
    };
    for piece in pieces {
        add_piece(alloc, &mut groups, stored, piece)?;
    }
    Ok(groups)
}

/// Adds one piece more, which is of no earlier day than those before.
fn add_piece(
    alloc: Global,
    groups: &mut Groups,
    stored: &[Stored],
    piece: &(u32, Arc<Part>),
) -> Result<(), AllocError>
    requires order { AreInOrder (map listed_of stored.now) }
    requires days { AllByRecursion LiesInDay (map listed_of stored.now) }
    requires piece { IsOfItsDay (day_part_of piece.now) }
    ensures { (done rest : List DayRows)
        → IsGrouped (map listed_of stored.now) done (day_part_of piece.now ∷ rest)
        groups.old.files.items groups.old.jobs.items
        → OnOk result (IsGrouped (map listed_of stored.now) (done ++ day_part_of piece.now ∷ []) rest
        groups.new.files.items groups.new.jobs.items) }
{
    match open_job(&mut groups.jobs, piece.0) {
        Some(job) => go_on(alloc, &mut groups.jobs, job, &piece.1),
        None => begin(alloc, groups, stored, piece),
    }
}

/// Takes the last group, if it is of this day.
fn open_job(jobs: &mut Vec<Job>, day: u32) -> Option<Job>
    ensures some { IfSome result (λ job. (jobs.old.items ≡ jobs.new.items ++ job ∷ []) × (job.0 ≡ day)) }
    ensures none { IfNone result ((jobs.new.items ≡ jobs.old.items) × EndsElsewhere day jobs.old.items) }
{
    let is_open = match jobs.last() {
        Some(job) => job.day() == day,
        None => false,
    };
    if is_open { jobs.pop() } else { None }
}

/// Appends the group with a piece of its day, or both side by side.
fn go_on(alloc: Global, jobs: &mut Vec<Job>, job: Job, part: &Arc<Part>) -> Result<(), AllocError>
    requires { LieInDay job.0 (arc_value part.now) }
    ensures { OnOk result (jobs.new.items ≡ jobs.old.items ++ with_piece job (arc_value part.now)) }
{
    let mut job = job;
    if job.weight() + light_weight(part) <= PART_LIMIT {
        job.add(part)?;
        jobs.push(job)?;
        return Ok(());
    }
    let next = Job::of(alloc, job.day(), part)?;
    jobs.push(job)?;
    jobs.push(next)?;
    Ok(())
}

/// Begins the groups of a day, with its last stored part if that and the piece fit into one part.
fn begin(
    alloc: Global,
    groups: &mut Groups,
    stored: &[Stored],
    piece: &(u32, Arc<Part>),
) -> Result<(), AllocError>
    requires order { AreInOrder (map listed_of stored.now) }
    requires days { AllByRecursion LiesInDay (map listed_of stored.now) }
    requires piece { IsOfItsDay (day_part_of piece.now) }
    ensures { OnOk result (Begins (map listed_of stored.now) (day_part_of piece.now)
        groups.old.files.items groups.new.files.items groups.old.jobs.items groups.new.jobs.items) }
{
    let day = piece.0;
    let part = &piece.1;
    if let Some(last) = youngest(stored, day) {
        if light_weight(&last.part) + light_weight(part) <= PART_LIMIT {
            let mut job = Job::of(alloc, day, &last.part)?;
            job.add(part)?;
            groups.files.push(last.file)?;
            groups.jobs.push(job)?;
            return Ok(());
        }
    }
    groups.jobs.push(Job::of(alloc, day, part)?)?;
    Ok(())
}

/// Merges each group into one part, beside its day.
pub(crate) fn merged(alloc: Global, jobs: &[Job]) -> Result<Vec<(u32, Arc<Part>)>, AllocError>
    requires { IsTrue (are_numbered_apart (rows_of_parts jobs.now)) }
    ensures { IfOk result (λ new. AllZip IsMerged jobs.now (map day_part_of new.items)) }
{
    let mut new = Vec::new(alloc);
    for job in jobs {
        new.push((job.day(), job.merged(alloc)?))?;
    }
    Ok(new)
}
