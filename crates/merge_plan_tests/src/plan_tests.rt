//! What plans say.
ghost use Rattle.part_model.specs.Part.{ArePartRows};

use crate::rows_tests::rows_of;
use merge_plan::{Plan, plan_merges};
use part_file::{Part, are_part_rows};
use std::alloc::{AllocError, Global};
use std::fmt::Write;
use std::sync::Arc;
use vl_row::{Held, Numbered};

pub fn answer(alloc: Global, line: &str) -> Result<String, AllocError> {
    let Some(rows) = rows_of(alloc, line)? else {
        return format!(in alloc; "no row");
    };
    if !are_part_rows(alloc, rows.as_slice())? {
        return format!(in alloc; "no part");
    }
    let plan = plan_alone(alloc, rows)?;
    plan_text(alloc, &plan)
}

/// Returns the plan for a batch of these rows and no stored part.
fn plan_alone(alloc: Global, rows: Vec<Numbered>) -> Result<Plan, AllocError>
    requires { ArePartRows rows.items }
{
    let part = Part::try_of(alloc, rows)?;
    part.rules();
    let mut batches = Vec::new(alloc);
    batches.push(Arc::new(alloc, part)?)?;
    plan_merges(alloc, &[], batches.as_slice())
}

fn plan_text(alloc: Global, plan: &Plan) -> Result<String, AllocError> {
    let mut text = format!(in alloc; "old")?;
    for file in &plan.old {
        let _ = write!(text, " {file}");
    }
    text.push_str(" new")?;
    for part in &plan.new {
        let _ = write!(text, " {}:{}:{}", part.0, part.1.rows(), part.1.weight());
    }
    Ok(text)
}
