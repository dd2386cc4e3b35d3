//! Groups with their tuples, which are read from texts.
ghost use Rattle.std.specs.Prelude.{◌≡◌, IfOk, List, length, map, zip};
ghost use Rattle.lq_ast.specs.Tuples.{Tuple};
ghost use Rattle.lq_tuple.specs.Counted.{HaveLength, tuple_text};
ghost use Rattle.lq_stats.specs.Finish.{group_pair};

use crate::groups::States;
use lq_tuple::{Group, read_tuple};
use std::alloc::{AllocError, Global};

/// Returns these states, each with the tuple of this many values that has the text at its place.
pub(crate) fn read_groups<'s>(
    alloc: Global,
    texts: &[&str],
    states: &'s [States],
    width: usize,
) -> Result<Vec<Group<&'s States>>, AllocError>
    ensures { IfOk result (λ groups. (tuples : List Tuple) → map (λ text. text.now) texts.now ≡ map tuple_text tuples
        → HaveLength width tuples → length states.now ≡ length tuples
        → map group_pair groups.items ≡ zip tuples states.entry.now) }
{
    let mut groups = Vec::with_capacity(alloc, states.len())?;
    for (i, kept) in states.iter().enumerate() {
        if i < texts.len() {
            let tuple = read_tuple(alloc, texts[i], width)?;
            groups.push(Group { tuple, kept })?;
        }
    }
    Ok(groups)
}
