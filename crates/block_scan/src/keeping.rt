//! A filter asked of the rows of a block that are marked: the marks stay of those for which it holds.

ghost use Rattle.std.specs.Prelude.{◌≡◌, OnOk, length, map, not};
ghost use Rattle.lq_ast.specs.Condition.{conditions};
ghost use Rattle.lq_ast.specs.Holds.{are_all_met, is_some_met};
ghost use Rattle.lq_ast.specs.Subject.{row_subject};
ghost use Rattle.lq_filter.specs.Tree.{condition_of_tree};
ghost use Rattle.block_scan.specs.Marks.{kept};
ghost use Rattle.block_scan.specs.Scans.{row_holds};

use crate::leaves::{keep_between, keep_field, keep_recent, keep_selected};
use crate::marks::{has_some, remove};
use crate::rows_at::RowsAt;
use lq_filter::{Asking, Tree};
use std::alloc::AllocError;

/// Keeps the marks of the rows for which the filter holds. Only marked rows are asked.
#[cycle(keeping)]
pub(crate) fn keep<'p>(
    tree: &'p Tree,
    asking: &mut Asking<'p>,
    at: &RowsAt<'_, '_>,
    marks: &mut [bool],
) -> Result<(), AllocError>
    requires { length marks.old ≡ length at.now.rows.now }
    ensures { OnOk result (marks.new
        ≡ kept (row_holds at.now.moment (condition_of_tree tree.now)) at.now.rows.now marks.old) }
{
    if !has_some(marks) {
        return Ok(());
    }
    match tree {
        Tree::Always => Ok(()),
        Tree::Field(field) => keep_field(field, asking, at.rows, marks),
        Tree::Last { span } => Ok(keep_recent(*span, at, marks)),
        Tree::Times { from, to } => Ok(keep_between(*from, *to, at, marks)),
        Tree::Selected(selector) => keep_selected(selector, asking, at.rows, marks),
        Tree::Not(tree) => keep_others(tree, asking, at, marks),
        Tree::All(trees) => keep_all(trees.as_slice(), asking, at, marks),
        Tree::Any(trees) => keep_some(trees.as_slice(), asking, at, marks),
    }
}

/// Keeps the marks of the rows for which the filter does not hold.
#[cycle(keeping)]
fn keep_others<'p>(
    tree: &'p Tree,
    asking: &mut Asking<'p>,
    at: &RowsAt<'_, '_>,
    marks: &mut [bool],
) -> Result<(), AllocError>
    requires { length marks.old ≡ length at.now.rows.now }
    ensures { OnOk result (marks.new
        ≡ kept (λ numbered. not (row_holds at.now.moment (condition_of_tree tree.now) numbered))
        at.now.rows.now marks.old) }
{
    let mut held = marks.to_vec(asking.alloc())?;
    keep(tree, asking, at, held.as_mut_slice())?;
    remove(marks, held.as_slice());
    Ok(())
}

/// Keeps the marks of the rows for which all of the filters hold.
#[cycle(keeping)]
fn keep_all<'p>(
    trees: &'p [Tree],
    asking: &mut Asking<'p>,
    at: &RowsAt<'_, '_>,
    marks: &mut [bool],
) -> Result<(), AllocError>
    requires { length marks.old ≡ length at.now.rows.now }
    ensures { OnOk result (marks.new ≡ kept
        (λ row. are_all_met (conditions (map condition_of_tree trees.now)) (row_subject at.now.moment row.row))
        at.now.rows.now marks.old) }
{
    for tree in trees {
        keep(tree, asking, at, marks)?;
    }
    Ok(())
}

/// Keeps the marks of the rows for which some of the filters holds. A row is not asked again once one holds for it.
#[cycle(keeping)]
fn keep_some<'p>(
    trees: &'p [Tree],
    asking: &mut Asking<'p>,
    at: &RowsAt<'_, '_>,
    marks: &mut [bool],
) -> Result<(), AllocError>
    requires { length marks.old ≡ length at.now.rows.now }
    ensures { OnOk result (marks.new ≡ kept
        (λ row. is_some_met (conditions (map condition_of_tree trees.now)) (row_subject at.now.moment row.row))
        at.now.rows.now marks.old) }
{
    let mut left = marks.to_vec(asking.alloc())?;
    for tree in trees {
        keep_others(tree, asking, at, left.as_mut_slice())?;
    }
    remove(marks, left.as_slice());
    Ok(())
}
