//! Selectors of streams, and their answers.
ghost use Rattle.std.specs.Prelude.{◌≡◌, IfOk, OnOk, IsTrue, true};
ghost use Rattle.lq_ast.specs.Holds.{selects};
ghost use Rattle.lq_ast.specs.View.{groups_of, test_of, tests_of};
ghost use Rattle.lq_prune.specs.Bound.{is_answered};

use lq_ast::{Group, LabelTest, Select};
use lq_filter::Prepared;
use std::alloc::{AllocError, Global};
use vl_row::{Items, Stream};

/// A selector, and its answer for the stream that it was asked of last.
#[derive(Drop)]
pub(crate) struct Selection {
    pub(crate) select: Select,
    pub(crate) is_selected: bool,
}

impl Selection {
    /// A selector that was not asked yet.
    pub(crate) fn new(alloc: Global, select: &Select) -> Result<Selection, AllocError>
        ensures { IfOk result (λ selection. groups_of selection.select ≡ groups_of select.now) }
    {
        let select = copy_of(alloc, select)?;
        Ok(Selection {
            select,
            is_selected: false,
        })
    }

    /// Asks the selector of a stream.
    pub(crate) fn bind(
        &mut self,
        alloc: Global,
        prepared: &Prepared,
        stream: &Stream,
    ) -> Result<(), AllocError>
        ensures answered { OnOk result (is_answered stream.now self.new ≡ true) }
        ensures same { groups_of self.new.select ≡ groups_of self.old.select }
    {
        self.is_selected = prepared.selects(alloc, &self.select, stream)?;
        Ok(())
    }
}

fn copy_of(alloc: Global, select: &Select) -> Result<Select, AllocError>
    ensures { IfOk result (λ copy. groups_of copy ≡ groups_of select.now) }
{
    let mut groups = Vec::new(alloc);
    for group in select.groups.as_slice() {
        groups.push(group_copy(alloc, group)?)?;
    }
    Ok(Select {
        groups: Items::of(groups),
    })
}

fn group_copy(alloc: Global, group: &Group) -> Result<Group, AllocError>
    ensures { IfOk result (λ copy. tests_of copy ≡ tests_of group.now) }
{
    let mut labels = Vec::new(alloc);
    for test in group.labels.as_slice() {
        labels.push(test_copy(alloc, test)?)?;
    }
    Ok(Group {
        labels: Items::of(labels),
    })
}

fn test_copy(alloc: Global, test: &LabelTest) -> Result<LabelTest, AllocError>
    ensures { IfOk result (λ copy. test_of copy ≡ test_of test.now) }
{
    Ok(LabelTest {
        name: test.name.try_copy(alloc)?,
        how: test.how,
        text: test.text.try_copy(alloc)?,
    })
}
