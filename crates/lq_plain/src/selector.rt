//! Evaluates stream selectors.
ghost use Rattle.std.specs.Prelude.{◌≡◌, IfOk, map};
ghost use Rattle.std.specs.List.{list_all, list_any};
ghost use Rattle.lq_ast.specs.Holds.{passes, selects};
ghost use Rattle.lq_ast.specs.View.{groups_of, test_of, tests_of};

use crate::pattern::matches_whole;
use lq_ast::{Group, How, LabelTest, Select};
use std::alloc::{AllocError, Global};
use vl_row::Stream;

/// Returns whether all tests of some group are true, or the selector has no groups.
pub(crate) fn selects(alloc: Global, select: &Select, stream: &Stream) -> Result<bool, AllocError>
    ensures { IfOk result (λ found. found ≡ selects (groups_of select.now) stream.now) }
{
    let groups = select.groups.as_slice();
    Ok(groups.is_empty() || some_selects(alloc, groups, stream)?)
}

fn some_selects(alloc: Global, groups: &[Group], stream: &Stream) -> Result<bool, AllocError>
    ensures { IfOk result (λ found. found ≡ list_any (list_all (passes stream.now)) (map tests_of groups.now)) }
{
    match groups {
        [] => Ok(false),
        [group, others @ ..] => {
            Ok(
                all_pass(alloc, group.labels.as_slice(), stream)?
                    || some_selects(alloc, others, stream)?,
            )
        }
    }
}

fn all_pass(alloc: Global, tests: &[LabelTest], stream: &Stream) -> Result<bool, AllocError>
    ensures { IfOk result (λ found. found ≡ list_all (passes stream.now) (map test_of tests.now)) }
{
    match tests {
        [] => Ok(true),
        [test, others @ ..] => {
            Ok(passes(alloc, test, stream)? && all_pass(alloc, others, stream)?)
        }
    }
}

fn passes(alloc: Global, test: &LabelTest, stream: &Stream) -> Result<bool, AllocError>
    ensures { IfOk result (λ found. found ≡ passes stream.now (test_of test.now)) }
{
    let value = stream.value(test.name.as_str());
    let text = test.text.as_str();
    match test.how {
        How::Is => Ok(value == text),
        How::IsNot => Ok(value != text),
        How::Matches => matches_whole(alloc, text, value),
        How::MatchesNot => Ok(!matches_whole(alloc, text, value)?),
    }
}
