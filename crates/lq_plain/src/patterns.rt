//! Checks the regular expressions of filters.
ghost use Rattle.std.specs.Prelude.{◌≡◌, ◌++◌, IfOk, IfErr, OnOk, [], ◌∷◌, flat_map, map};
ghost use Rattle.std.specs.List.{AllByRecursion};
ghost use Rattle.lq_ast.specs.Condition.{conditions};
ghost use Rattle.lq_ast.specs.Patterns.{CanBeRead, patterns_among, patterns_of, patterns_of_statistic, patterns_of_test};
ghost use Rattle.lq_ast.specs.Patterns.{whole};
ghost use Rattle.lq_ast.specs.PipeView.{statistic};
ghost use Rattle.lq_ast.specs.View.{condition, test_of, tests_of};
ghost use Rattle.lq_plain.specs.Refusal.{IsRefusal};

use crate::fault::PlainFault;
use crate::pattern::{check, whole_pattern};
use lq_ast::{Filter, Func, Group, How, LabelTest};
use std::alloc::{AllocError, Global};
use vl_row::Text;

/// Regular expressions, each as written in the query and as matched.
type Patterns = Vec<(Text, Text)>;

/// Checks each regular expression of a filter.
pub(crate) fn check_filter(alloc: Global, filter: &Filter) -> Result<(), PlainFault>
    ensures readable { IfOk result (λ _. AllByRecursion CanBeRead (patterns_of (condition filter.now))) }
    ensures unreadable { IfErr result (IsRefusal (patterns_of (condition filter.now))) }
{
    let mut patterns = Vec::new(alloc);
    push_filter(alloc, filter, &mut patterns)?;
    check_all(alloc, patterns.as_slice())
}

/// Checks each regular expression in the filters of functions.
pub(crate) fn check_functions(alloc: Global, funcs: &[Func]) -> Result<(), PlainFault>
    ensures readable { IfOk result
        (λ _. AllByRecursion CanBeRead (flat_map patterns_of_statistic (map statistic funcs.now))) }
    ensures unreadable { IfErr result (IsRefusal (flat_map patterns_of_statistic (map statistic funcs.now))) }
{
    let mut patterns = Vec::new(alloc);
    push_functions(alloc, funcs, &mut patterns)?;
    check_all(alloc, patterns.as_slice())
}

/// Checks regular expressions, each as written in the query and as matched.
fn check_all(alloc: Global, patterns: &[(Text, Text)]) -> Result<(), PlainFault>
    ensures readable { IfOk result (λ _. AllByRecursion CanBeRead patterns.now) }
    ensures unreadable { IfErr result (IsRefusal patterns.now) }
{
    match patterns {
        [] => Ok(()),
        [(written, searched), others @ ..] => {
            check(alloc, written.as_str())?;
            check(alloc, searched.as_str())?;
            check_all(alloc, others)
        }
    }
}

/// Appends the regular expressions in the filters of functions.
fn push_functions(alloc: Global, funcs: &[Func], out: &mut Patterns) -> Result<(), AllocError>
    ensures { OnOk result (out.new.items ≡ out.old.items ++ flat_map patterns_of_statistic (map statistic funcs.now)) }
{
    match funcs {
        [] => Ok(()),
        [func, others @ ..] => {
            push_function(alloc, func, out)?;
            push_functions(alloc, others, out)
        }
    }
}

fn push_function(alloc: Global, func: &Func, out: &mut Patterns) -> Result<(), AllocError>
    ensures { OnOk result (out.new.items ≡ out.old.items ++ patterns_of_statistic (statistic func.now)) }
{
    match &func.only {
        None => Ok(()),
        Some(filter) => push_filter(alloc, filter, out),
    }
}

/// Appends the regular expressions of a filter.
#[cycle(listing)]
fn push_filter(alloc: Global, filter: &Filter, out: &mut Patterns) -> Result<(), AllocError>
    ensures { OnOk result (out.new.items ≡ out.old.items ++ patterns_of (condition filter.now)) }
{
    match filter {
        Filter::Regex { pattern, .. } => push(alloc, pattern.as_str(), pattern.as_str(), out),
        Filter::Select(select) => push_groups(alloc, select.groups.as_slice(), out),
        Filter::Not(filter) => push_filter(alloc, filter, out),
        Filter::All2(filters) => push_filters(alloc, filters.as_slice(), out),
        Filter::Any2(filters) => push_filters(alloc, filters.as_slice(), out),
        _ => Ok(()),
    }
}

#[cycle(listing)]
fn push_filters(alloc: Global, filters: &[Filter], out: &mut Patterns) -> Result<(), AllocError>
    ensures { OnOk result (out.new.items
        ≡ out.old.items ++ patterns_among (conditions (map condition filters.now))) }
{
    for filter in filters {
        push_filter(alloc, filter, out)?;
    }
    Ok(())
}

fn push_groups(alloc: Global, groups: &[Group], out: &mut Patterns) -> Result<(), AllocError>
    ensures { OnOk result (out.new.items
        ≡ out.old.items ++ flat_map (flat_map patterns_of_test) (map tests_of groups.now)) }
{
    match groups {
        [] => Ok(()),
        [group, others @ ..] => {
            push_tests(alloc, group.labels.as_slice(), out)?;
            push_groups(alloc, others, out)
        }
    }
}

fn push_tests(alloc: Global, tests: &[LabelTest], out: &mut Patterns) -> Result<(), AllocError>
    ensures { OnOk result (out.new.items ≡ out.old.items ++ flat_map patterns_of_test (map test_of tests.now)) }
{
    match tests {
        [] => Ok(()),
        [test, others @ ..] => {
            push_test(alloc, test, out)?;
            push_tests(alloc, others, out)
        }
    }
}

fn push_test(alloc: Global, test: &LabelTest, out: &mut Patterns) -> Result<(), AllocError>
    ensures { OnOk result (out.new.items ≡ out.old.items ++ patterns_of_test (test_of test.now)) }
{
    match test.how {
        How::Is | How::IsNot => Ok(()),
        How::Matches | How::MatchesNot => push_whole(alloc, test.text.as_str(), out),
    }
}

/// Appends a regular expression that has to match a whole value.
fn push_whole(alloc: Global, pattern: &str, out: &mut Patterns) -> Result<(), AllocError>
    ensures { OnOk result (out.new.items ≡ out.old.items ++ (pattern.now, whole pattern.now) ∷ []) }
{
    let whole = whole_pattern(alloc, pattern)?;
    push(alloc, pattern, whole.as_str(), out)
}

fn push(alloc: Global, written: &str, searched: &str, out: &mut Patterns) -> Result<(), AllocError>
    ensures { OnOk result (out.new.items ≡ out.old.items ++ (written.now, searched.now) ∷ []) }
{
    let written = Text::try_of(alloc, written)?;
    let searched = Text::try_of(alloc, searched)?;
    out.push((written, searched))?;
    Ok(())
}
