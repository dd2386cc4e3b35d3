//! Evaluates filters.
ghost use Rattle.std.specs.Prelude.{◌≡◌, IfOk, IfErr, map};
ghost use Rattle.std.specs.List.{AllByRecursion};
ghost use Rattle.lq_ast.specs.Condition.{conditions};
ghost use Rattle.lq_ast.specs.Holds.{are_all_met, holds, is_met, is_some_met, record_holds, selects};
ghost use Rattle.lq_ast.specs.Patterns.{CanBeRead, patterns_of};
ghost use Rattle.lq_ast.specs.View.{condition, groups_of};
ghost use Rattle.lq_plain.specs.Refusal.{IsRefusal};
ghost use Rattle.lq_plain.specs.Subject.{subject_of};

use crate::fault::PlainFault;
use crate::patterns::check_filter;
use crate::subject::Subject;
use crate::{forms, selector};
use lq_ast::{Filter, Select};
use std::alloc::{AllocError, Global};
use vl_row::{FieldList, Row, Stream};

/// Returns whether the row matches the filter, at the time `now`, in nanoseconds since 1970. Checks all regular
/// expressions first, and returns `Unreadable` if one of them is invalid.
pub fn holds(alloc: Global, now: i64, filter: &Filter, row: &Row) -> Result<bool, PlainFault>
    ensures value { IfOk result (λ found. found ≡ holds now (condition filter.now) row.now) }
    ensures readable { IfOk result (λ _. AllByRecursion CanBeRead (patterns_of (condition filter.now))) }
    ensures unreadable { IfErr result (IsRefusal (patterns_of (condition filter.now))) }
{
    check_filter(alloc, filter)?;
    Ok(is_met(alloc, filter, &Subject::Row { now, row })?)
}

/// Returns whether the record matches the filter. A record has no time and no stream.
pub fn record_holds(alloc: Global, filter: &Filter, fields: &FieldList) -> Result<bool, PlainFault>
    ensures value { IfOk result (λ found. found ≡ record_holds (condition filter.now) fields.now) }
    ensures readable { IfOk result (λ _. AllByRecursion CanBeRead (patterns_of (condition filter.now))) }
    ensures unreadable { IfErr result (IsRefusal (patterns_of (condition filter.now))) }
{
    check_filter(alloc, filter)?;
    Ok(is_met(alloc, filter, &Subject::Record(fields))?)
}

#[cycle(holding)]
pub(crate) fn is_met(
    alloc: Global,
    filter: &Filter,
    subject: &Subject<'_>,
) -> Result<bool, AllocError>
    ensures { IfOk result (λ met. met ≡ is_met (condition filter.now) (subject_of subject.now)) }
{
    match filter {
        Filter::All => Ok(true),
        Filter::Any { field } => forms::any(alloc, subject, field),
        Filter::Empty { field } => forms::empty(alloc, subject, field),
        Filter::Phrase { field, text } => forms::phrase(alloc, subject, field, text),
        Filter::Prefix { field, text } => forms::prefix(alloc, subject, field, text),
        Filter::Exact { field, text } => forms::exact(alloc, subject, field, text),
        Filter::ExactPrefix { field, text } => forms::exact_prefix(alloc, subject, field, text),
        Filter::OneOf { field, texts } => forms::one_of(alloc, subject, field, texts.as_slice()),
        Filter::Regex { field, pattern } => forms::regex(alloc, subject, field, pattern),
        Filter::Fold { field, text } => forms::fold(alloc, subject, field, text),
        Filter::Seq { field, texts } => forms::sequence(alloc, subject, field, texts.as_slice()),
        Filter::Length { field, low, high } => forms::length(alloc, subject, field, *low, *high),
        Filter::Between { field, low, high } => forms::between(alloc, subject, field, low, high),
        Filter::Range { field, low, high } => forms::range(alloc, subject, field, *low, *high),
        Filter::Last { span } => Ok(subject.is_recent(*span)),
        Filter::Times { from, to } => Ok(subject.is_during(*from, *to)),
        Filter::Select(select) => selects(alloc, select, subject),
        Filter::Not(filter) => Ok(!is_met(alloc, filter, subject)?),
        Filter::All2(filters) => are_all_met(alloc, filters.as_slice(), subject),
        Filter::Any2(filters) => is_some_met(alloc, filters.as_slice(), subject),
    }
}

#[cycle(holding)]
fn are_all_met(alloc: Global, filters: &[Filter], subject: &Subject<'_>) -> Result<bool, AllocError>
    ensures { IfOk result
        (λ met. met ≡ are_all_met (conditions (map condition filters.now)) (subject_of subject.now)) }
{
    for filter in filters {
        if !is_met(alloc, filter, subject)? {
            return Ok(false);
        }
    }
    Ok(true)
}

#[cycle(holding)]
fn is_some_met(alloc: Global, filters: &[Filter], subject: &Subject<'_>) -> Result<bool, AllocError>
    ensures { IfOk result
        (λ met. met ≡ is_some_met (conditions (map condition filters.now)) (subject_of subject.now)) }
{
    for filter in filters {
        if is_met(alloc, filter, subject)? {
            return Ok(true);
        }
    }
    Ok(false)
}

/// Returns whether the stream is selected. A record belongs to the stream without labels.
fn selects(alloc: Global, select: &Select, subject: &Subject<'_>) -> Result<bool, AllocError>
    ensures { IfOk result (λ found. found ≡ selects (groups_of select.now) (subject_of subject.now).labels) }
{
    match subject {
        Subject::Row { row, .. } => selector::selects(alloc, select, row.stream()),
        Subject::Record(_) => selector::selects(alloc, select, &Stream::new(alloc)),
    }
}
