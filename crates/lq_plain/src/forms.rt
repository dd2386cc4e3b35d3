//! Evaluates each kind of filter on the value of its field.
ghost use Rattle.std.specs.Prelude.{◌≡◌, IfOk};
ghost use Rattle.lq_ast.specs.Condition as is;
ghost use Rattle.lq_ast.specs.Holds.{is_met};
ghost use Rattle.lq_plain.specs.Subject.{subject_of};

use crate::pattern::is_found;
use crate::subject::Subject;
use crate::value;
use std::alloc::{AllocError, Global};
use vl_row::Text;

pub(crate) fn any(alloc: Global, subject: &Subject<'_>, field: &Text) -> Result<bool, AllocError>
    ensures { IfOk result (λ met. met ≡ is_met (is.some_value field.now) (subject_of subject.now)) }
{
    let value = subject.value(alloc, field)?;
    Ok(!value.as_str().is_empty())
}

pub(crate) fn empty(alloc: Global, subject: &Subject<'_>, field: &Text) -> Result<bool, AllocError>
    ensures { IfOk result (λ met. met ≡ is_met (is.no_value field.now) (subject_of subject.now)) }
{
    let value = subject.value(alloc, field)?;
    Ok(value.as_str().is_empty())
}

pub(crate) fn phrase(
    alloc: Global,
    subject: &Subject<'_>,
    field: &Text,
    text: &Text,
) -> Result<bool, AllocError>
    ensures { IfOk result (λ met. met ≡ is_met (is.phrase field.now text.now) (subject_of subject.now)) }
{
    let value = subject.value(alloc, field)?;
    Ok(value::has_phrase(value.as_str(), text.as_str()))
}

pub(crate) fn prefix(
    alloc: Global,
    subject: &Subject<'_>,
    field: &Text,
    text: &Text,
) -> Result<bool, AllocError>
    ensures { IfOk result (λ met. met ≡ is_met (is.prefix field.now text.now) (subject_of subject.now)) }
{
    let value = subject.value(alloc, field)?;
    Ok(value::has_prefix(value.as_str(), text.as_str()))
}

pub(crate) fn exact(
    alloc: Global,
    subject: &Subject<'_>,
    field: &Text,
    text: &Text,
) -> Result<bool, AllocError>
    ensures { IfOk result (λ met. met ≡ is_met (is.exact field.now text.now) (subject_of subject.now)) }
{
    let value = subject.value(alloc, field)?;
    Ok(value.as_str() == text.as_str())
}

pub(crate) fn exact_prefix(
    alloc: Global,
    subject: &Subject<'_>,
    field: &Text,
    text: &Text,
) -> Result<bool, AllocError>
    ensures { IfOk result (λ met. met ≡ is_met (is.exact_prefix field.now text.now) (subject_of subject.now)) }
{
    let value = subject.value(alloc, field)?;
    Ok(
        value
            .as_str()
            .as_bytes()
            .starts_with(text.as_str().as_bytes()),
    )
}

pub(crate) fn one_of(
    alloc: Global,
    subject: &Subject<'_>,
    field: &Text,
    texts: &[Text],
) -> Result<bool, AllocError>
    ensures { IfOk result (λ met. met ≡ is_met (is.one_of field.now texts.now) (subject_of subject.now)) }
{
    let value = subject.value(alloc, field)?;
    Ok(value::is_one_of(value.as_str(), texts))
}

pub(crate) fn regex(
    alloc: Global,
    subject: &Subject<'_>,
    field: &Text,
    pattern: &Text,
) -> Result<bool, AllocError>
    ensures { IfOk result (λ met. met ≡ is_met (is.pattern field.now pattern.now) (subject_of subject.now)) }
{
    let value = subject.value(alloc, field)?;
    is_found(alloc, pattern.as_str(), value.as_str())
}

pub(crate) fn fold(
    alloc: Global,
    subject: &Subject<'_>,
    field: &Text,
    text: &Text,
) -> Result<bool, AllocError>
    ensures { IfOk result (λ met. met ≡ is_met (is.folded field.now text.now) (subject_of subject.now)) }
{
    let value = subject.value(alloc, field)?;
    value::has_folded(alloc, value.as_str(), text.as_str())
}

pub(crate) fn sequence(
    alloc: Global,
    subject: &Subject<'_>,
    field: &Text,
    texts: &[Text],
) -> Result<bool, AllocError>
    ensures { IfOk result (λ met. met ≡ is_met (is.sequence field.now texts.now) (subject_of subject.now)) }
{
    let value = subject.value(alloc, field)?;
    Ok(value::are_in_order(value.as_str(), 0, texts))
}

pub(crate) fn length(
    alloc: Global,
    subject: &Subject<'_>,
    field: &Text,
    low: u64,
    high: u64,
) -> Result<bool, AllocError>
    ensures { IfOk result (λ met. met ≡ is_met (is.length_in field.now low high) (subject_of subject.now)) }
{
    let value = subject.value(alloc, field)?;
    Ok(value::has_length(value.as_str(), low, high))
}

pub(crate) fn between(
    alloc: Global,
    subject: &Subject<'_>,
    field: &Text,
    low: &Text,
    high: &Text,
) -> Result<bool, AllocError>
    ensures { IfOk result (λ met. met ≡ is_met (is.text_in field.now low.now high.now) (subject_of subject.now)) }
{
    let value = subject.value(alloc, field)?;
    Ok(value::is_between(value.as_str(), low.as_str(), high.as_str()))
}

pub(crate) fn range(
    alloc: Global,
    subject: &Subject<'_>,
    field: &Text,
    low: i128,
    high: i128,
) -> Result<bool, AllocError>
    ensures { IfOk result (λ met. met ≡ is_met (is.number_in field.now low high) (subject_of subject.now)) }
{
    let value = subject.value(alloc, field)?;
    Ok(value::is_number_within(value.as_str(), low, high))
}
