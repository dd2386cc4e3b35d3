// Filters made of their parts.
ghost use Rattle.std.specs.Prelude.{◌≡◌, IfOk};
ghost use Rattle.std.specs.Option.{option_copied};
ghost use Rattle.lq_ast.specs.View.{condition};
ghost use Rattle.lq_grammar.specs.Values.{field_in as field_of, everything as everything_of, phrased as phrased_of};
ghost use Rattle.lq_grammar.specs.Values.{prefixed as prefixed_of};
ghost use Rattle.lq_grammar.specs.Values.{number_between, of_length as of_length_of, above as above_of};
ghost use Rattle.lq_grammar.specs.Values.{at_least as at_least_of, below as below_of, at_most as at_most_of};
ghost use Rattle.lq_grammar.specs.Values.{exactly, exactly_prefixed, matching as matching_of, one_of_texts};
ghost use Rattle.lq_grammar.specs.Values.{in_any_case, in_sequence, text_between};

use lq_ast::Filter;
use std::alloc::{AllocError, Global};
use vl_row::Text;

/// Returns the name of the field that a filter is of: that of the message where none is named.
fn field_in(alloc: Global, field: Option<&str>) -> Result<Text, AllocError>
    ensures { IfOk result (λ text. text ≡ field_of (option_copied field.entry)) }
{
    Text::try_of(alloc, field.unwrap_or("_msg"))
}

/// Returns the filter of every row, or of those with some value of the field.
pub(crate) fn everything(alloc: Global, field: Option<&str>) -> Result<Filter, AllocError>
    ensures { IfOk result (λ filter. condition filter ≡ everything_of (option_copied field.entry)) }
{
    match field {
        None => Ok(Filter::All),
        Some(field) => Ok(Filter::Any {
            field: Text::try_of(alloc, field)?,
        }),
    }
}

/// Returns the filter of a phrase. An empty phrase asks for an empty value.
pub(crate) fn phrased(
    alloc: Global,
    phrase: &str,
    field: Option<&str>,
) -> Result<Filter, AllocError>
    ensures { IfOk result (λ filter. condition filter ≡ phrased_of phrase.now (option_copied field.entry)) }
{
    let field = field_in(alloc, field)?;
    if phrase.is_empty() {
        return Ok(Filter::Empty { field });
    }
    let text = Text::try_of(alloc, phrase)?;
    Ok(Filter::Phrase { field, text })
}

pub(crate) fn prefixed(
    alloc: Global,
    prefix: &str,
    field: Option<&str>,
) -> Result<Filter, AllocError>
    ensures { IfOk result (λ filter. condition filter ≡ prefixed_of prefix.now (option_copied field.entry)) }
{
    let field = field_in(alloc, field)?;
    let text = Text::try_of(alloc, prefix)?;
    Ok(Filter::Prefix { field, text })
}

pub(crate) fn exact(alloc: Global, text: Text, field: Option<&str>) -> Result<Filter, AllocError>
    ensures { IfOk result (λ filter. condition filter ≡ exactly text (option_copied field.entry)) }
{
    let field = field_in(alloc, field)?;
    Ok(Filter::Exact { field, text })
}

pub(crate) fn exact_prefix(
    alloc: Global,
    text: Text,
    field: Option<&str>,
) -> Result<Filter, AllocError>
    ensures { IfOk result (λ filter. condition filter ≡ exactly_prefixed text (option_copied field.entry)) }
{
    let field = field_in(alloc, field)?;
    Ok(Filter::ExactPrefix { field, text })
}

pub(crate) fn matching(
    alloc: Global,
    pattern: &str,
    field: Option<&str>,
) -> Result<Filter, AllocError>
    ensures { IfOk result (λ filter. condition filter ≡ matching_of pattern.now (option_copied field.entry)) }
{
    let field = field_in(alloc, field)?;
    let pattern = Text::try_of(alloc, pattern)?;
    Ok(Filter::Regex { field, pattern })
}

pub(crate) fn one_of(
    alloc: Global,
    texts: Vec<Text>,
    field: Option<&str>,
) -> Result<Filter, AllocError>
    ensures { IfOk result (λ filter. condition filter ≡ one_of_texts texts.items (option_copied field.entry)) }
{
    let field = field_in(alloc, field)?;
    Ok(Filter::OneOf { field, texts })
}

pub(crate) fn folded(alloc: Global, text: Text, field: Option<&str>) -> Result<Filter, AllocError>
    ensures { IfOk result (λ filter. condition filter ≡ in_any_case text (option_copied field.entry)) }
{
    let field = field_in(alloc, field)?;
    Ok(Filter::Fold { field, text })
}

pub(crate) fn sequence(
    alloc: Global,
    texts: Vec<Text>,
    field: Option<&str>,
) -> Result<Filter, AllocError>
    ensures { IfOk result (λ filter. condition filter ≡ in_sequence texts.items (option_copied field.entry)) }
{
    let field = field_in(alloc, field)?;
    Ok(Filter::Seq { field, texts })
}

pub(crate) fn between(
    alloc: Global,
    low: Text,
    high: Text,
    field: Option<&str>,
) -> Result<Filter, AllocError>
    ensures { IfOk result (λ filter. condition filter ≡ text_between low high (option_copied field.entry)) }
{
    let field = field_in(alloc, field)?;
    Ok(Filter::Between { field, low, high })
}

pub(crate) fn of_length(
    alloc: Global,
    low: u64,
    high: u64,
    field: Option<&str>,
) -> Result<Filter, AllocError>
    ensures { IfOk result (λ filter. condition filter ≡ of_length_of low high (option_copied field.entry)) }
{
    let field = field_in(alloc, field)?;
    Ok(Filter::Length { field, low, high })
}

pub(crate) fn numbers(
    alloc: Global,
    low: i128,
    high: i128,
    field: Option<&str>,
) -> Result<Filter, AllocError>
    ensures { IfOk result (λ filter. condition filter ≡ number_between low high (option_copied field.entry)) }
{
    let field = field_in(alloc, field)?;
    Ok(Filter::Range { field, low, high })
}

pub(crate) fn above(alloc: Global, number: i64, field: Option<&str>) -> Result<Filter, AllocError>
    ensures { IfOk result (λ filter. condition filter ≡ above_of number (option_copied field.entry)) }
{
    numbers(alloc, number as i128 + 1, i128::MAX, field)
}

pub(crate) fn at_least(
    alloc: Global,
    number: i64,
    field: Option<&str>,
) -> Result<Filter, AllocError>
    ensures { IfOk result (λ filter. condition filter ≡ at_least_of number (option_copied field.entry)) }
{
    numbers(alloc, number as i128, i128::MAX, field)
}

pub(crate) fn below(alloc: Global, number: i64, field: Option<&str>) -> Result<Filter, AllocError>
    ensures { IfOk result (λ filter. condition filter ≡ below_of number (option_copied field.entry)) }
{
    numbers(alloc, i128::MIN, number as i128 - 1, field)
}

pub(crate) fn at_most(alloc: Global, number: i64, field: Option<&str>) -> Result<Filter, AllocError>
    ensures { IfOk result (λ filter. condition filter ≡ at_most_of number (option_copied field.entry)) }
{
    numbers(alloc, i128::MIN, number as i128, field)
}
