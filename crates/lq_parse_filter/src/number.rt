// Numbers in filters.
ghost use Rattle.std.specs.Prelude.{◌≡◌, ℕ, IfOk};
ghost use Rattle.std.specs.Option.{option_copied};
ghost use Rattle.grammar.specs.Reading.{mapped};
ghost use Rattle.lq_ast.specs.View.{condition};
ghost use Rattle.lq_grammar.specs.LogsQL.{num, end, ends, last_end, closing, size, high_size, greater, less};
ghost use Rattle.lq_grammar.specs.LogsQL.{len_range_end, range_end};
ghost use Rattle.lq_parse_filter.specs.Ends.{end_of};
ghost use Rattle.lq_grammar.specs.Values.{low_of as lowest_of, high_of as highest_of, from_option, bad_number, size_value};
ghost use Rattle.lq_grammar.specs.Clauses.{Gives, at};

use crate::args::arg;
use crate::leaf::bare_end;
use crate::make;
use lq_ast::Filter;
use lq_grammar::scan::{expect, past, past_glued, place};
use lq_grammar::{Item, Role, Stop};
use std::alloc::Global;
use vl_row::number;

/// An end of a range.
#[derive(Clone, Copy)]
pub(crate) enum Bound {
    Number(i64),
    Infinite,
    MinusInfinite,
}

/// Parses a number.
#[tactic(auto, unfolding(lq_grammar::specs::LogsQL::num))]
fn num<'t>(alloc: Global, tokens: &'t [Item]) -> Result<(i64, &'t [Item]), Stop>
    ensures { (depth : ℕ) → Gives (λ x. (x.0, x.1.now)) result (at depth num tokens.now) }
{
    let (text, rest) = arg(alloc, tokens)?;
    match number(text.as_str()) {
        Some(number) => Ok((number, rest)),
        None => Err(Stop::BadNumber { at: place(tokens) }),
    }
}

/// Parses a number of at least 0.
#[tactic(auto, unfolding(lq_grammar::specs::LogsQL::size))]
fn size<'t>(alloc: Global, tokens: &'t [Item]) -> Result<(u64, &'t [Item]), Stop>
    ensures { (depth : ℕ) → Gives (λ x. (x.0, x.1.now)) result (at depth size tokens.now) }
{
    let (text, rest) = arg(alloc, tokens)?;
    match size_of(text.as_str()) {
        Some(size) => Ok((size, rest)),
        None => Err(Stop::BadNumber { at: place(tokens) }),
    }
}

/// Parses the second number of LEN_RANGE: at least 0, or `inf`.
#[tactic(auto, unfolding(lq_grammar::specs::LogsQL::high_size))]
fn high_size<'t>(alloc: Global, tokens: &'t [Item]) -> Result<(u64, &'t [Item]), Stop>
    ensures { (depth : ℕ) → Gives (λ x. (x.0, x.1.now)) result (at depth high_size tokens.now) }
{
    let (text, rest) = arg(alloc, tokens)?;
    if text.as_str() == "inf" {
        return Ok((u64::MAX, rest));
    }
    match size_of(text.as_str()) {
        Some(size) => Ok((size, rest)),
        None => Err(Stop::BadNumber { at: place(tokens) }),
    }
}

/// Returns the number that a text spells, if it is at least 0.
pub fn size_of(text: &str) -> Option<u64>
    ensures { from_option bad_number result ≡ size_value text.now }
{
    match number(text) {
        Some(number) if number >= 0 => Some(number as u64),
        _ => None,
    }
}

/// Parses an end of RANGE: a number, `inf` or `-inf`.
#[tactic(auto, unfolding(lq_grammar::specs::LogsQL::end))]
fn end<'t>(alloc: Global, tokens: &'t [Item]) -> Result<(Bound, &'t [Item]), Stop>
    ensures { (depth : ℕ) → Gives (λ x. (end_of x.0, x.1.now)) result (at depth end tokens.now) }
{
    let (text, rest) = arg(alloc, tokens)?;
    if text.as_str().eq_ignore_ascii_case("inf") {
        return Ok((Bound::Infinite, rest));
    }
    if text.as_str().eq_ignore_ascii_case("-inf") {
        return Ok((Bound::MinusInfinite, rest));
    }
    match number(text.as_str()) {
        Some(number) => Ok((Bound::Number(number), rest)),
        None => Err(Stop::BadNumber { at: place(tokens) }),
    }
}

/// Parses `>` or `>=` with a number.
#[tactic(auto, unfolding(lq_grammar::specs::LogsQL::greater))]
pub(crate) fn greater<'t>(
    alloc: Global,
    tokens: &'t [Item],
    field: Option<&str>,
) -> Result<(Filter, &'t [Item]), Stop>
    ensures { (depth : ℕ) → Gives (λ x. (condition x.0, x.1.now)) result
        (mapped (λ made. made (option_copied field.entry)) (at depth greater tokens.now)) }
{
    let rest = expect(tokens, &[Role::Greater])?;
    if let Some(rest) = past_glued(rest, &[Role::Equals]) {
        let (number, rest) = num(alloc, rest)?;
        return Ok((make::at_least(alloc, number, field)?, rest));
    }
    let (number, rest) = num(alloc, rest)?;
    Ok((make::above(alloc, number, field)?, rest))
}

/// Parses `<` or `<=` with a number.
#[tactic(auto, unfolding(lq_grammar::specs::LogsQL::less))]
pub(crate) fn less<'t>(
    alloc: Global,
    tokens: &'t [Item],
    field: Option<&str>,
) -> Result<(Filter, &'t [Item]), Stop>
    ensures { (depth : ℕ) → Gives (λ x. (condition x.0, x.1.now)) result
        (mapped (λ made. made (option_copied field.entry)) (at depth less tokens.now)) }
{
    let rest = expect(tokens, &[Role::Less])?;
    if let Some(rest) = past_glued(rest, &[Role::Equals]) {
        let (number, rest) = num(alloc, rest)?;
        return Ok((make::at_most(alloc, number, field)?, rest));
    }
    let (number, rest) = num(alloc, rest)?;
    Ok((make::below(alloc, number, field)?, rest))
}

/// Parses two lengths after LEN_RANGE, or the word itself as a leaf.
#[tactic(auto, unfolding(lq_grammar::specs::LogsQL::len_range_end))]
pub(crate) fn len_range_end<'t>(
    alloc: Global,
    tokens: &'t [Item],
    word: &str,
    field: Option<&str>,
) -> Result<(Filter, &'t [Item]), Stop>
    ensures { (depth : ℕ) → Gives (λ x. (condition x.0, x.1.now)) result
        (mapped (λ made. made word.now (option_copied field.entry)) (at depth len_range_end tokens.now)) }
{
    if let Some(rest) = past_glued(tokens, &[Role::Open]) {
        let (low, rest) = size(alloc, rest)?;
        let rest = expect(rest, &[Role::Comma])?;
        let (high, rest) = high_size(alloc, rest)?;
        let rest = expect(rest, &[Role::Close])?;
        return Ok((make::of_length(alloc, low, high, field)?, rest));
    }
    bare_end(alloc, tokens, word, field)
}

/// Parses two ends after RANGE, or the word itself as a leaf.
#[tactic(auto, unfolding(lq_grammar::specs::LogsQL::range_end))]
pub(crate) fn range_end<'t>(
    alloc: Global,
    tokens: &'t [Item],
    word: &str,
    field: Option<&str>,
) -> Result<(Filter, &'t [Item]), Stop>
    ensures { (depth : ℕ) → Gives (λ x. (condition x.0, x.1.now)) result
        (mapped (λ made. made word.now (option_copied field.entry)) (at depth range_end tokens.now)) }
{
    if let Some(rest) = past_glued(tokens, &[Role::Open]) {
        return ends(alloc, rest, false, field);
    }
    if let Some(rest) = past_glued(tokens, &[Role::SquareOpen]) {
        return ends(alloc, rest, true, field);
    }
    bare_end(alloc, tokens, word, field)
}

/// Parses two ends and the bracket after them. `included` says whether the first belongs to the range.
#[tactic(auto, unfolding(lq_grammar::specs::LogsQL::ends))]
fn ends<'t>(
    alloc: Global,
    tokens: &'t [Item],
    included: bool,
    field: Option<&str>,
) -> Result<(Filter, &'t [Item]), Stop>
    ensures { (depth : ℕ) → Gives (λ x. (condition x.0, x.1.now)) result
        (mapped (λ made. made included (option_copied field.entry)) (at depth ends tokens.now)) }
{
    let (low, rest) = end(alloc, tokens)?;
    let rest = expect(rest, &[Role::Comma])?;
    let (high, rest) = last_end(alloc, rest)?;
    Ok((
        make::numbers(alloc, low_of(included, low), high, field)?,
        rest,
    ))
}

/// Parses the last end of a range and the bracket after it, and returns the greatest number of the range.
#[tactic(auto, unfolding(lq_grammar::specs::LogsQL::last_end))]
fn last_end<'t>(alloc: Global, tokens: &'t [Item]) -> Result<(i128, &'t [Item]), Stop>
    ensures { (depth : ℕ) → Gives (λ x. (x.0, x.1.now)) result
        (mapped (λ last. highest_of last.1 last.0) (at depth last_end tokens.now)) }
{
    let (high, rest) = end(alloc, tokens)?;
    let (included, rest) = closing(rest)?;
    Ok((high_of(included, high), rest))
}

/// Parses a closing bracket, and returns whether the end before it belongs to the range.
#[tactic(auto, unfolding(lq_grammar::specs::LogsQL::closing))]
pub(crate) fn closing(tokens: &[Item]) -> Result<(bool, &[Item]), Stop>
    ensures { (depth : ℕ) → Gives (λ x. (x.0, x.1.now)) result (at depth closing tokens.now) }
{
    if let Some(rest) = past(tokens, &[Role::SquareClose]) {
        return Ok((true, rest));
    }
    let rest = expect(tokens, &[Role::Close])?;
    Ok((false, rest))
}

/// Returns the least number of a range that begins with this end.
fn low_of(included: bool, end: Bound) -> i128
    ensures { result ≡ lowest_of included (end_of end) }
{
    match end {
        Bound::Number(number) if included => number as i128,
        Bound::Number(number) => number as i128 + 1,
        Bound::Infinite => i128::MAX,
        Bound::MinusInfinite => i128::MIN,
    }
}

/// Returns the greatest number of a range that ends with this end.
fn high_of(included: bool, end: Bound) -> i128
    ensures { result ≡ highest_of included (end_of end) }
{
    match end {
        Bound::Number(number) if included => number as i128,
        Bound::Number(number) => number as i128 - 1,
        Bound::Infinite => i128::MAX,
        Bound::MinusInfinite => i128::MIN,
    }
}
