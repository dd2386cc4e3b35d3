// Times.
ghost use Rattle.std.specs.Prelude.{◌≡◌, ℕ};
ghost use Rattle.std.specs.Option.{option_map};
ghost use Rattle.grammar.specs.Reading.{mapped};
ghost use Rattle.lq_ast.specs.View.{condition};
ghost use Rattle.lq_grammar.specs.LogsQL.{bound, lone_run, last_bound, interval, time};
ghost use Rattle.lq_grammar.specs.Moments.{start_of as first_of, stop_of as last_of, duration_of, bound_of};
ghost use Rattle.lq_parse_filter.specs.Ends.{ends_of};
ghost use Rattle.lq_grammar.specs.Clauses.{Gives, at};

use crate::number::closing;
use crate::run::run;
use lq_ast::Filter;
use lq_grammar::scan::{expect, past, place};
use lq_grammar::{Item, Role, Stop};
use std::alloc::Global;
use time_text::{DurationFault, Span, read_bound, read_duration};

/// Parses a bound inside brackets.
#[tactic(auto, unfolding(lq_grammar::specs::LogsQL::bound))]
fn bound<'t>(alloc: Global, tokens: &'t [Item]) -> Result<(Span, &'t [Item]), Stop>
    ensures { (depth : ℕ) → Gives (λ x. (ends_of x.0, x.1.now)) result (at depth bound tokens.now) }
{
    let (text, rest) = run(alloc, tokens)?;
    match duration(text.as_str()) {
        Err(DurationFault::NotADuration) => {}
        _ => return Err(Stop::BadDuration { at: place(tokens) }),
    }
    match bound_named(text.as_str()) {
        Some(span) => Ok((span, rest)),
        None => Err(Stop::BadTime { at: place(tokens) }),
    }
}

/// Parses a duration up to now, or a bound with the interval that it names.
#[tactic(auto, unfolding(lq_grammar::specs::LogsQL::lone_run))]
fn lone_run<'t>(alloc: Global, tokens: &'t [Item]) -> Result<(Filter, &'t [Item]), Stop>
    ensures { (depth : ℕ) → Gives (λ x. (condition x.0, x.1.now)) result (at depth lone_run tokens.now) }
{
    let (text, rest) = run(alloc, tokens)?;
    match duration(text.as_str()) {
        Ok(span) => return Ok((Filter::Last { span }, rest)),
        Err(DurationFault::OutOfRange) => return Err(Stop::BadDuration { at: place(tokens) }),
        Err(DurationFault::NotADuration) => {}
    }
    match bound_named(text.as_str()) {
        Some(span) => Ok((
            Filter::Times {
                from: span.from as i128,
                to: span.to as i128,
            },
            rest,
        )),
        None => Err(Stop::BadTime { at: place(tokens) }),
    }
}

/// Returns the nanoseconds of the duration that a text spells.
pub fn duration(text: &str) -> Result<i64, DurationFault>
    ensures { result ≡ duration_of text.now }
{
    read_duration(text)
}

/// Returns the interval of the bound that a text spells, if it is in range.
fn bound_named(text: &str) -> Option<Span>
    ensures { option_map ends_of result ≡ bound_of text.now }
{
    read_bound(text).ok()
}

/// Parses the last bound of an interval and the bracket after it, and returns the last moment.
#[tactic(auto, unfolding(lq_grammar::specs::LogsQL::last_bound))]
fn last_bound<'t>(alloc: Global, tokens: &'t [Item]) -> Result<(i128, &'t [Item]), Stop>
    ensures { (depth : ℕ) → Gives (λ x. (x.0, x.1.now)) result
        (mapped (λ last. last_of last.1 last.0) (at depth last_bound tokens.now)) }
{
    let (span, rest) = bound(alloc, tokens)?;
    let (included, rest) = closing(rest)?;
    Ok((stop_of(included, span), rest))
}

/// Parses two bounds. `included` says whether the first belongs to the interval.
#[tactic(auto, unfolding(lq_grammar::specs::LogsQL::interval))]
fn interval<'t>(
    alloc: Global,
    tokens: &'t [Item],
    included: bool,
) -> Result<(Filter, &'t [Item]), Stop>
    ensures { (depth : ℕ) → Gives (λ x. (condition x.0, x.1.now)) result
        (mapped (λ made. made included) (at depth interval tokens.now)) }
{
    let (span, rest) = bound(alloc, tokens)?;
    let rest = expect(rest, &[Role::Comma])?;
    let (to, rest) = last_bound(alloc, rest)?;
    let from = start_of(included, span);
    Ok((Filter::Times { from, to }, rest))
}

/// Parses what follows `_time` and a colon.
#[tactic(auto, unfolding(lq_grammar::specs::LogsQL::time))]
pub(crate) fn time<'t>(alloc: Global, tokens: &'t [Item]) -> Result<(Filter, &'t [Item]), Stop>
    ensures { (depth : ℕ) → Gives (λ x. (condition x.0, x.1.now)) result (at depth time tokens.now) }
{
    if let Some(rest) = past(tokens, &[Role::SquareOpen]) {
        return interval(alloc, rest, true);
    }
    if let Some(rest) = past(tokens, &[Role::Open]) {
        return interval(alloc, rest, false);
    }
    lone_run(alloc, tokens)
}

/// Returns the first moment of an interval that begins with this bound.
fn start_of(included: bool, span: Span) -> i128
    ensures { result ≡ first_of included (ends_of span) }
{
    if included {
        span.from as i128
    } else {
        span.to as i128 + 1
    }
}

/// Returns the last moment of an interval that ends with this bound.
fn stop_of(included: bool, span: Span) -> i128
    ensures { result ≡ last_of included (ends_of span) }
{
    if included {
        span.to as i128
    } else {
        span.from as i128 - 1
    }
}
