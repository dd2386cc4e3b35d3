// Leaves of every form.
ghost use Rattle.std.specs.Prelude.{◌≡◌, ℕ};
ghost use Rattle.std.specs.Option.{option_copied};
ghost use Rattle.grammar.specs.Reading.{mapped};
ghost use Rattle.lq_ast.specs.View.{condition};
ghost use Rattle.lq_grammar.specs.LogsQL.{leaf, led, range_led, word_led, alone, mark_leaf};
ghost use Rattle.lq_grammar.specs.Clauses.{Gives, at as at_of};

use crate::leaf::{
    bare_end, exact, i_end, in_end, quoted_end, regex, seq_end, star, string_range_end,
};
use crate::number::{greater, len_range_end, less, range_end};
use lq_ast::Filter;
use lq_grammar::scan::{at, text_past};
use lq_grammar::{Item, PLAIN_WORDS, Role, Stop};
use std::alloc::Global;

/// Parses a leaf.
#[tactic(auto, unfolding(lq_grammar::specs::LogsQL::leaf))]
pub(crate) fn leaf<'t>(
    alloc: Global,
    tokens: &'t [Item],
    field: Option<&str>,
) -> Result<(Filter, &'t [Item]), Stop>
    ensures { (depth : ℕ) → Gives (λ x. (condition x.0, x.1.now)) result
        (mapped (λ made. made (option_copied field.entry)) (at_of depth leaf tokens.now)) }
{
    if let Some((word, rest)) = text_past(tokens, &[Role::Time, Role::Stream]) {
        return bare_end(alloc, rest, word, field);
    }
    if let Some((word, rest)) = text_past(tokens, &[Role::QuotedTime]) {
        return quoted_end(alloc, rest, word, field);
    }
    led(alloc, tokens, field)
}

/// Parses a leaf that begins with a word other than `_time` and `_stream`, or with a mark.
#[tactic(auto, unfolding(lq_grammar::specs::LogsQL::led))]
pub(crate) fn led<'t>(
    alloc: Global,
    tokens: &'t [Item],
    field: Option<&str>,
) -> Result<(Filter, &'t [Item]), Stop>
    ensures { (depth : ℕ) → Gives (λ x. (condition x.0, x.1.now)) result
        (mapped (λ made. made (option_copied field.entry)) (at_of depth (led alone) tokens.now)) }
{
    if let Some((word, rest)) = text_past(tokens, &[Role::In]) {
        return in_end(alloc, rest, word, field);
    }
    if let Some((word, rest)) = text_past(tokens, &[Role::I]) {
        return i_end(alloc, rest, word, field);
    }
    if let Some((word, rest)) = text_past(tokens, &[Role::Seq]) {
        return seq_end(alloc, rest, word, field);
    }
    range_led(alloc, tokens, field)
}

#[tactic(auto, unfolding(lq_grammar::specs::LogsQL::range_led))]
fn range_led<'t>(
    alloc: Global,
    tokens: &'t [Item],
    field: Option<&str>,
) -> Result<(Filter, &'t [Item]), Stop>
    ensures { (depth : ℕ) → Gives (λ x. (condition x.0, x.1.now)) result
        (mapped (λ made. made (option_copied field.entry)) (at_of depth (range_led alone) tokens.now)) }
{
    if let Some((word, rest)) = text_past(tokens, &[Role::LenRange]) {
        return len_range_end(alloc, rest, word, field);
    }
    if let Some((word, rest)) = text_past(tokens, &[Role::StringRange]) {
        return string_range_end(alloc, rest, word, field);
    }
    if let Some((word, rest)) = text_past(tokens, &[Role::Range]) {
        return range_end(alloc, rest, word, field);
    }
    word_led(alloc, tokens, field)
}

#[tactic(auto, unfolding(lq_grammar::specs::LogsQL::word_led))]
fn word_led<'t>(
    alloc: Global,
    tokens: &'t [Item],
    field: Option<&str>,
) -> Result<(Filter, &'t [Item]), Stop>
    ensures { (depth : ℕ) → Gives (λ x. (condition x.0, x.1.now)) result
        (mapped (λ made. made (option_copied field.entry)) (at_of depth (word_led alone) tokens.now)) }
{
    if let Some((word, rest)) = text_past(tokens, PLAIN_WORDS) {
        return bare_end(alloc, rest, word, field);
    }
    if let Some((word, rest)) = text_past(tokens, &[Role::Quoted]) {
        return quoted_end(alloc, rest, word, field);
    }
    mark_leaf(alloc, tokens, field)
}

/// Parses a leaf that begins with a mark.
fn mark_leaf<'t>(
    alloc: Global,
    tokens: &'t [Item],
    field: Option<&str>,
) -> Result<(Filter, &'t [Item]), Stop>
    ensures { (depth : ℕ) → Gives (λ x. (condition x.0, x.1.now)) result
        (mapped (λ made. made (option_copied field.entry)) (at_of depth mark_leaf tokens.now)) }
{
    if at(tokens, &[Role::Equals]) {
        return exact(alloc, tokens, field);
    }
    if at(tokens, &[Role::Tilde]) {
        return regex(alloc, tokens, field);
    }
    if at(tokens, &[Role::Greater]) {
        return greater(alloc, tokens, field);
    }
    if at(tokens, &[Role::Less]) {
        return less(alloc, tokens, field);
    }
    star(alloc, tokens, field)
}
