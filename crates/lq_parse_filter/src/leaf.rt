// Leaves.
ghost use Rattle.std.specs.Prelude.{◌≡◌, ℕ};
ghost use Rattle.std.specs.Option.{option_copied};
ghost use Rattle.grammar.specs.Reading.{mapped};
ghost use Rattle.lq_ast.specs.View.{condition};
ghost use Rattle.lq_grammar.specs.LogsQL.{bare_end, quoted_end, in_end, i_end, seq_end, string_range_end, exact};
ghost use Rattle.lq_grammar.specs.LogsQL.{regex, star};
ghost use Rattle.lq_grammar.specs.Clauses.{Gives, at};

use crate::args::{arg, args, texts};
use crate::make;
use lq_ast::Filter;
use lq_grammar::scan::{at_glued, expect, past_glued, text};
use lq_grammar::{Item, Role, Stop, TEXTS};
use std::alloc::Global;

/// Parses what follows a bare word: a star makes it a prefix, and nothing a phrase.
#[tactic(auto, unfolding(lq_grammar::specs::LogsQL::bare_end))]
pub(crate) fn bare_end<'t>(
    alloc: Global,
    tokens: &'t [Item],
    word: &str,
    field: Option<&str>,
) -> Result<(Filter, &'t [Item]), Stop>
    ensures { (depth : ℕ) → Gives (λ x. (condition x.0, x.1.now)) result
        (mapped (λ made. made word.now (option_copied field.entry)) (at depth bare_end tokens.now)) }
{
    if let Some(rest) = past_glued(tokens, &[Role::Star]) {
        return Ok((make::prefixed(alloc, word, field)?, rest));
    }
    if at_glued(tokens, &[Role::Open, Role::Star]) {
        return Err(Stop::Stuck { left: tokens.len() });
    }
    Ok((make::phrased(alloc, word, field)?, tokens))
}

/// Parses what follows a quoted text: a star makes it a prefix, and nothing a phrase.
#[tactic(auto, unfolding(lq_grammar::specs::LogsQL::quoted_end))]
pub(crate) fn quoted_end<'t>(
    alloc: Global,
    tokens: &'t [Item],
    word: &str,
    field: Option<&str>,
) -> Result<(Filter, &'t [Item]), Stop>
    ensures { (depth : ℕ) → Gives (λ x. (condition x.0, x.1.now)) result
        (mapped (λ made. made word.now (option_copied field.entry)) (at depth quoted_end tokens.now)) }
{
    if let Some(rest) = past_glued(tokens, &[Role::Star]) {
        return Ok((make::prefixed(alloc, word, field)?, rest));
    }
    Ok((make::phrased(alloc, word, field)?, tokens))
}

/// Parses a list of texts after IN, or the word itself as a leaf.
#[tactic(auto, unfolding(lq_grammar::specs::LogsQL::in_end))]
pub(crate) fn in_end<'t>(
    alloc: Global,
    tokens: &'t [Item],
    word: &str,
    field: Option<&str>,
) -> Result<(Filter, &'t [Item]), Stop>
    ensures { (depth : ℕ) → Gives (λ x. (condition x.0, x.1.now)) result
        (mapped (λ made. made word.now (option_copied field.entry)) (at depth in_end tokens.now)) }
{
    if let Some(rest) = past_glued(tokens, &[Role::Open]) {
        let (texts, rest) = texts(alloc, rest)?;
        let rest = expect(rest, &[Role::Close])?;
        return Ok((make::one_of(alloc, texts, field)?, rest));
    }
    bare_end(alloc, tokens, word, field)
}

/// Parses a text after I, or the word itself as a leaf.
#[tactic(auto, unfolding(lq_grammar::specs::LogsQL::i_end))]
pub(crate) fn i_end<'t>(
    alloc: Global,
    tokens: &'t [Item],
    word: &str,
    field: Option<&str>,
) -> Result<(Filter, &'t [Item]), Stop>
    ensures { (depth : ℕ) → Gives (λ x. (condition x.0, x.1.now)) result
        (mapped (λ made. made word.now (option_copied field.entry)) (at depth i_end tokens.now)) }
{
    if let Some(rest) = past_glued(tokens, &[Role::Open]) {
        let (text, rest) = arg(alloc, rest)?;
        let rest = expect(rest, &[Role::Close])?;
        return Ok((make::folded(alloc, text, field)?, rest));
    }
    bare_end(alloc, tokens, word, field)
}

/// Parses texts after SEQ, or the word itself as a leaf.
#[tactic(auto, unfolding(lq_grammar::specs::LogsQL::seq_end))]
pub(crate) fn seq_end<'t>(
    alloc: Global,
    tokens: &'t [Item],
    word: &str,
    field: Option<&str>,
) -> Result<(Filter, &'t [Item]), Stop>
    ensures { (depth : ℕ) → Gives (λ x. (condition x.0, x.1.now)) result
        (mapped (λ made. made word.now (option_copied field.entry)) (at depth seq_end tokens.now)) }
{
    if let Some(rest) = past_glued(tokens, &[Role::Open]) {
        let (texts, rest) = args(alloc, rest)?;
        let rest = expect(rest, &[Role::Close])?;
        return Ok((make::sequence(alloc, texts, field)?, rest));
    }
    bare_end(alloc, tokens, word, field)
}

/// Parses two texts after STRING_RANGE, or the word itself as a leaf.
#[tactic(auto, unfolding(lq_grammar::specs::LogsQL::string_range_end))]
pub(crate) fn string_range_end<'t>(
    alloc: Global,
    tokens: &'t [Item],
    word: &str,
    field: Option<&str>,
) -> Result<(Filter, &'t [Item]), Stop>
    ensures { (depth : ℕ) → Gives (λ x. (condition x.0, x.1.now)) result
        (mapped (λ made. made word.now (option_copied field.entry)) (at depth string_range_end tokens.now)) }
{
    if let Some(rest) = past_glued(tokens, &[Role::Open]) {
        let (low, rest) = arg(alloc, rest)?;
        let rest = expect(rest, &[Role::Comma])?;
        let (high, rest) = arg(alloc, rest)?;
        let rest = expect(rest, &[Role::Close])?;
        return Ok((make::between(alloc, low, high, field)?, rest));
    }
    bare_end(alloc, tokens, word, field)
}

/// Parses `=` with a whole value, or with the text that a value begins with.
#[tactic(auto, unfolding(lq_grammar::specs::LogsQL::exact))]
pub(crate) fn exact<'t>(
    alloc: Global,
    tokens: &'t [Item],
    field: Option<&str>,
) -> Result<(Filter, &'t [Item]), Stop>
    ensures { (depth : ℕ) → Gives (λ x. (condition x.0, x.1.now)) result
        (mapped (λ made. made (option_copied field.entry)) (at depth exact tokens.now)) }
{
    let rest = expect(tokens, &[Role::Equals])?;
    let (text, rest) = arg(alloc, rest)?;
    if let Some(rest) = past_glued(rest, &[Role::Star]) {
        return Ok((make::exact_prefix(alloc, text, field)?, rest));
    }
    Ok((make::exact(alloc, text, field)?, rest))
}

/// Parses `~` with a regular expression.
#[tactic(auto, unfolding(lq_grammar::specs::LogsQL::regex))]
pub(crate) fn regex<'t>(
    alloc: Global,
    tokens: &'t [Item],
    field: Option<&str>,
) -> Result<(Filter, &'t [Item]), Stop>
    ensures { (depth : ℕ) → Gives (λ x. (condition x.0, x.1.now)) result
        (mapped (λ made. made (option_copied field.entry)) (at depth regex tokens.now)) }
{
    let rest = expect(tokens, &[Role::Tilde])?;
    let (pattern, rest) = text(rest, TEXTS)?;
    Ok((make::matching(alloc, pattern, field)?, rest))
}

/// Parses a star that ends no prefix.
#[tactic(auto, unfolding(lq_grammar::specs::LogsQL::star))]
pub(crate) fn star<'t>(
    alloc: Global,
    tokens: &'t [Item],
    field: Option<&str>,
) -> Result<(Filter, &'t [Item]), Stop>
    ensures { (depth : ℕ) → Gives (λ x. (condition x.0, x.1.now)) result
        (mapped (λ made. made (option_copied field.entry)) (at depth star tokens.now)) }
{
    let rest = expect(tokens, &[Role::Star])?;
    if at_glued(rest, TEXTS) {
        return Err(Stop::Stuck { left: rest.len() });
    }
    Ok((make::everything(alloc, field)?, rest))
}
