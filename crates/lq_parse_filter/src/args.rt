// Arguments.
ghost use Rattle.std.specs.Prelude.{◌≡◌, ℕ};
ghost use Rattle.grammar.specs.Rule.{next};
ghost use Rattle.grammar.specs.Reading.{first};
ghost use Rattle.lq_grammar.specs.LogsQL.{arg, args, texts, heads};
ghost use Rattle.lq_grammar.specs.Clauses.{Gives, at as at_of};

use lq_grammar::scan::{at, glued_text, past, text, text_past};
use lq_grammar::{BARES, Item, Role, Stop, WORDS};
use std::alloc::Global;
use vl_row::Text;

/// Parses an argument.
#[tactic(auto, unfolding(lq_grammar::specs::LogsQL::arg))]
pub(crate) fn arg<'t>(alloc: Global, tokens: &'t [Item]) -> Result<(Text, &'t [Item]), Stop>
    ensures { (depth : ℕ) → Gives (λ x. (x.0, x.1.now)) result (at_of depth arg tokens.now) }
{
    if let Some((minus, rest)) = text_past(tokens, &[Role::Minus]) {
        let (digits, rest) = glued_text(rest, BARES)?;
        let mut text = Text::try_of(alloc, minus)?;
        text.push_str(alloc, digits)?;
        return Ok((text, rest));
    }
    let (word, rest) = text(tokens, WORDS)?;
    Ok((Text::try_of(alloc, word)?, rest))
}

/// Returns whether an argument begins here.
#[tactic(auto, using(crate::proofs::Firsts::next_append), unfolding(lq_grammar::specs::LogsQL::arg))]
fn at_arg(tokens: &[Item]) -> bool
    ensures { result ≡ next (first heads arg) tokens.now }
{
    at(tokens, &[Role::Minus]) || at(tokens, WORDS)
}

/// Parses one argument or more, with commas between them.
#[tactic(auto, unfolding(lq_grammar::specs::LogsQL::args), using(grammar::proofs::Turns::list_steps))]
pub(crate) fn args<'t>(alloc: Global, tokens: &'t [Item]) -> Result<(Vec<Text>, &'t [Item]), Stop>
    ensures { (depth : ℕ) → Gives (λ x. (x.0.items, x.1.now)) result (at_of depth args tokens.now) }
{
    let (text, mut rest) = arg(alloc, tokens)?;
    let mut list = Vec::new(alloc);
    list.push(text)?;
    'others: while let Some(next) = past(rest, &[Role::Comma]) {
        let (text, behind) = arg(alloc, next)?;
        list.push(text)?;
        rest = behind;
    }
    Ok((list, rest))
}

/// Parses any number of arguments, with commas between them.
pub(crate) fn texts<'t>(alloc: Global, tokens: &'t [Item]) -> Result<(Vec<Text>, &'t [Item]), Stop>
    ensures { (depth : ℕ) → Gives (λ x. (x.0.items, x.1.now)) result (at_of depth texts tokens.now) }
{
    if at_arg(tokens) {
        return args(alloc, tokens);
    }
    Ok((Vec::new(alloc), tokens))
}
