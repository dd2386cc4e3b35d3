// Runs: a bare token with all that is glued to it.
ghost use Rattle.std.specs.Prelude.{◌≡◌, ℕ, ◌++◌};
ghost use Rattle.grammar.specs.Reading.{mapped};
ghost use Rattle.lq_grammar.specs.LogsQL.{run, run_rest};
ghost use Rattle.lq_grammar.specs.Clauses.{Gives, at};

use lq_grammar::scan::{glued_text_past, text, text_past};
use lq_grammar::{BARES, Item, QUOTED, RUN_PARTS, Stop};
use std::alloc::Global;
use vl_row::Text;

/// Parses a quoted text, or a bare token with all that is glued to it.
#[tactic(auto, unfolding(lq_grammar::specs::LogsQL::run))]
pub(crate) fn run<'t>(alloc: Global, tokens: &'t [Item]) -> Result<(Text, &'t [Item]), Stop>
    ensures { (depth : ℕ) → Gives (λ x. (x.0, x.1.now)) result (at depth run tokens.now) }
{
    if let Some((quoted, rest)) = text_past(tokens, QUOTED) {
        return Ok((Text::try_of(alloc, quoted)?, rest));
    }
    let (bare, rest) = text(tokens, BARES)?;
    run_rest(alloc, bare, rest)
}

/// Parses all that is glued to the start of a run.
fn run_rest<'t>(alloc: Global, bare: &str, tokens: &'t [Item]) -> Result<(Text, &'t [Item]), Stop>
    ensures { (depth : ℕ) → Gives (λ x. (x.0, x.1.now)) result
        (mapped (λ rest. bare.now ++ rest) (at depth run_rest tokens.now)) }
{
    let mut run = Text::try_of(alloc, bare)?;
    let mut rest = tokens;
    'parts: while let Some((part, behind)) = glued_text_past(rest, RUN_PARTS) {
        run.push_str(alloc, part)?;
        rest = behind;
    }
    Ok((run, rest))
}
