// Reads one token at the start of a text.
ghost use Rattle.std.specs.Prelude.{◌≡◌, ◌==◌, ◌&&◌, ◌≤◌, false, not, ◌∷◌, ◌-◌, chars, length};
ghost use Rattle.lq_lex.specs.Reading.{bare_end, quote_end, closed_at, token_at};
ghost use Rattle.lq_lex.specs.Clauses.{ReadsToken, StepsTo};

use crate::class::{begins_bare, continues_bare, is_mark, is_quote, prefix, split_first};
use crate::fault::LexFault;
use crate::quote::{first_bad, quote_end};
use crate::token::{Kind, Token};

/// Returns the rest of the text after the characters that continue a bare token.
#[tactic(auto, using(crate::proofs::Steps::bare_steps))]
fn bare_end(text: &str) -> &str
    ensures { chars result.now ≡ bare_end (chars text.now) }
{
    let mut rest = text;
    'characters: while let Some((c, remaining)) = split_first(rest) {
        if !continues_bare(c) {
            return rest;
        }
        rest = remaining;
    }
    rest
}

/// Returns the kind of the token at the start of the text, and the rest. The whole text ends at offset `end`.
#[tactic(auto, using(crate::proofs::Steps::token_steps))]
fn token(text: &str, end: usize) -> Result<(Kind, &str), LexFault>
    ensures { ReadsToken result (token_at end (chars text.now)) }
{
    let Some((first, remaining)) = split_first(text) else {
        return Err(LexFault::BadChar { at: end });
    };
    if begins_bare(first) {
        return Ok((Kind::Bare, bare_end(remaining)));
    }
    if is_quote(first) {
        return quoted_token(text, remaining, first, end);
    }
    if is_mark(first) {
        return Ok((Kind::Mark(first as u8), remaining));
    }
    Err(LexFault::BadChar {
        at: end.saturating_sub(text.len()),
    })
}

/// Returns the same for a text that begins with the quote or backtick `quote`, followed by `remaining`.
#[tactic(auto, using(crate::proofs::Widths::width_steps))]
fn quoted_token<'a>(
    text: &str,
    remaining: &'a str,
    quote: char,
    end: usize,
) -> Result<(Kind, &'a str), LexFault>
    requires { chars text.now ≡ quote ∷ chars remaining.now }
    ensures { ReadsToken result
        (closed_at end quote (chars remaining.now) (quote_end quote false (chars remaining.now))) }
{
    let Some(rest) = quote_end(remaining, quote) else {
        return Err(LexFault::OpenQuote {
            at: end.saturating_sub(text.len()),
        });
    };
    if let Some(bad) = first_bad(remaining, quote) {
        return Err(LexFault::BadEscape {
            at: end.saturating_sub(bad.len()),
        });
    }
    Ok((Kind::Quoted, rest))
}

/// Skips white space and returns the next token and the rest, or `None` at the end. The whole text ends at offset
/// `end`.
pub(crate) fn next_token(text: &str, end: usize) -> Result<Option<(Token<'_>, &str)>, LexFault>
    requires { length text.now ≤ end }
    ensures { StepsTo (end - length text.now) text.now result }
{
    let here = text.trim_start();
    if here.is_empty() {
        return Ok(None);
    }
    let (kind, rest) = token(here, end)?;
    let start = end - here.len();
    let token = Token {
        kind,
        span: prefix(here, rest),
        start,
        glued: is_glued(text, here, start),
    };
    Ok(Some((token, rest)))
}

/// Returns whether the token at `here` directly follows another token: no white space was skipped, and it is not at
/// the start of the query.
#[inline]
fn is_glued(text: &str, here: &str, start: usize) -> bool
    ensures { result ≡ (length here.now == length text.now) && not (start == 0) }
{
    here.len() == text.len() && start != 0
}
