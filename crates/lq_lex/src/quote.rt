// Quoted strings.
ghost use Rattle.std.specs.Prelude.{◌≡◌, false, chars};
ghost use Rattle.std.specs.Option.{option_map};
ghost use Rattle.lq_lex.specs.Reading.{quote_end, first_bad};

use crate::class::{is_backslash, is_escape, split_first};

/// Returns what follows the closing quote. The text starts after the opening one.
#[tactic(auto, using(crate::proofs::Steps::quote_steps))]
pub(crate) fn quote_end(text: &str, quote: char) -> Option<&str>
    ensures { option_map (λ rest. chars rest.now) result ≡ quote_end quote false (chars text.now) }
{
    let mut rest = text;
    let mut backslash = false;
    'characters: while let Some((c, remaining)) = split_first(rest) {
        if !backslash && c == quote {
            return Some(remaining);
        }
        backslash = !backslash && is_backslash(quote, c);
        rest = remaining;
    }
    None
}

/// Returns the text from its first unknown escape sequence on, if there is one before the closing quote.
#[tactic(auto, using(crate::proofs::Steps::bad_steps))]
pub(crate) fn first_bad(text: &str, quote: char) -> Option<&str>
    ensures { option_map (λ rest. chars rest.now) result ≡ first_bad quote (chars text.now) }
{
    let mut rest = text;
    'characters: while let Some((c, remaining)) = split_first(rest) {
        if c == quote {
            return None;
        }
        if is_backslash(quote, c) {
            let (next, remaining) = split_first(remaining)?;
            if !is_escape(next) {
                return Some(rest);
            }
            rest = remaining;
        } else {
            rest = remaining;
        }
    }
    None
}
