//! The steps of a reader: single tokens, at the front of those that are left.
ghost use Rattle.std.specs.Prelude.{◌≡◌, ◌≤◌, ◌-◌, length, drop};
ghost use Rattle.grammar.specs.Rule.{next};
ghost use Rattle.grammar.specs.Reading.{one_at};
ghost use Rattle.grammar.specs.Spelling.{place as place_of};
ghost use Rattle.lq_grammar.specs.Roles.{any, glued};
ghost use Rattle.lq_grammar.specs.Clauses.{Gives, Takes, TakesText, TakesName};
ghost use Rattle.lq_grammar.specs.Query.{place_or_end};

use crate::fault::Stop;
use crate::item::Item;
use crate::role::Role;

/// Returns what follows a token of one of these roles.
pub fn past<'t>(tokens: &'t [Item], roles: &[Role]) -> Option<&'t [Item]>
    ensures { Takes (any roles.now) tokens.now result }
{
    match tokens {
        [token, rest @ ..] if token.is(roles) => Some(rest),
        _ => None,
    }
}

/// Returns what follows a glued token of one of these roles.
pub fn past_glued<'t>(tokens: &'t [Item], roles: &[Role]) -> Option<&'t [Item]>
    ensures { Takes (glued roles.now) tokens.now result }
{
    match tokens {
        [token, rest @ ..] if token.is_glued(roles) => Some(rest),
        _ => None,
    }
}

/// Returns what follows a token of one of these roles, which has to stand here.
pub fn expect<'t>(tokens: &'t [Item], roles: &[Role]) -> Result<&'t [Item], Stop>
    ensures { Gives (λ rest. (tt {0}, rest.now)) result (one_at (any roles.now) (λ _. tt {0}) tokens.now) }
{
    match past(tokens, roles) {
        Some(rest) => Ok(rest),
        None => Err(Stop::Stuck { left: tokens.len() }),
    }
}

/// Returns the text of a token of one of these roles, and what follows it.
pub fn text_past<'t>(tokens: &'t [Item], roles: &[Role]) -> Option<(&'t str, &'t [Item])>
    ensures { TakesText (any roles.now) tokens.now result }
{
    match tokens {
        [token, rest @ ..] if token.is(roles) => Some((token.text(), rest)),
        _ => None,
    }
}

/// Returns the same, where one has to stand here.
pub fn text<'t>(tokens: &'t [Item], roles: &[Role]) -> Result<(&'t str, &'t [Item]), Stop>
    ensures { Gives (λ x. (x.0.now, x.1.now)) result (one_at (any roles.now) (λ t. t.content) tokens.now) }
{
    match tokens {
        [token, rest @ ..] if token.is(roles) => Ok((token.text(), rest)),
        _ => Err(Stop::Stuck { left: tokens.len() }),
    }
}

/// Returns whether a glued token of one of these roles stands here.
pub fn at_glued(tokens: &[Item], roles: &[Role]) -> bool
    ensures { result ≡ next (glued roles.now) tokens.now }
{
    match tokens {
        [token, ..] => token.is_glued(roles),
        _ => false,
    }
}

/// Returns the text of a glued token of one of these roles, which has to stand here.
pub fn glued_text<'t>(tokens: &'t [Item], roles: &[Role]) -> Result<(&'t str, &'t [Item]), Stop>
    ensures { Gives (λ x. (x.0.now, x.1.now)) result (one_at (glued roles.now) (λ t. t.content) tokens.now) }
{
    match tokens {
        [token, rest @ ..] if token.is_glued(roles) => Ok((token.text(), rest)),
        _ => Err(Stop::Stuck { left: tokens.len() }),
    }
}

/// Returns whether a token of one of these roles stands here.
pub fn at(tokens: &[Item], roles: &[Role]) -> bool
    ensures { result ≡ next (any roles.now) tokens.now }
{
    match tokens {
        [token, ..] => token.is(roles),
        _ => false,
    }
}

/// Returns what follows a glued token of one of these roles, which has to stand here.
pub fn expect_glued<'t>(tokens: &'t [Item], roles: &[Role]) -> Result<&'t [Item], Stop>
    ensures { Gives (λ rest. (tt {0}, rest.now)) result (one_at (glued roles.now) (λ _. tt {0}) tokens.now) }
{
    match past_glued(tokens, roles) {
        Some(rest) => Ok(rest),
        None => Err(Stop::Stuck { left: tokens.len() }),
    }
}

/// Returns the text of a glued token of one of these roles, and what follows it.
pub fn glued_text_past<'t>(tokens: &'t [Item], roles: &[Role]) -> Option<(&'t str, &'t [Item])>
    ensures { TakesText (glued roles.now) tokens.now result }
{
    match tokens {
        [token, rest @ ..] if token.is_glued(roles) => Some((token.text(), rest)),
        _ => None,
    }
}

/// Returns the text of a token of one of these roles with a colon after it, and what follows the colon.
pub fn name_past<'t>(tokens: &'t [Item], roles: &[Role]) -> Option<(&'t str, &'t [Item])>
    ensures { TakesName (any roles.now) tokens.now result }
{
    match tokens {
        [name, colon, rest @ ..] if name.is(roles) && colon.is(&[Role::Colon]) => {
            Some((name.text(), rest))
        }
        _ => None,
    }
}

/// Returns the place of the next token.
pub fn place(tokens: &[Item]) -> usize
    ensures { result ≡ place_of tokens.now }
{
    match tokens {
        [token, ..] => token.start(),
        _ => 0,
    }
}

/// Returns the place of the first of this many tokens that are left at the end of a text, or the text's end.
pub fn place_of_left(tokens: &[Item], left: usize, text: &str) -> usize
    requires { left ≤ length tokens.now }
    ensures { result ≡ place_or_end text.now (drop (length tokens.now - left) tokens.now) }
{
    match &tokens[tokens.len() - left..] {
        [token, ..] => token.start(),
        _ => text.len(),
    }
}
