// Character classes.
ghost use Rattle.std.specs.Prelude.{◌≡◌, ℕ, List, ◌++◌};
ghost use Rattle.lq_lex.specs.Lexing.{begins_bare, continues_bare, is_quote, is_mark, is_backslash, is_escape};
ghost use Rattle.lq_lex.specs.Clauses.{SplitsFirst};

use word_tokens::is_word;

/// The characters that are tokens by themselves.
const MARKS: &[u8] = b"|()[]{},:=!~*<>-+";

#[inline]
pub(crate) fn begins_bare(c: char) -> bool
    ensures { result ≡ begins_bare c }
{
    is_word(c) || c == '.' || c == '/'
}

#[inline]
pub(crate) fn continues_bare(c: char) -> bool
    ensures { result ≡ continues_bare c }
{
    begins_bare(c) || c == '-'
}

#[inline]
pub(crate) fn is_quote(c: char) -> bool
    ensures { result ≡ is_quote c }
{
    c == '"' || c == '\'' || c == '`'
}

#[inline]
pub(crate) fn is_mark(c: char) -> bool
    ensures value { result ≡ is_mark c }
{
    c.is_ascii() && MARKS.contains(&(c as u8))
}

/// Returns whether the character escapes the next one inside these quotes. Inside backticks none does.
#[inline]
pub(crate) fn is_backslash(quote: char, c: char) -> bool
    ensures { result ≡ is_backslash quote c }
{
    c == '\\' && quote != '`'
}

#[inline]
pub(crate) fn is_escape(c: char) -> bool
    ensures { result ≡ is_escape c }
{
    matches!(c, '\\' | '"' | '\'' | 'n' | 'r' | 't')
}

/// Splits a text after its first character.
#[inline]
pub(crate) fn split_first(text: &str) -> Option<(char, &str)>
    ensures { SplitsFirst text.now result }
{
    let mut rest = text.chars();
    let first = rest.next()?;
    Some((first, rest.as_str()))
}

/// Returns the part of the text before its suffix `rest`.
#[inline]
pub(crate) fn prefix<'a>(text: &'a str, rest: &str) -> &'a str
    requires { (taken : List ℕ) × (text.now ≡ taken ++ rest.now) }
    ensures { text.now ≡ result.now ++ rest.now }
{
    &text[..text.len() - rest.len()]
}
