//! The strings that tokens stand for.
ghost use Rattle.std.specs.Prelude.{◌≡◌, ◌++◌, ◌∷◌, [], OnOk, OnErr, map, chars};
ghost use Rattle.std.specs.Str.{encode_utf8_all};
ghost use Rattle.lq_lex.specs.Token.{token_value};
ghost use Rattle.lq_lex.specs.Lexing.{IsQuoted, value, escape_value as escape_value_of};
ghost use Rattle.lq_lex.specs.Texts.{text_of as text_of_token, quoted_content, unescape, plain_end};

use crate::class::{is_backslash, prefix, split_first};
use crate::token::{Kind, Token};
use std::alloc::{AllocError, Global};
use vl_row::Text;

/// Appends the string that a token stands for: the unescaped content of a quoted token, and any other token as it is.
/// If allocation fails, `out` is unchanged.
pub fn text_of(alloc: Global, t: &Token, out: &mut Text) -> Result<(), AllocError>
    ensures value { OnOk result (out.new ≡ out.old ++ text_of_token (token_value t.now)) }
    ensures err { OnErr result (out.new ≡ out.old) }
    ensures quoted { (quoted : IsQuoted (chars t.now.span.now)) → t.now.kind ≡ Kind.Quoted
        → text_of_token (token_value t.now) ≡ encode_utf8_all (map value quoted.pieces) }
{
    match t.kind {
        Kind::Quoted => push_quoted(alloc, t.span, out),
        _ => out.push_str(alloc, t.span),
    }
}

/// Appends the unescaped content of a quoted token. If allocation fails, `out` is unchanged.
fn push_quoted(alloc: Global, span: &str, out: &mut Text) -> Result<(), AllocError>
    ensures value { OnOk result (out.new ≡ out.old ++ encode_utf8_all (quoted_content (chars span.now))) }
    ensures err { OnErr result (out.new ≡ out.old) }
{
    match split_first(span) {
        Some((quote, inside)) => push_inside(alloc, inside, quote, out),
        None => Ok(()),
    }
}

/// Unescapes the content of a quoted token and appends it. The text ends with the closing quote, which is left out. If
/// allocation fails, `out` is unchanged.
fn push_inside(alloc: Global, text: &str, quote: char, out: &mut Text) -> Result<(), AllocError>
    ensures value { OnOk result (out.new ≡ out.old ++ encode_utf8_all (unescape quote (chars text.now))) }
    ensures err { OnErr result (out.new ≡ out.old) }
{
    let here = plain_end(text, quote);
    if here.len() <= 1 {
        // Only the closing quote is left, so nothing is escaped.
        return out.push_str(alloc, prefix(text, here));
    }
    // A separate buffer keeps partial output out of `out`.
    let mut resolved = Text::new();
    push_unescaped(alloc, text, quote, &mut resolved)?;
    out.push_str(alloc, resolved.as_str())
}

/// Unescapes the content of a quoted token and appends it. The text ends with the closing quote, which is left out. If
/// allocation fails, part of it may have been appended.
fn push_unescaped(alloc: Global, text: &str, quote: char, out: &mut Text) -> Result<(), AllocError>
    ensures { OnOk result (out.new ≡ out.old ++ encode_utf8_all (unescape quote (chars text.now))) }
{
    let mut rest = text;
    'escapes: loop {
        let here = plain_end(rest, quote);
        out.push_str(alloc, prefix(rest, here))?;
        let Some((_, remaining)) = split_first(here) else {
            return Ok(());
        };
        let Some((c, after)) = split_first(remaining) else {
            return Ok(());
        };
        out.push_str(alloc, escape_value(c, prefix(remaining, after)))?;
        rest = after;
    }
}

/// Returns the text from its first backslash on, or from its last character.
#[tactic(auto, using(crate::proofs::TextLaws::end_steps))]
fn plain_end(text: &str, quote: char) -> &str
    ensures { chars result.now ≡ plain_end quote (chars text.now) }
{
    let mut rest = text;
    'characters: while let Some((c, remaining)) = split_first(rest) {
        if is_backslash(quote, c) {
            return rest;
        }
        if remaining.is_empty() {
            return rest;
        }
        rest = remaining;
    }
    rest
}

/// Returns the character that an escape sequence with `c` stands for; `own` is `c` itself.
fn escape_value<'a>(c: char, own: &'a str) -> &'a str
    requires { own.now ≡ encode_utf8_all (c ∷ []) }
    ensures { result.now ≡ encode_utf8_all (escape_value_of c ∷ []) }
{
    match c {
        'n' => "\n",
        'r' => "\r",
        't' => "\t",
        _ => own,
    }
}
