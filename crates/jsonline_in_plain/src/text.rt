// The texts of names and values.
ghost use Rattle.std.specs.Prelude.{◌≡◌, string_bytes};
ghost use Rattle.log_model.specs.Token.{string_text};
ghost use Rattle.log_model.specs.Value.{object, member_name};
ghost use Rattle.jsonline_in.specs.Clauses.{ReadsAs, mapped, flat_text};
ghost use Rattle.jsonline_in.specs.Reading.{characters_at, label_at, flat_at, nested_at};

use crate::bare::bare;
use crate::escape::{push_escape, push_lone_surrogate, push_plain, read_escape};
use crate::scan::{expect, past, plain_len, skip_space};
use crate::tokens::{Bracket, Tokens};
use jsonline_in::ScanFault;
use std::alloc::Global;

/// Parses a string after its opening quote. Returns its text and the rest after the closing quote.
#[tactic(auto, using(jsonline_in::proofs::Cuts::plain_cut))]
pub(crate) fn string(alloc: Global, text: &str) -> Result<(String, &str), ScanFault>
    ensures { ReadsAs (λ x. (string_bytes x.0, x.1.now)) result (mapped string_text (characters_at text.now)) }
{
    let mut out = String::new(alloc);
    let mut rest = text;
    let mut before = 0;
    'characters: loop {
        let (run, after) = rest.split_at(plain_len(rest));
        let unit = push_plain(&mut out, before, run)?;
        if let Some(end) = past(after, b'"') {
            push_lone_surrogate(&mut out, unit)?;
            return Ok((out, end));
        }
        let (escape, next) = read_escape(expect(after, b'\\')?)?;
        before = push_escape(&mut out, unit, escape)?;
        rest = next;
    }
}

/// Parses the name of a member and the colon. Returns the name and the rest from the member's value on.
pub(crate) fn name(alloc: Global, text: &str) -> Result<(String, &str), ScanFault>
    ensures { ReadsAs (λ x. (string_bytes x.0, x.1.now)) result (mapped member_name (label_at object text.now)) }
{
    let (name, rest) = string(alloc, expect(text, b'"')?)?;
    let rest = expect(skip_space(rest), b':')?;
    Ok((name, skip_space(rest)))
}

/// Parses a value other than an object. Returns its text and the rest.
pub(crate) fn flat(alloc: Global, text: &str, depth: u32) -> Result<(String, &str), ScanFault>
    ensures { ReadsAs (λ x. (string_bytes x.0, x.1.now)) result
        (mapped flat_text (flat_at (nested_at depth) text.now)) }
{
    if let Some(inside) = past(text, b'"') {
        return string(alloc, inside);
    }
    if let Some(inside) = past(text, b'[') {
        let mut tokens = Tokens::new(alloc);
        let rest = tokens.nested(inside, Bracket::Square, depth)?;
        return Ok((tokens.text, rest));
    }
    let (token, rest) = bare(text)?;
    Ok((String::from_str(alloc, token)?, rest))
}
