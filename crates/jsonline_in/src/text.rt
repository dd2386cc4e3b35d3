// Strings: where they end, and their text.
ghost use Rattle.std.specs.Prelude.{◌≡◌, ◌++◌, List, [], map, take, drop, IfOk, IfSome, string_bytes};
ghost use Rattle.std.specs.Option.{option_map};
ghost use Rattle.std.specs.List.{prefix_len};
ghost use Rattle.log_model.specs.Json.{is_plain};
ghost use Rattle.log_model.specs.Token.{Character, plain, string_text, text_behind};
ghost use Rattle.jsonline_in.specs.Reading.{characters_at};
ghost use Rattle.jsonline_in.specs.Clauses.{ReadsAs, mapped, or_empty};

use crate::escape::{escaped, push_alone, push_escape};
use crate::run::plain_len;
use crate::scan::{expect, past};
use crate::scan_fault::ScanFault;
use std::alloc::AllocError;

/// Returns the characters at the start that stand for themselves, and what follows them.
#[tactic(auto, using(crate::proofs::Cuts::plain_cut))]
#[inline(always)]
fn split_run(text: &str) -> (&str, &str)
    ensures run { result.0.now ≡ take (prefix_len is_plain text.now) text.now }
    ensures rest { result.1.now ≡ drop (prefix_len is_plain text.now) text.now }
{
    text.split_at(plain_len(text.as_bytes()))
}

/// Appends characters that stand for themselves, which come right after a code unit, or after none, which is 0.
/// Gives the code unit that what follows them comes after.
pub(crate) fn push_run(out: &mut String, before: u32, run: &str) -> Result<u32, AllocError>
    ensures { IfOk result (λ unit. (more : List Character) →
        string_bytes out.old ++ text_behind before (map plain run.now ++ more)
        ≡ string_bytes out.new ++ text_behind unit more) }
{
    if run.is_empty() {
        return Ok(before);
    }
    push_alone(out, before)?;
    out.push_str(run)?;
    Ok(0)
}

/// Appends the text of the string after its opening quotation mark, and gives what follows the closing one.
#[inline(never)]
fn decode<'a>(text: &'a str, out: &mut String) -> Result<&'a str, ScanFault>
    ensures { ReadsAs (λ rest. (string_bytes out.new, rest.now)) result
        (mapped (λ characters. string_bytes out.old ++ string_text characters) (characters_at text.now)) }
{
    let mut rest = text;
    let mut before = 0;
    'characters: loop {
        let (run, after) = split_run(rest);
        let unit = push_run(out, before, run)?;
        if let Some(end) = past(after, b'"') {
            push_alone(out, unit)?;
            return Ok(end);
        }
        let (escape, next) = escaped(expect(after, b'\\')?)?;
        before = push_escape(out, unit, escape)?;
        rest = next;
    }
}

/// Returns the text of the string after its opening quotation mark, and what follows the closing one. Where a character
/// is escaped, the text is appended to `out` instead.
#[inline(always)]
pub(crate) fn string<'a>(
    text: &'a str,
    out: &mut String,
) -> Result<(Option<&'a str>, &'a str), ScanFault>
    ensures read { ReadsAs (λ x. (string_bytes out.new ++ or_empty (option_map (λ t. t.now) x.0), x.1.now)) result
        (mapped (λ characters. string_bytes out.old ++ string_text characters) (characters_at text.now)) }
    ensures kept { IfOk result (λ x. IfSome x.0 (λ _. string_bytes out.new ≡ string_bytes out.old)) }
{
    let (content, rest) = split_run(text);
    match past(rest, b'"') {
        Some(rest) => Ok((Some(content), rest)),
        None => Ok((None, decode(text, out)?)),
    }
}
