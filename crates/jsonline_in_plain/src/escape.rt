// Escape sequences in strings, and the text that they stand for.
ghost use Rattle.std.specs.Prelude.{◌≡◌, ◌≤◌, ◌<◌, ◌++◌, [], ◌∷◌, List, string_bytes, map, IfOk, OnOk, IsTrue};
ghost use Rattle.std.specs.Char.{digit_value, encode_utf8, IsScalar};
ghost use Rattle.log_model.specs.Token.{Character, code_unit, plain, is_character, alone, unit_text, replacement};
ghost use Rattle.log_model.specs.Token.{is_high_surrogate, is_low_surrogate, text_behind, short_value, is_short};
ghost use Rattle.jsonline_in.specs.Reading.{escape_at, one_of, unicode_at};
ghost use Rattle.jsonline_in.specs.Clauses.{ReadsAs};
ghost use Rattle.jsonline_in_plain.specs.Parts.{escape_of};

use crate::scan::{hex, past};
use jsonline_in::ScanFault;
use std::alloc::AllocError;

/// An escape sequence after its backslash: one byte, or `u` and four digits.
#[derive(Clone, Copy)]
pub(crate) enum Escape {
    Short(u8),
    Unicode(u8, u8, u8, u8),
}

#[tactic(auto, using(jsonline_in::proofs::Cuts::short_cut), unfolding(jsonline_in::specs::Reading::one_of))]
fn read_short(text: &str) -> Result<(u8, &str), ScanFault>
    ensures { ReadsAs (λ x. (x.0, x.1.now)) result (one_of is_short text.now) }
{
    if text.is_empty() {
        return Err(ScanFault::Stuck { left: 0 });
    }
    match text.as_bytes()[0] {
        byte @ (b'"' | b'\\' | b'/' | b'b' | b'f' | b'n' | b'r' | b't') => Ok((byte, &text[1..])),
        _ => Err(ScanFault::Stuck { left: text.len() }),
    }
}

/// Parses four hexadecimal digits.
#[tactic(auto, unfolding(jsonline_in::specs::Reading::unicode_at))]
fn read_unicode(text: &str) -> Result<(Escape, &str), ScanFault>
    ensures { ReadsAs (λ x. (escape_of x.0, x.1.now)) result (unicode_at text.now) }
{
    let (a, text) = hex(text)?;
    let (b, text) = hex(text)?;
    let (c, text) = hex(text)?;
    let (d, rest) = hex(text)?;
    Ok((Escape::Unicode(a, b, c, d), rest))
}

/// Parses an escape sequence after its backslash.
#[tactic(auto, unfolding(jsonline_in::specs::Reading::escape_at, jsonline_in::specs::Reading::short_at))]
pub(crate) fn read_escape(text: &str) -> Result<(Escape, &str), ScanFault>
    ensures { ReadsAs (λ x. (escape_of x.0, x.1.now)) result (escape_at text.now) }
{
    if let Some(digits) = past(text, b'u') {
        return read_unicode(digits);
    }
    let (byte, rest) = read_short(text)?;
    Ok((Escape::Short(byte), rest))
}

/// Returns the value of a hexadecimal digit, and at most 36 for any other byte.
fn hex_value(digit: u8) -> u32
    ensures value { result ≡ digit_value digit }
    ensures most { result ≤ 36 }
{
    if digit.is_ascii_digit() {
        return (digit - 48) as u32;
    }
    match digit.to_ascii_lowercase() {
        letter @ b'a'..=b'z' => (letter - 87) as u32,
        _ => 36,
    }
}

/// Returns the code unit of four hexadecimal digits.
fn unit_of(a: u8, b: u8, c: u8, d: u8) -> u32
    ensures value { result ≡ code_unit a b c d }
    ensures most { result < 1_114_112 }
{
    ((hex_value(a) * 16 + hex_value(b)) * 16 + hex_value(c)) * 16 + hex_value(d)
}

fn is_high(unit: u32) -> bool
    ensures { result ≡ is_high_surrogate unit }
{
    matches!(unit, 0xd800..=0xdbff)
}

fn is_low(unit: u32) -> bool
    ensures { result ≡ is_low_surrogate unit }
{
    matches!(unit, 0xdc00..=0xdfff)
}

/// Appends U+FFFD for a high surrogate without a low one after it.
pub(crate) fn push_lone_surrogate(out: &mut String, unit: u32) -> Result<(), AllocError>
    ensures { OnOk result (string_bytes out.new ≡ string_bytes out.old ++ alone unit) }
{
    match is_high(unit) {
        true => out.push_str("\u{fffd}"),
        false => Ok(()),
    }
}

/// Appends the character with this code, or U+FFFD if there is none.
fn push_code(out: &mut String, code: u32) -> Result<(), AllocError>
    ensures scalar { IsScalar code → OnOk result (string_bytes out.new ≡ string_bytes out.old ++ encode_utf8 code) }
    ensures other { ¬ (IsScalar code) → OnOk result (string_bytes out.new ≡ string_bytes out.old ++ replacement) }
{
    let Some(c) = char::from_u32(code) else {
        return out.push_str("\u{fffd}");
    };
    out.push(c)
}

fn push_unit(out: &mut String, before: u32, unit: u32) -> Result<(), AllocError>
    requires { unit < 1_114_112 }
    ensures { OnOk result (string_bytes out.new ≡ string_bytes out.old ++ unit_text before unit) }
{
    if is_high(before) && is_low(unit) {
        let high = before - 0xd800;
        let low = unit - 0xdc00;
        return push_code(out, 0x10000 + high * 1024 + low);
    }
    push_lone_surrogate(out, before)?;
    match is_high(unit) {
        true => Ok(()),
        false => push_code(out, unit),
    }
}

/// Returns the character that a backslash with this byte stands for.
fn short_value(byte: u8) -> u8
    ensures { result ≡ short_value byte }
{
    if byte == b'b' {
        8
    } else if byte == b'f' {
        12
    } else if byte == b'n' {
        10
    } else if byte == b'r' {
        13
    } else if byte == b't' {
        9
    } else {
        byte
    }
}

fn push_short(out: &mut String, before: u32, byte: u8) -> Result<(), AllocError>
    requires { byte < 128 }
    ensures { OnOk result (string_bytes out.new ≡ string_bytes out.old ++ (alone before ++ short_value byte ∷ [])) }
{
    push_lone_surrogate(out, before)?;
    out.push(short_value(byte) as char)
}

/// Appends the text of an escape sequence that directly follows the code unit `before`, where 0 stands for none.
/// Returns its own code unit.
pub(crate) fn push_escape(out: &mut String, before: u32, escape: Escape) -> Result<u32, AllocError>
    requires { IsTrue (is_character (escape_of escape)) }
    ensures { IfOk result (λ unit. (more : List Character) →
        string_bytes out.old ++ text_behind before (escape_of escape ∷ more)
        ≡ string_bytes out.new ++ text_behind unit more) }
{
    match escape {
        Escape::Short(byte) => {
            push_short(out, before, byte)?;
            Ok(0)
        }
        Escape::Unicode(a, b, c, d) => {
            let unit = unit_of(a, b, c, d);
            push_unit(out, before, unit)?;
            Ok(unit)
        }
    }
}

/// Appends unescaped characters that directly follow the code unit `before`, where 0 stands for none. Returns the code
/// unit that precedes the next character.
pub(crate) fn push_plain(out: &mut String, before: u32, run: &str) -> Result<u32, AllocError>
    ensures { IfOk result (λ unit. (more : List Character) →
        string_bytes out.old ++ text_behind before (map plain run.now ++ more)
        ≡ string_bytes out.new ++ text_behind unit more) }
{
    if run.is_empty() {
        return Ok(before);
    }
    push_lone_surrogate(out, before)?;
    out.push_str(run)?;
    Ok(0)
}
