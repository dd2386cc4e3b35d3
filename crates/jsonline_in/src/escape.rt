// Escaped characters of strings, and the text that they stand for.
ghost use Rattle.std.specs.Prelude.{◌≡◌, ◌<◌, ◌≤◌, ◌++◌, [], ◌∷◌, List, if◌then◌else◌, string_bytes, IfOk, OnOk};
ghost use Rattle.std.specs.Prelude.{IsTrue};
ghost use Rattle.std.specs.Char.{digit_value, encode_utf8, IsScalar};
ghost use Rattle.log_model.specs.Token.{Character, is_character, alone, is_short, unit_text, replacement};
ghost use Rattle.log_model.specs.Token.{is_high_surrogate, is_low_surrogate, text_behind, short_value, code_unit};
ghost use Rattle.jsonline_in.specs.Reading.{unicode_at, one_of, short_at, escape_at};
ghost use Rattle.jsonline_in.specs.Clauses.{ReadsAs, escape_of};

use crate::scan::{hex, past};
use crate::scan_fault::ScanFault;
use std::alloc::AllocError;

/// What stands after a backslash.
#[derive(Clone, Copy)]
pub(crate) enum Escape {
    Short(u8),
    /// `u` and these four digits.
    Unicode(u8, u8, u8, u8),
}

#[tactic(auto, unfolding(crate::specs::Reading::unicode_at))]
fn unicode(text: &str) -> Result<(Escape, &str), ScanFault>
    ensures { ReadsAs (λ x. (escape_of x.0, x.1.now)) result (unicode_at text.now) }
{
    let (a, rest) = hex(text)?;
    let (b, rest) = hex(rest)?;
    let (c, rest) = hex(rest)?;
    let (d, rest) = hex(rest)?;
    Ok((Escape::Unicode(a, b, c, d), rest))
}

fn is_short(byte: u8) -> bool
    ensures { result ≡ is_short byte }
{
    matches!(byte, b'"' | b'\\' | b'/' | b'b' | b'f' | b'n' | b'r' | b't')
}

/// Returns the byte of a short escape.
#[tactic(auto, using(crate::proofs::Cuts::short_cut), unfolding(crate::specs::Reading::one_of))]
fn short_byte(text: &str) -> Result<(u8, &str), ScanFault>
    ensures { ReadsAs (λ x. (x.0, x.1.now)) result (one_of is_short text.now) }
{
    match text.as_bytes() {
        [first, ..] if is_short(*first) => Ok((*first, &text[1..])),
        _ => Err(ScanFault::Stuck { left: text.len() }),
    }
}

#[tactic(auto, unfolding(crate::specs::Reading::short_at))]
fn short(text: &str) -> Result<(Escape, &str), ScanFault>
    ensures { ReadsAs (λ x. (escape_of x.0, x.1.now)) result (short_at text.now) }
{
    let (byte, rest) = short_byte(text)?;
    Ok((Escape::Short(byte), rest))
}

#[tactic(auto, unfolding(crate::specs::Reading::escape_at))]
pub(crate) fn escaped(text: &str) -> Result<(Escape, &str), ScanFault>
    ensures { ReadsAs (λ x. (escape_of x.0, x.1.now)) result (escape_at text.now) }
{
    match past(text, b'u') {
        Some(rest) => unicode(rest),
        None => short(text),
    }
}

fn hex_value(digit: u8) -> u32
    ensures value { result ≡ digit_value digit }
    ensures bound { result ≤ 36 }
{
    match digit {
        b'0'..=b'9' => (digit - b'0') as u32,
        b'A'..=b'Z' => (digit - b'A') as u32 + 10,
        b'a'..=b'z' => (digit - b'a') as u32 + 10,
        _ => 36,
    }
}

fn is_high(unit: u32) -> bool
    ensures { result ≡ is_high_surrogate unit }
{
    0xd800 <= unit && unit < 0xdc00
}

fn is_low(unit: u32) -> bool
    ensures { result ≡ is_low_surrogate unit }
{
    0xdc00 <= unit && unit < 0xe000
}

/// Appends the character, or U+FFFD where the code is that of none.
fn push_code(out: &mut String, code: u32) -> Result<(), AllocError>
    ensures scalar { IsScalar code → OnOk result (string_bytes out.new ≡ string_bytes out.old ++ encode_utf8 code) }
    ensures other { ¬ (IsScalar code) → OnOk result (string_bytes out.new ≡ string_bytes out.old ++ replacement) }
{
    match char::from_u32(code) {
        Some(c) => out.push(c),
        None => out.push_str("\u{fffd}"),
    }
}

/// Appends U+FFFD if the code unit is a high surrogate and no low one follows.
pub(crate) fn push_alone(out: &mut String, unit: u32) -> Result<(), AllocError>
    ensures { OnOk result (string_bytes out.new ≡ string_bytes out.old ++ alone unit) }
{
    if is_high(unit) {
        out.push_str("\u{fffd}")?;
    }
    Ok(())
}

fn push_unit(out: &mut String, before: u32, unit: u32) -> Result<(), AllocError>
    requires { unit < 1_114_112 }
    ensures { OnOk result (string_bytes out.new ≡ string_bytes out.old ++ unit_text before unit) }
{
    if is_high(before) && is_low(unit) {
        return push_code(out, 0x10000 + ((before - 0xd800) * 1024 + (unit - 0xdc00)));
    }
    push_alone(out, before)?;
    if is_high(unit) {
        return Ok(());
    }
    push_code(out, unit)
}

/// Returns the character of a backslash and this byte.
fn short_value(byte: u8) -> u8
    ensures { result ≡ short_value byte }
{
    match byte {
        b'b' => 8,
        b'f' => 12,
        b'n' => b'\n',
        b'r' => b'\r',
        b't' => b'\t',
        _ => byte,
    }
}

fn push_short(out: &mut String, before: u32, byte: u8) -> Result<(), AllocError>
    requires { byte < 128 }
    ensures { OnOk result (string_bytes out.new ≡ string_bytes out.old ++ (alone before ++ short_value byte ∷ [])) }
{
    push_alone(out, before)?;
    out.push(short_value(byte) as char)
}

/// Appends the text of the escaped character that comes right after a code unit, or after none, which is 0. Gives its
/// own code unit.
pub(crate) fn push_escape(out: &mut String, before: u32, escape: Escape) -> Result<u32, AllocError>
    requires { IsTrue (is_character (escape_of escape)) }
    ensures { IfOk result (λ unit. (more : List Character) →
        string_bytes out.old ++ text_behind before (escape_of escape ∷ more)
        ≡ string_bytes out.new ++ text_behind unit more) }
{
    match escape {
        Escape::Short(byte) => {
            push_short(out, before, byte)?;
            Ok(0)
        }
        Escape::Unicode(a, b, c, d) => {
            let unit = hex_value(a) * 4096
                + (hex_value(b) * 256 + (hex_value(c) * 16 + hex_value(d)));
            push_unit(out, before, unit)?;
            Ok(unit)
        }
    }
}
