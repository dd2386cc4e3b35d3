// Values inside arrays, which are copied token by token without the white space between them.
ghost use Rattle.std.specs.Prelude.{◌≡◌, ◌<◌, ◌++◌, ◌∷◌, [], string_bytes};
ghost use Rattle.log_model.specs.Token.{string_source, scalar_source};
ghost use Rattle.log_model.specs.Value.{closing, opening, tokens, series, label_tokens};
ghost use Rattle.jsonline_in.specs.Reading.{name_at, characters_at, bare_at, label_at, nested_at, value_at, item_at};
ghost use Rattle.jsonline_in.specs.Reading.{items_at};
ghost use Rattle.jsonline_in.specs.Clauses.{ReadsAs, mapped, kind_of, compact};

use crate::bare::bare;
use crate::scan::{after_space, expect, past, prefix};
use crate::scan_fault::ScanFault;
use crate::text::string;

/// An array or an object, by its brackets.
#[derive(Clone, Copy)]
pub(crate) enum Bracket {
    Square,
    Curly,
}

fn closing(bracket: Bracket) -> u8
    ensures value { result ≡ closing (kind_of bracket) }
    ensures ascii { result < 128 }
{
    match bracket {
        Bracket::Square => b']',
        Bracket::Curly => b'}',
    }
}

fn opening_text(bracket: Bracket) -> &'static str
    ensures { result.now ≡ opening (kind_of bracket) ∷ [] }
{
    match bracket {
        Bracket::Square => "[",
        Bracket::Curly => "{",
    }
}

fn closing_text(bracket: Bracket) -> &'static str
    ensures { result.now ≡ closing (kind_of bracket) ∷ [] }
{
    match bracket {
        Bracket::Square => "]",
        Bracket::Curly => "}",
    }
}

/// Copies the string after its opening quotation mark as it is spelled.
fn copy_string<'a>(
    text: &'a str,
    copied: &mut String,
    spare: &mut String,
) -> Result<&'a str, ScanFault>
    ensures { ReadsAs (λ rest. (string_bytes copied.new, rest.now)) result
        (mapped (λ characters. string_bytes copied.old ++ string_source characters) (characters_at text.now)) }
{
    spare.clear();
    let (_, rest) = string(text, spare)?;
    copied.push_str("\"")?;
    copied.push_str(prefix(text, rest))?;
    Ok(rest)
}

/// Copies the name of a member and the colon, up to the member's value.
fn copy_name<'a>(
    text: &'a str,
    copied: &mut String,
    spare: &mut String,
) -> Result<&'a str, ScanFault>
    ensures { ReadsAs (λ rest. (string_bytes copied.new, rest.now)) result
        (mapped (λ label. string_bytes copied.old ++ compact (label_tokens label)) (name_at text.now)) }
{
    let rest = copy_string(expect(text, b'"')?, copied, spare)?;
    let rest = expect(after_space(rest), b':')?;
    copied.push_str(":")?;
    Ok(after_space(rest))
}

fn copy_label<'a>(
    text: &'a str,
    bracket: Bracket,
    copied: &mut String,
    spare: &mut String,
) -> Result<&'a str, ScanFault>
    ensures { ReadsAs (λ rest. (string_bytes copied.new, rest.now)) result
        (mapped (λ label. string_bytes copied.old ++ compact (label_tokens label))
        (label_at (kind_of bracket) text.now)) }
{
    match bracket {
        Bracket::Square => Ok(text),
        Bracket::Curly => copy_name(text, copied, spare),
    }
}

fn copy_bare<'a>(text: &'a str, copied: &mut String) -> Result<&'a str, ScanFault>
    ensures { ReadsAs (λ rest. (string_bytes copied.new, rest.now)) result
        (mapped (λ token. string_bytes copied.old ++ scalar_source token) (bare_at text.now)) }
{
    let (_, rest) = bare(text)?;
    copied.push_str(prefix(text, rest))?;
    Ok(rest)
}

/// Copies the value at the start, where this many brackets more may be open, and gives what follows it.
#[cycle(copied)]
fn copy_value<'a>(
    text: &'a str,
    depth: u32,
    copied: &mut String,
    spare: &mut String,
) -> Result<&'a str, ScanFault>
    ensures { ReadsAs (λ rest. (string_bytes copied.new, rest.now)) result
        (mapped (λ value. string_bytes copied.old ++ compact (tokens value)) (value_at (nested_at depth) text.now)) }
{
    if let Some(inside) = past(text, b'{') {
        return copy_nested(inside, Bracket::Curly, depth, copied, spare);
    }
    if let Some(inside) = past(text, b'"') {
        return copy_string(inside, copied, spare);
    }
    if let Some(inside) = past(text, b'[') {
        return copy_nested(inside, Bracket::Square, depth, copied, spare);
    }
    copy_bare(text, copied)
}

/// Copies the array or the object after its opening bracket.
#[cycle(copied)]
#[inline(never)]
pub(crate) fn copy_nested<'a>(
    text: &'a str,
    bracket: Bracket,
    depth: u32,
    copied: &mut String,
    spare: &mut String,
) -> Result<&'a str, ScanFault>
    ensures { ReadsAs (λ rest. (string_bytes copied.new, rest.now)) result
        (mapped (λ value. string_bytes copied.old ++ compact (tokens value))
        (nested_at depth (kind_of bracket) text.now)) }
{
    if depth == 0 {
        return Err(ScanFault::TooDeep);
    }
    copied.push_str(opening_text(bracket))?;
    copy_items(text, bracket, depth - 1, copied, spare)
}

/// Copies the items after an opening bracket, and the closing one.
#[cycle(copied)]
fn copy_items<'a>(
    text: &'a str,
    bracket: Bracket,
    depth: u32,
    copied: &mut String,
    spare: &mut String,
) -> Result<&'a str, ScanFault>
    ensures { ReadsAs (λ rest. (string_bytes copied.new, rest.now)) result
        (mapped (λ items. string_bytes copied.old ++ compact (series (kind_of bracket) [] items))
        (items_at (nested_at depth) (kind_of bracket) text.now)) }
{
    let start = after_space(text);
    if let Some(end) = past(start, closing(bracket)) {
        copied.push_str(closing_text(bracket))?;
        return Ok(end);
    }
    let mut rest = copy_item(start, bracket, depth, copied, spare)?;
    'items: loop {
        let here = after_space(rest);
        let Some(next) = past(here, b',') else {
            let end = expect(here, closing(bracket))?;
            copied.push_str(closing_text(bracket))?;
            return Ok(end);
        };
        copied.push_str(",")?;
        rest = copy_item(after_space(next), bracket, depth, copied, spare)?;
    }
}

#[cycle(copied)]
fn copy_item<'a>(
    text: &'a str,
    bracket: Bracket,
    depth: u32,
    copied: &mut String,
    spare: &mut String,
) -> Result<&'a str, ScanFault>
    ensures { ReadsAs (λ rest. (string_bytes copied.new, rest.now)) result
        (mapped (λ x. string_bytes copied.old ++ (compact (label_tokens x.0) ++ compact (tokens x.1)))
        (item_at (nested_at depth) (kind_of bracket) text.now)) }
{
    let rest = copy_label(text, bracket, copied, spare)?;
    copy_value(rest, depth, copied, spare)
}
