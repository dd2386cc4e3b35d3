//! From the members of an object to its fields.
ghost use Rattle.std.specs.Prelude.{◌≡◌, ◌<◌, ◌++◌, List, [], ◌∷◌, length, take, string_bytes, IfOk, OnOk, IfErr};
ghost use Rattle.std.specs.Prelude.{IfSome};
ghost use Rattle.std.specs.Option.{option_map};
ghost use Rattle.log_model.specs.Value.{object, field_name, member_name, value_fields, member_fields};
ghost use Rattle.jsonline_in.specs.Reading.{label_at, flat_at, nested_at, value_at, item_at, items_at, text_at};
ghost use Rattle.jsonline_in.specs.Near.{note, note_all};
ghost use Rattle.jsonline_in.specs.Clauses.{ReadsAs, mapped, or_empty, or_kept, flat_text, value_set};

use crate::bare::bare;
use crate::copy::{Bracket, copy_nested};
use crate::noting::Noting;
use crate::scan::{after_space, expect, past};
use crate::scan_fault::ScanFault;
use crate::text::string;
use std::alloc::{AllocError, Global};

/// Returns the name of a member, up to its value. Where a character is escaped, its text is appended to `names`
/// instead.
#[inline(always)]
fn name<'a>(text: &'a str, names: &mut String) -> Result<(Option<&'a str>, &'a str), ScanFault>
    ensures read { ReadsAs (λ x. (string_bytes names.new ++ or_empty (option_map (λ t. t.now) x.0), x.1.now)) result
        (mapped (λ label. string_bytes names.old ++ member_name label) (label_at object text.now)) }
    ensures kept { IfOk result (λ x. IfSome x.0 (λ _. string_bytes names.new ≡ string_bytes names.old)) }
{
    let (name, rest) = string(expect(text, b'"')?, names)?;
    let rest = expect(after_space(rest), b':')?;
    Ok((name, after_space(rest)))
}

/// Returns the text of the value at the start, which is not an object. Where it is put together, it is left in `values`
/// instead.
#[inline(always)]
fn flat<'a>(
    text: &'a str,
    depth: u32,
    values: &mut String,
    spare: &mut String,
) -> Result<(Option<&'a str>, &'a str), ScanFault>
    ensures { ReadsAs (λ x. (or_kept (option_map (λ t. t.now) x.0) (string_bytes values.new), x.1.now)) result
        (mapped flat_text (flat_at (nested_at depth) text.now)) }
{
    if let Some(inside) = past(text, b'"') {
        values.clear();
        return string(inside, values);
    }
    if let Some(inside) = past(text, b'[') {
        values.clear();
        return Ok((
            None,
            copy_nested(inside, Bracket::Square, depth, values, spare)?,
        ));
    }
    let (token, rest) = bare(text)?;
    Ok((Some(token), rest))
}

#[inline(always)]
fn set_named(alloc: Global, name: &str, value: &str, out: &mut Noting) -> Result<(), AllocError>
    ensures { OnOk result (out.new ≡ note out.old (field_name name.now) value.now) }
{
    if name.is_empty() {
        return out.set(alloc, "_msg", value);
    }
    out.set(alloc, name, value)
}

/// Sets the field of the name that is in `names`, with this text after it.
#[inline(always)]
fn set_flat(
    alloc: Global,
    own: Option<&str>,
    value: &str,
    names: &mut String,
    out: &mut Noting,
) -> Result<(), AllocError>
    ensures set { OnOk result (out.new ≡ note out.old
        (field_name (string_bytes names.old ++ or_empty (option_map (λ t. t.now) own.entry))) value.now) }
    ensures names { OnOk result
        (take (length (string_bytes names.old)) (string_bytes names.new) ≡ string_bytes names.old) }
{
    let Some(own) = own else {
        return set_named(alloc, names.as_str(), value, out);
    };
    if names.is_empty() {
        return set_named(alloc, own, value, out);
    }
    names.push_str(own)?;
    set_named(alloc, names.as_str(), value, out)
}

#[inline(never)]
fn push_own(own: Option<&str>, names: &mut String) -> Result<(), AllocError>
    ensures { OnOk result (string_bytes names.new
        ≡ (string_bytes names.old ++ or_empty (option_map (λ t. t.now) own.entry)) ++ (46 ∷ [])) }
{
    if let Some(own) = own {
        names.push_str(own)?;
    }
    names.push_str(".")
}

/// Sets fields as their members are read. Its buffers are used again from one value to the next.
#[derive(Drop)]
struct Setter {
    alloc: Global,
    /// What stands before the names of the members that are read: the name of their object and a point.
    names: String,
    /// The text of a value, where it is put together.
    values: String,
    /// The text of a string inside an array, which is read only to find its end.
    spare: String,
}

impl Setter {
    fn new(alloc: Global) -> Setter
        ensures { string_bytes result.names ≡ [] }
    {
        Setter {
            alloc,
            names: String::new(alloc),
            values: String::new(alloc),
            spare: String::new(alloc),
        }
    }

    /// Sets the members after an opening brace, and gives what follows the closing one.
    #[cycle(set)]
    fn members<'a>(
        &mut self,
        text: &'a str,
        depth: u32,
        out: &mut Noting,
    ) -> Result<&'a str, ScanFault>
        ensures set { ReadsAs (λ rest. (out.new, rest.now)) result
            (mapped (λ members. note_all out.old (member_fields (string_bytes self.old.names) members))
            (items_at (nested_at depth) object text.now)) }
        ensures names { OnOk result (string_bytes self.new.names ≡ string_bytes self.old.names) }
    {
        let start = after_space(text);
        if let Some(end) = past(start, b'}') {
            return Ok(end);
        }
        let mut rest = self.member(start, depth, out)?;
        'members: loop {
            let here = after_space(rest);
            let Some(next) = past(here, b',') else {
                return expect(here, b'}');
            };
            rest = self.member(after_space(next), depth, out)?;
        }
    }

    /// Sets the member at the start, and gives what follows it.
    #[cycle(set)]
    #[inline(always)]
    fn member<'a>(
        &mut self,
        text: &'a str,
        depth: u32,
        out: &mut Noting,
    ) -> Result<&'a str, ScanFault>
        ensures set { ReadsAs (λ rest. (out.new, rest.now)) result
            (mapped (λ x. note_all out.old (value_fields (string_bytes self.old.names ++ member_name x.0) x.1))
            (item_at (nested_at depth) object text.now)) }
        ensures names { OnOk result (string_bytes self.new.names ≡ string_bytes self.old.names) }
    {
        let before = self.names.as_str().len();
        let (own, rest) = name(text, &mut self.names)?;
        let rest = self.value(own, rest, depth, out)?;
        self.names.truncate(before);
        Ok(rest)
    }

    /// Sets the value at the start, whose name is in `names`, with this text after it. The name that was there stays
    /// before what is added.
    #[cycle(set)]
    #[inline(always)]
    fn value<'a>(
        &mut self,
        own: Option<&str>,
        text: &'a str,
        depth: u32,
        out: &mut Noting,
    ) -> Result<&'a str, ScanFault>
        ensures set { ReadsAs (λ rest. (out.new, rest.now)) result
            (mapped (value_set out.old (string_bytes self.old.names ++ or_empty (option_map (λ t. t.now) own.entry)))
            (value_at (nested_at depth) text.now)) }
        ensures names { OnOk result
            (take (length (string_bytes self.old.names)) (string_bytes self.new.names) ≡ string_bytes self.old.names) }
    {
        if let Some(inside) = past(text, b'{') {
            if depth == 0 {
                return Err(ScanFault::TooDeep);
            }
            push_own(own, &mut self.names)?;
            return self.members(inside, depth - 1, out);
        }
        let (value, rest) = flat(text, depth, &mut self.values, &mut self.spare)?;
        let value = value.unwrap_or(self.values.as_str());
        set_flat(self.alloc, own, value, &mut self.names, out)?;
        Ok(rest)
    }
}

/// Sets the members of the object that is all of the text, after white space and its opening brace.
#[tactic(auto, unfolding(crate::specs::Reading::text_at, crate::specs::Reading::end_at))]
pub(crate) fn set_text(alloc: Global, inside: &str, out: &mut Noting) -> Result<(), ScanFault>
    ensures { ReadsAs (λ _. (out.new, [])) result
        (mapped (λ members. note_all out.old (member_fields [] members)) (text_at inside.now)) }
{
    let mut setter = Setter::new(alloc);
    let rest = after_space(setter.members(inside, 63, out)?);
    if !rest.is_empty() {
        return Err(ScanFault::Stuck { left: rest.len() });
    }
    Ok(())
}
