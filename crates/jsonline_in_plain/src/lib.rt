//! A slow and simple reader of JSON lines, for tests of `jsonline_in` to compare with. It calls no function of that
//! crate.
//!
//! - This file: `fields_of` collects all fields of the object, and then sets them.
//! - `line`: the start of the object, and errors; `text`: names and values; `tokens`: arrays, as compact JSON.
//! - `escape`: escape sequences; `bare`: numbers and literals; `scan`: white space, bytes and digits.
#![tactic(auto)]

ghost use Rattle.std.specs.Prelude.{◌≡◌, ◌<◌, ◌++◌, ◌∷◌, [], List, length, string_bytes, IfErr, OnOk};
ghost use Rattle.log_model.specs.Field.{Field, set_all};
ghost use Rattle.log_model.specs.ObjectLine.{IsObjectLine};
ghost use Rattle.log_model.specs.Value.{object, field_name, member_name, value_fields, member_fields};
ghost use Rattle.jsonline_in.specs.Clauses.{ReadsAs, mapped};
ghost use Rattle.jsonline_in.specs.Faults.{Refuses, IsFault};
ghost use Rattle.jsonline_in.specs.Reading.{nested_at, value_at, item_at, items_at, text_at};

mod bare;
mod escape;
mod line;
mod scan;
mod text;
mod tokens;

use jsonline_in::{JsonFault, ScanFault};
use scan::{expect, past, skip_space};
use std::alloc::{AllocError, Global};
use std::marker::Model;
use vl_row::FieldList;

/// A field with a name that is not empty.
#[derive(Drop)]
struct Pair {
    name: String,
    value: String,
}

impl Model for Pair {
    ghost Value = { Field };

    ghost view = { λ p. (string_bytes p.name, string_bytes p.value) };

    ghost invariant = { λ p. 0 < length (string_bytes p.name) };
}

/// The fields collected so far.
#[derive(Drop)]
struct Listing {
    alloc: Global,
    pairs: Vec<Pair>,
}

impl Listing {
    /// Adds a field. An empty name stands for `_msg`.
    fn push(&mut self, name: &str, value: String) -> Result<(), AllocError>
        ensures { OnOk result (self.new.pairs.items
            ≡ self.old.pairs.items ++ (field_name name.now, string_bytes value) ∷ []) }
    {
        let name = if name.is_empty() { "_msg" } else { name };
        let name = String::from_str(self.alloc, name)?;
        Ok(self.pairs.push(Pair { name, value })?)
    }

    /// Adds the fields of the value at the start, which has this name. Returns the rest.
    #[cycle(list)]
    fn value<'a>(&mut self, name: &str, text: &'a str, depth: u32) -> Result<&'a str, ScanFault>
        ensures { ReadsAs (λ rest. (self.new.pairs.items, rest.now)) result
            (mapped (λ value. self.old.pairs.items ++ value_fields name.now value)
            (value_at (nested_at depth) text.now)) }
    {
        if let Some(inside) = past(text, b'{') {
            if depth == 0 {
                return Err(ScanFault::TooDeep);
            }
            let before = format!(in self.alloc; "{name}.")?;
            return self.members(before.as_str(), inside, depth - 1);
        }
        let (value, rest) = text::flat(self.alloc, text, depth)?;
        self.push(name, value)?;
        Ok(rest)
    }

    #[cycle(list)]
    fn member<'a>(&mut self, before: &str, text: &'a str, depth: u32) -> Result<&'a str, ScanFault>
        ensures { ReadsAs (λ rest. (self.new.pairs.items, rest.now)) result
            (mapped (λ x. self.old.pairs.items ++ value_fields (before.now ++ member_name x.0) x.1)
            (item_at (nested_at depth) object text.now)) }
    {
        let (own, rest) = text::name(self.alloc, text)?;
        let name = format!(in self.alloc; "{before}{own}")?;
        self.value(name.as_str(), rest, depth)
    }

    /// Adds the fields of the members after an opening brace, with this prefix before their names. Returns the rest.
    #[cycle(list)]
    fn members<'a>(&mut self, before: &str, text: &'a str, depth: u32) -> Result<&'a str, ScanFault>
        ensures { ReadsAs (λ rest. (self.new.pairs.items, rest.now)) result
            (mapped (λ members. self.old.pairs.items ++ member_fields before.now members)
            (items_at (nested_at depth) object text.now)) }
    {
        let start = skip_space(text);
        if let Some(end) = past(start, b'}') {
            return Ok(end);
        }
        let mut rest = self.member(before, start, depth)?;
        'members: while let Some(next) = past(skip_space(rest), b',') {
            rest = self.member(before, skip_space(next), depth)?;
        }
        expect(skip_space(rest), b'}')
    }
}

/// Collects the fields of an object. The text is the whole object after its opening brace.
#[tactic(auto, unfolding(jsonline_in::specs::Reading::text_at, jsonline_in::specs::Reading::end_at))]
fn collect_fields(alloc: Global, inside: &str) -> Result<Vec<Pair>, ScanFault>
    ensures { ReadsAs (λ list. (list.items, [])) result (mapped (member_fields []) (text_at inside.now)) }
{
    let pairs = Vec::new(alloc);
    let mut listing = Listing { alloc, pairs };
    let rest = skip_space(listing.members("", inside, 63)?);
    if !rest.is_empty() {
        return Err(ScanFault::Stuck { left: rest.len() });
    }
    Ok(listing.pairs)
}

/// Reads the fields of a line, like [`jsonline_in::fields_of`].
pub fn fields_of(alloc: Global, line: &[u8], out: &mut FieldList) -> Result<(), JsonFault>
    ensures read { OnOk result
        ((fields : List Field) × IsObjectLine line.now fields × (out.new ≡ set_all out.old fields)) }
    ensures only { OnOk result
        ((fields : List Field) → IsObjectLine line.now fields → out.new ≡ set_all out.old fields) }
    ensures refused { IfErr result (λ fault. Refuses fault line.now) }
    ensures fault { IfErr result (λ fault. IsFault fault line.now) }
{
    let inside = line::open_object(line)?;
    let list = match collect_fields(alloc, inside) {
        Ok(list) => list,
        Err(stop) => return Err(line::line_fault(line, stop)),
    };
    for pair in &list {
        out.set(alloc, pair.name.as_str(), pair.value.as_str())?;
    }
    Ok(())
}
