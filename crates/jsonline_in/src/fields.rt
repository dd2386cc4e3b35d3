//! From a line to its fields.
ghost use Rattle.std.specs.Prelude.{◌≡◌, List, [], Ok, IfOk, OnOk, IfErr, true};
ghost use Rattle.log_model.specs.Field.{Field, set_all};
ghost use Rattle.log_model.specs.ObjectLine.{IsObjectLine};
ghost use Rattle.log_model.specs.Value.{Items, member_fields};
ghost use Rattle.jsonline_in.specs.Faults.{Refuses, IsFault};
ghost use Rattle.jsonline_in.specs.Near.{AreKnown, note_all, start};
ghost use Rattle.jsonline_in.specs.Reading.{text_at};
ghost use Rattle.jsonline_in.specs.Clauses.{Fails, ReadsAs, mapped};
ghost use Rattle.jsonline_in.specs.declared.scan_fault.ScanFault.TheVariants.{Memory};

use crate::fault::JsonFault;
use crate::line::{fault_of, opened};
use crate::noting::Noting;
use crate::scan_fault::ScanFault;
use crate::set::set_text;
use std::alloc::Global;
use std::mem;
use vl_row::{FieldList, Text};

/// How many times the bytes of a line its long names may have together, where all are kept.
const LONG_NAMES: usize = 64;

/// Sets the flattened fields of the object in `line`, in their order, so that later ones count over earlier ones.
/// After a fault `out` holds any fields.
pub fn fields_of(alloc: Global, line: &[u8], out: &mut FieldList) -> Result<(), JsonFault>
    ensures read { OnOk result
        ((fields : List Field) × IsObjectLine line.now fields × (out.new ≡ set_all out.old fields)) }

    // A line has one reading.
    ensures only { OnOk result
        ((fields : List Field) → IsObjectLine line.now fields → out.new ≡ set_all out.old fields) }

    // What is refused is not a line.
    ensures refused { IfErr result (λ fault. Refuses fault line.now) }

    // Which fault it is.
    ensures fault { IfErr result (λ fault. IsFault fault line.now) }
{
    let inside = opened(line)?;
    match set_fields(alloc, inside, out) {
        Ok(()) => Ok(()),
        Err(stop) => Err(fault_of(line, stop)),
    }
}

/// Sets the fields of the object after its opening brace.
fn set_fields(alloc: Global, inside: &str, out: &mut FieldList) -> Result<(), ScanFault>
    ensures { ReadsAs (λ _. (out.new, [])) result
        (mapped (λ members. set_all out.old (member_fields [] members)) (text_at inside.now)) }
{
    let taken = mem::replace(out, FieldList::new(alloc));
    match with_members(alloc, inside, taken) {
        Ok(fields) => {
            *out = fields;
            Ok(())
        }
        Err(stop) => Err(stop),
    }
}

/// Returns these fields with those of the object after its opening brace set.
fn with_members(alloc: Global, inside: &str, fields: FieldList) -> Result<FieldList, ScanFault>
    ensures { ReadsAs (λ new. (new, [])) result
        (mapped (λ members. set_all fields (member_fields [] members)) (text_at inside.now)) }
{
    let mut noting = Noting::new(alloc, true, fields, usize::MAX);
    match set_text(alloc, inside, &mut noting) {
        Ok(()) => noting.into_fields(),
        Err(stop) => Err(stop),
    }
}

/// The fields that a line says: all of them, or else those whose names have at most 128 bytes, and another name that
/// has a value.
#[derive(Drop)]
pub struct Said {
    pub fields: FieldList,
    pub far: Option<Text>,
}

/// Returns the flattened fields of the object in `line`, of which `room` are expected. Of names with more than 128
/// bytes only one is returned, and no field, unless `all` are asked for: so a name that many members share is not
/// copied for each.
///
/// All are returned too where the name that was noted is removed by a later member. Then, and where `all` are asked
/// for, the long names may have 64 times the bytes of the line together, and more than that is out of memory.
pub fn said_fields_of(alloc: Global, line: &[u8], all: bool, room: usize) -> Result<Said, JsonFault>
    ensures read { IfOk result (λ said. (fields : List Field) × IsObjectLine line.now fields
        × AreKnown all (set_all [] fields) said.fields said.far) }
    // What is refused is not a line.
    ensures refused { IfErr result (λ fault. Refuses fault line.now) }
    // Which fault it is.
    ensures fault { IfErr result (λ fault. IsFault fault line.now) }
{
    let inside = opened(line)?;
    match read_inside(alloc, inside, all, room) {
        Ok(said) => Ok(said),
        Err(stop) => Err(fault_of(line, stop)),
    }
}

/// Returns the fields of the object after its opening brace.
fn read_inside(alloc: Global, inside: &str, all: bool, room: usize) -> Result<Said, ScanFault>
    ensures says { IfOk result (λ said. (members : Items) × (text_at inside.now ≡ Ok (members, []))
        × AreKnown all (set_all [] (member_fields [] members)) said.fields said.far) }
    ensures fails { IfErr result (λ stop. Fails stop (text_at inside.now)) }
{
    match noted(alloc, inside, all, room) {
        Ok(noting) => {
            if noting.is_sure() {
                finished(noting)
            } else {
                said_whole(alloc, inside, room)
            }
        }
        Err(stop) => Err(stop),
    }
}

/// Returns all fields of the object after its opening brace.
fn said_whole(alloc: Global, inside: &str, room: usize) -> Result<Said, ScanFault>
    ensures says { IfOk result (λ said. (members : Items) × (text_at inside.now ≡ Ok (members, []))
        × AreKnown true (set_all [] (member_fields [] members)) said.fields said.far) }
    ensures fails { IfErr result (λ stop. Fails stop (text_at inside.now)) }
{
    match noted(alloc, inside, true, room) {
        Ok(noting) => finished(noting),
        Err(stop) => Err(stop),
    }
}

/// Returns what is noted of the members of the object after its opening brace.
fn noted(alloc: Global, inside: &str, all: bool, room: usize) -> Result<Noting, ScanFault>
    ensures says { IfOk result (λ noting. (members : Items) × (text_at inside.now ≡ Ok (members, []))
        × (noting ≡ note_all (start all) (member_fields [] members))) }
    ensures fails { IfErr result (λ stop. Fails stop (text_at inside.now)) }
{
    let fields = FieldList::with_room(alloc, room)?;
    let budget = inside.len().saturating_mul(LONG_NAMES);
    let mut noting = Noting::new(alloc, all, fields, budget);
    match set_text(alloc, inside, &mut noting) {
        Ok(()) => Ok(noting),
        Err(stop) => Err(stop),
    }
}

fn finished(mut noting: Noting) -> Result<Said, ScanFault>
    ensures ok { IfOk result (λ said. (said.fields ≡ noting.fields) × (said.far ≡ noting.far)) }
    ensures err { IfErr result (λ stop. stop ≡ Memory) }
{
    let far = noting.take_far();
    match noting.into_fields() {
        Ok(fields) => Ok(Said { fields, far }),
        Err(stop) => Err(stop),
    }
}
