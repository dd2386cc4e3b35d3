//! What is kept of the fields of a line.
ghost use Rattle.std.specs.Prelude.{◌≡◌, ◌<◌, [], length, IsTrue, IsFalse, IfOk, IfErr, OnOk, Some, None, ◌↔◌};
ghost use Rattle.std.specs.Str.{bytes_eq};
ghost use Rattle.jsonline_in.specs.Near.{is_noted};
ghost use Rattle.jsonline_in.specs.declared.scan_fault.ScanFault.TheVariants.{Memory};

use crate::scan_fault::ScanFault;
use field_setter::FieldSetter;
use std::alloc::{AllocError, Global};
use std::marker::Model;
use std::mem;
use vl_row::{FieldList, Text};

/// The most bytes of a short name.
const SHORT: usize = 128;

/// How many bytes at the end of two names are compared before the others.
const END: usize = 64;

/// Notes fields that are set one after another: all of them, or those whose names are short, and one of the others.
#[derive(Drop)]
pub(crate) struct Noting {
    all: bool,
    fields: FieldSetter,
    far: Option<Text>,
    sure: bool,
    /// How many more bytes of long names are kept.
    budget: usize,
}

impl Model for Noting {
    ghost use Rattle.jsonline_in.specs.Near.{Noted};

    ghost Value = { Noted };

    ghost view = { λ n. record { all = n.all; fields = n.fields; far = n.far; sure = n.sure } };
}

impl Noting {
    ghost use Rattle.std.specs.Prelude.{true};
    ghost use Rattle.jsonline_in.specs.Near.{is_kept, is_noted, note};

    /// Begins with these fields. Of all names those with more than 128 bytes may have `budget` bytes together.
    pub(crate) fn new(alloc: Global, all: bool, fields: FieldList, budget: usize) -> Noting
        ensures { result ≡ record { all = all; fields = fields; far = None; sure = true } }
    {
        Noting {
            all,
            fields: FieldSetter::new(alloc, fields),
            far: None,
            sure: true,
            budget,
        }
    }

    /// Sets a field.
    pub(crate) fn set(&mut self, alloc: Global, name: &str, value: &str) -> Result<(), AllocError>
        requires { 0 < length name.now }
        ensures { OnOk result (self.new ≡ note self.old name.now value.now) }
    {
        if self.keeps(name) {
            self.spend(name)?;
            return self.fields.set(alloc, name, value);
        }
        if value.is_empty() {
            self.sure = self.sure && !is_noted(&self.far, name);
            return Ok(());
        }
        if self.far.is_none() {
            self.far = Some(Text::try_of(alloc, name)?);
        }
        Ok(())
    }

    fn keeps(&self, name: &str) -> bool
        ensures { result ≡ is_kept self.now name.now }
    {
        self.all || name.len() <= SHORT
    }

    /// Takes a name from the budget if it is long. The error is that there is not enough left.
    fn spend(&mut self, name: &str) -> Result<(), AllocError>
        ensures { self.new ≡ self.old }
    {
        if name.len() > SHORT {
            if name.len() > self.budget {
                return Err(AllocError);
            }
            self.budget -= name.len();
        }
        Ok(())
    }

    /// Returns whether what is noted stands for all fields.
    pub(crate) fn is_sure(&self) -> bool
        ensures { result ≡ self.now.sure }
    {
        self.sure
    }

    /// Takes the name that is noted out.
    pub(crate) fn take_far(&mut self) -> Option<Text>
        ensures far { result ≡ self.old.far }
        ensures fields { self.new.fields ≡ self.old.fields }
    {
        mem::replace(&mut self.far, None)
    }

    /// Returns the fields that are kept.
    pub(crate) fn into_fields(self) -> Result<FieldList, ScanFault>
        ensures ok { IfOk result (λ fields. fields ≡ self.fields) }
        ensures err { IfErr result (λ stop. stop ≡ Memory) }
    {
        match self.fields.finish() {
            Ok(fields) => Ok(fields),
            Err(_) => Err(ScanFault::Memory),
        }
    }
}

/// Returns whether a name is the one that is noted.
fn is_noted(far: &Option<Text>, name: &str) -> bool
    ensures { result ≡ is_noted far.now name.now }
{
    match far {
        None => false,
        Some(far) => is_same(far.as_str(), name),
    }
}

/// Returns whether two names are the same. Names of one line mostly differ at the end.
fn is_same(one: &str, other: &str) -> bool
    ensures { result ≡ bytes_eq one.now other.now }
{
    if ends_alike(one.as_bytes(), other.as_bytes()) {
        return one == other;
    }
    false
}

/// Returns whether two texts have the same length, and the same bytes at the end.
fn ends_alike(one: &[u8], other: &[u8]) -> bool
    ensures { one.now ≡ other.now → IsTrue result }
{
    if one.len() != other.len() {
        return false;
    }
    let from = one.len().saturating_sub(END);
    one[from..] == other[from..]
}
