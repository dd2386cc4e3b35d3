//! What it takes to ask a filter of one subject after another.
ghost use Rattle.std.specs.Prelude.{◌≡◌, ◌<◌, IfOk, OnOk, slice_get, slice_index, ℕ, Some};
ghost use Rattle.regex.specs.Strings.{matcher_pattern};
ghost use Rattle.lq_ast.specs.Patterns.{is_found};
ghost use Rattle.lq_filter.specs.Reads.{FindsAs};

use crate::pattern::Pattern;
use regex::Matcher;
use std::alloc::{AllocError, Global};

/// The matcher of one pattern.
#[derive(Drop)]
struct Slot<'p> {
    text: &'p str,
    matcher: Matcher<'p>,
    ghost reads: { FindsAs (matcher_pattern matcher) text.now },
}

impl<'p> Slot<'p> {
    fn new(alloc: Global, pattern: &'p Pattern) -> Result<Slot<'p>, AllocError>
        ensures { IfOk result (λ slot. slot.text.now ≡ pattern.now) }
    {
        let matcher = pattern.matcher(alloc)?;
        Ok(Slot {
            text: pattern.as_str(),
            matcher,
        })
    }

    fn is_found(&mut self, value: &str) -> bool
        ensures value { result ≡ is_found self.old.text.now value.now }
        ensures same { self.new.text ≡ self.old.text }
    {
        self.matcher.is_match(value)
    }
}

/// Where memory is taken from, and the matchers of patterns, each made when its pattern is first asked for. The slot of
/// a pattern is the one with its number.
#[derive(Drop)]
pub struct Asking<'p> {
    pub(crate) alloc: Global,
    slots: Vec<Option<Slot<'p>>>,
}

impl<'p> Asking<'p> {
    /// Begins with no matcher made.
    pub fn new(alloc: Global) -> Asking<'p> {
        Asking {
            alloc,
            slots: Vec::new(alloc),
        }
    }

    /// Returns where memory is taken from.
    pub fn alloc(&self) -> Global {
        self.alloc
    }

    /// Returns whether the pattern is found in the value.
    pub(crate) fn is_found(&mut self, pattern: &'p Pattern, value: &str) -> Result<bool, AllocError>
        ensures { IfOk result (λ found. found ≡ is_found pattern.now value.now) }
    {
        let place = pattern.nth as usize;
        if let Some(Some(slot)) = self.slots.get_mut(place) {
            // a pattern of another filter may have the same number
            if slot.text == pattern.as_str() {
                return Ok(slot.is_found(value));
            }
        }
        let mut slot = Slot::new(self.alloc, pattern)?;
        let found = slot.is_found(value);
        self.keep(place, slot)?;
        Ok(found)
    }

    // Puts the slot there, and makes room for it first.
    fn keep(&mut self, place: usize, slot: Slot<'p>) -> Result<(), AllocError>
        ensures { OnOk result (slice_get self.new.slots.items place ≡ Some (Some slot.entry)) }
    {
        while self.slots.len() <= place {
            self.slots.push(None)?;
        }
        self.slots[place] = Some(slot);
        Ok(())
    }
}
