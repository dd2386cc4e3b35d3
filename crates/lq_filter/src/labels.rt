ghost use Rattle.std.specs.Prelude.{◌≡◌, ◌+◌, ℕ, Err, length, flat_map, IfOk, IfErr, IsOk, IsTrue};
ghost use Rattle.std.specs.List.{AllByRecursion, list_all};
ghost use Rattle.lq_ast.specs.Holds.{passes, selects};
ghost use Rattle.lq_ast.specs.Patterns.{CanBeRead, patterns_of_test};
ghost use Rattle.lq_ast.specs.View.{groups_of, test_of, tests_of};
ghost use Rattle.lq_filter.specs.Labels.{groups_of as prepared_groups, how_of, test_of as prepared_test};
ghost use Rattle.lq_filter.specs.Labels.{tests_of as prepared_tests, text_of};
ghost use Rattle.lq_filter.specs.Refusal.{IsRefusal};

use crate::asking::Asking;
use crate::fault::PrepareFault;
use crate::pattern::Pattern;
use crate::room::Room;
use lq_ast::{Group, How, LabelTest, Select};
use std::alloc::AllocError;
use std::marker::Model;
use vl_row::{Stream, Text};

/// A selector of streams, whose patterns are read.
#[derive(Drop)]
pub struct Selector {
    groups: Vec<PreparedGroup>,
}

#[derive(Drop)]
struct PreparedGroup {
    tests: Vec<PreparedTest>,
}

#[derive(Drop)]
struct PreparedTest {
    name: Text,
    asked: Asked,
}

/// What is asked of a label's value.
#[derive(Drop)]
enum Asked {
    Is(Text),
    IsNot(Text),
    Matches(WholePattern),
    MatchesNot(WholePattern),
}

/// A pattern that a whole value has to match.
#[derive(Drop)]
struct WholePattern {
    text: Text,
    pattern: Pattern,
}

impl Model for WholePattern {
    ghost use Rattle.std.specs.Prelude.{◌≡◌, ℕ, List};
    ghost use Rattle.lq_ast.specs.Patterns.{whole};

    ghost Value = { List ℕ };

    ghost view = { λ p. p.text };

    ghost invariant = { λ p. p.pattern ≡ whole p.text };
}

impl Selector {
    /// Prepares a selector, whose first pattern has the number `nth`, and raises it by the number of patterns.
    pub(crate) fn new(
        room: &mut Room,
        select: &Select,
        nth: &mut u32,
    ) -> Result<Selector, PrepareFault>
        ensures same { IfOk result (λ selector. prepared_groups selector ≡ groups_of select.now) }
        ensures counted { IsOk result →
            nth.new ≡ nth.old + length (flat_map (flat_map patterns_of_test) (groups_of select.now)) }
        ensures readable { IfOk result
            (λ _. AllByRecursion CanBeRead (flat_map (flat_map patterns_of_test) (groups_of select.now))) }
        ensures refused { IfErr result
            (IsRefusal nth.old (flat_map (flat_map patterns_of_test) (groups_of select.now))) }
    {
        let mut groups = Vec::new(room.alloc);
        for group in select.groups.as_slice() {
            let prepared = PreparedGroup::new(room, group, nth)?;
            groups.push(prepared)?;
        }
        Ok(Selector { groups })
    }

    /// Returns whether it was prepared from this selector.
    pub(crate) fn is_of(&self, select: &Select) -> bool
        ensures { IsTrue result → prepared_groups self.now ≡ groups_of select.now }
    {
        let groups = select.groups.as_slice();
        if self.groups.len() != groups.len() {
            return false;
        }
        for place in 0..self.groups.len() {
            if !self.groups[place].is_of(&groups[place]) {
                return false;
            }
        }
        true
    }

    /// Returns whether some group has all its tests true. Without groups every stream is selected.
    pub fn selects<'p>(
        &'p self,
        asking: &mut Asking<'p>,
        stream: &Stream,
    ) -> Result<bool, AllocError>
        ensures { IfOk result (λ found. found ≡ selects (prepared_groups self.now) stream.now) }
    {
        if self.groups.is_empty() {
            return Ok(true);
        }
        for group in &self.groups {
            let found = group.selects(asking, stream)?;
            if found {
                return Ok(true);
            }
        }
        Ok(false)
    }
}

impl PreparedGroup {
    fn new(room: &mut Room, group: &Group, nth: &mut u32) -> Result<PreparedGroup, PrepareFault>
        ensures same { IfOk result (λ prepared. prepared_tests prepared ≡ tests_of group.now) }
        ensures counted { IsOk result → nth.new ≡ nth.old + length (flat_map patterns_of_test (tests_of group.now)) }
        ensures readable { IfOk result
            (λ _. AllByRecursion CanBeRead (flat_map patterns_of_test (tests_of group.now))) }
        ensures refused { IfErr result (IsRefusal nth.old (flat_map patterns_of_test (tests_of group.now))) }
    {
        let mut tests = Vec::new(room.alloc);
        for test in group.labels.as_slice() {
            let prepared = PreparedTest::new(room, test, nth)?;
            tests.push(prepared)?;
        }
        Ok(PreparedGroup { tests })
    }

    fn is_of(&self, group: &Group) -> bool
        ensures { IsTrue result → prepared_tests self.now ≡ tests_of group.now }
    {
        let labels = group.labels.as_slice();
        if self.tests.len() != labels.len() {
            return false;
        }
        for place in 0..self.tests.len() {
            if !self.tests[place].is_of(&labels[place]) {
                return false;
            }
        }
        true
    }

    fn selects<'p>(&'p self, asking: &mut Asking<'p>, stream: &Stream) -> Result<bool, AllocError>
        ensures { IfOk result (λ found. found ≡ list_all (passes stream.now) (prepared_tests self.now)) }
    {
        for test in &self.tests {
            let found = test.holds(asking, stream)?;
            if !found {
                return Ok(false);
            }
        }
        Ok(true)
    }
}

impl PreparedTest {
    fn new(room: &mut Room, test: &LabelTest, nth: &mut u32) -> Result<PreparedTest, PrepareFault>
        ensures same { IfOk result (λ prepared. prepared_test prepared ≡ test_of test.now) }
        ensures counted { IsOk result → nth.new ≡ nth.old + length (patterns_of_test (test_of test.now)) }
        ensures readable { IfOk result (λ _. AllByRecursion CanBeRead (patterns_of_test (test_of test.now))) }
        ensures refused { IfErr result (IsRefusal nth.old (patterns_of_test (test_of test.now))) }
    {
        let name = test.name.try_copy(room.alloc)?;
        let asked = Asked::new(room, test.how, &test.text, nth)?;
        Ok(PreparedTest { name, asked })
    }

    fn is_of(&self, test: &LabelTest) -> bool
        ensures { IsTrue result → prepared_test self.now ≡ test_of test.now }
    {
        self.name.as_str() == test.name.as_str() && self.asked.is_of(test.how, test.text.as_str())
    }

    fn holds<'p>(&'p self, asking: &mut Asking<'p>, stream: &Stream) -> Result<bool, AllocError>
        ensures { IfOk result (λ found. found ≡ passes stream.now (prepared_test self.now)) }
    {
        let value = stream.value(self.name.as_str());
        match &self.asked {
            Asked::Is(text) => Ok(value == text.as_str()),
            Asked::IsNot(text) => Ok(value != text.as_str()),
            Asked::Matches(pattern) => pattern.is_found(asking, value),
            Asked::MatchesNot(pattern) => Ok(!pattern.is_found(asking, value)?),
        }
    }
}

impl Asked {
    ghost use Rattle.std.specs.Prelude.{[]};

    fn new(room: &mut Room, how: How, text: &Text, nth: &mut u32) -> Result<Asked, PrepareFault>
        ensures how { IfOk result (λ asked. how_of asked ≡ how) }
        ensures text { IfOk result (λ asked. text_of asked ≡ text.now) }
        ensures counted { IsOk result → nth.new ≡ nth.old + length (patterns_of_test ([], how, text.now)) }
        ensures readable { IfOk result (λ _. AllByRecursion CanBeRead (patterns_of_test ([], how, text.now))) }
        ensures refused { IfErr result (IsRefusal nth.old (patterns_of_test ([], how, text.now))) }
    {
        match how {
            How::Is => Ok(Asked::Is(text.try_copy(room.alloc)?)),
            How::IsNot => Ok(Asked::IsNot(text.try_copy(room.alloc)?)),
            How::Matches => Ok(Asked::Matches(WholePattern::new(room, text, nth)?)),
            How::MatchesNot => Ok(Asked::MatchesNot(WholePattern::new(room, text, nth)?)),
        }
    }

    fn is_of(&self, how: How, text: &str) -> bool
        ensures how { IsTrue result → how_of self.now ≡ how }
        ensures text { IsTrue result → text_of self.now ≡ text.now }
    {
        match (self, how) {
            (Asked::Is(own), How::Is) => own.as_str() == text,
            (Asked::IsNot(own), How::IsNot) => own.as_str() == text,
            (Asked::Matches(own), How::Matches) => own.text.as_str() == text,
            (Asked::MatchesNot(own), How::MatchesNot) => own.text.as_str() == text,
            _ => false,
        }
    }
}

impl WholePattern {
    ghost use Rattle.std.specs.Prelude.{[], ◌∷◌};
    ghost use Rattle.lq_ast.specs.Patterns.{is_found, whole};

    fn new(room: &mut Room, text: &Text, nth: &mut u32) -> Result<WholePattern, PrepareFault>
        ensures same { IfOk result (λ pattern. pattern ≡ text.now) }
        ensures counted { IsOk result → nth.new ≡ nth.old + 1 }
        ensures readable { IfOk result (λ _. CanBeRead (text.now, whole text.now)) }
        ensures refused { IfErr result (IsRefusal nth.old ((text.now, whole text.now) ∷ [])) }
    {
        let number = *nth;
        let pattern = Pattern::of_whole(room, text.as_str(), number)?;
        let text = text.try_copy(room.alloc)?;
        *nth = number.checked_add(1).ok_or(PrepareFault::Memory)?;
        Ok(WholePattern { text, pattern })
    }

    /// Returns whether the whole value matches.
    fn is_found<'p>(&'p self, asking: &mut Asking<'p>, value: &str) -> Result<bool, AllocError>
        ensures { IfOk result (λ found. found ≡ is_found (whole self.now) value.now) }
    {
        asking.is_found(&self.pattern, value)
    }
}
