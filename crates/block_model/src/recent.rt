//! Texts that were met lately.

ghost use Rattle.std.specs.Prelude.{◌≡◌, ◌+◌, ◌<◌, ◌≤◌, [], Bool, IfOk, List, bytes_eq, false, length, not, true, ℕ};
ghost use Rattle.std.specs.Prelude.{replicate, slice_index_or, slice_set};
ghost use Rattle.std.specs.List.{list_all, list_any};
ghost use Rattle.block_model.specs.Tags.{AreBytes, IsTagged, eight_at, four_at, slot_at, slot_of, tag_of, tag_of_few};

use std::alloc::{AllocError, Global};
use std::marker::Model;

/// How many texts are remembered at most.
pub const SLOTS: usize = 512;

/// A text that was put, and its tag.
#[derive(Clone, Copy)]
struct Entry<'a> {
    tag: u64,
    text: &'a str,
}

/// Some of the texts that were put: of those that share a slot, the last. A text that is among them need not be sought
/// among all.
///
/// A contract sees it as the list of its slots.
#[derive(Drop)]
pub struct Recent<'a> {
    slots: Vec<Entry<'a>>,
}

impl<'a> Model for Recent<'a> {
    ghost use Rattle.std.specs.Prelude.{◌≡◌, List, length, map, ℕ};
    ghost use Rattle.std.specs.List.{All};
    ghost use Rattle.block_model.specs.Tags.{IsTagged};

    ghost Value = { List (List ℕ) };

    ghost view = { λ r. map (λ s. s.text.now) r.slots.items };

    ghost invariant = { λ r.
        (length r.slots.items ≡ 512) × All (λ s. IsTagged s.tag s.text.now) r.slots.items };
}

impl<'a> Recent<'a> {
    /// Only this text, in each slot.
    pub fn new(alloc: Global, text: &'a str) -> Result<Recent<'a>, AllocError>
        ensures slots { IfOk result (λ recent. recent ≡ replicate 512 text.now) }
        ensures each { (p : List ℕ → Bool) → p text.now ≡ true → IfOk result (λ recent. list_all p recent ≡ true) }
    {
        let tag = tag_of(text.as_bytes());
        let slots = vec![in alloc; Entry { tag, text }; SLOTS]?;
        Ok(Recent { slots })
    }

    /// Puts the text into its slot, and says whether another was there. Where each slot had it, that is not so. What
    /// holds of all that were remembered, and of this one, holds of all that are.
    pub fn insert(&mut self, text: &'a str) -> bool
        ensures new { result ≡ not (bytes_eq (slice_index_or self.old (slot_of text.now) []) text.now) }
        ensures put { self.new ≡ slice_set self.old (slot_of text.now) text.now }
        ensures had { result ≡ false → list_any (bytes_eq text.now) self.old ≡ true }
        ensures each { list_all (bytes_eq text.now) self.old ≡ true → result ≡ false }
        ensures there { list_any (bytes_eq text.now) self.new ≡ true }
        ensures kept { (p : List ℕ → Bool) → list_all p self.old ≡ true → p text.now ≡ true
            → list_all p self.new ≡ true }
    {
        let tag = tag_of(text.as_bytes());
        let entry = Entry { tag, text };
        let slot = slot_at(tag, text.len());
        if have_same_text(self.slots[slot], entry) {
            return false;
        }
        self.slots[slot] = entry;
        true
    }
}

fn have_same_text(held: Entry<'_>, entry: Entry<'_>) -> bool
    requires held { IsTagged held.tag held.text.now }
    requires entry { IsTagged entry.tag entry.text.now }
    ensures { result ≡ bytes_eq held.entry.text.now entry.entry.text.now }
{
    held.tag == entry.tag && are_same(held.text.as_bytes(), entry.text.as_bytes())
}

/// Whether the texts are the same whose tags are equal. The length tells it of short ones.
fn are_same(held: &[u8], text: &[u8]) -> bool
    requires tag { tag_of held.now ≡ tag_of text.now }
    requires held { AreBytes held.now }
    requires text { AreBytes text.now }
    ensures { result ≡ bytes_eq held.now text.now }
{
    held.len() == text.len() && (text.len() < 8 || held == text)
}

/// The slot of a text.
pub fn slot_of(text: &str) -> usize
    ensures slot { result ≡ slot_of text.now }
    ensures below { result < 512 }
{
    slot_at(tag_of(text.as_bytes()), text.len())
}

/// The slot of the texts with this tag and of this length.
fn slot_at(tag: u64, len: usize) -> usize
    ensures slot { result ≡ slot_at tag len }
    ensures below { result < 512 }
{
    let mixed = (tag ^ len as u64).wrapping_mul(0x9e37_79b9_7f4a_7c15);
    (mixed >> 55) as usize
}

/// The tag of a text. It depends on the first eight bytes, the middle eight and the last eight.
#[tactic(auto, unfolding(crate::specs::Tags::tag_of))]
fn tag_of(bytes: &[u8]) -> u64
    ensures { result ≡ tag_of bytes.now }
{
    let len = bytes.len();
    if len >= 8 {
        eight_at(bytes, 0).rotate_left(29)
            ^ eight_at(bytes, len / 2 - 4).rotate_left(47)
            ^ eight_at(bytes, len - 8)
    } else if len >= 4 {
        four_at(bytes, 0) as u64 * 0x1_0000_0000 + four_at(bytes, len - 4) as u64
    } else {
        tag_of_few(bytes)
    }
}

fn tag_of_few(bytes: &[u8]) -> u64
    requires { length bytes.now < 4 }
    ensures { result ≡ tag_of_few bytes.now }
{
    let len = bytes.len();
    if len > 0 {
        bytes[0] as u64 * 65_536 + bytes[len / 2] as u64 * 256 + bytes[len - 1] as u64
    } else {
        0
    }
}

/// The four bytes at this place, as a number.
fn four_at(bytes: &[u8], at: usize) -> u32
    requires { at + 4 ≤ length bytes.now }
    ensures { result ≡ four_at bytes.now at }
{
    u32::from_le_bytes([bytes[at], bytes[at + 1], bytes[at + 2], bytes[at + 3]])
}

/// The eight bytes at this place, as a number.
fn eight_at(bytes: &[u8], at: usize) -> u64
    requires { at + 8 ≤ length bytes.now }
    ensures { result ≡ eight_at bytes.now at }
{
    u64::from_le_bytes([
        bytes[at],
        bytes[at + 1],
        bytes[at + 2],
        bytes[at + 3],
        bytes[at + 4],
        bytes[at + 5],
        bytes[at + 6],
        bytes[at + 7],
    ])
}
