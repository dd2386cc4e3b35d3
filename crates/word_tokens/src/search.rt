// The search for a phrase or a prefix: its bytes are found first, and only where they stand are the characters
// beside them looked at.
ghost use Rattle.std.specs.Prelude.{◌≡◌, ◌==◌, ◌<◌, ◌≤◌, ◌+◌, ℕ, List, length, chars, IfOk, IfSome};
ghost use Rattle.memchr.specs.Find.{FindsNeedle, OccursAt};
ghost use Rattle.log_model.specs.Words.{begins_word as begins_word_of, ends_word as ends_word_of, occurs, stands_at};
ghost use Rattle.word_tokens.specs.Prefix.{IsSought, occurs_as_prefix};
ghost use Rattle.word_tokens.specs.Search.{FindsFirst, stands_apart_at};

use crate::is_word;
use memchr::memmem;
use std::alloc::{AllocError, Global};
use std::marker::Model;

/// A search for one phrase or prefix, made once and asked of many texts.
#[derive(Drop)]
pub struct Finder<'n> {
    bytes: memmem::Finder<'n>,
    // whether it begins, and ends, with a word character
    begins_word: bool,
    ends_word: bool,
}

impl<'n> Model for Finder<'n> {
    ghost Value = { List ℕ };

    ghost view = { λ f. f.bytes };

    ghost invariant = { λ f. IsSought f.bytes f.begins_word f.ends_word };
}

impl<'n> Finder<'n> {
    /// Returns the search for this text. It takes no memory.
    pub fn new(needle: &'n str) -> Finder<'n>
        ensures { result ≡ needle.now }
    {
        Finder {
            bytes: memmem::Finder::new(needle.as_bytes()),
            begins_word: begins_word(needle),
            ends_word: ends_word(needle),
        }
    }

    /// Returns the same search, with a text of its own.
    pub fn into_owned(self, alloc: Global) -> Result<Finder<'static>, AllocError>
        ensures { IfOk result (λ finder. finder ≡ self.entry) }
    {
        Ok(Finder {
            bytes: self.bytes.into_owned(alloc)?,
            begins_word: self.begins_word,
            ends_word: self.ends_word,
        })
    }

    /// Returns whether the text that is searched for is empty.
    pub fn is_empty(&self) -> bool
        ensures { result ≡ (length self.now == 0) }
    {
        self.bytes.needle().is_empty()
    }

    /// Returns how many bytes the text has that is searched for.
    pub fn len(&self) -> usize
        ensures { result ≡ length self.now }
    {
        self.bytes.needle().len()
    }

    /// Returns whether the phrase stands somewhere in the text, with no word character right before it if it begins
    /// with one, and none right after it if it ends with one (LogsQL, "Phrase filter"). An empty one stands in each
    /// text.
    pub fn has_phrase(&self, text: &str) -> bool
        ensures { result ≡ occurs text.now self.now }
    {
        self.is_empty() || self.place_from(text, 0).is_some()
    }

    /// Returns the same without the condition after it (LogsQL, "Prefix filter").
    pub fn has_prefix(&self, text: &str) -> bool
        ensures { result ≡ occurs_as_prefix text.now self.now }
    {
        self.is_empty() || self.first_from(text, 0, false).is_some()
    }

    /// Returns the first place from `from` on at which the phrase stands, and no word goes on across an end of it.
    pub fn place_from(&self, text: &str, from: usize) -> Option<usize>
        requires filled { 0 < length self.now }
        requires within { from ≤ length text.now }
        ensures first { FindsFirst (stands_at text.now self.now) from (length text.now) result }
        ensures fits { IfSome result (λ place. place + length self.now ≤ length text.now) }
    {
        self.first_from(text, from, self.ends_word)
    }

    // Returns the first place from `from` on at which the phrase stands, and no word goes on across its beginning, nor,
    // where `word_end` is set, across its end.
    fn first_from(&self, text: &str, from: usize, word_end: bool) -> Option<usize>
        requires filled { 0 < length self.now }
        requires within { from ≤ length text.now }
        ensures first { FindsFirst (stands_apart_at word_end text.now self.now) from (length text.now) result }
        ensures fits { IfSome result (λ place. place + length self.now ≤ length text.now) }
    {
        let mut next = from;
        while let Some(place) = find_from(&self.bytes, text.as_bytes(), next) {
            if self.stands_apart(text, place, word_end) {
                return Some(place);
            }
            next = place + 1;
        }
        None
    }

    // Returns whether no word goes on across an end of the phrase that stands at `place`.
    fn stands_apart(&self, text: &str, place: usize, word_end: bool) -> bool
        requires phrase { 0 < length self.now }
        requires found { OccursAt text.now self.now place }
        ensures { result ≡ stands_apart_at word_end text.now self.now place }
    {
        let word_start = self.begins_word;
        let before = &text[..place];
        let after = &text[place + self.len()..];
        !(word_start && ends_word(before)) && !(word_end && begins_word(after))
    }
}

// Returns the first place from `from` on at which the bytes of the needle stand.
fn find_from(needle: &memmem::Finder, text: &[u8], from: usize) -> Option<usize>
    requires { from ≤ length text.now }
    ensures { FindsNeedle text.now needle.now from result }
{
    let ahead = needle.find(&text[from..])?;
    Some(from + ahead)
}

// Returns whether the first character of the text is a word character.
fn begins_word(text: &str) -> bool
    ensures { result ≡ begins_word_of (chars text.now) }
{
    text.chars().next().is_some_and(is_word)
}

// Returns whether the last character of the text is a word character.
fn ends_word(text: &str) -> bool
    ensures { result ≡ ends_word_of (chars text.now) }
{
    match text.chars().next_back() {
        Some(last) => is_word(last),
        None => false,
    }
}
