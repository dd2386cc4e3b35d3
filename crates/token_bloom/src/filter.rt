//! Filters, and filters as bytes.

ghost use Rattle.std.specs.Prelude.{◌≡◌, ◌<◌, ◌≤◌, ◌^◌, IfOk, IfErr, IsTrue, List, ℕ, false, length};
ghost use Rattle.token_bloom.specs.Filter.{empty_filter, filter_bytes, is_length, may_have, with_hash, with_word};

use crate::hash::hash_of;
use crate::held::{Held, copy_of, has_hash_in, held_empty, held_of, put_hash, words_in};
use byte_format::{Stop, put_u64s, take_u64s};
use std::alloc::{AllocError, Global};
use std::marker::Model;

/// A Bloom filter of words.
///
/// A contract sees it as its words of 64 bits.
#[derive(Drop)]
pub struct Bloom {
    held: Held,
}

impl Model for Bloom {
    ghost use Rattle.std.specs.Prelude.{List, ℕ};
    ghost use Rattle.token_bloom.specs.Held.{IsHeld, words_in};

    ghost Value = { List ℕ };

    ghost view = { λ b. words_in b.held };

    ghost invariant = { λ b. IsHeld b.held };
}

/// Why bytes are not a filter.
#[derive(Clone, Copy, Debug, Drop, PartialEq, Eq)]
pub enum BloomFault {
    /// Their number is not a multiple of 8, or is above 2^33.
    BadLength,
    /// Out of memory.
    Memory,
}

impl Bloom {
    /// Returns an empty filter with room for this many distinct words: 16 bits for each, rounded up to a multiple
    /// of 64. A filter of at most 64 bits takes no memory.
    pub fn with_room(alloc: Global, tokens: usize) -> Result<Bloom, AllocError>
        requires { tokens < 2 ^ 32 }
        ensures { IfOk result (λ bloom. bloom ≡ empty_filter tokens) }
    {
        let held = held_empty(alloc, (16 * tokens + 63) / 64)?;
        Ok(Bloom { held })
    }

    fn of(filter: Vec<u64>) -> Bloom
        requires { length filter.items ≤ 2 ^ 30 }
        ensures { result ≡ filter.items }
    {
        Bloom {
            held: held_of(filter),
        }
    }

    /// Adds a word: sets its six bits, where the filter has any bit.
    pub fn add(&mut self, word: &[u8])
        ensures value { self.new ≡ with_word self.old word.now }
        ensures added { 0 < length self.old → IsTrue (may_have self.new word.now) }
        ensures kept { (other : List ℕ) → IsTrue (may_have self.old other) → IsTrue (may_have self.new other) }
    {
        self.add_hash(hash_of(word));
    }

    /// Adds the word that has this hash, as `add` does.
    pub fn add_hash(&mut self, hash: u64)
        ensures { self.new ≡ with_hash self.old hash }
    {
        put_hash(&mut self.held, hash);
    }

    /// Whether the word may be there: all six bits of it are set. A filter without bits has no word.
    pub fn may_have(&self, word: &[u8]) -> bool
        ensures { result ≡ may_have self.now word.now }
    {
        has_hash_in(&self.held, hash_of(word))
    }

    /// The words of 64 bits that the filter consists of.
    pub fn as_slice(&self) -> &[u64]
        ensures { result.now ≡ self.now }
    {
        words_in(&self.held)
    }

    /// An equal filter, in memory of its own.
    pub fn try_copy(&self, alloc: Global) -> Result<Bloom, AllocError>
        ensures { IfOk result (λ bloom. bloom ≡ self.now) }
    {
        let held = copy_of(alloc, &self.held)?;
        Ok(Bloom { held })
    }

    /// The filter as bytes.
    pub fn to_bytes(&self, alloc: Global) -> Result<Vec<u8>, AllocError>
        ensures { IfOk result (λ bytes. bytes.items ≡ filter_bytes self.now) }
    {
        let filter = self.as_slice();
        let mut bytes = Vec::with_capacity(alloc, filter.len() * 8)?;
        put_u64s(&mut bytes, filter)?;
        Ok(bytes)
    }

    /// The filter that `to_bytes` gives these bytes of.
    pub fn from_bytes(alloc: Global, bytes: &[u8]) -> Result<Bloom, BloomFault>
        ensures ok { IfOk result (λ bloom. bytes.now ≡ filter_bytes bloom) }
        ensures err { IfErr result (λ fault. fault ≡ BloomFault.BadLength → is_length (length bytes.now) ≡ false) }
        ensures fits { is_length (length bytes.now) ≡ false → result ≡ Err BloomFault.BadLength }
    {
        if bytes.len() % 8 != 0 || bytes.len() > 1 << 33 {
            return Err(BloomFault::BadLength);
        }
        match take_u64s(alloc, bytes.len() / 8, bytes) {
            Ok((filter, _)) => Ok(Bloom::of(filter)),
            Err(_) => Err(BloomFault::Memory),
        }
    }
}
