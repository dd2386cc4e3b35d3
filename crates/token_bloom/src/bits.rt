//! The six bits of a word. Each is found by a remainder of its own, which takes no division and no branch that a
//! processor would often guess wrongly.

ghost use Rattle.std.specs.Prelude.{◌≡◌, ◌<◌, ◌∷◌, []};
ghost use Rattle.token_bloom.specs.Bits.{bit_count, has_bit, has_bits, with_bit, with_bits, places};
ghost use Rattle.token_bloom.specs.Filter.{with_hash};
ghost use Rattle.token_bloom.specs.Modulus.{IsModulus};

use crate::hash::stride_of;
use crate::modulus::Modulus;

/// How many bits of a filter stand for a word.
const BITS_A_WORD: usize = 6;

fn is_set(filter: &[u64], b: usize) -> bool
    requires { b < bit_count filter.now }
    ensures { result ≡ has_bit filter.now b }
{
    (filter[b / 64] >> (b % 64)) & 1 == 1
}

fn set(filter: &mut [u64], b: usize)
    requires { b < bit_count filter.old }
    ensures { filter.new ≡ with_bit filter.old b }
{
    filter[b / 64] |= 1 << (b % 64);
}

/// Whether all six bits of the word with this hash are set.
#[tactic(auto, using(crate::proofs::Places::has_steps))]
pub(crate) fn has_hash(filter: &[u64], modulus: Modulus, hash: u64) -> bool
    requires modulus { IsModulus modulus }
    requires bits { modulus.bits ≡ bit_count filter.now }
    ensures { result ≡ has_bits filter.now (places (bit_count filter.now) hash) }
{
    let stride = stride_of(hash);
    let mut sum = hash;
    for _ in 0..BITS_A_WORD {
        if !is_set(filter, modulus.rest(sum) as usize) {
            return false;
        }
        sum = sum.wrapping_add(stride);
    }
    true
}

/// Sets all six bits of the word with this hash.
#[tactic(auto, using(crate::proofs::Places::next_written))]
pub(crate) fn set_hash(filter: &mut [u64], modulus: Modulus, hash: u64)
    requires modulus { IsModulus modulus }
    requires bits { modulus.bits ≡ bit_count filter.old }
    ensures { filter.new ≡ with_bits filter.old (places (bit_count filter.old) hash) }
{
    let stride = stride_of(hash);
    let mut sum = hash;
    for _ in 0..BITS_A_WORD {
        set(filter, modulus.rest(sum) as usize);
        sum = sum.wrapping_add(stride);
    }
}

/// Returns the only word of 64 bits of a filter with all six bits of the word with this hash. A remainder modulo 64
/// needs no multiplication.
#[tactic(auto, using(crate::proofs::OneWord::one_written))]
pub(crate) fn word_with(word: u64, hash: u64) -> u64
    ensures { result ∷ [] ≡ with_hash (word ∷ []) hash }
{
    let stride = stride_of(hash);
    let mut filled = word;
    let mut sum = hash;
    for _ in 0..BITS_A_WORD {
        filled |= 1 << (sum % 64);
        sum = sum.wrapping_add(stride);
    }
    filled
}
