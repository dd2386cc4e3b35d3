//! How the words of 64 bits of a filter are held.

ghost use Rattle.std.specs.Prelude.{◌≡◌, ◌<◌, ◌≤◌, ◌^◌, IfOk, length, replicate};
ghost use Rattle.token_bloom.specs.Filter.{has_hash, with_hash};
ghost use Rattle.token_bloom.specs.Held.{IsHeld, words_in};

use crate::bits::{has_hash, set_hash, word_with};
use crate::modulus::Modulus;
use std::alloc::{AllocError, Global};

/// The words of 64 bits of a filter. Most filters have one at most, and these need no memory of their own.
#[derive(Drop)]
pub(crate) enum Held {
    None,
    One(u64),
    Many(Vec<u64>),
}

/// Holds a filter.
#[tactic(auto, using(crate::proofs::HeldLaws::no_word, crate::proofs::HeldLaws::one_word))]
pub(crate) fn held_of(filter: Vec<u64>) -> Held
    requires { length filter.items ≤ 2 ^ 30 }
    ensures words { words_in result ≡ filter.items }
    ensures held { IsHeld result }
{
    if filter.len() == 0 {
        return Held::None;
    }
    if filter.len() == 1 {
        return Held::One(filter[0]);
    }
    Held::Many(filter)
}

/// Holds this many words without a bit. A list of them is made only for two words or more.
#[tactic(auto, using(crate::proofs::HeldLaws::no_empty, crate::proofs::HeldLaws::one_empty))]
pub(crate) fn held_empty(alloc: Global, count: usize) -> Result<Held, AllocError>
    requires { count ≤ 2 ^ 30 }
    ensures words { IfOk result (λ held. words_in held ≡ replicate count 0) }
    ensures held { IfOk result (λ held. IsHeld held) }
{
    if count == 0 {
        return Ok(Held::None);
    }
    if count == 1 {
        return Ok(Held::One(0));
    }
    Ok(Held::Many(vec![in alloc; 0; count]?))
}

/// The words of 64 bits.
pub(crate) fn words_in(held: &Held) -> &[u64]
    ensures { result.now ≡ words_in held.now }
{
    match held {
        Held::None => &[],
        Held::One(word) => std::slice::from_ref(word),
        Held::Many(words) => words.as_slice(),
    }
}

/// The same words, in memory of their own.
pub(crate) fn copy_of(alloc: Global, held: &Held) -> Result<Held, AllocError>
    requires { IsHeld held.now }
    ensures words { IfOk result (λ copy. words_in copy ≡ words_in held.now) }
    ensures held { IfOk result (λ copy. IsHeld copy) }
{
    match held {
        Held::None => Ok(Held::None),
        Held::One(word) => Ok(Held::One(*word)),
        Held::Many(words) => Ok(Held::Many(words.to_vec(alloc)?)),
    }
}

/// Sets all six bits of the word with this hash, if there are any.
pub(crate) fn put_hash(held: &mut Held, hash: u64)
    requires { IsHeld held.old }
    ensures words { words_in held.new ≡ with_hash (words_in held.old) hash }
    ensures held { IsHeld held.new }
{
    match held {
        Held::None => {}
        Held::One(word) => *word = word_with(*word, hash),
        Held::Many(words) => set_in(words, hash),
    }
}

fn set_in(words: &mut Vec<u64>, hash: u64)
    requires some { 1 < length words.old.items }
    requires small { length words.old.items ≤ 2 ^ 30 }
    ensures words { words.new.items ≡ with_hash words.old.items hash }
    ensures some { 1 < length words.new.items }
    ensures small { length words.new.items ≤ 2 ^ 30 }
{
    set_all(words.as_mut_slice(), hash);
}

#[tactic(auto, using(crate::proofs::HeldLaws::filled_with))]
fn set_all(filter: &mut [u64], hash: u64)
    requires some { 0 < length filter.old }
    requires small { length filter.old ≤ 2 ^ 30 }
    ensures { filter.new ≡ with_hash filter.old hash }
{
    let modulus = Modulus::of(filter.len() as u64 * 64);
    set_hash(filter, modulus, hash);
}

/// Whether all six bits of the word with this hash are set. A filter without bits has no word.
#[tactic(auto, using(crate::proofs::HeldLaws::none_has, crate::proofs::HeldLaws::filled_has))]
pub(crate) fn has_hash_in(held: &Held, hash: u64) -> bool
    requires { IsHeld held.now }
    ensures { result ≡ has_hash (words_in held.now) hash }
{
    let filter = words_in(held);
    if filter.len() == 0 {
        return false;
    }
    let modulus = Modulus::of(filter.len() as u64 * 64);
    has_hash(filter, modulus, hash)
}
