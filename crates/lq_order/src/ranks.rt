//! The ranks of texts in value order.
ghost use Rattle.std.specs.Prelude.{◌≡◌, IfOk, map, slice_index, length, ◌<◌};
ghost use Rattle.std.specs.List.{enumerate_from};
ghost use Rattle.std.specs.Ordering.{nat_cmp, on};
ghost use Rattle.log_model.specs.Order.{key_cmp, key_of, value_cmp};
ghost use Rattle.lq_ast.specs.Tuples.{sorted_by};
ghost use Rattle.lq_order.specs.Mirror.{Mirrors};
ghost use Rattle.lq_order.specs.Ranks.{keyed_of, next_rank};

use crate::dictionary::Dictionary;
use lq_tuple::HashSeed;
use std::alloc::{AllocError, Global};
use vl_row::ValueKey;

/// The key of a text, and where the text stands.
#[derive(Drop)]
struct Keyed<'a> {
    key: ValueKey<'a>,
    at: usize,
}

/// Returns a number for each text, so that the numbers are in the order of the texts, which are found in a table of
/// this seed.
pub(crate) fn ranks(alloc: Global, seed: HashSeed, texts: &[&str]) -> Result<Vec<usize>, AllocError>
    ensures { IfOk result (λ ranks.
        Mirrors (on (slice_index ranks.items) nat_cmp) value_cmp (map (λ text. text.now) texts.now)) }
{
    let dictionary = Dictionary::of(alloc, seed, texts)?;
    let word_ranks = word_ranks(alloc, dictionary.words.as_slice())?;
    looked_up(alloc, word_ranks.as_slice(), dictionary.ids.as_slice())
}

/// Returns what stands at these places, and 0 for a place where nothing stands.
fn looked_up(alloc: Global, numbers: &[usize], places: &[usize]) -> Result<Vec<usize>, AllocError>
    ensures { IfOk result (λ found. found.items ≡ map (slice_index numbers.now) places.now) }
{
    let mut found = Vec::with_capacity(alloc, places.len())?;
    for place in places {
        found.push(numbers.get(*place).copied().unwrap_or(0))?;
    }
    Ok(found)
}

/// Returns the same, each text by itself.
fn word_ranks(alloc: Global, texts: &[&str]) -> Result<Vec<usize>, AllocError>
    ensures { IfOk result (λ ranks.
        Mirrors (on (slice_index ranks.items) nat_cmp) value_cmp (map (λ text. text.now) texts.now)) }
{
    let keyed = in_order(alloc, texts)?;
    let mut ranks = vec![in alloc; 0; keyed.len()]?;
    let mut rank = 0;
    for (i, one) in keyed.iter().enumerate() {
        rank = next_rank(keyed.as_slice(), i, rank);
        ranks[one.at] = rank;
    }
    Ok(ranks)
}

/// Returns the rank of the text at a place, where the one before it has this rank.
fn next_rank(keyed: &[Keyed<'_>], i: usize, rank: usize) -> usize
    requires { i < length keyed.now }
    ensures { result ≡ next_rank (map keyed_of keyed.entry.now) i rank }
{
    if i > 0 && keyed[i - 1].key != keyed[i].key {
        i
    } else {
        rank
    }
}

/// Returns the keys of the texts in value order.
fn in_order<'a>(alloc: Global, texts: &[&'a str]) -> Result<Vec<Keyed<'a>>, AllocError>
    ensures { IfOk result (λ keyed. map keyed_of keyed.items
        ≡ sorted_by (on (λ p. p.1) key_cmp) (enumerate_from 0 (map (λ text. key_of text.now) texts.now))) }
{
    let mut keyed = all_keyed(alloc, texts)?;
    keyed.sort_by(|a, b| a.key.cmp(&b.key))?;
    Ok(keyed)
}

fn all_keyed<'a>(alloc: Global, texts: &[&'a str]) -> Result<Vec<Keyed<'a>>, AllocError>
    ensures { IfOk result (λ keyed. map keyed_of keyed.items
        ≡ enumerate_from 0 (map (λ text. key_of text.now) texts.now)) }
{
    let mut keyed = Vec::with_capacity(alloc, texts.len())?;
    for (at, text) in texts.iter().enumerate() {
        keyed.push(Keyed {
            key: ValueKey::of(text),
            at,
        })?;
    }
    Ok(keyed)
}
