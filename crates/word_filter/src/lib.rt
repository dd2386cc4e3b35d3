//! The filter of a column: a Bloom filter that has the words of the column's values, and the filter as bytes.
#![tactic(auto)]

ghost use Rattle.std.specs.Prelude.{◌≡◌, ◌<◌, ◌^◌, ◌≤◌, ◌+◌, ◌++◌, IfOk, List, OnOk, bytes_eq, false, length, map};
ghost use Rattle.std.specs.Prelude.{sum_by, true, ℕ};
ghost use Rattle.std.specs.BTreeSet.{insert_key};
ghost use Rattle.std.specs.List.{All, IsDistinct, fold};
ghost use Rattle.std.specs.Int.{w64};
ghost use Rattle.block_model.specs.Distinct.{HaveSameTexts, distinct};
ghost use Rattle.byte_format.specs.Format.{front, many};
ghost use Rattle.byte_format.specs.Gives.{Gives};
ghost use Rattle.byte_format.specs.Items.{number};
ghost use Rattle.log_model.specs.Field.{bytes_cmp};
ghost use Rattle.token_bloom.specs.Bits.{fnv};
ghost use Rattle.token_bloom.specs.Filter.{with_word};
ghost use Rattle.word_filter.specs.Words.{HasWords, LeavesNoneOut, Remembers, column_words, counted_filter};
ghost use Rattle.word_filter.specs.Words.{filter_item, filter_of, filter_steps, is_there, put_words, skipped, words_in};

mod few;

use crate::few::put_few;
use arrayvec::ArrayVec;
use block_model::Recent;
use byte_format::{Stop, put_u64s, take_u32, take_u64};
use std::alloc::{AllocError, Global};
use token_bloom::{Bloom, hash_of};
use word_tokens::words;

/// For as many words as there are values there is room from the start, and for no more than these.
const MOST_RESERVED: usize = 4_096;

/// Fewer values than this, each shorter than `SHORT`, have few words. Then to remember them takes longer than to sort
/// those that are there twice.
const FEW: usize = 16;

/// The bytes that a short value has fewer of.
const SHORT: usize = 64;

/// A list of fewer words is not thinned out before it has all of them.
const LONG: usize = 65_536;

/// A filter with room for the distinct words of these values, and with all of them.
#[tactic(auto, using(crate::proofs::Kept::has_words))]
pub fn filter_of(alloc: Global, values: &[&str]) -> Result<Bloom, AllocError>
    requires { sum_by (λ t. length t.now) values.now < 2 ^ 32 }
    ensures filter { IfOk result (λ bloom. bloom ≡ filter_of (map (λ t. t.now) values.now)) }
    ensures words { IfOk result (λ bloom. All (HasWords bloom) (map (λ t. t.now) values.now)) }
    ensures small { IfOk result (λ bloom. length bloom < 2 ^ 32) }
{
    let mut words = ArrayVec::new();
    if put_few(&mut words, values) {
        let few = filter_with(alloc, words.as_slice())?;
        return Ok(few);
    }
    let bloom = filter_of_many(alloc, values)?;
    Ok(bloom)
}

/// The same, whatever the number of words is.
fn filter_of_many(alloc: Global, values: &[&str]) -> Result<Bloom, AllocError>
    requires { sum_by (λ t. length t.now) values.now < 2 ^ 32 }
    ensures filter { IfOk result (λ bloom. bloom ≡ filter_of (map (λ t. t.now) values.now)) }
    ensures small { IfOk result (λ bloom. length bloom < 2 ^ 32) }
{
    let words = distinct_words(alloc, values)?;
    let bloom = filter_with(alloc, words.as_slice())?;
    Ok(bloom)
}

/// The filter of the values that have these words, of which no two are the same.
fn filter_with(alloc: Global, words: &[(u64, &str)]) -> Result<Bloom, AllocError>
    requires few { length words.now < 2 ^ 32 }
    requires once { IsDistinct bytes_eq (map (λ w. w.1.now) words.now) }
    requires hashes { All (λ w. w.0 ≡ fnv w.1.now) words.now }
    ensures filter { IfOk result (λ bloom. (values : List (List ℕ))
        → distinct (map (λ w. w.1.now) words.now) ≡ column_words values → bloom ≡ filter_of values) }
    ensures small { IfOk result (λ bloom. length bloom < 2 ^ 32) }
{
    let mut bloom = Bloom::with_room(alloc, words.len())?;
    add_words(&mut bloom, words);
    Ok(bloom)
}

/// What a search for words may rest on: the filter of some values says of no word of theirs that it is not there. This
/// does nothing: its contract is the law.
pub fn filter_law()
    ensures { LeavesNoneOut }
{}

/// The words of the values, each once, with their hashes.
fn distinct_words<'a>(alloc: Global, values: &[&'a str]) -> Result<Vec<(u64, &'a str)>, AllocError>
    ensures words { IfOk result (λ words. distinct (map (λ w. w.1.now) words.items)
        ≡ column_words (map (λ t. t.now) values.now)) }
    ensures few { IfOk result (λ words. length (distinct (map (λ w. w.1.now) words.items))
        ≤ sum_by (λ t. length t.now) values.now) }
    ensures once { IfOk result (λ words. IsDistinct bytes_eq (map (λ w. w.1.now) words.items)) }
    ensures hashes { IfOk result (λ words. All (λ w. w.0 ≡ fnv w.1.now) words.items) }
{
    let mut words = words_of(alloc, values)?;
    keep_once(&mut words);
    Ok(words)
}

/// Sorts words, and drops those that are there already.
fn keep_once(words: &mut Vec<(u64, &str)>)
    requires hashes { All (λ w. w.0 ≡ fnv w.1.now) words.old.items }
    ensures same { HaveSameTexts (map (λ w. w.1.now) words.new.items) (map (λ w. w.1.now) words.old.items) }
    ensures once { IsDistinct bytes_eq (map (λ w. w.1.now) words.new.items) }
    ensures hashes { All (λ w. w.0 ≡ fnv w.1.now) words.new.items }
{
    words.sort_unstable();
    words.dedup();
}

/// The words of the values with their hashes. A word is there more than once where it was forgotten between.
fn words_of<'a>(alloc: Global, values: &[&'a str]) -> Result<Vec<(u64, &'a str)>, AllocError>
    ensures words { IfOk result (λ words. distinct (map (λ w. w.1.now) words.items)
        ≡ column_words (map (λ t. t.now) values.now)) }
    ensures few { IfOk result (λ words. length (distinct (map (λ w. w.1.now) words.items))
        ≤ sum_by (λ t. length t.now) values.now) }
    ensures hashes { IfOk result (λ words. All (λ w. w.0 ≡ fnv w.1.now) words.items) }
{
    let mut words = Vec::with_capacity(alloc, values.len().min(MOST_RESERVED))?;
    let mut recent = recent_for(alloc, values)?;
    for value in values {
        put_words(&mut words, &mut recent, value)?;
    }
    Ok(words)
}

/// What remembers the words that are put, unless the values have few.
fn recent_for<'a>(alloc: Global, values: &[&str]) -> Result<Option<Recent<'a>>, AllocError>
    ensures { (words : List (List ℕ)) → IfOk result (Remembers words) }
{
    if have_few_words(values) {
        return Ok(None);
    }
    let recent = Recent::new(alloc, "")?;
    Ok(Some(recent))
}

fn have_few_words(values: &[&str]) -> bool {
    values.len() < FEW && values.iter().all(|value| value.len() < SHORT)
}

/// Puts the words of one value to the others.
fn put_words<'a>(
    all: &mut Vec<(u64, &'a str)>,
    recent: &mut Option<Recent<'a>>,
    value: &'a str,
) -> Result<(), AllocError>
    requires recent { Remembers (map (λ w. w.1.now) all.old.items) recent.old }
    requires hashes { All (λ w. w.0 ≡ fnv w.1.now) all.old.items }
    ensures words { OnOk result (distinct (map (λ w. w.1.now) all.new.items)
        ≡ put_words (distinct (map (λ w. w.1.now) all.old.items)) value.now) }
    ensures few { OnOk result (length (distinct (map (λ w. w.1.now) all.new.items))
        ≤ length (distinct (map (λ w. w.1.now) all.old.items)) + length value.now) }
    ensures recent { OnOk result (Remembers (map (λ w. w.1.now) all.new.items) recent.new) }
    ensures hashes { OnOk result (All (λ w. w.0 ≡ fnv w.1.now) all.new.items) }
{
    for (start, end) in words(value) {
        put_word(all, recent, &value[start..end])?;
    }
    Ok(())
}

/// Puts a word to the others, unless it was put lately.
fn put_word<'a>(
    all: &mut Vec<(u64, &'a str)>,
    recent: &mut Option<Recent<'a>>,
    word: &'a str,
) -> Result<(), AllocError>
    requires some { 0 < length word.now }
    requires recent { Remembers (map (λ w. w.1.now) all.old.items) recent.old }
    requires hashes { All (λ w. w.0 ≡ fnv w.1.now) all.old.items }
    ensures words { OnOk result (distinct (map (λ w. w.1.now) all.new.items)
        ≡ insert_key bytes_cmp (distinct (map (λ w. w.1.now) all.old.items)) word.now) }
    ensures recent { OnOk result (Remembers (map (λ w. w.1.now) all.new.items) recent.new) }
    ensures hashes { OnOk result (All (λ w. w.0 ≡ fnv w.1.now) all.new.items) }
{
    if is_new(recent, word) {
        // After an error neither of the two is used.
        make_room(all)?;
        all.push((hash_of(word.as_bytes()), word))?;
    }
    Ok(())
}

/// Whether the word was not put lately, as far as words are remembered. From then on it is remembered.
fn is_new<'a>(recent: &mut Option<Recent<'a>>, word: &'a str) -> bool
    ensures had { (words : List (List ℕ)) → Remembers words recent.old → result ≡ false
        → is_there words word.now ≡ true }
    ensures kept { (words : List (List ℕ)) → Remembers words recent.old → is_there words word.now ≡ true
        → Remembers words recent.new }
{
    match recent {
        Some(slots) => slots.insert(word),
        None => true,
    }
}

/// Makes room in a long list that is full. What is there twice is dropped first, so that a few words that are said
/// again and again take little memory. Then at least half of the room is unused, so that the list is seldom sorted.
fn make_room(all: &mut Vec<(u64, &str)>) -> Result<(), AllocError>
    requires hashes { All (λ w. w.0 ≡ fnv w.1.now) all.old.items }
    ensures same { OnOk result (HaveSameTexts (map (λ w. w.1.now) all.new.items) (map (λ w. w.1.now) all.old.items)) }
    ensures hashes { OnOk result (All (λ w. w.0 ≡ fnv w.1.now) all.new.items) }
{
    if all.len() < all.capacity() || all.len() < LONG {
        return Ok(());
    }
    keep_once(all);
    if all.len() > all.capacity() / 2 {
        all.reserve(all.capacity())?;
    }
    Ok(())
}

/// Adds words by their hashes.
fn add_words(bloom: &mut Bloom, words: &[(u64, &str)])
    requires hashes { All (λ w. w.0 ≡ fnv w.1.now) words.now }
    ensures { bloom.new ≡ fold with_word bloom.old (map (λ w. w.1.now) words.now) }
{
    for word in words {
        bloom.add_hash(word.0);
    }
}

/// Appends a filter: the number of its words of 64 bits, and these words.
#[tactic(auto, unfolding(crate::specs::Words::counted_filter))]
pub fn put_filter(out: &mut Vec<u8>, bloom: &Bloom) -> Result<(), AllocError>
    requires { length bloom.now < 2 ^ 32 }
    ensures { OnOk result (out.new.items ≡ out.old.items ++ counted_filter bloom.now) }
{
    let filter = bloom.as_slice();
    out.extend_from_slice(&(filter.len() as u32).to_le_bytes())?;
    put_u64s(out, filter)?;
    Ok(())
}

/// The filter at the front of the bytes, of which only the number of its words of 64 bits is kept, and the bytes
/// after it.
pub fn take_filter(bytes: &[u8]) -> Result<(u32, &[u8]), Stop>
    ensures { Gives (λ x. (x.0, x.1.now)) result (front filter_item bytes.now) }
{
    take_steps(bytes)
}

#[tactic(auto, unfolding(crate::specs::Words::filter_steps))]
fn take_steps(bytes: &[u8]) -> Result<(u32, &[u8]), Stop>
    ensures { Gives (λ x. (x.0, x.1.now)) result (filter_steps bytes.now) }
{
    let (count, rest) = take_u32(bytes)?;
    let rest = skip_u64s(count, rest)?;
    Ok((count, rest))
}

/// The bytes after this many numbers of eight bytes. They are read one by one only if they are not all there.
fn skip_u64s(count: u32, bytes: &[u8]) -> Result<&[u8], Stop>
    ensures { Gives (λ x. x.now) result (skipped count bytes.now) }
{
    let size = 8 * count as usize;
    if bytes.len() < size {
        return skip_each(count, bytes);
    }
    let (_, rest) = bytes.split_at(size);
    Ok(rest)
}

/// The same, one by one.
fn skip_each(count: u32, bytes: &[u8]) -> Result<&[u8], Stop>
    ensures { Gives (λ x. x.now) result (skipped count bytes.now) }
{
    let mut rest = bytes;
    for _ in 0..count {
        let (_, after) = take_u64(rest)?;
        rest = after;
    }
    Ok(rest)
}
