//! The words of values that have few of them. These are told apart without a list on the heap.

ghost use Rattle.std.specs.Prelude.{◌≡◌, ◌==◌, ◌&&◌, [], IsTrue, bytes_eq, map};
ghost use Rattle.std.specs.BTreeSet.{insert_key};
ghost use Rattle.std.specs.List.{All, IsDistinct, list_any};
ghost use Rattle.block_model.specs.Distinct.{distinct};
ghost use Rattle.log_model.specs.Field.{bytes_cmp};
ghost use Rattle.token_bloom.specs.Bits.{fnv};
ghost use Rattle.word_filter.specs.Words.{column_words, put_words};

use arrayvec::ArrayVec;
use token_bloom::hash_of;
use word_tokens::words;

/// Words with their hashes, of which no two are the same.
pub(crate) type FewWords<'a> = ArrayVec<(u64, &'a str), 16>;

/// Puts the words of the values, each once, with their hashes, while there is room. Says whether there was.
pub(crate) fn put_few<'a>(all: &mut FewWords<'a>, values: &[&'a str]) -> bool
    requires none { all.old.items ≡ [] }
    ensures words { IsTrue result → distinct (map (λ w. w.1.now) all.new.items)
        ≡ column_words (map (λ t. t.now) values.now) }
    ensures once { IsDistinct bytes_eq (map (λ w. w.1.now) all.new.items) }
    ensures hashes { All (λ w. w.0 ≡ fnv w.1.now) all.new.items }
{
    for value in values {
        if !put_words(all, value) {
            return false;
        }
    }
    true
}

/// Puts the words of one value to the others, while there is room.
fn put_words<'a>(all: &mut FewWords<'a>, value: &'a str) -> bool
    requires once { IsDistinct bytes_eq (map (λ w. w.1.now) all.old.items) }
    requires hashes { All (λ w. w.0 ≡ fnv w.1.now) all.old.items }
    ensures words { IsTrue result → distinct (map (λ w. w.1.now) all.new.items)
        ≡ put_words (distinct (map (λ w. w.1.now) all.old.items)) value.now }
    ensures once { IsDistinct bytes_eq (map (λ w. w.1.now) all.new.items) }
    ensures hashes { All (λ w. w.0 ≡ fnv w.1.now) all.new.items }
{
    for (start, end) in words(value) {
        if !put_word(all, &value[start..end]) {
            return false;
        }
    }
    true
}

/// Puts a word to the others, unless it is among them. Says whether there was room.
fn put_word<'a>(all: &mut FewWords<'a>, word: &'a str) -> bool
    requires once { IsDistinct bytes_eq (map (λ w. w.1.now) all.old.items) }
    requires hashes { All (λ w. w.0 ≡ fnv w.1.now) all.old.items }
    ensures words { IsTrue result → distinct (map (λ w. w.1.now) all.new.items)
        ≡ insert_key bytes_cmp (distinct (map (λ w. w.1.now) all.old.items)) word.now }
    ensures once { IsDistinct bytes_eq (map (λ w. w.1.now) all.new.items) }
    ensures hashes { All (λ w. w.0 ≡ fnv w.1.now) all.new.items }
{
    let hash = hash_of(word.as_bytes());
    if is_among(all.as_slice(), hash, word) {
        return true;
    }
    if all.is_full() {
        return false;
    }
    all.push((hash, word));
    true
}

/// Whether the word with this hash is one of these.
fn is_among(words: &[(u64, &str)], hash: u64, word: &str) -> bool
    requires hashes { All (λ w. w.0 ≡ fnv w.1.now) words.now }
    requires hash { hash ≡ fnv word.now }
    ensures { result ≡ list_any (bytes_eq word.now) (map (λ w. w.1.now) words.now) }
{
    has_pair(words, hash, word)
}

fn has_pair(words: &[(u64, &str)], hash: u64, word: &str) -> bool
    ensures { result ≡ list_any (λ w. (w.0 == hash) && bytes_eq word.now w.1.now) words.now }
{
    words.iter().any(|other| other.0 == hash && word == other.1)
}
