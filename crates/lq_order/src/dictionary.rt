//! The distinct ones of many texts.
ghost use Rattle.std.specs.Prelude.{◌≡◌, List, ℕ, IfOk, OnOk, Some, bytes_eq, map, unwrap_or, if◌then◌else◌};
ghost use Rattle.lq_order.specs.Dictionary.{AreAtWords, IsDictionary, IsAtWord, get_by_str};

use lq_tuple::HashSeed;
use std::alloc::{AllocError, Global};
use std::collections::HashMap;

/// Each of some texts once, and for each of the texts where it stands among these.
#[derive(Drop)]
pub(crate) struct Dictionary<'a> {
    pub(crate) words: Vec<&'a str>,
    pub(crate) ids: Vec<usize>,
}

impl<'a> Dictionary<'a> {
    /// Returns the dictionary of these texts, which are found in a table of this seed.
    pub(crate) fn of(
        alloc: Global,
        seed: HashSeed,
        texts: &[&'a str],
    ) -> Result<Dictionary<'a>, AllocError>
        ensures { IfOk result (λ made.
            IsDictionary (map (λ text. text.now) texts.now) (map (λ word. word.now) made.words.items) made.ids.items) }
    {
        let mut places = HashMap::with_hasher(alloc, seed);
        let mut words = Vec::new(alloc);
        let mut ids = Vec::with_capacity(alloc, texts.len())?;
        for text in texts {
            ids.push(entered(&mut places, &mut words, text)?)?;
        }
        Ok(Dictionary { words, ids })
    }
}

/// Returns the place of a text among the words, to which it is added where it is new.
fn entered<'a>(
    places: &mut HashMap<&'a str, usize, HashSeed>,
    words: &mut Vec<&'a str>,
    text: &'a str,
) -> Result<usize, AllocError>
    requires { AreAtWords places.old (map (λ word. word.now) words.old.items) }
    ensures known { OnOk result (AreAtWords places.new (map (λ word. word.now) words.new.items)) }
    ensures entered { IfOk result (IsAtWord (map (λ word. word.now) words.old.items)
        (map (λ word. word.now) words.new.items) text.entry.now) }
{
    let next = words.len();
    let place = number_of(places, text, next)?;
    if place == next {
        words.push(text)?;
    }
    Ok(place)
}

/// Returns the number of a text, to which this one is given where it has none.
fn number_of<'a>(
    numbers: &mut HashMap<&'a str, usize, HashSeed>,
    text: &'a str,
    next: usize,
) -> Result<usize, AllocError>
    ensures number { IfOk result (λ number. number ≡ unwrap_or (get_by_str numbers.old text.entry.now) next) }
    ensures given { IfOk result (λ number. (other : List ℕ) → get_by_str numbers.new other
        ≡ (if bytes_eq text.entry.now other then Some number else get_by_str numbers.old other)) }
{
    let number = *numbers.entry(text)?.or_insert(next);
    Ok(number)
}
