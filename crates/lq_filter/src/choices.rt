//! The texts of `in(..)`.
ghost use Rattle.std.specs.Prelude.{◌≡◌, ◌||◌, ℕ, List, IfOk, OnOk, bytes_eq};
ghost use Rattle.std.specs.BTreeSet.{contains_text};
ghost use Rattle.std.specs.List.{list_any};

use std::alloc::{AllocError, Global};
use std::collections::BTreeSet;
use std::marker::Model;
use vl_row::Text;

/// Some texts, which are looked up in a time that grows with the logarithm of how many there are.
#[derive(Drop)]
pub(crate) struct Choices {
    texts: Vec<Text>,
    sorted: BTreeSet<String>,
}

impl Model for Choices {
    ghost Value = { List (List ℕ) };

    ghost view = { λ c. c.texts.items };

    ghost invariant = { λ c. (value : List ℕ) →
        contains_text c.sorted value ≡ list_any (bytes_eq value) c.texts.items };
}

impl Choices {
    pub(crate) fn new(alloc: Global, texts: &[Text]) -> Result<Choices, AllocError>
        ensures { IfOk result (λ choices. choices ≡ texts.now) }
    {
        let mut copies = Vec::with_capacity(alloc, texts.len())?;
        let mut sorted = BTreeSet::new(alloc);
        for text in texts {
            put(&mut sorted, alloc, text.as_str())?;
            copies.push(text.try_copy(alloc)?)?;
        }
        Ok(Choices {
            texts: copies,
            sorted,
        })
    }

    /// Returns whether the value is one of them.
    pub(crate) fn has(&self, value: &str) -> bool
        ensures { result ≡ list_any (bytes_eq value.now) self.now }
    {
        self.sorted.contains(value)
    }
}

fn put(sorted: &mut BTreeSet<String>, alloc: Global, text: &str) -> Result<(), AllocError>
    ensures { OnOk result ((value : List ℕ) →
        contains_text sorted.new value ≡ (contains_text sorted.old value || bytes_eq value text.now)) }
{
    sorted.insert(String::from_str(alloc, text)?)?;
    Ok(())
}
