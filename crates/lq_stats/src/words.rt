//! Different texts in the order in which they came.
ghost use Rattle.std.specs.Prelude.{◌++◌, [], ◌∷◌, List, ℕ, OnOk};
ghost use Rattle.lq_stats.specs.Words.{AreWords};

use lq_tuple::{HashSeed, Places};
use std::alloc::{AllocError, Global};
use std::mem;
use vl_row::Text;

/// Each of some texts once.
#[derive(Drop)]
pub(crate) struct Words {
    pub(crate) places: Places,
    pub(crate) words: Vec<Text>,
}

impl Words {
    /// Returns the words of no texts, with this seed of their table. This allocates nothing.
    pub(crate) fn new(alloc: Global, seed: HashSeed) -> Words
        ensures { AreWords result [] }
    {
        Words {
            places: Places::seeded(alloc, seed),
            words: Vec::new(alloc),
        }
    }

    /// Adds a text, if it is new.
    pub(crate) fn add(&mut self, alloc: Global, text: &str) -> Result<(), AllocError>
        ensures { OnOk result ((texts : List (List ℕ)) → AreWords self.old texts
            → AreWords self.new (texts ++ text.now ∷ [])) }
    {
        let place = self.places.place(alloc, text)?;
        if place >= self.words.len() {
            self.words.push(Text::try_of(alloc, text)?)?;
        }
        Ok(())
    }
    /// Takes the words of others, those of the smaller list into the larger one.
    pub(crate) fn merge(&mut self, alloc: Global, mut others: Words) -> Result<(), AllocError>
        ensures { OnOk result ((texts more : List (List ℕ)) → AreWords self.old texts → AreWords others more
            → AreWords self.new (texts ++ more)) }
    {
        if self.words.len() < others.words.len() {
            mem::swap(self, &mut others);
        }
        self.take_all(alloc, others.words)
    }

    /// Takes each of some words, if it is new.
    fn take_all(&mut self, alloc: Global, mut words: Vec<Text>) -> Result<(), AllocError>
        ensures { OnOk result ((texts : List (List ℕ)) → AreWords self.old texts
            → AreWords self.new (texts ++ words.items)) }
    {
        while let Some(word) = words.pop() {
            self.take(alloc, word)?;
        }
        Ok(())
    }

    /// Takes a word, if it is new.
    fn take(&mut self, alloc: Global, word: Text) -> Result<(), AllocError>
        ensures { OnOk result ((texts : List (List ℕ)) → AreWords self.old texts
            → AreWords self.new (texts ++ word ∷ [])) }
    {
        let place = self.places.place(alloc, word.as_str())?;
        if place >= self.words.len() {
            self.words.push(word)?;
        }
        Ok(())
    }
}
