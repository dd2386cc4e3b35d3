//! Seeds of hash tables.
ghost use Rattle.lq_tuple.specs.Seed.{initial_hasher};

use std::hash::{BuildHasher, DefaultHasher, RandomState};
use std::random::RandomSource;

/// The seed of a hash table, which hashes by SipHash-1-3. Whoever chooses the keys of a table and knows its seed can
/// make each look-up as long as the table.
#[derive(Clone, Copy)]
pub struct HashSeed {
    pub(crate) keys: Option<RandomState>,
}

impl HashSeed {
    /// Returns a seed that nobody can guess, or the fixed one where the system gives no random bytes.
    pub fn random(rt: &impl RandomSource) -> HashSeed {
        match RandomState::new(rt) {
            Ok(keys) => HashSeed { keys: Some(keys) },
            Err(_) => HashSeed::fixed(),
        }
    }

    /// Returns the seed that everybody knows.
    pub fn fixed() -> HashSeed {
        HashSeed { keys: None }
    }
}

impl BuildHasher for HashSeed {
    type Hasher = DefaultHasher;

    ghost build_hasher = { initial_hasher };

    fn build_hasher(&self) -> DefaultHasher {
        match &self.keys {
            Some(keys) => keys.build_hasher(),
            None => DefaultHasher::new(),
        }
    }
}
