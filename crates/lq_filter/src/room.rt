//! How much memory the patterns of one query may take.
ghost use Rattle.std.specs.Prelude.{◌≡◌, IfOk, IfErr, ℕ};
ghost use Rattle.regex.specs.Failures.{IsRightKind};
ghost use Rattle.regex.specs.Patterns.{default_config};
ghost use Rattle.regex.specs.Sources.{IsRefusal};
ghost use Rattle.regex.specs.Strings.{IsReadFromSource, regex_config, regex_source};

use regex::{Error, Regex, RegexBuilder};
use std::alloc::Global;

/// The first limit that is tried on the tables of a pattern, in bytes. Each later one is four times the one before.
const FIRST_LIMIT: usize = 4 << 10;

/// The largest limit on the tables of a pattern, in bytes.
const LAST_LIMIT: usize = 10 << 20;

/// The limit on the tables of all patterns of a query, in bytes.
const LIMIT_OF_ALL: usize = 32 << 20;

/// Where the patterns of a query take their memory from, and how many bytes of tables they may still take.
#[derive(Clone, Copy)]
pub(crate) struct Room {
    pub(crate) alloc: Global,
    left: usize,
}

impl Room {
    /// Returns the room for all patterns of a query.
    pub(crate) fn new(alloc: Global) -> Room {
        Room {
            alloc,
            left: LIMIT_OF_ALL,
        }
    }

    /// Builds the regular expression under the least limit that serves, which is taken off the room. Out of memory is
    /// the error where the room is too small for it.
    pub(crate) fn build(&mut self, text: &str) -> Result<Regex, Error>
        ensures source { IfOk result (λ regex. regex_source regex ≡ text.now) }
        ensures config { IfOk result (λ regex. regex_config regex ≡ default_config) }
        ensures read { IfOk result IsReadFromSource }
        ensures by_grammar { IfErr result (IsRefusal default_config text.now) }
        ensures kind { IfErr result (IsRightKind default_config text.now) }
    {
        let mut limit = FIRST_LIMIT;
        while limit < LAST_LIMIT {
            match self.build_within(text, limit) {
                Err(Error::CompiledTooBig) => limit *= 4,
                made => return made,
            }
        }
        self.build_within(text, LAST_LIMIT)
    }

    fn build_within(&mut self, text: &str, limit: usize) -> Result<Regex, Error>
        ensures source { IfOk result (λ regex. regex_source regex ≡ text.now) }
        ensures config { IfOk result (λ regex. regex_config regex ≡ default_config) }
        ensures read { IfOk result IsReadFromSource }
        ensures by_grammar { IfErr result (IsRefusal default_config text.now) }
        ensures kind { IfErr result (IsRightKind default_config text.now) }
    {
        let Some(left) = self.left.checked_sub(limit) else {
            return Err(Error::OutOfMemory);
        };
        match RegexBuilder::new(text).size_limit(limit).build(self.alloc) {
            Ok(regex) => {
                self.left = left;
                Ok(regex)
            }
            Err(error) => Err(error),
        }
    }
}
