ghost use Rattle.std.specs.Prelude.{◌≡◌, [], ◌∷◌, IfOk, IfErr, string_bytes};
ghost use Rattle.regex.specs.Strings.{matcher_pattern};
ghost use Rattle.lq_ast.specs.Patterns.{CanBeRead, IsReadable, Pattern as Tried, whole};
ghost use Rattle.lq_filter.specs.Reads.{FindsAs};
ghost use Rattle.lq_filter.specs.Refusal.{IsRefusal};

use crate::fault::PrepareFault;
use crate::room::Room;
use regex::{Error, Matcher, Regex};
use std::alloc::{AllocError, Global};
use std::marker::Model;

/// A regular expression that was read from its text, with its number among those of its filter.
#[derive(Drop)]
pub(crate) struct Pattern {
    regex: Regex,
    pub(crate) nth: u32,
}

impl Model for Pattern {
    ghost use Rattle.std.specs.Prelude.{◌≡◌, ℕ, List};
    ghost use Rattle.regex.specs.Patterns.{default_config};
    ghost use Rattle.regex.specs.Strings.{IsReadFromSource, regex_config, regex_source};

    ghost Value = { List ℕ };

    ghost view = { λ p. regex_source p.regex };

    ghost invariant = { λ p. (regex_config p.regex ≡ default_config) × IsReadFromSource p.regex };
}

impl Pattern {
    /// Reads the text, which belongs to the pattern with number `nth`.
    pub(crate) fn new(room: &mut Room, text: &str, nth: u32) -> Result<Pattern, PrepareFault>
        ensures ok { IfOk result (λ pattern. pattern ≡ text.now) }
        ensures readable { IfOk result (λ _. IsReadable text.now) }
        ensures refused { (tried : Tried) → (CanBeRead tried → IsReadable text.now)
            → IfErr result (IsRefusal nth (tried ∷ [])) }
    {
        match room.build(text) {
            Ok(regex) => Ok(Pattern { regex, nth }),
            Err(Error::Syntax(_)) => Err(PrepareFault::RegexRefused { nth }),
            Err(_) => Err(PrepareFault::Memory),
        }
    }

    /// Reads the pattern that matches where the text's matches a whole value. It must be readable by itself too, which
    /// `a)(b` is not; what that took is free again.
    pub(crate) fn of_whole(room: &mut Room, text: &str, nth: u32) -> Result<Pattern, PrepareFault>
        ensures ok { IfOk result (λ pattern. pattern ≡ whole text.now) }
        ensures readable { IfOk result (λ _. CanBeRead (text.now, whole text.now)) }
        ensures refused { IfErr result (IsRefusal nth ((text.now, whole text.now) ∷ [])) }
    {
        let mut aside = *room;
        let alone = Pattern::new(&mut aside, text, nth)?;
        drop(alone);
        let whole = whole_text(room.alloc, text)?;
        Pattern::new(room, whole.as_str(), nth)
    }

    /// Returns the text that it was read from.
    pub(crate) fn as_str(&self) -> &str
        ensures { result.now ≡ self.now }
    {
        self.regex.as_str()
    }

    /// Returns a matcher, with memory of its own to search in.
    pub(crate) fn matcher(&self, alloc: Global) -> Result<Matcher<'_>, AllocError>
        ensures { IfOk result (λ matcher. FindsAs (matcher_pattern matcher) self.now) }
    {
        self.regex.matcher(alloc)
    }
}

fn whole_text(alloc: Global, text: &str) -> Result<String, AllocError>
    ensures { IfOk result (λ pattern. string_bytes pattern ≡ whole text.now) }
{
    format!(in alloc; "\\A(?:{text})\\z")
}
