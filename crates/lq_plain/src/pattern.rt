//! Matches regular expressions.
ghost use Rattle.std.specs.Prelude.{◌≡◌, IfOk, IfErr, string_bytes};
ghost use Rattle.lq_ast.specs.Patterns.{IsReadable, is_found, whole};
ghost use Rattle.lq_plain.specs.declared.fault.PlainFault.TheVariants.{Unreadable};

use crate::fault::PlainFault;
use regex::{Error, Regex};
use std::alloc::{AllocError, Global};

/// Compiles the regular expression, to check whether it is valid.
pub(crate) fn check(alloc: Global, pattern: &str) -> Result<(), PlainFault>
    ensures readable { IfOk result (λ _. IsReadable pattern.now) }
    ensures unreadable { IfErr result (λ fault. fault ≡ Unreadable → IsReadable pattern.now → ⊥) }
{
    match Regex::new(alloc, pattern) {
        Ok(regex) => {
            drop(regex);
            Ok(())
        }
        Err(Error::Syntax(_)) => Err(PlainFault::Unreadable),
        Err(_) => Err(PlainFault::Memory),
    }
}

/// Returns whether the regular expression matches somewhere in the value. It has been checked before, so it can fail
/// only if memory runs out.
pub(crate) fn is_found(alloc: Global, pattern: &str, value: &str) -> Result<bool, AllocError>
    ensures { IfOk result (λ found. found ≡ is_found pattern.now value.now) }
{
    match Regex::new(alloc, pattern) {
        Ok(regex) => {
            let mut matcher = regex.matcher(alloc)?;
            Ok(matcher.is_match(value))
        }
        Err(_) => Err(AllocError),
    }
}

/// Returns whether the regular expression matches the whole value.
pub(crate) fn matches_whole(alloc: Global, pattern: &str, value: &str) -> Result<bool, AllocError>
    ensures { IfOk result (λ found. found ≡ is_found (whole pattern.now) value.now) }
{
    let whole = whole_pattern(alloc, pattern)?;
    is_found(alloc, whole.as_str(), value)
}

/// Returns the regular expression that matches only a whole value.
pub(crate) fn whole_pattern(alloc: Global, pattern: &str) -> Result<String, AllocError>
    ensures { IfOk result (λ text. string_bytes text ≡ whole pattern.now) }
{
    let mut whole = String::new(alloc);
    whole.push_str("\\A(?:")?;
    whole.push_str(pattern)?;
    whole.push_str(")\\z")?;
    Ok(whole)
}
