//! Reading exactly the bytes that spell a value.

ghost use Rattle.std.specs.Prelude.{◌≡◌, ◌++◌, ℕ, List, Option, Some, None, IfOk, IfSome, IfNone, OnOk, Ok};
ghost use Rattle.byte_format.specs.Format.{Format, front};
ghost use Rattle.byte_format.specs.Gives.{Gives};
ghost use Rattle.byte_format.specs.Spelling.{HasSpelling, IsReadAgain};

use crate::{Stop, first_difference};
use std::alloc::{AllocError, Global};

/// Values that each have one spelling in bytes: how their items are read, which items are a value, and how a value is
/// written.
///
/// `Self` holds the items of one value.
pub trait Spelled: Drop + Sized {
    /// What a reader knows of a value before it reads it, such as its number of rows.
    type Context: Copy + Drop;
    /// A value.
    type Output: Drop;

    /// A value as contracts see it.
    ghost Meaning: { Type 0 };

    /// The format of the items.
    ghost format: { Self.Context → Format Meaning };

    /// The spelling of a value. A meaning that no value has, has none.
    ghost writing: { Self.Context → Meaning → Option (List ℕ) };

    /// What the items mean.
    ghost meant: { Self → Meaning };

    /// What a value means.
    ghost meaning: { Self.Output → Meaning };

    /// What holds of items that were read.
    ghost was_read: { Self.Context → Self → Type 0 };

    /// Reads the items at the front of the bytes, and returns them and the bytes after them.
    fn take(alloc: Global, context: Self::Context, bytes: &[u8]) -> Result<(Self, &[u8]), Stop>
        ensures items { Gives (λ x. (meant x.0, x.1.now)) result (front (format context) bytes.now) }
        ensures read { IfOk result (λ x. was_read context x.0) };

    /// Makes the value that the items mean, or returns `None` if no value does.
    fn make(self, alloc: Global, context: Self::Context) -> Result<Option<Self::Output>, AllocError>
        requires { was_read context self }
        ensures some { IfOk result (λ made. IfSome made (λ output. meaning output ≡ meant self)) }
        ensures spelled { IfOk result (λ made. IfSome made (λ output. HasSpelling (writing context (meaning output)))) }
        ensures none { IfOk result (λ made. IfNone made (writing context (meant self) ≡ None)) };

    /// Appends the spelling of the value, if it has one.
    fn put(
        output: &Self::Output,
        context: Self::Context,
        out: &mut Vec<u8>,
    ) -> Result<(), AllocError>
        ensures { OnOk result ((bytes : List ℕ) → writing context (meaning output.now) ≡ Some bytes
            → out.new.items ≡ out.old.items ++ bytes) };

    /// What is written is read again.
    ghost again: { (context : Self.Context) → IsReadAgain (format context) (writing context) };
}
