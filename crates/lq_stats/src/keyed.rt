//! Texts with what they are compared by.
ghost use Rattle.std.specs.Prelude.{◌≡◌};
ghost use Rattle.log_model.specs.Order.{key_of};

use vl_row::ValueKey;

/// A text, and what it is compared by.
#[derive(Drop)]
pub(crate) struct KeyedText<'a> {
    pub(crate) key: ValueKey<'a>,
    pub(crate) text: &'a str,
    ghost same: { key ≡ key_of text.now },
}
