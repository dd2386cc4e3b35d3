//! Whether a need admits a block.
ghost use Rattle.std.specs.Prelude.{◌≡◌, ◌&&◌, ◌<◌, length, map, slice_index_or, true};
ghost use Rattle.std.specs.List.{list_any};
ghost use Rattle.block_body.specs.Outline.{NamedFilter};
ghost use Rattle.lq_prune.specs.Bound.{are_bound, is_bound};
ghost use Rattle.lq_prune.specs.Need.{admits, all_needed, may_have_word, one_needed, words_needed};
ghost use Rattle.lq_prune.specs.Need as is;
ghost use Rattle.lq_prune.specs.Tree.{needed_of};

use crate::tree::Tree;
use block_body::Head;
use vl_row::Text;

/// Whether a block with this head, of the stream that was bound, may have what is needed.
#[cycle(admitting)]
pub(crate) fn admits(tree: &Tree, head: &Head) -> bool
    requires { is_bound head.now.labels tree.now ≡ true }
    ensures { result ≡ admits (needed_of tree.now) head.now }
{
    match tree {
        Tree::Nothing => true,
        Tree::Words { field, words } => has_words(head, field.as_str(), words.as_slice()),
        Tree::Within { from, to } => *from <= head.max() as i128 && head.min() as i128 <= *to,
        Tree::Stream(selection) => selection.is_selected,
        Tree::All(trees) => all_admit(trees.as_slice(), head),
        Tree::Any(trees) => some_admits(trees.as_slice(), head),
    }
}

#[cycle(admitting)]
fn all_admit(trees: &[Tree], head: &Head) -> bool
    requires { are_bound head.now.labels trees.now ≡ true }
    ensures { result ≡ admits (all_needed (map needed_of trees.now)) head.now }
{
    for tree in trees {
        if !admits(tree, head) {
            return false;
        }
    }
    true
}

#[cycle(admitting)]
fn some_admits(trees: &[Tree], head: &Head) -> bool
    requires { are_bound head.now.labels trees.now ≡ true }
    ensures { result ≡ admits (one_needed (map needed_of trees.now)) head.now }
{
    for tree in trees {
        if admits(tree, head) {
            return true;
        }
    }
    false
}

/// Whether each of the words may be in the column of this name.
fn has_words(head: &Head, name: &str, words: &[Text]) -> bool
    ensures { result ≡ admits (words_needed name.now words.now) head.now }
{
    for word in words {
        if !has_word(head, name, word.as_str()) {
            return false;
        }
    }
    true
}

/// Whether there is a column of this name whose filter may have the word.
fn has_word(head: &Head, name: &str, word: &str) -> bool
    ensures { result ≡ list_any (may_have_word name.now word.now) head.now.columns }
{
    for c in 0..head.columns() {
        if may_have_word(head, c, name, word) {
            return true;
        }
    }
    false
}

fn may_have_word(head: &Head, c: usize, name: &str, word: &str) -> bool
    requires { c < length head.now.columns }
    ensures { (d : NamedFilter) → result ≡ may_have_word name.now word.now (slice_index_or head.now.columns c d) }
{
    head.name(c) == name && head.bloom(c).may_have(word.as_bytes())
}
