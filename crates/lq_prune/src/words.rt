//! The words of texts that are sought.
ghost use Rattle.std.specs.Prelude.{◌≡◌, ◌++◌, IfOk, OnOk, flat_map, true};
ghost use Rattle.std.specs.List.{list_all};
ghost use Rattle.std.specs.Str.{is_utf8};
ghost use Rattle.word_filter.specs.Words.{words_in};
ghost use Rattle.lq_prune.specs.Need.{ended_words};

use std::alloc::{AllocError, Global};
use vl_row::Text;
use word_tokens::words;

/// The words of a text.
pub(crate) fn words_in(alloc: Global, text: &Text) -> Result<Vec<Text>, AllocError>
    ensures words { IfOk result (λ found. found.items ≡ words_in text.now) }
    ensures text { is_utf8 text.now ≡ true }
{
    let mut found = Vec::new(alloc);
    push_words(alloc, text, &mut found)?;
    Ok(found)
}

/// The words of all texts.
pub(crate) fn words_of_all(alloc: Global, texts: &[Text]) -> Result<Vec<Text>, AllocError>
    ensures words { IfOk result (λ found. found.items ≡ flat_map words_in texts.now) }
    ensures texts { IfOk result (λ _. list_all is_utf8 texts.now ≡ true) }
{
    let mut found = Vec::new(alloc);
    for text in texts {
        push_words(alloc, text, &mut found)?;
    }
    Ok(found)
}

/// Appends the words of a text.
fn push_words(alloc: Global, text: &Text, found: &mut Vec<Text>) -> Result<(), AllocError>
    ensures words { OnOk result (found.new.items ≡ found.old.items ++ words_in text.now) }
    ensures text { is_utf8 text.now ≡ true }
{
    let content = content_of(text);
    for (start, end) in words(content) {
        found.push(Text::try_of(alloc, &content[start..end])?)?;
    }
    Ok(())
}

/// The words of a text that end before it does. What begins with the text may go on with its last word.
pub(crate) fn ended_words(alloc: Global, text: &Text) -> Result<Vec<Text>, AllocError>
    ensures words { IfOk result (λ found. found.items ≡ ended_words text.now) }
    ensures text { is_utf8 text.now ≡ true }
{
    let content = content_of(text);
    let mut found = Vec::new(alloc);
    for (start, end) in words(content) {
        if end < content.len() {
            found.push(Text::try_of(alloc, &content[start..end])?)?;
        }
    }
    Ok(found)
}

fn content_of(text: &Text) -> &str
    ensures value { result.now ≡ text.now }
    ensures utf8 { is_utf8 text.now ≡ true }
{
    text.as_str()
}
