//! Tests of `word_tokens`.
//!
//! The program answers a table. For a text and a needle with a tab between them: whether the text has the word, the
//! phrase and the prefix, by the search and by the plain program. For a text only: whether it is a word, which of its
//! characters are part of words, and its words, by the iterator and by a trial of each pair of places. The answers are
//! those of Python: its `unicodedata` gives the categories, and the words are the longest runs.
#![tactic(auto)]

mod words_tests;

use std::io;
use word_tokens::{has_phrase, has_prefix, has_word, plain};
use words_tests::print_text;

fn main(rt: HostRuntime) -> io::Result<()> {
    for line in rt.stdin().lines(rt.alloc()) {
        let line = line?;
        match line.as_str().split_once('\t') {
            Some((text, needle)) if !needle.is_empty() => {
                print!(rt;
                    "{} {} ",
                    has_word(text, needle),
                    plain::has_word(text, needle)
                )?;
                print!(rt;
                    "{} {} ",
                    has_phrase(text, needle),
                    plain::has_phrase(text, needle)
                )?;
                println!(rt;
                    "{} {}",
                    has_prefix(text, needle),
                    plain::has_prefix(text, needle)
                )?;
            }
            _ => print_text(&rt, line.as_str())?,
        }
    }
    Ok(())
}
