//! What is found in a text.
use std::io;
use word_tokens::{is_word, is_word_text, plain, words};

pub fn print_text(rt: &HostRuntime, text: &str) -> io::Result<()> {
    print!(rt; "{} ", is_word_text(text))?;
    for c in text.chars() {
        print!(rt; "{}", if is_word(c) { 'w' } else { '-' })?;
    }
    print_words(rt, text)?;
    print!(rt; " by trial")?;
    for start in 0..text.len() {
        print_words_at(rt, text, start)?;
    }
    println!(rt)
}

fn print_words(rt: &HostRuntime, text: &str) -> io::Result<()> {
    for (start, end) in words(text) {
        print!(rt; " {start}-{end}")?;
    }
    Ok(())
}

fn print_words_at(rt: &HostRuntime, text: &str, start: usize) -> io::Result<()> {
    for end in start..text.len() {
        if plain::is_word_at(text, start, end + 1) {
            print!(rt; " {start}-{}", end + 1)?;
        }
    }
    Ok(())
}
