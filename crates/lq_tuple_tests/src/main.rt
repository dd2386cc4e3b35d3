//! Tests of `lq_tuple`.
//!
//! The program answers a table. A case is a line: names with commas between them, a tab, and the fields of a record as
//! `name=value`, with `&` between them. The answer is the text of the tuple of these names, the number of that text
//! among those of all lines so far, the values that are read back from it, each in brackets, and `empty` where all of
//! them are. After the answers stand the texts in the order of their numbers, and how many there are. At the end stands
//! a line for each place among these texts: how many there are in a table with those before the place that has taken
//! one with the others, and in one with those before it that has taken one with all. The answers are those of a Python
//! program of its own.
#![tactic(auto)]

mod merge_tests;
mod tuple_tests;

use lq_tuple::{HashSeed, Places, Texts};
use merge_tests::merged_len;
use std::io;
use tuple_tests::answer;

fn main(rt: HostRuntime) -> io::Result<()> {
    let mut places = Places::seeded(rt.alloc(), HashSeed::random(&rt));
    let mut texts = Texts::new(rt.alloc());
    for case in rt.lines(rt.alloc()) {
        let answer = answer(rt.alloc(), case?.as_str(), &mut places, &mut texts)?;
        println!(rt; "{answer}")?;
    }
    let different = places.texts(rt.alloc())?;
    for text in &different {
        println!(rt; "{text}")?;
    }
    println!(rt; "{}", texts.len())?;
    let all = different.as_slice();
    for place in 0..=all.len() {
        let (before, after) = all.split_at(place);
        let apart = merged_len(rt.alloc(), before, after)?;
        let among = merged_len(rt.alloc(), before, all)?;
        println!(rt; "{apart} {among}")?;
    }
    Ok(())
}
