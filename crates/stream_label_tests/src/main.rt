//! Tests of `stream_label`.
//!
//! The program reads cases separated by lines `---`. A case is the names of a stream's labels, separated by commas, and
//! the fields of a row, all separated by tabs. It prints the numbers of labels and fields of the row, and the labels
//! and the id of its stream. The expected output comes from Python's `json` and `hashlib`.
#![tactic(auto)]

mod label_tests;

use label_tests::print_case;
use std::io;

fn main(rt: HostRuntime) -> io::Result<()> {
    let cases = io::read_to_string(rt.alloc(), rt.stdin())?;
    for case in cases.as_str().split("\n---\n") {
        if let Some((names, fields)) = case.split_once('\t') {
            print_case(&rt, names, fields)?;
        }
    }
    Ok(())
}
