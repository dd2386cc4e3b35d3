//! Tests of `part_store`.
//!
//! A line is the name of a check: of what a crash leaves while parts are replaced, of the call of a number that fails,
//! as `fault 3`, of a removal that alone fails, or of a list of the last numbers or of another version. The program
//! writes whether it holds.
#![tactic(auto)]

mod checks_tests;
mod numbers_tests;
mod store_tests;

use checks_tests::holds;
use std::io;

fn main(rt: HostRuntime) -> io::Result<()> {
    for line in rt.stdin().lines(rt.alloc()) {
        let held = holds(rt.alloc(), line?.as_str()).unwrap_or(false);
        println!(rt; "{held}")?;
    }
    Ok(())
}
