//! What is said of a server's addresses before it serves. No clause speaks of it.

use std::alloc::{AllocError, Global};
use vl_io::{Listening, Sink};
use vl_status::say;

/// An address that the words name.
#[derive(Clone, Copy)]
pub(crate) struct Address<'a> {
    /// What is spoken there.
    pub(crate) protocol: &'a str,
    /// The address, as it was written.
    pub(crate) asked: &'a str,
    /// The listener there, or why there is none.
    pub(crate) listening: &'a Listening,
    /// How many workers it has.
    pub(crate) workers: u32,
}

/// Returns what is said of an address that listens, and nothing of one that does not: that, and why, is said at once.
pub(crate) fn address_part<E: Sink>(
    alloc: Global,
    err: &mut E,
    address: &Address<'_>,
) -> Result<String, AllocError> {
    let Address {
        protocol,
        asked,
        workers,
        ..
    } = *address;
    match address.listening.address() {
        Ok(bound) => {
            let part = format!(in alloc; "{protocol} on {bound} (workers: {workers})")?;
            Ok(part)
        }
        Err(fault) => {
            let line = format!(in alloc; "cannot listen on {asked}: {fault}\n")?;
            say(err, line.as_str());
            Ok(String::new(alloc))
        }
    }
}

/// Says where the server listens, or why it does not, for two addresses.
pub(crate) fn report_both<E: Sink>(
    alloc: Global,
    err: &mut E,
    first: &Address<'_>,
    second: &Address<'_>,
) -> Result<(), AllocError> {
    let pages = address_part(alloc, err, first)?;
    let senders = address_part(alloc, err, second)?;
    report_addresses(alloc, err, pages.as_str(), senders.as_str())
}

/// Says in one line where the server listens, if anywhere.
pub(crate) fn report_addresses<E: Sink>(
    alloc: Global,
    err: &mut E,
    first: &str,
    second: &str,
) -> Result<(), AllocError> {
    let between = if first.is_empty() || second.is_empty() {
        ""
    } else {
        ", "
    };
    if first.is_empty() && second.is_empty() {
        return Ok(());
    }
    let line = format!(in alloc; "{first}{between}{second}\n")?;
    say(err, line.as_str());
    Ok(())
}
