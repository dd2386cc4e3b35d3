//! Makes the calls on a vault that the lines of standard input name, and writes what each returned. The words say which
//! vault: `memory`, `write DIR`, or `read DIR` for a directory that is only read. It is for comparing the vault over a
//! directory with the one in memory.
//!
//! A line is `length FILE`, `read FILE AT SIZE`, `write FILE AT SIZE FIRST` (bytes that count up from FIRST),
//! `cut FILE LENGTH`, `sync FILE` or `remove FILE`. The last line that is written is the number of faults.
#![tactic(auto)]

use std::alloc::{AllocError, Global};
use std::io::{BufRead, BufReader};
use std::{env, io};
use vl_io::Failed;
use vl_vault::{DirVault, MemoryVault, Vault};

/// How many bytes one call reads or writes at most.
const MOST: u64 = 4_194_304;

fn main(rt: HostRuntime) -> io::Result<()> {
    let alloc = rt.alloc();
    let mut words = env::args(&rt)?.skip(1);
    let kind = words.next();
    let directory = words.next();
    match (kind.as_deref(), directory.as_deref()) {
        (Some("memory"), None) => run(rt, MemoryVault::of(alloc, &[])?),
        (Some("write"), Some(path)) => run(rt, DirVault::open(rt, alloc, path)?),
        (Some("read"), Some(path)) => run(rt, DirVault::open_for_reading(rt, alloc, path)?),
        _ => eprintln!(rt; "usage: vault_stdio memory | write DIR | read DIR"),
    }
}

/// Makes the call of each line.
fn run<V: Vault + Drop>(rt: HostRuntime, mut vault: V) -> io::Result<()> {
    let alloc = rt.alloc();
    for line in BufReader::new(alloc, rt.stdin())?.lines(alloc) {
        let line = line?;
        let answer = answer_line(alloc, &mut vault, line.as_str())?;
        println!(rt; "{answer}")?;
    }
    let faults = vault.faults();
    println!(rt; "faults {faults}")
}

/// Makes the call that the line names, and returns what is written of it.
fn answer_line<V: Vault>(alloc: Global, vault: &mut V, line: &str) -> Result<String, AllocError> {
    let mut words = line.split(' ');
    let call = words.next().unwrap_or("");
    let file = number(words.next());
    let first = number(words.next());
    let second = number(words.next());
    let third = number(words.next());
    match call {
        "length" => told(alloc, vault.length(file)),
        "read" => read(alloc, vault, file, first, second),
        "write" => write(alloc, vault, file, first, &piece(alloc, second, third)?),
        "cut" => done(alloc, vault.cut(file, first)),
        "sync" => done(alloc, vault.sync(file)),
        "remove" => done(alloc, vault.remove(file)),
        _ => String::from_str(alloc, "no such call"),
    }
}

/// Returns the number that the word spells, or 0.
fn number(word: Option<&str>) -> u64 {
    match word {
        Some(digits) => digits.parse().unwrap_or(0),
        None => 0,
    }
}

fn told(alloc: Global, returned: Result<u64, Failed>) -> Result<String, AllocError> {
    match returned {
        Ok(number) => format!(in alloc; "{number}"),
        Err(_) => String::from_str(alloc, "failed"),
    }
}

fn done(alloc: Global, returned: Result<(), Failed>) -> Result<String, AllocError> {
    match returned {
        Ok(()) => String::from_str(alloc, "done"),
        Err(_) => String::from_str(alloc, "failed"),
    }
}

/// Returns how many bytes were read, and a number that tells them from others.
fn read<V: Vault>(
    alloc: Global,
    vault: &mut V,
    file: u64,
    at: u64,
    size: u64,
) -> Result<String, AllocError> {
    let mut bytes = vec![in alloc; 0u8; size.min(MOST) as usize]?;
    let Ok(count) = vault.read(file, at, bytes.as_mut_slice()) else {
        return String::from_str(alloc, "failed");
    };
    bytes.truncate(count);
    let mut hash = 0u64;
    for byte in bytes.as_slice() {
        hash = hash.wrapping_mul(31).wrapping_add(u64::from(*byte));
    }
    format!(in alloc; "{count} {hash}")
}

/// Returns `size` bytes that count up from `first`.
fn piece(alloc: Global, size: u64, first: u64) -> Result<Vec<u8>, AllocError> {
    let mut piece = vec![in alloc; 0u8; size.min(MOST) as usize]?;
    let mut next = first;
    for byte in piece.iter_mut() {
        *byte = (next % 251) as u8;
        next = next.wrapping_add(1);
    }
    Ok(piece)
}

/// Writes the piece, unless that leaves a gap after the end of the file.
fn write<V: Vault>(
    alloc: Global,
    vault: &mut V,
    file: u64,
    at: u64,
    piece: &[u8],
) -> Result<String, AllocError> {
    match write_within(vault, file, at, piece) {
        Ok(true) => String::from_str(alloc, "done"),
        Ok(false) => String::from_str(alloc, "past the end"),
        Err(_) => String::from_str(alloc, "failed"),
    }
}

/// Writes the piece, unless the file is too short.
fn write_within<V: Vault>(vault: &mut V, file: u64, at: u64, piece: &[u8]) -> Result<bool, Failed> {
    if vault.length(file)? < at {
        return Ok(false);
    }
    vault.write_at(file, at, piece)?;
    Ok(true)
}
