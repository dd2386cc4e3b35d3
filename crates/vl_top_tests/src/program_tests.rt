//! The program over a vault in memory.
ghost use Rattle.std.specs.Prelude.{◌≤◌, ℕ, length};
ghost use Rattle.vl_vault.specs.Moments.{IsDurable};

use crate::vaults_tests::{VaultFault, image_of, new_vault};
use crate::visitors_tests::TestDoors;
use std::alloc::{AllocError, AllocGlobal, Global};
use std::random::RandomSource;
use std::rt::Clock as SystemTimer;
use std::sync::Wait;
use std::thread::Threads;
use vl_io::{MemClock, MemDoors, MemSink, MemSource};
use vl_top::run;
use vl_vault::MemoryVault;

/// Doors that nothing opens.
type NoDoors = MemDoors<MemSource, MemSink, MemClock>;

/// What a run left: its status, what it wrote, and its vault.
#[derive(Drop)]
pub struct Ended {
    pub status: u8,
    pub out: MemSink,
    pub err: MemSink,
    pub vault: MemoryVault,
}

impl Ended {
    /// Returns what was written to the output.
    pub fn output(&self) -> &str {
        text_of(self.out.bytes())
    }

    /// Returns the status, the output and the error text.
    pub fn shown(&self, alloc: Global) -> Result<String, AllocError> {
        let (out, err) = (text_of(self.out.bytes()), text_of(self.err.bytes()));
        format!(in alloc; "{} {out:?} {err:?}", self.status)
    }

    /// Returns the number of rows that the answer to `* | stats count() as n` gives.
    pub fn count(&self) -> Option<u64> {
        if self.status != 0 || !self.err.bytes().is_empty() {
            return None;
        }
        let number = self
            .output()
            .strip_prefix("{\"n\":\"")?
            .strip_suffix("\"}\n")?;
        number.parse::<u64>().ok()
    }
}

/// The bytes as text.
fn text_of(bytes: &[u8]) -> &str {
    str::from_utf8(bytes).unwrap_or("not UTF-8\n")
}

/// Runs the program with these words and this input over a vault.
#[tactic(auto, using(crate::proofs::Listing::listed_durable))]
pub fn run_on<R: AllocGlobal + Threads + Wait + RandomSource + Sync>(
    rt: &R,
    words: &[&str],
    input: &[u8],
    vault: MemoryVault,
) -> Result<Ended, AllocError>
    requires { (file : ℕ) → IsDurable vault.past file }
{
    let alloc = rt.alloc();
    let mut src = MemSource::of(alloc, input, &[7, 1, 30], &[])?;
    let mut out = MemSink::of(alloc, &[])?;
    let mut err = MemSink::of(alloc, &[])?;
    let mut doors: Vec<NoDoors> = Vec::new(alloc);
    let mut clock = MemClock::of(alloc, &[5])?;
    let (status, vault) = run(
        rt, words, &mut src, &mut out, &mut err, vault, &mut doors, &mut clock,
    );
    Ok(Ended {
        status,
        out,
        err,
        vault,
    })
}

/// The words of a loading. The vault is given, whatever the directory.
const LOAD: &[&str] = &["load", "--dir", "d"];

/// Loads the input into a new vault, whose calls of these numbers fail.
pub fn load<R: AllocGlobal + Threads + Wait + RandomSource + Sync>(
    rt: &R,
    input: &[u8],
    failing: &[u64],
) -> Result<Ended, AllocError> {
    let vault = new_vault(rt.alloc(), failing)?;
    run_on(rt, LOAD, input, vault)
}

/// Asks a query over a vault.
pub fn query<R: AllocGlobal + Threads + Wait + RandomSource + Sync>(
    rt: &R,
    text: &str,
    vault: MemoryVault,
) -> Result<Ended, AllocError>
    requires { (file : ℕ) → IsDurable vault.past file }
{
    run_on(rt, &["query", "--dir", "d", text], b"", vault)
}

/// Asks a query over what a crash after this many calls may leave, by a choice.
pub fn query_after_crash<R: AllocGlobal + Threads + Wait + RandomSource + Sync>(
    rt: &R,
    text: &str,
    vault: &MemoryVault,
    call: u64,
    choice: u64,
) -> Result<Ended, VaultFault> {
    let image = image_of(vault, call, choice)?;
    let ended = query(rt, text, image)?;
    Ok(ended)
}

/// Returns how many rows are found after a crash. There is none where the query is not answered.
pub fn count_after_crash<R: AllocGlobal + Threads + Wait + RandomSource + Sync>(
    rt: &R,
    vault: &MemoryVault,
    call: u64,
    choice: u64,
) -> Result<Option<u64>, VaultFault> {
    let ended = query_after_crash(rt, "* | stats count() as n", vault, call, choice)?;
    Ok(ended.count())
}

/// The words of a server. Nothing listens at the address, since the doors are in memory.
const SERVER: &[&str] = &["serve", "--dir", "d", "--http", "x"];

/// Serves the doors over a vault.
#[tactic(auto, using(crate::proofs::Listing::listed_durable))]
pub fn serve<
    R: AllocGlobal + Threads + Wait + RandomSource + Sync + SystemTimer + Copy + Drop + Send,
>(rt: &R, mut doors: Vec<TestDoors<R>>, vault: MemoryVault) -> Result<Ended, AllocError>
    requires durable { (file : ℕ) → IsDurable vault.past file }
    requires few { length doors.items ≤ 64 }
{
    let alloc = rt.alloc();
    let mut src = MemSource::of(alloc, b"x\n", &[], &[])?;
    let mut out = MemSink::of(alloc, &[])?;
    let mut err = MemSink::of(alloc, &[])?;
    let mut clock = MemClock::of(alloc, &[5])?;
    let (status, vault) = run(
        rt, SERVER, &mut src, &mut out, &mut err, vault, &mut doors, &mut clock,
    );
    Ok(Ended {
        status,
        out,
        err,
        vault,
    })
}
