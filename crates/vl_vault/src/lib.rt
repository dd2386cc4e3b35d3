//! Numbered files, and what a crash may leave of them.
//!
//! `Vault` is the trait that the code above is written over. Its contract is a model of a disk: a write that was not
//! synced may be torn by a crash, a cut may not have happened, and what was synced stays. `MemoryVault` follows the
//! model and gives the images that a crash may leave. `DirVault` keeps the files in a directory.
#![tactic(auto)]

mod call;
mod directory;
mod files;
mod image;
mod memory;
mod vault;

pub use directory::DirVault;
pub use memory::MemoryVault;
pub use vault::Vault;
