//! Lists of names in which a name is found fast.
ghost use Rattle.std.specs.Prelude.{◌≡◌, ◌↔◌, ℕ, List, IfOk, IsTrue};
ghost use Rattle.std.specs.List.Sorted.{IsPermutation, IsSortedBy};
ghost use Rattle.vl_row.specs.Names.{is_among, is_below};

use crate::text::Text;
use std::alloc::{AllocError, Global};
use std::marker::Model;

/// Names in byte order. A contract sees their list.
#[derive(Drop)]
pub struct Names {
    names: Vec<Text>,
}

impl Model for Names {
    ghost use Rattle.std.specs.Prelude.{ℕ, List};
    ghost use Rattle.std.specs.List.Sorted.{IsSortedBy};
    ghost use Rattle.vl_row.specs.Names.{is_below};

    ghost Value = { List (List ℕ) };

    ghost view = { λ n. n.names.items };

    ghost invariant = { λ n. IsSortedBy is_below n.names.items };
}

impl Names {
    ghost use Rattle.std.specs.Prelude.{[]};

    /// No names. This allocates nothing.
    pub fn new(alloc: Global) -> Names
        ensures { result ≡ [] }
    {
        Names {
            names: Vec::new(alloc),
        }
    }

    /// Returns copies of these names, in byte order.
    pub fn try_of(alloc: Global, names: &[Text]) -> Result<Names, AllocError>
        ensures { IfOk result (λ list. (name : List ℕ) → is_among list name ≡ is_among names.now name) }
    {
        let copies = copied(alloc, names)?;
        let names = sorted(copies)?;
        Ok(Names { names })
    }

    /// Returns whether there are no names.
    pub fn is_empty(&self) -> bool
        ensures { IsTrue result ↔ (self.now ≡ []) }
    {
        self.names.is_empty()
    }

    /// Returns whether a name is one of these, by binary search.
    pub fn has(&self, name: &str) -> bool
        ensures { result ≡ is_among self.now name.now }
    {
        is_found(self.names.as_slice(), name)
    }
}

/// Returns whether a name is one of these, which are in byte order.
fn is_found(names: &[Text], name: &str) -> bool
    requires { IsSortedBy is_below names.now }
    ensures { result ≡ is_among names.now name.now }
{
    names
        .binary_search_by(|listed| listed.as_str().cmp(name))
        .is_ok()
}

/// Returns the names in byte order.
fn sorted(mut names: Vec<Text>) -> Result<Vec<Text>, AllocError>
    ensures moved { IfOk result (λ list. IsPermutation names.items list.items) }
    ensures order { IfOk result (λ list. IsSortedBy is_below list.items) }
{
    names.sort_by(|a, b| a.as_str().cmp(b.as_str()))?;
    Ok(names)
}

/// Returns copies of the names, in their order.
fn copied(alloc: Global, names: &[Text]) -> Result<Vec<Text>, AllocError>
    ensures { IfOk result (λ list. list.items ≡ names.now) }
{
    let mut list = Vec::with_capacity(alloc, names.len())?;
    for name in names {
        list.push(name.try_copy(alloc)?)?;
    }
    Ok(list)
}
