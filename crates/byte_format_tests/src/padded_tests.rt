//! Numbers of one byte, each with a byte of 0 after it.

ghost use Rattle.byte_format_tests.specs.Again.{is_read_again};
ghost use Rattle.byte_format_tests.specs.Padded.{padded, padded_writing};

use byte_format::{Spelled, Stop, take_u8};
use std::alloc::{AllocError, Global};

/// The first of two bytes. The number is at most the one that its reader is given.
#[derive(Drop)]
pub struct Padded {
    pub n: u8,
}

impl Spelled for Padded {
    ghost use Rattle.std.specs.Prelude.{ℕ};

    type Context = u8;

    type Output = u8;

    ghost Meaning = { ℕ };

    ghost format = { λ most. padded };

    ghost writing = { padded_writing };

    ghost meant = { λ padded. padded.n };

    ghost meaning = { λ n. n };

    ghost was_read = { λ most padded. Unit {0} };

    fn take(_alloc: Global, _most: u8, bytes: &[u8]) -> Result<(Padded, &[u8]), Stop> {
        let (n, rest) = take_u8(bytes)?;
        let (_, rest) = take_u8(rest)?;
        Ok((Padded { n }, rest))
    }

    fn make(self, _alloc: Global, most: u8) -> Result<Option<u8>, AllocError> {
        if self.n > most {
            return Ok(None);
        }
        Ok(Some(self.n))
    }

    fn put(n: &u8, _most: u8, out: &mut Vec<u8>) -> Result<(), AllocError> {
        out.push(*n)?;
        out.push(0)?;
        Ok(())
    }

    ghost again = { is_read_again };
}
