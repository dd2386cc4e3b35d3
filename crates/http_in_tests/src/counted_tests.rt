//! A source that counts how often it is asked.
ghost use Rattle.std.specs.Prelude.{Some};

use vl_io::{Failed, MemSource, Source};

#[derive(Drop)]
pub struct Counted {
    source: MemSource,
    reads: u64,
}

impl Counted {
    pub fn of(source: MemSource) -> Counted {
        Counted { source, reads: 0 }
    }

    /// Returns how many reads were asked for.
    pub fn reads(&self) -> u64 {
        self.reads
    }
}

impl Source for Counted {
    ghost left = { λ s. Some s.source.left };

    ghost faults = { λ s. s.source.faults };

    fn read(&mut self, buf: &mut [u8]) -> Result<usize, Failed> {
        self.reads = self.reads.saturating_add(1);
        self.source.read(buf)
    }
}
