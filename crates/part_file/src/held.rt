//! Parts as what the shared state holds.

ghost use Rattle.std.specs.Prelude.{◌≡◌, length, map};
ghost use Rattle.std.specs.List.{All};
ghost use Rattle.log_model.specs.History.{AreOfOneBatch, rows_in, with_batch};
ghost use Rattle.log_model.specs.Row.{batch_weight};

use crate::part::Part;
use column_block::Block;
use vl_row::Held;

impl Held for Part {
    ghost numbered = { λ rows. rows };

    fn rows(&self) -> u64
        ensures { result ≡ length self.now }
    {
        self.rows
    }

    fn weight(&self) -> u64
        ensures { result ≡ batch_weight (rows_in self.now) }
    {
        self.weight
    }

    fn set_batch(&mut self, number: u64)
        requires { AreOfOneBatch self.old }
        ensures { self.new ≡ with_batch number self.old }
    {
        set_batches(self.blocks.as_mut_slice(), number);
    }
}

/// Gives the rows of all blocks, which are of one batch, another number of their batch.
fn set_batches(blocks: &mut [Block], number: u64)
    requires { All AreOfOneBatch blocks.old }
    ensures { blocks.new ≡ map (with_batch number) blocks.old }
{
    for block in blocks.iter_mut() {
        block.set_batch(number);
    }
}
