//! Whether the rows of a part lie in a day.
ghost use Rattle.std.specs.Prelude.{◌≡◌, ◌↔◌, ◌≤ℤ◌, IsTrue, pos, ℕ};
ghost use Rattle.day_model.specs.Days.{LieInDay, day_of_moment};

use column_block::Block;
use part_file::Part;

/// The nanoseconds of a day.
const DAY: u64 = 86_400_000_000_000;

/// Returns whether all rows of the part lie in the day. Only the heads of its blocks are looked at.
pub(crate) fn lies_in_day(part: &Part, day: u32) -> bool
    ensures { IsTrue result ↔ LieInDay day part.now }
{
    for block in part.blocks() {
        if !has_day(block, day) {
            return false;
        }
    }
    true
}

/// Returns whether all rows of the block lie in the day, by its least and its greatest time.
fn has_day(block: &Block, day: u32) -> bool
    ensures { IsTrue result ↔ LieInDay day block.now }
{
    let head = block.head();
    day_of(head.min()) == day as u64 && day_of(head.max()) == day as u64
}

/// Returns the day of the time.
fn day_of(time: i64) -> u64
    requires { pos 0 ≤ℤ time }
    ensures { (moment : ℕ) → time ≡ pos moment → result ≡ day_of_moment moment }
{
    time as u64 / DAY
}
