//! When a round of the keeper is due. A pause is ten milliseconds by the system's clock.
ghost use Rattle.std.specs.Prelude.{◌≡◌, ◌↔◌, IsTrue};
ghost use Rattle.vl_serve.specs.Pace.{IsDue, most_pauses};

/// This many batches that wait make a round due at once.
const MANY: u64 = 256;

/// Says whether a round is due. `waiting` is the number of batches that are not settled, `pauses` how many pauses
/// passed since the last round, `rewritten` the bytes that the last round wrote, and `ended` whether the doors have
/// ended.
pub fn is_due(waiting: u64, pauses: u64, rewritten: u64, ended: bool) -> bool
    ensures { IsTrue result ↔ IsDue waiting pauses rewritten ended }
{
    ended || MANY <= waiting || (0 < waiting && longest_wait(rewritten) <= pauses)
}

/// Returns how many pauses a batch waits at most, where the last round wrote this many bytes.
///
/// These are 500, and 100 more for each whole 1,000,000 bytes, up to 3,000. So a store whose rounds write much again
/// has fewer of them.
pub fn longest_wait(rewritten: u64) -> u64
    ensures { result ≡ most_pauses rewritten }
{
    (500 + 100 * (rewritten / 1_000_000)).min(3_000)
}
