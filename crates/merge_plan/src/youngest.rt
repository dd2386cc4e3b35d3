//! The last part of a day.
ghost use Rattle.std.specs.Prelude.{◌≡◌, [], IfNone, IfSome, map};
ghost use Rattle.std.specs.List.{filter};
ghost use Rattle.part_store.specs.State.{AreInOrder, is_day, listed_of};
ghost use Rattle.merge_plan.specs.Grouping.{IsYoungest};

use part_store::Stored;

/// Returns the last part of this day, if it has any.
pub(crate) fn youngest(stored: &[Stored], day: u32) -> Option<&Stored>
    requires { AreInOrder (map listed_of stored.now) }
    ensures some { IfSome result (λ part. IsYoungest day (listed_of part.now) (map listed_of stored.now)) }
    ensures none { IfNone result (filter (is_day day) (map listed_of stored.now) ≡ []) }
{
    let end = stored.partition_point(|part| part.day <= day);
    if end == 0 {
        return None;
    }
    let last = &stored[end - 1];
    if last.day == day { Some(last) } else { None }
}
