//! What an offset and a limit keep.
ghost use Rattle.std.specs.Prelude.{◌≡◌, drop};
ghost use Rattle.lq_ast.specs.Sorting.{at_most};

/// Returns what is left after the first `offset` items, and no more than `limit` of it.
pub(crate) fn kept<T>(items: &[T], offset: u64, limit: Option<u64>) -> &[T]
    ensures { result.now ≡ at_most limit (drop offset items.entry.now) }
{
    let later = &items[items.len().min(offset as usize)..];
    match limit {
        Some(limit) => &later[..later.len().min(limit as usize)],
        None => later,
    }
}
