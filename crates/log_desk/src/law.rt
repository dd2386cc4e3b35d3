//! What follows from how a caller's view of the history grows. The function does nothing: its contract is the law.
ghost use Rattle.std.specs.Prelude.{◌≡◌, ◌∷◌, []};
ghost use Rattle.std.specs.List.{filter};
ghost use Rattle.log_model.specs.Row.{Batch};
ghost use Rattle.log_desk.specs.Seen.{Caller, Follows, Gains, Seen, is_own};

/// With a single caller, no one else adds to the history. And what others add is never the caller's own.
pub fn one_caller_law()
    ensures follows_alone { (caller : Caller) (old new : Seen) → caller.lock.passes ≡ 1 → caller.numbers ≡ 0 ∷ []
        → Follows caller old new → new.history ≡ old.history }
    ensures gains_alone { (caller : Caller) (old new : Seen) (batch : Batch) → caller.lock.passes ≡ 1
        → caller.numbers ≡ 0 ∷ [] → (gains : Gains caller old new batch) → gains.others ≡ [] }

    // None of the caller's own is among the entries of others.
    ensures follows_none_own { (caller : Caller) (old new : Seen) → (follows : Follows caller old new)
        → filter (is_own caller) follows.others ≡ [] }
    ensures gains_none_own { (caller : Caller) (old new : Seen) (batch : Batch)
        → (gains : Gains caller old new batch) → filter (is_own caller) gains.others ≡ [] }
{}
