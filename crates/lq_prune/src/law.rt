//! The law of pruning.
ghost use Rattle.std.specs.Prelude.{ℤ};
ghost use Rattle.lq_ast.specs.Condition.{Condition};
ghost use Rattle.lq_prune.specs.Pruning.{MissesNone, MissesNoneOfAll};

/// What a query over many blocks may rest on: where a block that is not admitted has no row that holds, the admitted
/// ones of any blocks have all rows that hold. This does nothing: its contract is the law.
pub fn pruning_law()
    ensures { (now : ℤ) (condition : Condition) → MissesNone now condition → MissesNoneOfAll now condition }
{}
