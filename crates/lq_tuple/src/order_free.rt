//! That statistics do not depend on the order of the records.
ghost use Rattle.std.specs.Prelude.{◌≡◌, ℤ, List, IsTrue};
ghost use Rattle.std.specs.List.Sorted.{IsPermutation};
ghost use Rattle.log_model.specs.Row.{Row};
ghost use Rattle.lq_ast.specs.Evaluation.{evaluate};
ghost use Rattle.lq_ast.specs.Grouping.{grouped};
ghost use Rattle.lq_ast.specs.Pipes.{all_piped};
ghost use Rattle.lq_ast.specs.Question.{Question};
ghost use Rattle.lq_ast.specs.Records.{Record};
ghost use Rattle.lq_ast.specs.Sorting.{top, uniq};
ghost use Rattle.lq_ast.specs.Stage.{Distinct, Grouping, Ranking, Stage};
ghost use Rattle.lq_tuple.specs.SameItems.{HaveSameItems, forget_order};

/// That `stats`, `uniq` and `top` make the same of the same records in any order, and so does a query whose first pipe
/// that does not look at each record by itself is one of these. It does nothing: its contract is the law.
pub fn order_law()
    ensures grouped { (g : Grouping) (xs ys : List Record) → HaveSameItems xs ys → grouped g xs ≡ grouped g ys }
    ensures uniq { (d : Distinct) (xs ys : List Record) → HaveSameItems xs ys → uniq d xs ≡ uniq d ys }
    ensures top { (r : Ranking) (xs ys : List Record) → HaveSameItems xs ys → top r xs ≡ top r ys }
    ensures piped { (stages : List Stage) (xs ys : List Record) → IsTrue (forget_order stages)
        → HaveSameItems xs ys → all_piped stages xs ≡ all_piped stages ys }
    ensures evaluated { (asked : Question) (now : ℤ) (xs ys : List Row) → IsTrue (forget_order asked.stages)
        → HaveSameItems xs ys → evaluate asked now xs ≡ evaluate asked now ys }
    ensures permuted { (xs ys : List Row) → IsPermutation xs ys → HaveSameItems xs ys }
{}
