//! Laws of the three queries and of the rows. These functions do nothing: their contracts are the laws.
ghost use Rattle.std.specs.Prelude.{◌≡◌, [], ◌∷◌, codes, flat_map};
ghost use Rattle.std.specs.List.{AllByRecursion};
ghost use Rattle.lq_ast.specs.Patterns.{all_patterns};
ghost use Rattle.lq_ast.specs.Question.{Question};
ghost use Rattle.lq_grammar.specs.Query.{IsQueryText};
ghost use Rattle.vl_trial.specs.Questions.{all_counted, errors_by_app, slow_counted, trial_questions};
ghost use Rattle.vl_trial.specs.QueryTexts.{count_text, errors_text, slow_text};
ghost use Rattle.vl_trial.specs.Safety.{AlwaysEvaluates, CountsAndSums, StatsLaw};

/// Counts and sums over rows with small numbers always have values.
pub fn stats_law()
    ensures { StatsLaw }
{}

/// The three queries always have records over the rows of a trial: no total overflows, and there are never too many
/// rows.
pub fn trial_law()
    ensures questions { AllByRecursion AlwaysEvaluates trial_questions }

    // So has each question that counts, and sums `ms`; and these are such.
    ensures always { (asked : Question) → CountsAndSums (codes "ms") asked → AlwaysEvaluates asked }
    ensures alike { AllByRecursion (CountsAndSums (codes "ms")) trial_questions }
{}

/// Each of the three texts is a query, and this is what it asks.
pub fn trial_queries_law()
    ensures counted { IsQueryText count_text all_counted }
    ensures errors { IsQueryText errors_text errors_by_app }
    ensures slow { IsQueryText slow_text slow_counted }
    // None of them has a pattern, so all their patterns can be read.
    ensures readable { flat_map all_patterns (all_counted ∷ errors_by_app ∷ slow_counted ∷ []) ≡ [] }
{}
