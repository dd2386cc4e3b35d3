//! What follows from the definition of an intake. The function does nothing: its contract is the law.
ghost use Rattle.std.specs.Prelude.{◌≡◌, ℕ, ℤ, List};
ghost use Rattle.ingest_row.specs.Ingest.{Options};
ghost use Rattle.ingest_row.specs.Intake.{IsIntake, Outcome};

/// The lines of a body come to one thing: they have the same rows, and the same of them are refused, for the same
/// reasons.
pub fn intake_law()
    ensures { (options : Options) (now : ℤ) (body : List ℕ) (one other : List Outcome)
        → IsIntake options now body one → IsIntake options now body other → one ≡ other }
{}
