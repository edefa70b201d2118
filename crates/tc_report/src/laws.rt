//! What holds of any report. This function does nothing: its clause is the law.
ghost use Rattle.std.specs.Prelude.{◌≡◌, ℕ, List};
ghost use Rattle.tc_types.specs.declared.history.moves.Move.{Move};
ghost use Rattle.tc_report.specs.ShiftReport.{IsReport};

/// A report is a function of what it tells of: no two texts are that of one shift. A moment has one date and time in UTC, and each line one
/// form.
pub fn a_report_is_one()
    ensures { (premise counts : List ℕ) (moves : List Move) (from to : ℕ) (a b : List (List ℕ)) → IsReport premise counts moves from to a → IsReport premise counts moves from to b → a ≡ b }
{}
