//! What became of a step of a procedure (this desk's own).
ghost use Rattle.std.specs.Prelude.{◌≡◌, ◌≤◌};
ghost use Rattle.tc_types.specs.Verdicts.{verdict_number};

/// What became of a step.
#[derive(Clone, Copy, Debug, PartialEq, Eq)]
pub enum Verdict {
    /// It was done.
    Done,
    /// It was skipped.
    Skipped,
    /// It failed, which ends the execution.
    Failed,
}

impl Verdict {
    /// Its number, 1 to 3, in tables.
    pub fn number(self) -> u8
        ensures value { result ≡ verdict_number self }
        ensures range { (1 ≤ result) × (result ≤ 3) }
    {
        match self {
            Verdict::Done => 1,
            Verdict::Skipped => 2,
            Verdict::Failed => 3,
        }
    }
}
