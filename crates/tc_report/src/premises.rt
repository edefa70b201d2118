//! What a report says of the link.
ghost use Rattle.std.specs.Prelude.{◌≡◌};
ghost use Rattle.tc_report.specs.ShiftReport.{premise_text};

/// Whether every start of the link so far was good, so that what the desk says of the link holds.
#[derive(Clone, Copy, Debug, PartialEq, Eq)]
pub enum Premise {
    /// Each was.
    Kept,
    /// One was not.
    Broken,
    /// The desk is closed, and its tables do not tell.
    Closed,
}

impl Premise {
    /// The word that says it.
    pub fn name(self) -> &'static str
        ensures { result.now ≡ premise_text self }
    {
        match self {
            Premise::Kept => "kept",
            Premise::Broken => "broken",
            Premise::Closed => "closed",
        }
    }
}
