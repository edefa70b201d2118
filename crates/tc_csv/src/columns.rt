//! The columns of the tables that the desk reads.
ghost use Rattle.std.specs.Prelude.{◌≡◌};
ghost use Rattle.tc_csv.specs.Tables.{column_name};

/// A column of a table.
#[derive(Clone, Copy, Debug, PartialEq, Eq)]
pub enum Column {
    /// The number of a row of a stack.
    Line,
    /// The application process.
    Apid,
    /// The service.
    Service,
    /// The subtype.
    Subtype,
    /// The line whose request the command names.
    Target,
    /// A release time, or an offset.
    Time,
    /// Which reports of success are asked for.
    Ack,
    /// Whether two approvers are wanted.
    Critical,
    /// The line that has to be completed before.
    After,
    /// How the rehearsal spacecraft will behave.
    Outcome,
    /// The number of a step.
    Step,
    /// What is done at a step.
    Text,
    /// Whether a second person is wanted.
    Second,
    /// The request that a step releases.
    Request,
}

impl Column {
    /// Its name, as it stands in a header.
    pub fn name(self) -> &'static str
        ensures { result.now ≡ column_name self }
    {
        match self {
            Column::Line => "line",
            Column::Apid => "apid",
            Column::Service => "service",
            Column::Subtype => "subtype",
            Column::Target => "target",
            Column::Time => "time",
            Column::Ack => "ack",
            Column::Critical => "critical",
            Column::After => "after",
            Column::Outcome => "outcome",
            Column::Step => "step",
            Column::Text => "text",
            Column::Second => "second",
            Column::Request => "request",
        }
    }
}
