//! What comes down: the control words of the link, and the spacecraft's reports.
ghost use Rattle.std.specs.Prelude.{◌≡◌};
ghost use Rattle.tc_types.specs.LinkLines.{verification_subtype, verification_step, verification_code};
ghost use Rattle.tc_types.specs.Stages.{stage_of_verification, stage_of_telemetry, stage_of};

use crate::history::places::Place;
use crate::link::activities::Summary;
use crate::numbers::RequestNumber;
use crate::requests::Identity;

/// What a report of request verification tells (ECSS-E-ST-70-41C, service 1). A code says why something failed; a
/// step counts from 1.
#[derive(Clone, Copy, Debug, PartialEq, Eq)]
pub enum Verification {
    /// TM[1,1]: accepted.
    Accepted,
    /// TM[1,2]: not accepted.
    AcceptanceFailed { code: u8 },
    /// TM[1,3]: execution started.
    Started,
    /// TM[1,4]: execution did not start.
    StartFailed { code: u8 },
    /// TM[1,5]: this step was done.
    StepDone { step: u8 },
    /// TM[1,6]: this step failed.
    StepFailed { step: u8, code: u8 },
    /// TM[1,7]: execution completed.
    Completed,
    /// TM[1,8]: execution did not complete.
    CompletionFailed { code: u8 },
}

/// A report of the spacecraft. It carries the request's number beside its identity (this desk's own).
#[derive(Clone, Copy, Debug, PartialEq, Eq)]
pub enum Telemetry {
    /// How a request fares, service 1.
    Verification {
        verification: Verification,
        request: RequestNumber,
        identity: Identity,
    },
    /// TM[11,13]: the on-board schedule as it stands.
    Summary(Summary),
}

/// What flies on the downlink.
#[derive(Clone, Copy, Debug, PartialEq, Eq)]
pub enum Report {
    /// The 32 bits of a control word (CCSDS 232.0-B, 4.2).
    Word(u32),
    /// A report of the spacecraft.
    Telemetry(Telemetry),
}

impl Verification {
    /// The place that it asks for.
    pub fn stage(&self) -> Place
        ensures { result ≡ stage_of_verification self.now }
    {
        match self {
            Verification::Accepted => Place::Accepted,
            Verification::Started | Verification::StepDone { .. } => Place::Started,
            Verification::Completed => Place::Completed,
            Verification::AcceptanceFailed { .. }
            | Verification::StartFailed { .. }
            | Verification::StepFailed { .. }
            | Verification::CompletionFailed { .. } => Place::Failed,
        }
    }

    /// The subtype of the report, 1 to 8.
    pub fn subtype(&self) -> u8
        ensures { result ≡ verification_subtype self.now }
    {
        match self {
            Verification::Accepted => 1,
            Verification::AcceptanceFailed { .. } => 2,
            Verification::Started => 3,
            Verification::StartFailed { .. } => 4,
            Verification::StepDone { .. } => 5,
            Verification::StepFailed { .. } => 6,
            Verification::Completed => 7,
            Verification::CompletionFailed { .. } => 8,
        }
    }

    /// The step that it tells of, 0 where it tells of none.
    pub fn step(&self) -> u8
        ensures { result ≡ verification_step self.now }
    {
        match self {
            Verification::StepDone { step } | Verification::StepFailed { step, .. } => *step,
            Verification::Accepted
            | Verification::AcceptanceFailed { .. }
            | Verification::Started
            | Verification::StartFailed { .. }
            | Verification::Completed
            | Verification::CompletionFailed { .. } => 0,
        }
    }

    /// The code of its failure, 0 where it tells of none.
    pub fn code(&self) -> u8
        ensures { result ≡ verification_code self.now }
    {
        match self {
            Verification::AcceptanceFailed { code }
            | Verification::StartFailed { code }
            | Verification::StepFailed { code, .. }
            | Verification::CompletionFailed { code } => *code,
            Verification::Accepted
            | Verification::Started
            | Verification::StepDone { .. }
            | Verification::Completed => 0,
        }
    }
}

impl Telemetry {
    /// The place that it asks for: `None` for a summary.
    fn stage(&self) -> Option<Place>
        ensures { result ≡ stage_of_telemetry self.now }
    {
        match self {
            Telemetry::Verification { verification, .. } => Some(verification.stage()),
            Telemetry::Summary(_) => None,
        }
    }
}

/// The place that a report asks for its request: `None` for a control word and for a summary.
pub fn stage_of(report: &Report) -> Option<Place>
    ensures { result ≡ stage_of report.now }
{
    match report {
        Report::Word(_) => None,
        Report::Telemetry(telemetry) => telemetry.stage(),
    }
}
