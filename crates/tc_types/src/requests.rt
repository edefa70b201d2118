//! Telecommand requests.
ghost use Rattle.std.specs.Prelude.{◌≡◌, IfOk, IsTrue};
ghost use Rattle.std.specs.String.{string_bytes};
ghost use Rattle.tc_types.specs.Lines.{identity_word, entered_line};
ghost use Rattle.tc_types.specs.Grammar.{IsCommand, IsOutcome, outcome_word};
ghost use Rattle.tc_types.specs.Schedule.{is_schedule};
ghost use Rattle.tc_types.specs.Words.{is_one_line};

use crate::names::Name;
use crate::numbers::{
    Apid, FailureCode, Offset, RequestNumber, SequenceCount, Service, Steps, Subtype,
};
use crate::rides::Rides;
use std::alloc::{AllocError, Allocator};

/// Which success reports a request asks for (ECSS-E-ST-70-41C, 5.4.11.2.1): failures are always reported.
#[derive(Clone, Copy, Debug, PartialEq, Eq)]
pub struct Ack {
    /// Acceptance, TM[1,1].
    pub acceptance: bool,
    /// Start of execution, TM[1,3].
    pub start: bool,
    /// Progress of execution, TM[1,5].
    pub progress: bool,
    /// Completion of execution, TM[1,7].
    pub completion: bool,
}

/// How the rehearsal spacecraft will behave (this desk's own).
#[derive(Clone, Copy, Debug, PartialEq, Eq)]
pub enum Outcome {
    /// Accepted, started, completed.
    Completes,
    /// The same, with so many progress steps.
    CompletesInSteps(Steps),
    /// Not accepted: TM[1,2] with this code.
    Refuses(FailureCode),
    /// Accepted, not started: TM[1,4] with this code.
    StartFails(FailureCode),
    /// Halted at this step: TM[1,6] and TM[1,8] with this code.
    Halts(Steps, FailureCode),
    /// Started, not completed: TM[1,8] with this code.
    Fails(FailureCode),
}

/// What a request commands. The on-board schedule's are those of ECSS-E-ST-70-41C, service 11.
#[derive(Clone, Copy, Debug, PartialEq, Eq)]
pub enum Command {
    /// Any service but 11.
    Plain { service: Service, subtype: Subtype },
    /// TC[11,1] enable the schedule.
    EnableSchedule,
    /// TC[11,2] disable the schedule.
    DisableSchedule,
    /// TC[11,3] reset the schedule.
    ResetSchedule,
    /// TC[11,4] insert these requests as activities, each at its time.
    InsertActivities(Rides),
    /// TC[11,5] delete the activity `target`.
    DeleteActivity { target: u32 },
    /// TC[11,7] shift the activity `target` in time.
    ShiftActivity { target: u32, offset: Offset },
    /// TC[11,15] shift all activities in time.
    ShiftAll { offset: Offset },
    /// TC[11,17] report a summary of all activities.
    SummarizeAll,
}

/// By what a request is named on board: its application process and its count there.
#[derive(Clone, Copy, Debug, PartialEq, Eq)]
pub struct Identity {
    /// The application process.
    pub apid: Apid,
    /// How many requests of it were entered before, modulo 16,384.
    pub count: SequenceCount,
}

/// What a person writes down of a request: the form of an entry, whether or not it may be entered.
#[derive(Clone, Copy, Debug, PartialEq, Eq)]
pub struct Form {
    /// The application process.
    pub apid: Apid,
    /// The reports of success that it asks for.
    pub ack: Ack,
    /// Whether it wants two approvers.
    pub critical: bool,
    /// What it commands.
    pub command: Command,
    /// How the rehearsal spacecraft will behave.
    pub outcome: Outcome,
}

/// What a person asks for with a request, and its name on board.
#[derive(Clone, Copy, Debug, PartialEq, Eq)]
pub struct Body {
    /// Its name on board.
    pub identity: Identity,
    /// The reports of success that it asks for.
    pub ack: Ack,
    /// What it commands.
    pub command: Command,
    /// How the rehearsal spacecraft will behave.
    pub outcome: Outcome,
}

/// Which row of which stack a request was loaded with.
#[derive(Clone, Copy, Debug, PartialEq, Eq)]
pub struct Origin {
    /// The stack.
    pub stack: Name,
    /// The line of the row, from 1.
    pub line: u32,
    /// The line of the stack that has to be completed before this one is released, if there is one.
    pub after: Option<u32>,
}

/// A request that was entered. It never changes; where it stands is read from the history.
#[derive(Clone, Copy, Debug, PartialEq, Eq)]
pub struct Request {
    /// Its number, in order of entry.
    pub number: RequestNumber,
    /// What it asks for.
    pub body: Body,
    /// Whether it wants two approvers.
    pub critical: bool,
    /// Who entered it.
    pub author: Name,
    /// The row of a stack that it was loaded with; `None` where it was entered by itself.
    pub origin: Option<Origin>,
}

impl Command {
    /// Whether it is one of the on-board schedule's.
    pub fn is_schedule(self) -> bool
        ensures { result ≡ is_schedule self }
    {
        !matches!(self, Command::Plain { .. })
    }

    /// Its numbers are in their ranges: their types keep them. This does nothing; its clause is the law.
    pub fn keeps_ranges(&self)
        ensures { IsCommand self.now }
    {
        // read for the proof alone
        match self {
            Command::Plain { service, subtype } => {
                let _numbers = (service.get(), subtype.get());
            }
            Command::InsertActivities(rides) => rides.keep_ranges(),
            Command::DeleteActivity { target } => {
                let _target = *target;
            }
            Command::ShiftActivity { target, offset } => {
                let _numbers = (*target, offset.get());
            }
            Command::ShiftAll { offset } => {
                let _offset = offset.get();
            }
            Command::EnableSchedule
            | Command::DisableSchedule
            | Command::ResetSchedule
            | Command::SummarizeAll => {}
        }
    }
}

impl Outcome {
    /// Its numbers are in their ranges: their types keep them. This does nothing; its clause is the law.
    pub fn keeps_ranges(&self)
        ensures { IsOutcome self.now }
    {
        // read for the proof alone
        match self {
            Outcome::Completes => {}
            Outcome::CompletesInSteps(steps) => {
                let _steps = steps.get();
            }
            Outcome::Refuses(code) | Outcome::StartFails(code) | Outcome::Fails(code) => {
                let _code = code.get();
            }
            Outcome::Halts(steps, code) => {
                let _numbers = (steps.get(), code.get());
            }
        }
    }

    /// Its word, as an entry spells it: `ok`, `ok/STEPS`, `refuse/CODE` and so on. Fails where memory is refused.
    pub fn text<A: Allocator + Copy>(self, alloc: A) -> Result<String<A>, AllocError>
        ensures { IfOk result (λ t. string_bytes t ≡ outcome_word self) }
    {
        match self {
            Outcome::Completes => String::from_str(alloc, "ok"),
            Outcome::CompletesInSteps(steps) => {
                let steps = steps.get();
                format!(in alloc; "ok/{steps}")
            }
            Outcome::Refuses(code) => {
                let code = code.get();
                format!(in alloc; "refuse/{code}")
            }
            Outcome::StartFails(code) => {
                let code = code.get();
                format!(in alloc; "nostart/{code}")
            }
            Outcome::Halts(steps, code) => {
                let steps = steps.get();
                let code = code.get();
                format!(in alloc; "halt/{steps}/{code}")
            }
            Outcome::Fails(code) => {
                let code = code.get();
                format!(in alloc; "fail/{code}")
            }
        }
    }
}

impl Identity {
    /// Its word: `APID/COUNT`. Fails where memory is refused.
    #[tactic(auto, using(crate::proofs::OneLine::identity_one))]
    pub fn text<A: Allocator + Copy>(self, alloc: A) -> Result<String<A>, AllocError>
        ensures text { IfOk result (λ t. string_bytes t ≡ identity_word self) }
        ensures one_line { IfOk result (λ t. IsTrue (is_one_line (identity_word self))) }
    {
        let apid = self.apid.get();
        let count = self.count.get();
        format!(in alloc; "{apid}/{count}")
    }
}
