//! The reports of a request (ECSS-E-ST-70-41C, service 1).
ghost use Rattle.std.specs.Prelude.{◌≡◌, ◌≤◌, ◌-◌, ◌++◌, ◌∷◌, [], map};
ghost use Rattle.std.specs.Option.{option_to_list};
ghost use Rattle.tc_types.specs.declared.link.reports.Verification.TheVariants as report;
ghost use Rattle.tc_board.specs.Reports.{Appends, tells, asked, is_refused, first_reports, later_reports, steps_from};

use std::alloc::{AllocError, Allocator};
use tc_types::{Ack, Identity, Outcome, RequestNumber, Steps, Telemetry, Verification};

/// Whose reports these are: a request and the reports of success that it asks for.
#[derive(Clone, Copy, Debug, PartialEq, Eq)]
pub struct Reporter {
    /// The request.
    pub request: RequestNumber,
    /// Its name on board.
    pub identity: Identity,
    /// The reports of success that it asks for.
    pub ack: Ack,
}

/// Whether the spacecraft does not accept a request that behaves so.
pub(crate) fn is_refused(outcome: &Outcome) -> bool
    ensures { result ≡ is_refused outcome.now }
{
    matches!(outcome, Outcome::Refuses(_))
}

impl Reporter {
    /// A report on this request.
    pub(crate) fn tells(&self, verification: Verification) -> Telemetry
        ensures { result ≡ tells self.now verification }
    {
        Telemetry::Verification {
            verification,
            request: self.request,
            identity: self.identity,
        }
    }

    /// The report that is made at once, if any is.
    pub(crate) fn first_report(&self, outcome: Outcome) -> Option<Telemetry>
        ensures { option_to_list result ≡ map (tells self.now) (first_reports self.now.ack outcome) }
    {
        match outcome {
            Outcome::Refuses(code) => {
                let code = code.get();
                Some(self.tells(Verification::AcceptanceFailed { code }))
            }
            _ if self.ack.acceptance => Some(self.tells(Verification::Accepted)),
            _ => None,
        }
    }

    /// The start, where it is asked for.
    pub(crate) fn start<A: Allocator>(
        &self,
        reports: &mut Vec<Telemetry, A>,
    ) -> Result<(), AllocError>
        ensures { Appends self.now (asked self.now.ack.start (report.Started ∷ [])) 1 reports.old reports.new result }
    {
        if self.ack.start {
            reports.push(self.tells(Verification::Started))?;
        }
        Ok(())
    }

    /// The steps up to this one, where they are asked for.
    fn steps<A: Allocator>(
        &self,
        last: u8,
        reports: &mut Vec<Telemetry, A>,
    ) -> Result<(), AllocError>
        requires { last ≤ 9 }
        ensures { Appends self.now (asked self.now.ack.progress (steps_from 1 last)) last reports.old reports.new result }
    {
        if !self.ack.progress {
            return Ok(());
        }
        for step in 1..last + 1 {
            reports.push(self.tells(Verification::StepDone { step }))?;
        }
        Ok(())
    }

    /// The completion, where it is asked for.
    fn completion<A: Allocator>(&self, reports: &mut Vec<Telemetry, A>) -> Result<(), AllocError>
        ensures { Appends self.now (asked self.now.ack.completion (report.Completed ∷ [])) 1 reports.old reports.new result }
    {
        if self.ack.completion {
            reports.push(self.tells(Verification::Completed))?;
        }
        Ok(())
    }

    /// Start, steps and completion, where they are asked for.
    fn success<A: Allocator>(
        &self,
        last: Steps,
        reports: &mut Vec<Telemetry, A>,
    ) -> Result<(), AllocError>
        ensures { Appends self.now (asked self.now.ack.start (report.Started ∷ []) ++ asked self.now.ack.progress (steps_from 1 last) ++ asked self.now.ack.completion (report.Completed ∷ [])) 11 reports.old reports.new result }
    {
        self.start(reports)?;
        self.steps(last.get(), reports)?;
        self.completion(reports)
    }

    /// The execution stops at this step.
    fn halt<A: Allocator>(
        &self,
        step: u8,
        code: u8,
        reports: &mut Vec<Telemetry, A>,
    ) -> Result<(), AllocError>
        requires { step ≤ 9 }
        ensures { Appends self.now (asked self.now.ack.start (report.Started ∷ []) ++ asked self.now.ack.progress (steps_from 1 (step - 1)) ++ report.StepFailed step code ∷ report.CompletionFailed code ∷ []) 11 reports.old reports.new result }
    {
        self.start(reports)?;
        self.steps(step.saturating_sub(1), reports)?;
        reports.push(self.tells(Verification::StepFailed { step, code }))?;
        reports.push(self.tells(Verification::CompletionFailed { code }))?;
        Ok(())
    }

    /// Appends the reports that are made as the request is carried out, at most 11. Where memory is refused some may
    /// stand.
    pub(crate) fn later_reports<A: Allocator>(
        &self,
        outcome: Outcome,
        reports: &mut Vec<Telemetry, A>,
    ) -> Result<(), AllocError>
        ensures { Appends self.now (later_reports self.now.ack outcome) 11 reports.old reports.new result }
    {
        match outcome {
            Outcome::Refuses(_) => {}
            Outcome::Completes => {
                self.start(reports)?;
                self.completion(reports)?;
            }
            Outcome::CompletesInSteps(steps) => self.success(steps, reports)?,
            Outcome::StartFails(code) => {
                let code = code.get();
                reports.push(self.tells(Verification::StartFailed { code }))?;
            }
            Outcome::Halts(steps, code) => self.halt(steps.get(), code.get(), reports)?,
            Outcome::Fails(code) => {
                let code = code.get();
                self.start(reports)?;
                reports.push(self.tells(Verification::CompletionFailed { code }))?;
            }
        }
        Ok(())
    }
}
