//! The rows of the desk's tables.
use crate::history::moves::Move;
use crate::history::places::Place;
use crate::names::Name;
use crate::numbers::{Moment, RequestNumber};
use crate::requests::Request;
use crate::step_texts::StepText;
use crate::tables::cargo::Cargo;
use crate::verdicts::Verdict;

/// A row of the table `request`: a request, and where it stands.
#[derive(Clone, Copy, Debug, PartialEq, Eq)]
pub struct PlacedRequest {
    /// What was entered.
    pub request: Request,
    /// Where it stands.
    pub place: Place,
}

/// A row of the table `tally`: how many requests stand at a place.
#[derive(Clone, Copy, Debug, PartialEq, Eq)]
pub struct Tally {
    /// The place.
    pub place: Place,
    /// How many requests stand there.
    pub amount: u32,
}

/// A row of the table `request_approval`: who approved a request.
#[derive(Clone, Copy, Debug, PartialEq, Eq)]
pub struct Approval {
    /// The request.
    pub request: RequestNumber,
    /// Who approved it.
    pub person: Name,
}

/// A row of the table `stack`: a stack that was loaded.
#[derive(Clone, Copy, Debug, PartialEq, Eq)]
pub struct LoadedStack {
    /// Its name.
    pub name: Name,
    /// Who loaded it.
    pub author: Name,
    /// Whether it wants two approvers: one of its rows is critical.
    pub critical: bool,
}

/// A row of the table `stack_approval`: who approved a stack.
#[derive(Clone, Copy, Debug, PartialEq, Eq)]
pub struct StackApproval {
    /// The stack.
    pub stack: Name,
    /// Who approved it.
    pub person: Name,
}

/// A row of the table `procedure`: a procedure that was loaded.
#[derive(Clone, Copy, Debug, PartialEq, Eq)]
pub struct LoadedProcedure {
    /// Its name.
    pub name: Name,
    /// Who loaded it.
    pub author: Name,
}

/// A row of the table `step`: a step of a procedure.
#[derive(Clone, Copy, Debug, PartialEq, Eq)]
pub struct ProcedureStep {
    /// The procedure.
    pub procedure: Name,
    /// The number of the step, from 1.
    pub step: u32,
    /// What is done.
    pub text: StepText,
    /// Whether a second person is wanted.
    pub is_countersigned: bool,
    /// The request that is released where the step is done, if it releases one.
    pub request: Option<RequestNumber>,
}

/// A row of the table `execution`: a procedure was begun.
#[derive(Clone, Copy, Debug, PartialEq, Eq)]
pub struct BegunExecution {
    /// The number of the execution, from 1 in order.
    pub execution: u32,
    /// The procedure.
    pub procedure: Name,
    /// Who began it.
    pub by: Name,
    /// When.
    pub moment: Moment,
}

/// A row of the table `record`: what became of a step of an execution.
#[derive(Clone, Copy, Debug, PartialEq, Eq)]
pub struct StepRecord {
    /// The execution.
    pub execution: u32,
    /// The number of the step, from 1.
    pub step: u32,
    /// What became of it.
    pub verdict: Verdict,
    /// Who worked it.
    pub by: Name,
    /// Who was named as the second person, if anybody was.
    pub second: Option<Name>,
    /// When.
    pub moment: Moment,
}

/// One row that an act writes. A batch is a list of rows, all written or none.
#[derive(Clone, Copy, Debug, PartialEq, Eq)]
pub enum Row {
    /// A new row of the table `request`: a request that was entered stands at Entered.
    Entered(Request),
    /// A row of the table `request`, in place of the one with its number: the request was moved.
    Placed(PlacedRequest),
    /// A new row of the table `move`.
    Moved(Move),
    /// A row of the table `tally`, in place of the one of its place.
    Tallied(Tally),
    /// A new row of the table `request_approval`.
    Approved(Approval),
    /// A new row of the table `stack`.
    Loaded(LoadedStack),
    /// A new row of the table `stack_approval`.
    StackApproved(StackApproval),
    /// A new row of the table `procedure`.
    ProcedureLoaded(LoadedProcedure),
    /// A new row of the table `step`.
    StepLoaded(ProcedureStep),
    /// A new row of the table `execution`.
    Begun(BegunExecution),
    /// A new row of the table `record`.
    Recorded(StepRecord),
    /// A new row of the table `cargo`.
    Carried(Cargo),
}
