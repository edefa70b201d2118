//! All rows of a desk's tables.
use crate::history::moves::Move;
use crate::tables::cargo::Cargo;
use crate::tables::rows::{
    Approval, BegunExecution, LoadedProcedure, LoadedStack, PlacedRequest, ProcedureStep,
    StackApproval, StepRecord, Tally,
};

/// All rows of all tables, as they were read: those of each table whose key is one number in order of it, those of each other in the
/// order in which they were written. Whether a desk could have written them is nowhere said.
#[derive(Drop)]
pub struct Image {
    /// The requests, each with the place that its row says.
    pub requests: Vec<PlacedRequest>,
    /// The rows of the history.
    pub moves: Vec<Move>,
    /// How many requests stand at each place.
    pub tallies: Vec<Tally>,
    /// Who approved which request.
    pub approvals: Vec<Approval>,
    /// The stacks that were loaded.
    pub stacks: Vec<LoadedStack>,
    /// Who approved which stack.
    pub stack_approvals: Vec<StackApproval>,
    /// The procedures that were loaded.
    pub procedures: Vec<LoadedProcedure>,
    /// Their steps.
    pub steps: Vec<ProcedureStep>,
    /// The executions that were begun.
    pub executions: Vec<BegunExecution>,
    /// What was recorded of their steps.
    pub records: Vec<StepRecord>,
    /// What inserts name behind their first activity.
    pub cargo: Vec<Cargo>,
}
