//! Whether the tables of procedures and their steps that were left are those of a log.
ghost use Rattle.std.specs.Prelude.{◌≡◌, ◌↔◌, ◌+◌, ◌<◌, ◌≤◌, [], true, length, filter, IsTrue};
ghost use Rattle.std.specs.List.{AllByRecursion, list_any};
ghost use Rattle.tc_types.specs.History.{AllAfter};
ghost use Rattle.tc_types.specs.Names.{is_same_name};
ghost use Rattle.tc_proc.specs.GoodLogs.{HasNewName, IsNextStep};

use crate::steps::is_known;
use tc_types::limits::MOST_STEPS;
use tc_types::{LoadedProcedure, Name, ProcedureStep, is_same_name};

/// Whether a procedure has a name that none of these has.
fn has_new_name(before: &[LoadedProcedure], procedure: &LoadedProcedure) -> bool
    ensures { IsTrue result ↔ HasNewName before.now procedure.now }
{
    !is_known(before, &procedure.name)
}

/// Whether no two procedures have one name.
#[tactic(auto, using(crate::proofs::AfterLemmas::after_more, crate::proofs::AfterLemmas::after_at, crate::proofs::AfterLemmas::after_all))]
pub(crate) fn have_new_names(loaded: &[LoadedProcedure]) -> bool
    ensures { IsTrue result ↔ AllAfter HasNewName [] loaded.now }
{
    for at in 0..loaded.len() {
        if !has_new_name(&loaded[..at], &loaded[at]) {
            return false;
        }
    }
    true
}

/// How many of these steps are of the procedure with this name.
#[tactic(auto, using(crate::proofs::AfterLemmas::counted))]
fn count_steps(steps: &[ProcedureStep], name: &Name) -> usize
    ensures count { result ≡ length (filter (λ s. is_same_name s.procedure name.now) steps.now) }
    ensures few { result ≤ length steps.now }
{
    steps
        .iter()
        .filter(|step| is_same_name(&step.procedure, name))
        .count()
}

/// The number of the next step of a procedure behind these, of which each is the next of its own. Where the last of them is of that
/// procedure, none is counted.
fn next_number(before: &[ProcedureStep], name: &Name) -> usize
    requires { AllAfter IsNextStep [] before.now }
    ensures { result ≡ length (filter (λ s. is_same_name s.procedure name.now) before.now) + 1 }
{
    match before.last() {
        Some(last) if is_same_name(&last.procedure, name) => last.step as usize + 1,
        _ => count_steps(before, name) + 1,
    }
}

/// Whether a step is the next of its procedure behind these.
fn is_next_step(before: &[ProcedureStep], step: &ProcedureStep) -> bool
    requires { AllAfter IsNextStep [] before.now }
    ensures { IsTrue result ↔ IsNextStep before.now step.now }
{
    step.step <= u32::from(MOST_STEPS) && step.step as usize == next_number(before, &step.procedure)
}

/// Whether each step is the next of its procedure.
#[tactic(auto, using(crate::proofs::AfterLemmas::after_more, crate::proofs::AfterLemmas::after_at, crate::proofs::AfterLemmas::after_all))]
pub(crate) fn are_next_steps(steps: &[ProcedureStep]) -> bool
    ensures { IsTrue result ↔ AllAfter IsNextStep [] steps.now }
{
    for at in 0..steps.len() {
        if !is_next_step(&steps[..at], &steps[at]) {
            return false;
        }
    }
    true
}

/// Whether each step is of a procedure that was loaded.
pub(crate) fn are_of_known(loaded: &[LoadedProcedure], steps: &[ProcedureStep]) -> bool
    ensures { IsTrue result ↔ AllByRecursion (λ s. list_any (λ l. is_same_name l.name s.procedure) loaded.now ≡ true) steps.now }
{
    steps.iter().all(|step| is_known(loaded, &step.procedure))
}

/// Whether a step is of this procedure.
fn has_step(steps: &[ProcedureStep], procedure: &LoadedProcedure) -> bool
    ensures { IsTrue result ↔ (0 < length (filter (λ s. is_same_name s.procedure procedure.now.name) steps.now)) }
{
    count_steps(steps, &procedure.name) != 0
}

/// Whether each procedure has a step.
#[tactic(auto, using(crate::proofs::AfterLemmas::each_more, crate::proofs::AfterLemmas::each_here, crate::proofs::AfterLemmas::each_all))]
pub(crate) fn have_steps(loaded: &[LoadedProcedure], steps: &[ProcedureStep]) -> bool
    ensures { IsTrue result ↔ AllByRecursion (λ l. 0 < length (filter (λ s. is_same_name s.procedure l.name) steps.now)) loaded.now }
{
    for at in 0..loaded.len() {
        if !has_step(steps, &loaded[at]) {
            return false;
        }
    }
    true
}
