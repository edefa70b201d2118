//! The steps of procedures, as a log keeps them.
ghost use Rattle.std.specs.Prelude.{◌≡◌, ◌+◌, ◌-◌, ◌<◌, ◌≤◌, ◌&&◌, ◌==◌, ◌++◌, ◌∷◌, [], false, length, vec_len, vec_capacity, IfOk, IfSome, OnOk};
ghost use Rattle.std.specs.List.{list_any, find, AllByRecursion};
ghost use Rattle.std.specs.Option.{option_map_or, option_copied};
ghost use Rattle.tc_types.specs.Names.{is_same_name};
ghost use Rattle.tc_types.specs.Numbers.{IsRequestNumber};
ghost use Rattle.tc_proc.specs.Logs.{is_past, names_unknown, kept_step, kept_steps};
ghost use Rattle.tc_proc.specs.GoodLogs.{IsNextStep};
ghost use Rattle.tc_types.specs.History.{AllAfter};
ghost use Rattle.tc_types.specs.Limits.{most_steps};
ghost use Rattle.tc_proc.specs.KeptLogs.{marks_in, is_step, request_in_steps};

use crate::procedures::Step;
use std::alloc::{AllocError, Allocator};
use tc_types::{LoadedProcedure, Name, ProcedureStep, RequestNumber, is_same_name};

/// Whether a procedure with this name is among these.
pub(crate) fn is_known(loaded: &[LoadedProcedure], name: &Name) -> bool
    ensures { result ≡ list_any (λ l. is_same_name l.name name.now) loaded.now }
{
    loaded
        .iter()
        .any(|procedure| is_same_name(&procedure.name, name))
}

/// Whether a step names a request that nobody entered, where so many were entered.
fn is_unknown(entered: usize, step: &Step) -> bool
    ensures { result ≡ option_map_or (is_past entered) step.now.request false }
{
    match step.request {
        Some(number) => number == 0 || number as usize > entered,
        None => false,
    }
}

/// Whether one of these steps does.
pub(crate) fn names_unknown(entered: usize, steps: &[Step]) -> bool
    ensures { result ≡ names_unknown entered steps.now }
{
    steps.iter().any(|step| is_unknown(entered, step))
}

/// The request with this number, if one is named.
fn numbered(request: Option<u32>) -> Option<RequestNumber>
    requires { IfSome request IsRequestNumber }
    ensures { result ≡ request }
{
    RequestNumber::new(request?)
}

/// A step as it is kept.
fn kept_step(name: Name, number: u32, step: &Step) -> ProcedureStep
    requires { IfSome step.now.request IsRequestNumber }
    ensures { result ≡ kept_step name number step.now }
{
    ProcedureStep {
        procedure: name,
        step: number,
        text: step.text,
        is_countersigned: step.is_countersigned,
        request: numbered(step.request),
    }
}

/// Adds the steps of the procedure with this name, which are numbered from 1. There is room for them.
pub(crate) fn add_steps<A: Allocator>(kept: &mut Vec<ProcedureStep, A>, name: Name, steps: &[Step])
    requires room { vec_len kept.old + length steps.now ≤ vec_capacity kept.old }
    requires few { length steps.now ≤ most_steps }
    requires numbered { AllByRecursion (λ s. IfSome s.request IsRequestNumber) steps.now }
    ensures { kept.new.items ≡ kept.old.items ++ kept_steps name 1 steps.now }
{
    for (index, step) in steps.iter().enumerate() {
        kept.push_reserved(kept_step(name, index as u32 + 1, step));
    }
}

/// Adds the mark of a step, if it is of this procedure.
fn add_mark<A: Allocator>(
    marks: &mut Vec<bool, A>,
    step: &ProcedureStep,
    name: &Name,
) -> Result<(), AllocError>
    ensures { OnOk result (marks.new.items ≡ marks.old.items ++ marks_in name.now (step.now ∷ [])) }
{
    if is_same_name(&step.procedure, name) {
        marks.push(step.is_countersigned)?;
    }
    Ok(())
}

/// Of each step of the procedure with this name, whether it wants a second person.
pub(crate) fn marks_of<A: Allocator + Copy + Drop>(
    alloc: A,
    steps: &[ProcedureStep],
    name: &Name,
) -> Result<Vec<bool, A>, AllocError>
    ensures { IfOk result (λ v. v.items ≡ marks_in name.now steps.now) }
{
    let mut marks = Vec::new(alloc);
    for step in steps {
        add_mark(&mut marks, step, name)?;
    }
    Ok(marks)
}

/// The step with this number of the procedure with this name.
fn step_at<'a>(steps: &'a [ProcedureStep], name: &Name, number: u32) -> Option<&'a ProcedureStep>
    ensures { option_copied result ≡ find (is_step name.now number) steps.now }
{
    steps.iter().find(|step| step.step == number && is_same_name(&step.procedure, name))
}

/// The request that this step names, if it names one.
pub(crate) fn request_of(steps: &[ProcedureStep], name: &Name, number: u32) -> Option<RequestNumber>
    requires { AllAfter IsNextStep [] steps.now }
    ensures { result ≡ request_in_steps name.now number steps.now }
{
    match step_at(steps, name, number) {
        Some(step) => step.request,
        None => None,
    }
}
