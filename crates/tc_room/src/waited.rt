//! The texts of replies to who looks before he reads: what waits, who stands at a place, and what a procedure says. Each of their lines is
//! ended by LF, and has no other LF in it.
ghost use Rattle.std.specs.Prelude.{◌≡◌, ◌++◌, ◌∷◌, [], IfOk, OnOk, length, map};
ghost use Rattle.std.specs.String.{string_bytes};
ghost use Rattle.tc_types.specs.WaitingLines.{waiting_line};
ghost use Rattle.tc_desk.specs.Replies.{named_request, standing_lines, waiting_lines};
ghost use Rattle.tc_room.specs.Replies.{AreLines, ended, procedure_told, steps_in, steps_told};

use crate::replies::{MOST_SHOWN, front};
use std::alloc::{AllocError, Global};
use tc_lines::{
    named_text, procedure_head_text, standing_text, step_text, waiting_count_text, waiting_text,
};
use tc_report::add_line;
use tc_types::{LoadedProcedure, Name, Place, ProcedureStep, Request, Waiting, is_same_name};

/// Adds a line for each of these to a reply.
fn add_waiting(alloc: Global, reply: &mut String, waiting: &[Waiting]) -> Result<(), AllocError>
    ensures added { OnOk result (string_bytes reply.new ≡ string_bytes reply.old ++ ended (map waiting_line waiting.now)) }
    ensures lines { OnOk result (AreLines (map waiting_line waiting.now)) }
{
    for one in waiting {
        add_line(reply, waiting_text(alloc, one)?.as_str())?;
    }
    Ok(())
}

/// The reply to `waiting`.
pub fn waiting_reply(alloc: Global, waiting: &[Waiting]) -> Result<String, AllocError>
    ensures text { IfOk result (λ text. string_bytes text ≡ ended (waiting_lines waiting.now)) }
    ensures lines { OnOk result (AreLines (waiting_lines waiting.now)) }
{
    let mut reply = waiting_count_text(alloc, waiting.len())?;
    reply.push_str("\n")?;
    add_waiting(alloc, &mut reply, waiting)?;
    Ok(reply)
}

/// Adds a line that names each of these requests to a reply.
fn add_named(alloc: Global, reply: &mut String, found: &[Request]) -> Result<(), AllocError>
    ensures added { OnOk result (string_bytes reply.new ≡ string_bytes reply.old ++ ended (map named_request found.now)) }
    ensures lines { OnOk result (AreLines (map named_request found.now)) }
{
    for request in found {
        let line = named_text(alloc, request.number.get(), request.body.identity)?;
        add_line(reply, line.as_str())?;
    }
    Ok(())
}

/// The reply to `standing`, where these requests stand at the place: the first 50 of them.
pub fn standing_reply(alloc: Global, place: Place, found: &[Request]) -> Result<String, AllocError>
    ensures text { IfOk result (λ text. string_bytes text ≡ ended (standing_lines place found.now)) }
    ensures lines { OnOk result (AreLines (standing_lines place found.now)) }
{
    let shown = front(found, MOST_SHOWN);
    let more = found.len() > MOST_SHOWN;
    let mut reply = standing_text(alloc, place, shown.len() as u32, more)?;
    reply.push_str("\n")?;
    add_named(alloc, &mut reply, shown)?;
    Ok(reply)
}

/// How many of these steps are of the procedure with this name.
fn count_steps(name: &Name, steps: &[ProcedureStep]) -> usize
    ensures { result ≡ length (steps_in name.now steps.now) }
{
    steps
        .iter()
        .filter(|step| is_same_name(&step.procedure, name))
        .count()
}

/// Adds the line of a step to a reply, if it is of the procedure with this name.
fn add_step(
    alloc: Global,
    reply: &mut String,
    name: &Name,
    step: &ProcedureStep,
) -> Result<(), AllocError>
    ensures added { OnOk result (string_bytes reply.new ≡ string_bytes reply.old ++ ended (steps_told name.now (step.now ∷ []))) }
    ensures lines { OnOk result (AreLines (steps_told name.now (step.now ∷ []))) }
{
    if !is_same_name(&step.procedure, name) {
        return Ok(());
    }
    add_line(reply, step_text(alloc, step)?.as_str())
}

/// Adds a line for each of these steps that is of the procedure with this name to a reply.
fn add_steps(
    alloc: Global,
    reply: &mut String,
    name: &Name,
    steps: &[ProcedureStep],
) -> Result<(), AllocError>
    ensures added { OnOk result (string_bytes reply.new ≡ string_bytes reply.old ++ ended (steps_told name.now steps.now)) }
    ensures lines { OnOk result (AreLines (steps_told name.now steps.now)) }
{
    for step in steps {
        add_step(alloc, reply, name, step)?;
    }
    Ok(())
}

/// The reply to `steps`, of the procedure with this name, which was loaded so, where these are the steps of all.
pub fn procedure_reply(
    alloc: Global,
    name: &Name,
    loaded: &LoadedProcedure,
    steps: &[ProcedureStep],
) -> Result<String, AllocError>
    ensures text { IfOk result (λ text. string_bytes text ≡ ended (procedure_told name.now loaded.now steps.now)) }
    ensures lines { OnOk result (AreLines (procedure_told name.now loaded.now steps.now)) }
{
    let mut reply = procedure_head_text(alloc, loaded, count_steps(name, steps))?;
    reply.push_str("\n")?;
    add_steps(alloc, &mut reply, name, steps)?;
    Ok(reply)
}
