//! The lines of a procedure and its steps, as text without their LF.
ghost use Rattle.std.specs.Prelude.{◌≡◌, IfOk, IsTrue};
ghost use Rattle.std.specs.String.{string_bytes};
ghost use Rattle.tc_types.specs.Words.{is_one_line};
ghost use Rattle.tc_types.specs.StepLines.{procedure_head_line, released_word, step_line};

use crate::print::request_texts::yes_no;
use std::alloc::{AllocError, Allocator};
use tc_types::{LoadedProcedure, ProcedureStep, RequestNumber};

/// The first line of a procedure: `procedure NAME author PERSON steps K`, who loaded it and how many steps it has. Fails where memory is
/// refused.
#[tactic(auto, using(crate::proofs::WaitingLines::procedure_one))]
pub fn procedure_head_text<A: Allocator + Copy>(
    alloc: A,
    loaded: &LoadedProcedure,
    steps: usize,
) -> Result<String<A>, AllocError>
    ensures text { IfOk result (λ t. string_bytes t ≡ procedure_head_line loaded.now steps) }
    ensures one_line { IfOk result (λ t. IsTrue (is_one_line (procedure_head_line loaded.now steps))) }
{
    let name = loaded.name.as_str();
    let author = loaded.author.as_str();
    format!(in alloc; "procedure {name} author {author} steps {steps}")
}

/// The request that a step releases, `-` for none. Fails where memory is refused.
#[tactic(auto, using(crate::proofs::WaitingLines::released_one))]
fn released_text<A: Allocator + Copy>(
    alloc: A,
    request: Option<RequestNumber>,
) -> Result<String<A>, AllocError>
    ensures text { IfOk result (λ t. string_bytes t ≡ released_word request) }
    ensures one_line { IsTrue (is_one_line (released_word request)) }
{
    match request {
        Some(request) => {
            let number = request.get();
            format!(in alloc; "{number}")
        }
        None => String::from_str(alloc, "-"),
    }
}

/// The line of a step: `step S second yes|no request N TEXT`, with `-` for a step that releases nothing. Fails where memory is refused.
#[tactic(auto, using(crate::proofs::WaitingLines::step_one))]
pub fn step_text<A: Allocator + Copy>(
    alloc: A,
    step: &ProcedureStep,
) -> Result<String<A>, AllocError>
    ensures text { IfOk result (λ t. string_bytes t ≡ step_line step.now) }
    ensures one_line { IfOk result (λ t. IsTrue (is_one_line (step_line step.now))) }
{
    let number = step.step;
    let second = yes_no(step.is_countersigned);
    let released = released_text(alloc, step.request)?;
    let released = released.as_str();
    step.text.keeps_form();
    let text = step.text.as_str();
    format!(in alloc; "step {number} second {second} request {released} {text}")
}
