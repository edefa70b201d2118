//! The lines about procedures and their executions, as text without their LF.
ghost use Rattle.std.specs.Prelude.{◌≡◌, IfOk, codes, IsTrue};
ghost use Rattle.std.specs.String.{string_bytes};
ghost use Rattle.tc_types.specs.StepGrammar.{verdict_word, second_word};
ghost use Rattle.tc_types.specs.ProcedureLines.{procedure_line, begun_line, execution_line, record_line};
ghost use Rattle.tc_types.specs.Words.{is_one_line};

use std::alloc::{AllocError, Allocator};
use tc_types::{Name, StepRecord, Verdict};

/// The line that answers the load of a procedure: `ok procedure NAME STEPS`, how many steps it has. Fails where memory is
/// refused.
#[tactic(auto, using(crate::proofs::AnswerLines::procedure_one))]
pub fn procedure_text<A: Allocator + Copy>(
    alloc: A,
    name: &Name,
    steps: u32,
) -> Result<String<A>, AllocError>
    ensures text { IfOk result (λ t. string_bytes t ≡ procedure_line name.now steps) }
    ensures one_line { IfOk result (λ t. IsTrue (is_one_line (procedure_line name.now steps))) }
{
    let name = name.as_str();
    format!(in alloc; "ok procedure {name} {steps}")
}

/// The line that answers the begin of an execution: `ok execution E`, its number. Fails where memory is refused.
#[tactic(auto, using(crate::proofs::AnswerLines::begun_one))]
pub fn begun_text<A: Allocator + Copy>(alloc: A, execution: u32) -> Result<String<A>, AllocError>
    ensures text { IfOk result (λ t. string_bytes t ≡ begun_line execution) }
    ensures one_line { IfOk result (λ t. IsTrue (is_one_line (begun_line execution))) }
{
    format!(in alloc; "ok execution {execution}")
}

/// The first line of a log: `execution E PROC next S`, the procedure and the step that comes next, 0 where the execution has
/// ended. Fails where memory is refused.
#[tactic(auto, using(crate::proofs::AnswerLines::execution_one))]
pub fn execution_text<A: Allocator + Copy>(
    alloc: A,
    execution: u32,
    procedure: &Name,
    next: u32,
) -> Result<String<A>, AllocError>
    ensures text { IfOk result (λ t. string_bytes t ≡ execution_line execution procedure.now next) }
    ensures one_line { IfOk result (λ t. IsTrue (is_one_line (execution_line execution procedure.now next))) }
{
    let procedure = procedure.as_str();
    format!(in alloc; "execution {execution} {procedure} next {next}")
}

/// What became of a step, in a word.
fn verdict_word(verdict: Verdict) -> &'static str
    ensures { result.now ≡ verdict_word verdict }
{
    match verdict {
        Verdict::Done => "done",
        Verdict::Skipped => "skipped",
        Verdict::Failed => "failed",
    }
}

/// The second person, `-` where none is named.
#[tactic(auto, using(crate::proofs::AnswerLines::second_one))]
pub fn second_word(second: &Option<Name>) -> &str
    ensures word { result.now ≡ second_word second.now }
    ensures one_line { IsTrue (is_one_line (second_word second.now)) }
{
    match second {
        Some(second) => second.as_str(),
        None => "-",
    }
}

/// A line of a log: `step S MOMENT PERSON VERDICT SECOND`. Fails where memory is refused.
#[tactic(auto, using(crate::proofs::AnswerLines::record_one))]
pub fn record_text<A: Allocator + Copy>(
    alloc: A,
    given: &StepRecord,
) -> Result<String<A>, AllocError>
    ensures text { IfOk result (λ t. string_bytes t ≡ record_line given.now) }
    ensures one_line { IfOk result (λ t. IsTrue (is_one_line (record_line given.now))) }
{
    let (step, moment) = (given.step, given.moment.get());
    let (by, second) = (given.by.as_str(), second_word(&given.second));
    let verdict = verdict_word(given.verdict);
    format!(in alloc; "step {step} {moment} {by} {verdict} {second}")
}
