//! The lines of what waits for a person, as text without their LF.
ghost use Rattle.std.specs.Prelude.{◌≡◌, IfOk, IsTrue};
ghost use Rattle.std.specs.String.{string_bytes};
ghost use Rattle.tc_types.specs.Words.{is_one_line};
ghost use Rattle.tc_types.specs.WaitingLines.{wanting_phrase, lock_phrase, waiting_line, waiting_count_line};
ghost use Rattle.tc_types.specs.declared.waits.Waiting.TheVariants as waiting;

use crate::print::procedure_texts::second_word;
use crate::print::request_texts::yes_no;
use std::alloc::{AllocError, Allocator};
use tc_types::{Lock, Name, Waiting, Wanting};

/// How far an approval has come: `author PERSON critical yes|no approvals I of M by PERSON`. Fails where memory is refused.
#[tactic(auto, using(crate::proofs::WaitingLines::wanting_one), unfolding(tc_types::specs::WaitingLines::wanting_phrase))]
fn wanting_text<A: Allocator + Copy>(alloc: A, approval: &Wanting) -> Result<String<A>, AllocError>
    ensures text { IfOk result (λ t. string_bytes t ≡ wanting_phrase approval.now) }
    ensures one_line { IsTrue (is_one_line (wanting_phrase approval.now)) }
{
    let author = approval.author.as_str();
    let critical = yes_no(approval.critical);
    let given = approval.given();
    let wanted = approval.wanted();
    let by = second_word(&approval.by);
    format!(in alloc; "author {author} critical {critical} approvals {given} of {wanted} by {by}")
}

/// What holds a request: `locked by line L of NAME`. Fails where memory is refused.
#[tactic(auto, using(crate::proofs::WaitingLines::lock_one), unfolding(tc_types::specs::WaitingLines::lock_phrase))]
fn lock_text<A: Allocator + Copy>(alloc: A, lock: &Lock) -> Result<String<A>, AllocError>
    ensures text { IfOk result (λ t. string_bytes t ≡ lock_phrase lock.now) }
    ensures one_line { IsTrue (is_one_line (lock_phrase lock.now)) }
{
    let line = lock.line;
    let stack = lock.stack.as_str();
    format!(in alloc; "locked by line {line} of {stack}")
}

/// The line of a request that waits for approval.
#[tactic(auto, using(crate::proofs::WaitingLines::request_one))]
fn request_text<A: Allocator + Copy>(
    alloc: A,
    request: u32,
    approval: &Wanting,
) -> Result<String<A>, AllocError>
    ensures text { IfOk result (λ t. string_bytes t ≡ waiting_line (waiting.Request request approval.now)) }
    ensures one_line { IfOk result (λ t. IsTrue (is_one_line (waiting_line (waiting.Request request approval.now)))) }
{
    let wanting = wanting_text(alloc, approval)?;
    let wanting = wanting.as_str();
    format!(in alloc; "request {request} Entered {wanting}")
}

/// The line of a stack that waits for approval.
#[tactic(auto, using(crate::proofs::WaitingLines::stack_one))]
fn stack_text<A: Allocator + Copy>(
    alloc: A,
    stack: &Name,
    approval: &Wanting,
    rows: u32,
    first: u32,
) -> Result<String<A>, AllocError>
    ensures text { IfOk result (λ t. string_bytes t ≡ waiting_line (waiting.Stack stack.now approval.now rows first)) }
    ensures one_line { IfOk result (λ t. IsTrue (is_one_line (waiting_line (waiting.Stack stack.now approval.now rows first)))) }
{
    let name = stack.as_str();
    let wanting = wanting_text(alloc, approval)?;
    let wanting = wanting.as_str();
    format!(in alloc; "stack {name} Entered {wanting} rows {rows} first {first}")
}

/// The line of a request that may be released as far as interlocks go.
#[tactic(auto, using(crate::proofs::WaitingLines::free_one))]
fn free_text<A: Allocator + Copy>(alloc: A, request: u32) -> Result<String<A>, AllocError>
    ensures text { IfOk result (λ t. string_bytes t ≡ waiting_line (waiting.Free request)) }
    ensures one_line { IfOk result (λ t. IsTrue (is_one_line (waiting_line (waiting.Free request)))) }
{
    format!(in alloc; "request {request} Approved free")
}

/// The line of a request that an interlock holds.
#[tactic(auto, using(crate::proofs::WaitingLines::locked_one))]
fn locked_text<A: Allocator + Copy>(
    alloc: A,
    request: u32,
    lock: &Lock,
) -> Result<String<A>, AllocError>
    ensures text { IfOk result (λ t. string_bytes t ≡ waiting_line (waiting.Locked request lock.now)) }
    ensures one_line { IfOk result (λ t. IsTrue (is_one_line (waiting_line (waiting.Locked request lock.now)))) }
{
    let held = lock_text(alloc, lock)?;
    let held = held.as_str();
    format!(in alloc; "request {request} Approved {held}")
}

/// The line of a request of which nobody knows whether it is on board.
#[tactic(auto, using(crate::proofs::WaitingLines::doubtful_one))]
fn doubtful_text<A: Allocator + Copy>(alloc: A, request: u32) -> Result<String<A>, AllocError>
    ensures text { IfOk result (λ t. string_bytes t ≡ waiting_line (waiting.Doubtful request)) }
    ensures one_line { IfOk result (λ t. IsTrue (is_one_line (waiting_line (waiting.Doubtful request)))) }
{
    format!(in alloc; "request {request} Doubtful")
}

/// The line of the step that comes next of an execution.
#[tactic(auto, using(crate::proofs::WaitingLines::next_one))]
fn next_text<A: Allocator + Copy>(
    alloc: A,
    execution: u32,
    procedure: &Name,
    step: u32,
    is_countersigned: bool,
) -> Result<String<A>, AllocError>
    ensures text { IfOk result (λ t. string_bytes t ≡ waiting_line (waiting.Step execution procedure.now step is_countersigned)) }
    ensures one_line { IfOk result (λ t. IsTrue (is_one_line (waiting_line (waiting.Step execution procedure.now step is_countersigned)))) }
{
    let procedure = procedure.as_str();
    let second = yes_no(is_countersigned);
    format!(in alloc; "execution {execution} {procedure} next {step} second {second}")
}

/// The line of what waits. Fails where memory is refused.
pub fn waiting_text<A: Allocator + Copy>(
    alloc: A,
    waiting: &Waiting,
) -> Result<String<A>, AllocError>
    ensures text { IfOk result (λ t. string_bytes t ≡ waiting_line waiting.now) }
    ensures one_line { IfOk result (λ t. IsTrue (is_one_line (waiting_line waiting.now))) }
{
    match waiting {
        Waiting::Request { request, approval } => request_text(alloc, *request, approval),
        Waiting::Stack {
            stack,
            approval,
            rows,
            first,
        } => stack_text(alloc, stack, approval, *rows, *first),
        Waiting::Free { request } => free_text(alloc, *request),
        Waiting::Locked { request, lock } => locked_text(alloc, *request, lock),
        Waiting::Doubtful { request } => doubtful_text(alloc, *request),
        Waiting::Step {
            execution,
            procedure,
            step,
            is_countersigned,
        } => next_text(alloc, *execution, procedure, *step, *is_countersigned),
    }
}

/// The first line of what waits: how many lines there are. Fails where memory is refused.
#[tactic(auto, using(crate::proofs::WaitingLines::count_one))]
pub fn waiting_count_text<A: Allocator + Copy>(
    alloc: A,
    count: usize,
) -> Result<String<A>, AllocError>
    ensures text { IfOk result (λ t. string_bytes t ≡ waiting_count_line count) }
    ensures one_line { IfOk result (λ t. IsTrue (is_one_line (waiting_count_line count))) }
{
    format!(in alloc; "waiting {count}")
}
