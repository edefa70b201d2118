//! The lines that tell what came over the link, without their LF.
ghost use Rattle.std.specs.Prelude.{◌≡◌, IfOk, IsTrue};
ghost use Rattle.std.specs.String.{string_bytes};
ghost use Rattle.tc_types.specs.LinkLines.{accepted_line, worked_line, time_line, word_line, verified_line, summarized_line, mirror_line, activity_line};
ghost use Rattle.tc_types.specs.Words.{is_one_line};

use std::alloc::{AllocError, Allocator};
use std::fmt::Write;
use tc_types::{Identity, Moment, Verification};

/// A request was taken on board: `ok accepted N`. Fails where memory is refused.
#[tactic(auto, using(crate::proofs::AnswerLines::accepted_one))]
pub fn accepted_text<A: Allocator + Copy>(alloc: A, number: u32) -> Result<String<A>, AllocError>
    ensures text { IfOk result (λ t. string_bytes t ≡ accepted_line number) }
    ensures one_line { IfOk result (λ t. IsTrue (is_one_line (accepted_line number))) }
{
    format!(in alloc; "ok accepted {number}")
}

/// The spacecraft carried out a request: `ok work APID/COUNT`. Fails where memory is refused.
#[tactic(auto, using(crate::proofs::AnswerLines::worked_one))]
pub fn worked_text<A: Allocator + Copy>(
    alloc: A,
    identity: Identity,
) -> Result<String<A>, AllocError>
    ensures text { IfOk result (λ t. string_bytes t ≡ worked_line identity) }
    ensures one_line { IfOk result (λ t. IsTrue (is_one_line (worked_line identity))) }
{
    let apid = identity.apid.get();
    let count = identity.count.get();
    format!(in alloc; "ok work {apid}/{count}")
}

/// The spacecraft's time is this one: `ok now T`. Fails where memory is refused.
#[tactic(auto, using(crate::proofs::AnswerLines::time_one))]
pub fn time_text<A: Allocator + Copy>(alloc: A, time: Moment) -> Result<String<A>, AllocError>
    ensures text { IfOk result (λ t. string_bytes t ≡ time_line time) }
    ensures one_line { IfOk result (λ t. IsTrue (is_one_line (time_line time))) }
{
    let seconds = time.get();
    format!(in alloc; "ok now {seconds}")
}

/// A control word came down: `ok clcw HHHHHHHH`. Fails where memory is refused.
#[tactic(auto, using(crate::proofs::LinkLaws::word_padded, crate::proofs::AnswerLines::word_one))]
pub fn word_text<A: Allocator + Copy>(alloc: A, word: u32) -> Result<String<A>, AllocError>
    ensures text { IfOk result (λ t. string_bytes t ≡ word_line word) }
    ensures one_line { IfOk result (λ t. IsTrue (is_one_line (word_line word))) }
{
    format!(in alloc; "ok clcw {word:08x}")
}

/// A report of request verification came down: `ok tm 1,T APID/COUNT step N code C`, 0 where absent. Fails where memory
/// is refused.
#[tactic(auto, using(crate::proofs::AnswerLines::verified_one))]
pub fn verified_text<A: Allocator + Copy>(
    alloc: A,
    verification: Verification,
    identity: Identity,
) -> Result<String<A>, AllocError>
    ensures text { IfOk result (λ t. string_bytes t ≡ verified_line verification identity) }
    ensures one_line { IfOk result (λ t. IsTrue (is_one_line (verified_line verification identity))) }
{
    let subtype = verification.subtype();
    let step = verification.step();
    let code = verification.code();
    let identity = identity.text(alloc)?;
    let identity = identity.as_str();
    let mut line = format!(in alloc; "ok tm 1,{subtype} {identity}")?;
    write!(line, " step {step} code {code}")?;
    Ok(line)
}

/// A summary of the on-board schedule came down: `ok tm 11,13 enabled N`, or `disabled N`, of so many activities. Fails
/// where memory is refused.
#[tactic(auto, using(crate::proofs::AnswerLines::summarized_one))]
pub fn summarized_text<A: Allocator + Copy>(
    alloc: A,
    enabled: bool,
    count: u32,
) -> Result<String<A>, AllocError>
    ensures text { IfOk result (λ t. string_bytes t ≡ summarized_line enabled count) }
    ensures one_line { IfOk result (λ t. IsTrue (is_one_line (summarized_line enabled count))) }
{
    let status = if enabled { "enabled" } else { "disabled" };
    format!(in alloc; "ok tm 11,13 {status} {count}")
}

/// The schedule as it is known: `mirror enabled N`, or `disabled N`, of so many activities. Fails where memory is refused.
#[tactic(auto, using(crate::proofs::AnswerLines::mirror_one))]
pub fn mirror_text<A: Allocator + Copy>(
    alloc: A,
    enabled: bool,
    count: usize,
) -> Result<String<A>, AllocError>
    ensures text { IfOk result (λ t. string_bytes t ≡ mirror_line enabled count) }
    ensures one_line { IfOk result (λ t. IsTrue (is_one_line (mirror_line enabled count))) }
{
    let status = if enabled { "enabled" } else { "disabled" };
    format!(in alloc; "mirror {status} {count}")
}

/// An activity of the schedule: `activity APID/COUNT TIME`. Fails where memory is refused.
#[tactic(auto, using(crate::proofs::AnswerLines::activity_one))]
pub fn activity_text<A: Allocator + Copy>(
    alloc: A,
    identity: Identity,
    time: Moment,
) -> Result<String<A>, AllocError>
    ensures text { IfOk result (λ t. string_bytes t ≡ activity_line identity time) }
    ensures one_line { IfOk result (λ t. IsTrue (is_one_line (activity_line identity time))) }
{
    let identity = identity.text(alloc)?;
    let identity = identity.as_str();
    let seconds = time.get();
    format!(in alloc; "activity {identity} {seconds}")
}
