//! How a line is printed, without its LF.
ghost use Rattle.std.specs.Prelude.{◌≡◌, ◌++◌, [], codes, if◌then◌else◌, IfOk, IsTrue, Some};
ghost use Rattle.std.specs.String.{string_bytes};
ghost use Rattle.tc_types.specs.Words.{is_one_line};
ghost use Rattle.tc_urgent.specs.Pages.{head_line};
ghost use Rattle.tc_urgent.specs.Texts.{kind_name, kind_phrase, subject_phrase, urgent_text};

use crate::kinds::UrgentKind;
use crate::lines::{OnBoard, UrgentLine};
use std::alloc::{AllocError, Allocator};

/// The name of a kind, without the insert of an activity.
fn kind_name(kind: &UrgentKind) -> &'static str
    ensures { result.now ≡ kind_name kind.now }
{
    match kind {
        UrgentKind::InDoubt => "in doubt",
        UrgentKind::FailedSince => "failed",
        UrgentKind::Approval => "waits for approval",
        UrgentKind::StepDue => "step due",
        UrgentKind::Flying => "flying",
        UrgentKind::LostReport => "report lost",
        UrgentKind::Free => "free",
        UrgentKind::ActivityOf { .. } => "activity",
        UrgentKind::LockedForever => "locked for ever",
        UrgentKind::Locked => "locked",
    }
}

/// What a line says: a kind, with the insert of an activity.
#[tactic(auto, using(crate::proofs::OneLine::kind_one))]
fn kind_text<A: Allocator + Copy>(alloc: A, kind: &UrgentKind) -> Result<String<A>, AllocError>
    ensures text { IfOk result (λ t. string_bytes t ≡ kind_phrase kind.now) }
    ensures one_line { IsTrue (is_one_line (kind_phrase kind.now)) }
{
    // read for the proof alone
    let _insert = kind.insert();
    match kind {
        UrgentKind::ActivityOf { insert } => format!(in alloc; "activity of {insert}"),
        other => String::from_str(alloc, kind_name(other)),
    }
}

/// The request of a line: its number, its name on board, and its service and subtype.
#[tactic(auto, using(crate::proofs::OneLine::request_one))]
fn request_text<A: Allocator + Copy>(
    alloc: A,
    number: u32,
    on_board: &OnBoard,
) -> Result<String<A>, AllocError>
    ensures text { IfOk result (λ t. string_bytes t ≡ subject_phrase number (Some on_board.now)) }
    ensures one_line { IfOk result (λ t. IsTrue (is_one_line (subject_phrase number (Some on_board.now)))) }
{
    let identity = on_board.identity;
    let identity = identity.text(alloc)?;
    let identity = identity.as_str();
    let service = on_board.service;
    let subtype = on_board.subtype;
    format!(in alloc; "request {number} {identity} tc {service} {subtype}")
}

/// The request or the execution of a line.
#[tactic(auto, using(crate::proofs::OneLine::execution_one))]
fn subject_text<A: Allocator + Copy>(
    alloc: A,
    number: u32,
    on_board: &Option<OnBoard>,
) -> Result<String<A>, AllocError>
    ensures text { IfOk result (λ t. string_bytes t ≡ subject_phrase number on_board.now) }
    ensures one_line { IfOk result (λ t. IsTrue (is_one_line (subject_phrase number on_board.now))) }
{
    match on_board {
        Some(on_board) => request_text(alloc, number, on_board),
        None => format!(in alloc; "execution {number}"),
    }
}

/// A line, as it is printed. Fails if memory is refused.
#[tactic(auto, using(crate::proofs::OneLine::urgent_one))]
pub fn urgent_text<A: Allocator + Copy>(
    alloc: A,
    line: &UrgentLine,
) -> Result<String<A>, AllocError>
    ensures text { IfOk result (λ t. string_bytes t ≡ urgent_text line.now) }
    ensures one_line { IfOk result (λ t. IsTrue (is_one_line (urgent_text line.now))) }
{
    let subject = subject_text(alloc, line.number, &line.on_board)?;
    let subject = subject.as_str();
    let kind = kind_text(alloc, &line.kind)?;
    let kind = kind.as_str();
    let since = line.since;
    let waited = line.waited;
    let same = line.same;
    format!(in alloc; "{subject} {kind} since {since} waited {waited} same {same}")
}

/// Adds ` more` to a line if others come later.
fn with_more<A: Allocator + Copy>(mut line: String<A>, more: bool) -> Result<String<A>, AllocError>
    ensures { IfOk result (λ t. string_bytes t ≡ string_bytes line ++ (if more then codes " more" else [])) }
{
    if more {
        line.push_str(" more")?;
    }
    Ok(line)
}

/// The first line of a page: `urgent K`, and ` more` if others come later. Fails if memory is
/// refused.
#[tactic(auto, using(crate::proofs::OneLine::head_one))]
pub fn head_text<A: Allocator + Copy>(
    alloc: A,
    shown: usize,
    more: bool,
) -> Result<String<A>, AllocError>
    ensures text { IfOk result (λ t. string_bytes t ≡ head_line shown more) }
    ensures one_line { IfOk result (λ t. IsTrue (is_one_line (head_line shown more))) }
{
    with_more(format!(in alloc; "urgent {shown}")?, more)
}
