//! What a line waits for, and who may act on it.
ghost use Rattle.std.specs.Prelude.{◌≡◌, OnOk};
ghost use Rattle.std.specs.String.{string_bytes};
ghost use Rattle.tc_wall.specs.Parts.{Adds};
ghost use Rattle.tc_wall.specs.Waits.{activity_parts, approval_of, approval_parts, approvals_parts, author_parts, forever_parts, line_parts, lock_parts, locked_parts, next_parts, other_parts, says_parts, step_parts, text_of, wanting_parts, whom_word};

use crate::bounds::add_fixed;
use crate::escapes::Escaped;
use std::alloc::{AllocError, Allocator};
use std::fmt::Write;
use tc_types::{Lock, Name, StepText, Waiting, Wanting};
use tc_urgent::UrgentKind;

/// What is said of an approval of which nothing is known.
const APPROVAL: &str = "approval</td><td>";

/// Adds how many approved, and how many are wanted.
#[tactic(auto, unfolding(crate::specs::Waits::approvals_parts))]
fn add_approvals<A: Allocator + Copy>(
    page: &mut String<A>,
    approval: &Wanting,
) -> Result<(), AllocError>
    ensures { OnOk result (Adds (approvals_parts approval.now) (string_bytes page.old) (string_bytes page.new)) }
{
    let given = approval.given();
    let wanted = approval.wanted();
    write!(page, "approval {given} of {wanted}")
}

/// Adds the author of what waits for approval, who may give none.
#[tactic(auto, unfolding(crate::specs::Waits::author_parts))]
fn add_author<A: Allocator + Copy>(page: &mut String<A>, author: &Name) -> Result<(), AllocError>
    ensures { OnOk result (Adds (author_parts author.now) (string_bytes page.old) (string_bytes page.new)) }
{
    let author = Escaped(author.as_str());
    write!(page, "</td><td>not {author}")
}

/// Adds who approved already, if anybody did.
#[tactic(auto, unfolding(crate::specs::Waits::other_parts))]
fn add_other<A: Allocator + Copy>(page: &mut String<A>, by: &Option<Name>) -> Result<(), AllocError>
    ensures { OnOk result (Adds (other_parts by.now) (string_bytes page.old) (string_bytes page.new)) }
{
    match by {
        None => Ok(()),
        Some(person) => {
            let person = Escaped(person.as_str());
            write!(page, ", {person}")
        }
    }
}

/// Adds how far an approval has come, and who may not give one.
#[tactic(auto, using(crate::proofs::PartLemmas::then_adds), unfolding(crate::specs::Waits::wanting_parts))]
fn add_wanting<A: Allocator + Copy>(
    page: &mut String<A>,
    approval: &Wanting,
) -> Result<(), AllocError>
    ensures { OnOk result (Adds (wanting_parts approval.now) (string_bytes page.old) (string_bytes page.new)) }
{
    add_approvals(page, approval)?;
    add_author(page, &approval.author)?;
    add_other(page, &approval.by)
}

/// Adds that of a request, or of its stack.
fn add_approval_of<A: Allocator + Copy>(
    page: &mut String<A>,
    waiting: &Waiting,
) -> Result<(), AllocError>
    ensures { OnOk result (Adds (approval_of waiting.now) (string_bytes page.old) (string_bytes page.new)) }
{
    match waiting {
        Waiting::Request { approval, .. } => add_wanting(page, approval),
        Waiting::Stack { approval, .. } => add_wanting(page, approval),
        Waiting::Free { .. } => add_fixed(page, APPROVAL),
        Waiting::Locked { .. } => add_fixed(page, APPROVAL),
        Waiting::Doubtful { .. } => add_fixed(page, APPROVAL),
        Waiting::Step { .. } => add_fixed(page, APPROVAL),
    }
}

/// Adds that of what waits, if it is known.
fn add_approval<A: Allocator + Copy>(
    page: &mut String<A>,
    waiting: &Option<Waiting>,
) -> Result<(), AllocError>
    ensures { OnOk result (Adds (approval_parts waiting.now) (string_bytes page.old) (string_bytes page.new)) }
{
    match waiting {
        None => add_fixed(page, APPROVAL),
        Some(waiting) => add_approval_of(page, waiting),
    }
}

/// The text of a step, if it is known.
pub(crate) fn text_of(text: &Option<StepText>) -> &str
    ensures { result.now ≡ text_of text.now }
{
    match text {
        None => "",
        Some(text) => text.as_str(),
    }
}

/// By whom a step is worked.
#[tactic(auto, unfolding(crate::specs::Waits::whom_word))]
fn whom_word(is_countersigned: bool) -> &'static str
    ensures { result.now ≡ whom_word is_countersigned }
{
    if is_countersigned {
        "two persons"
    } else {
        "anyone"
    }
}

/// Adds the next step of an execution.
#[tactic(auto, unfolding(crate::specs::Waits::next_parts))]
fn add_next<A: Allocator + Copy>(
    page: &mut String<A>,
    step: u32,
    is_countersigned: bool,
    text: &str,
) -> Result<(), AllocError>
    ensures { OnOk result (Adds (next_parts step is_countersigned text.now) (string_bytes page.old) (string_bytes page.new)) }
{
    let text = Escaped(text);
    let whom = whom_word(is_countersigned);
    write!(page, "step {step}: {text}</td><td>{whom}")
}

/// Adds the step that is due.
fn add_step<A: Allocator + Copy>(
    page: &mut String<A>,
    waiting: &Option<Waiting>,
    text: &str,
) -> Result<(), AllocError>
    ensures { OnOk result (Adds (step_parts waiting.now text.now) (string_bytes page.old) (string_bytes page.new)) }
{
    match waiting {
        Some(
            Waiting::Step {
                step,
                is_countersigned,
                ..
            },
        ) => add_next(page, *step, *is_countersigned, text),
        _ => add_fixed(page, "step</td><td>anyone"),
    }
}

/// Adds the line of a stack that has to be completed before.
#[tactic(auto, unfolding(crate::specs::Waits::line_parts))]
fn add_line<A: Allocator + Copy>(page: &mut String<A>, lock: &Lock) -> Result<(), AllocError>
    ensures { OnOk result (Adds (line_parts lock.now) (string_bytes page.old) (string_bytes page.new)) }
{
    let line = lock.line;
    let stack = Escaped(lock.stack.as_str());
    write!(page, " by line {line} of {stack}")
}

/// Adds the line that locks a request, if it is known.
fn add_lock<A: Allocator + Copy>(
    page: &mut String<A>,
    waiting: &Option<Waiting>,
) -> Result<(), AllocError>
    ensures { OnOk result (Adds (lock_parts waiting.now) (string_bytes page.old) (string_bytes page.new)) }
{
    match waiting {
        Some(Waiting::Locked { lock, .. }) => add_line(page, lock),
        _ => Ok(()),
    }
}

/// Adds that a lock never opens.
#[tactic(auto, using(crate::proofs::PartLemmas::then_adds), unfolding(crate::specs::Waits::forever_parts))]
fn add_forever<A: Allocator + Copy>(
    page: &mut String<A>,
    waiting: &Option<Waiting>,
) -> Result<(), AllocError>
    ensures { OnOk result (Adds (forever_parts waiting.now) (string_bytes page.old) (string_bytes page.new)) }
{
    add_fixed(page, "LOCKED FOR EVER")?;
    add_lock(page, waiting)?;
    add_fixed(page, "</td><td>withdraw it")
}

/// Adds that a lock is not open yet.
#[tactic(auto, using(crate::proofs::PartLemmas::then_adds), unfolding(crate::specs::Waits::locked_parts))]
fn add_locked<A: Allocator + Copy>(
    page: &mut String<A>,
    waiting: &Option<Waiting>,
) -> Result<(), AllocError>
    ensures { OnOk result (Adds (locked_parts waiting.now) (string_bytes page.old) (string_bytes page.new)) }
{
    add_fixed(page, "locked")?;
    add_lock(page, waiting)?;
    add_fixed(page, "</td><td>nobody yet")
}

/// Adds that an insert takes an activity along.
#[tactic(auto, unfolding(crate::specs::Waits::activity_parts))]
fn add_activity<A: Allocator + Copy>(page: &mut String<A>, insert: u32) -> Result<(), AllocError>
    ensures { OnOk result (Adds (activity_parts insert) (string_bytes page.old) (string_bytes page.new)) }
{
    write!(page, "activity of {insert}: do not release</td><td>nobody")
}

/// Adds what a line of this kind waits for, and who may act on it.
pub(crate) fn add_says<A: Allocator + Copy>(
    page: &mut String<A>,
    kind: &UrgentKind,
    waiting: &Option<Waiting>,
    text: &str,
) -> Result<(), AllocError>
    ensures { OnOk result (Adds (says_parts kind.now waiting.now text.now) (string_bytes page.old) (string_bytes page.new)) }
{
    match kind {
        UrgentKind::InDoubt => add_fixed(page, "IN DOUBT: on board or not?</td><td>anyone"),
        UrgentKind::FailedSince => add_fixed(page, "FAILED</td><td>look why"),
        UrgentKind::Approval => add_approval(page, waiting),
        UrgentKind::StepDue => add_step(page, waiting, text),
        UrgentKind::Flying => add_fixed(page, "on its way, or on board</td><td>nobody"),
        UrgentKind::LostReport => add_fixed(page, "REPORT LOST, or late</td><td>look why"),
        UrgentKind::Free => add_fixed(page, "release</td><td>anyone"),
        UrgentKind::ActivityOf { insert } => add_activity(page, *insert),
        UrgentKind::LockedForever => add_forever(page, waiting),
        UrgentKind::Locked => add_locked(page, waiting),
    }
}
