//! Whether those who were moved to Approved by their approvers have all of them that are wanted.
ghost use Rattle.std.specs.Prelude.{◌≡◌, ◌↔◌, List, [], true, false, map, IsTrue};
ghost use Rattle.std.specs.List.{AllByRecursion};
ghost use Rattle.std.specs.Option.{option_map_or};
ghost use Rattle.tc_types.specs.declared.history.causes.Cause.TheVariants as cause_of;
ghost use Rattle.tc_types.specs.declared.history.moves.Move.{Move as SomeMove};
ghost use Rattle.tc_types.specs.declared.tables.rows.Approval.{Approval as SomeApproval};
ghost use Rattle.tc_stack.specs.Approvals.{is_complete};
ghost use Rattle.tc_book.specs.Approvals.{kept_approval};
ghost use Rattle.tc_book.specs.Book.{approval_of, request_in};
ghost use Rattle.tc_book.specs.GoodApprovals.{AreStackApprovals, KnowsStacks};
ghost use Rattle.tc_book.specs.Known.{approved_book, stack_with};
ghost use Rattle.tc_book.specs.Stacks.{is_stack_approved, is_fully_approved};

use crate::approvals::approvals_of;
use crate::reading::request_in;
use crate::stacks::{approval_of_stack, first_row, has_critical_row};
use tc_stack::Approvals;
use tc_types::{Cause, Move, Name, Request, StackApproval, is_same_name};

/// A stack, and whether as many approved it as are wanted.
#[derive(Clone, Copy, Debug, PartialEq, Eq)]
struct Asked {
    /// The stack.
    stack: Name,
    /// Whether it is approved.
    is_approved: bool,
}

/// Whether a row was written since its request has all approvers.
fn is_approval(row: &Move) -> bool
    ensures { IsTrue result ↔ (row.now.cause ≡ cause_of.Approve) }
{
    matches!(row.cause, Cause::Approve)
}

/// Whether as many approved request `n` itself as are wanted.
fn is_alone_approved(approved: &[Approvals], n: u32) -> bool
    ensures { result ≡ option_map_or is_complete (kept_approval approved.now n) false }
{
    match approvals_of(approved, n) {
        Some(kept) => kept.is_complete(),
        None => false,
    }
}

/// Whether as many approved the stack with this name as are wanted.
fn is_stack_approved(requests: &[Request], approvals: &[StackApproval], name: &Name) -> bool
    requires { AreStackApprovals requests.now approvals.now }
    ensures { result ≡ is_stack_approved (approved_book requests.now [] approvals.now) name.now }
{
    let Some(first) = first_row(requests, name) else {
        return false;
    };
    let critical = has_critical_row(requests, name);
    approval_of_stack(first.author, critical, approvals, name).is_complete()
}

/// What is known of a stack: what was known of the last one, if it is the same.
fn ask_stack(
    requests: &[Request],
    approvals: &[StackApproval],
    last: Option<Asked>,
    name: &Name,
) -> Asked
    requires { KnowsStacks requests.now approvals.now last }
    ensures stack { result.stack ≡ name.now }
    ensures answer { result.is_approved ≡ is_stack_approved (approved_book requests.now [] approvals.now) result.stack }
{
    if let Some(asked) = last {
        if is_same_name(&asked.stack, name) {
            return asked;
        }
    }
    Asked {
        stack: *name,
        is_approved: is_stack_approved(requests, approvals, name),
    }
}

/// The name of the stack that request `n` came with, if it came with one.
fn stack_with(requests: &[Request], n: u32) -> Option<Name>
    ensures { result ≡ stack_with (request_in requests.now n) }
{
    let origin = request_in(requests, n)?.origin?;
    Some(origin.stack)
}

/// Whether a row has all approvers that are wanted, and the last stack that was asked for.
#[derive(Clone, Copy, Debug, PartialEq, Eq)]
struct Looked {
    /// Whether the row has them, or wants none.
    is_complete: bool,
    /// The last stack that was asked for, if one was.
    last: Option<Asked>,
}

/// Looks at request `n`, where this is the last stack that was asked for: the rows of a stack come together.
fn look_at(
    requests: &[Request],
    approved: &[Approvals],
    stack_approvals: &[StackApproval],
    last: Option<Asked>,
    n: u32,
) -> Looked
    requires { KnowsStacks requests.now stack_approvals.now last }
    ensures complete { (approvals : List SomeApproval) → approved.now ≡ map (approval_of approvals) requests.now → result.is_complete ≡ is_fully_approved (approved_book requests.now approvals stack_approvals.now) n }
    ensures last { KnowsStacks requests.now stack_approvals.now result.last }
{
    match stack_with(requests, n) {
        None => Looked {
            is_complete: is_alone_approved(approved, n),
            last,
        },
        Some(name) => {
            let asked = ask_stack(requests, stack_approvals, last, &name);
            let is_complete = asked.is_approved;
            Looked {
                is_complete,
                last: Some(asked),
            }
        }
    }
}

/// Looks at a row: at its request, if it was moved since it has all approvers.
fn look_at_row(
    requests: &[Request],
    approved: &[Approvals],
    stack_approvals: &[StackApproval],
    last: Option<Asked>,
    row: &Move,
) -> Looked
    requires { KnowsStacks requests.now stack_approvals.now last }
    ensures complete { (approvals : List SomeApproval) → approved.now ≡ map (approval_of approvals) requests.now → IsTrue result.is_complete ↔ (row.now.cause ≡ cause_of.Approve → is_fully_approved (approved_book requests.now approvals stack_approvals.now) row.now.request ≡ true) }
    ensures last { KnowsStacks requests.now stack_approvals.now result.last }
{
    if is_approval(row) {
        look_at(requests, approved, stack_approvals, last, row.request.get())
    } else {
        Looked {
            is_complete: true,
            last,
        }
    }
}

/// Whether each request that was moved to Approved by its approvers has all that are wanted, or its stack has.
pub(crate) fn are_complete(
    requests: &[Request],
    approved: &[Approvals],
    stack_approvals: &[StackApproval],
    moves: &[Move],
) -> bool
    requires { AreStackApprovals requests.now stack_approvals.now }
    ensures { (approvals : List SomeApproval) → approved.now ≡ map (approval_of approvals) requests.now → IsTrue result ↔ AllByRecursion (λ (m : SomeMove). m.cause ≡ cause_of.Approve → is_fully_approved (approved_book requests.now approvals stack_approvals.now) m.request ≡ true) moves.now }
{
    let mut last = None;
    for row in moves {
        let looked = look_at_row(requests, approved, stack_approvals, last, row);
        if !looked.is_complete {
            return false;
        }
        last = looked.last;
    }
    true
}
