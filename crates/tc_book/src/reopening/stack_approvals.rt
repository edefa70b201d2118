//! The approvals of stacks in tables that were left.
ghost use Rattle.std.specs.Prelude.{◌≡◌, ◌↔◌, [], IsTrue};
ghost use Rattle.tc_book.specs.GoodApprovals.{AreStackApprovals, AreGoodStackApprovals, MayApproveStack};
ghost use Rattle.tc_book.specs.Known.{approved_book};
ghost use Rattle.tc_book.specs.Stacks.{stack_approval_at};

use crate::stacks::{approval_of_stack, first_row, has_critical_row};
use tc_stack::Approvals;
use tc_types::{Name, Request, StackApproval};

/// The approval of the stack with this name.
fn stack_approval(
    requests: &[Request],
    approvals: &[StackApproval],
    name: &Name,
) -> Option<Approvals>
    requires { AreStackApprovals requests.now approvals.now }
    ensures { result ≡ stack_approval_at (approved_book requests.now [] approvals.now) name.now }
{
    let first = first_row(requests, name)?;
    let critical = has_critical_row(requests, name);
    Some(approval_of_stack(first.author, critical, approvals, name))
}

/// Whether this approval of a stack may be given behind these.
fn may_approve_stack(requests: &[Request], before: &[StackApproval], given: &StackApproval) -> bool
    requires { AreStackApprovals requests.now before.now }
    ensures { IsTrue result ↔ MayApproveStack requests.now before.now given.now }
{
    match stack_approval(requests, before, &given.stack) {
        Some(kept) => kept.refusal(&given.person).is_none(),
        None => false,
    }
}

/// Whether each approval of a stack may be given behind those before it.
pub(crate) fn are_stacks_approved(requests: &[Request], approvals: &[StackApproval]) -> bool
    ensures { IsTrue result ↔ AreGoodStackApprovals requests.now approvals.now }
{
    for at in 0..approvals.len() {
        if !may_approve_stack(requests, &approvals[..at], &approvals[at]) {
            return false;
        }
    }
    true
}
