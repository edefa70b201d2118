//! The approvals of requests in the tables that were left.
ghost use Rattle.std.specs.Prelude.{◌≡◌, ◌↔◌, [], true, length, map, IsTrue, IfOk, IfErr, OnOk};
ghost use Rattle.tc_proc.specs.declared.faults.ReopenFault.TheVariants.{Unsound};
ghost use Rattle.tc_types.specs.History.{AllAfter};
ghost use Rattle.tc_book.specs.Book.{approval_of};
ghost use Rattle.tc_book.specs.Good.{IsGoodRequest};
ghost use Rattle.tc_book.specs.GoodApprovals.{AreGoodApprovals, MayBeGiven};
ghost use Rattle.tc_book.specs.Stacks.{came_alone};

use crate::approvals::{add_approval, approval_refusal};
use crate::pushes::push_within;
use crate::reading::request_in;
use std::alloc::{AllocError, Allocator};
use tc_proc::ReopenFault;
use tc_stack::Approvals;
use tc_types::{Approval, Request};

/// Whether one of these requests has the number `n`, and came by itself.
fn came_alone(requests: &[Request], n: u32) -> bool
    ensures { result ≡ came_alone requests.now n }
{
    match request_in(requests, n) {
        Some(request) => request.origin.is_none(),
        None => false,
    }
}

/// The approval of each of these requests, where nobody approved.
fn unapproved_all<A: Allocator + Copy + Drop>(
    alloc: A,
    requests: &[Request],
) -> Result<Vec<Approvals, A>, AllocError>
    ensures { IfOk result (λ kept. kept.items ≡ map (approval_of []) requests.now) }
{
    let mut kept = Vec::with_capacity(alloc, requests.len())?;
    for request in requests {
        push_within(&mut kept, Approvals::new(request.author, request.critical));
    }
    Ok(kept)
}

/// Whether this approval may be given, beside what is kept of each request.
fn may_be_given(requests: &[Request], kept: &[Approvals], approval: &Approval) -> bool
    ensures { IsTrue result ↔ MayBeGiven requests.now kept.now approval.now }
{
    let n = approval.request.get();
    came_alone(requests, n) && approval_refusal(kept, n, &approval.person).is_none()
}

/// Gives each of these approvals, in order, and answers whether each may be given.
fn give_all<A: Allocator + Copy + Drop>(
    requests: &[Request],
    approvals: &[Approval],
    kept: &mut Vec<Approvals, A>,
) -> bool
    requires good { AllAfter IsGoodRequest [] requests.now }
    requires none { kept.old.items ≡ map (approval_of []) requests.now }
    ensures kept { IsTrue result → kept.new.items ≡ map (approval_of approvals.now) requests.now }
    ensures given { IsTrue result ↔ AreGoodApprovals requests.now approvals.now }
{
    for approval in approvals {
        if !may_be_given(requests, kept, approval) {
            return false;
        }
        add_approval(kept, approval.request, approval.person);
    }
    true
}

/// The approval of each of these requests, by the approvals of all. Answers `Unsound` where no desk could have written these, and
/// `Memory` where that is refused.
pub(crate) fn approvals_of<A: Allocator + Copy + Drop>(
    alloc: A,
    requests: &[Request],
    approvals: &[Approval],
) -> Result<Vec<Approvals, A>, ReopenFault>
    requires { AllAfter IsGoodRequest [] requests.now }
    ensures kept { IfOk result (λ kept. kept.items ≡ map (approval_of approvals.now) requests.now) }
    ensures good { OnOk result (AreGoodApprovals requests.now approvals.now) }
    ensures bad { IfErr result (λ why. why ≡ Unsound → ¬ AreGoodApprovals requests.now approvals.now) }
{
    let mut kept = unapproved_all(alloc, requests)?;
    if give_all(requests, approvals, &mut kept) {
        Ok(kept)
    } else {
        Err(ReopenFault::Unsound)
    }
}
