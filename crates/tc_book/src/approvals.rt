//! What is kept of the approval of each request.
ghost use Rattle.std.specs.Prelude.{◌≡◌, ◌-◌, ◌≤◌, Some, None, MatchOption, length, set, slice_index_or, vec_capacity};
ghost use Rattle.tc_stack.specs.Approvals.{ApprovalState, approved, is_complete, refusal_of};
ghost use Rattle.tc_book.specs.Acts.{first_refusal, approval_tests, approvals_first};
ghost use Rattle.tc_book.specs.Approvals.{kept_approval};

use crate::firsts::First;
use std::alloc::Allocator;
use tc_stack::Approvals;
use tc_types::{Name, Refusal, RequestNumber};

/// The approval of request `n`.
pub(crate) fn approvals_of(kept: &[Approvals], n: u32) -> Option<&Approvals>
    ensures { MatchOption result (kept_approval kept.now n ≡ None) (λ approvals. kept_approval kept.now n ≡ Some approvals.now) }
{
    if n == 0 {
        return None;
    }
    kept.get(n as usize - 1)
}

/// Why this person may not approve request `n`, if so.
pub(crate) fn approval_refusal(kept: &[Approvals], n: u32, person: &Name) -> Option<Refusal>
    ensures { result ≡ first_refusal (approval_tests person.now (kept_approval kept.now n)) }
{
    approvals_of(kept, n)?.refusal(person)
}

/// How a reply to the next approval of request `n` begins.
pub(crate) fn next_approval(kept: &[Approvals], n: u32) -> First
    ensures { result ≡ approvals_first (kept_approval kept.now n) }
{
    match approvals_of(kept, n) {
        None => First::Plain,
        Some(approvals) => First::Approvals {
            given: approvals.count() + 1,
            wanted: approvals.wanted(),
        },
    }
}

/// A person approves a request: whether this approval is the last that is wanted.
pub(crate) fn add_approval<A: Allocator>(
    kept: &mut Vec<Approvals, A>,
    request: RequestNumber,
    person: Name,
) -> bool
    requires there { request ≤ length kept.old.items }
    requires may { (s : ApprovalState) → refusal_of person (slice_index_or kept.old.items (request - 1) s) ≡ None }
    ensures items { (s : ApprovalState) → kept.new.items ≡ set kept.old.items (request - 1) (approved person (slice_index_or kept.old.items (request - 1) s)) }
    ensures complete { (s : ApprovalState) → result ≡ is_complete (approved person (slice_index_or kept.old.items (request - 1) s)) }
    ensures capacity { vec_capacity kept.new ≡ vec_capacity kept.old }
{
    kept[request.get() as usize - 1]
        .add(person)
        .unwrap_or(false)
}
