//! What the requests and the approvals tell of stacks, and the names of those that were loaded.
ghost use Rattle.std.specs.Prelude.{◌≡◌, ◌<◌, ◌≤◌, ◌++◌, [], true, if◌then◌else◌, count_by, length, vec_capacity, IfSome, None};
ghost use Rattle.std.specs.List.{find, list_any, cons_option};
ghost use Rattle.std.specs.Option.{option_copied};
ghost use Rattle.tc_types.specs.Names.{is_same_name};
ghost use Rattle.tc_stack.specs.Approvals.{IsApproval, refusal_of, approved};
ghost use Rattle.tc_book.specs.Appends.{Appends};
ghost use Rattle.tc_book.specs.Places.{begun_name};
ghost use Rattle.tc_book.specs.Stacks.{is_in_stack, has_critical_row, begun_by, stack_approvers_of};

use crate::pushes::push_within;
use std::alloc::Allocator;
use tc_stack::Approvals;
use tc_types::{LoadedStack, Name, Origin, Request, StackApproval, is_same_name};

/// Whether a request is a row of the stack with this name.
pub(crate) fn is_in_stack(request: &Request, name: &Name) -> bool
    ensures { result ≡ is_in_stack name.now request.now }
{
    match &request.origin {
        Some(origin) => is_same_name(&origin.stack, name),
        None => false,
    }
}

/// Whether this name is among these.
pub(crate) fn has_name(names: &[Name], name: &Name) -> bool
    ensures { result ≡ list_any (λ known. is_same_name known name.now) names.now }
{
    names.iter().any(|known| is_same_name(known, name))
}

/// The first row of the stack with this name.
pub(crate) fn first_row<'a>(requests: &'a [Request], name: &Name) -> Option<&'a Request>
    ensures { option_copied result ≡ find (is_in_stack name.now) requests.now }
{
    requests.iter().find(|request| is_in_stack(request, name))
}

/// Whether one of the rows of the stack with this name is critical.
pub(crate) fn has_critical_row(requests: &[Request], name: &Name) -> bool
    ensures { result ≡ has_critical_row name.now requests.now }
{
    requests
        .iter()
        .any(|request| request.critical && is_in_stack(request, name))
}

/// How many rows the stack with this name has.
pub(crate) fn count_rows(requests: &[Request], name: &Name) -> usize
    ensures count { result ≡ count_by (is_in_stack name.now) requests.now }
    ensures few { result ≤ length requests.now }
{
    requests
        .iter()
        .filter(|request| is_in_stack(request, name))
        .count()
}

/// Appends the name of the stack that a request from here begins, if it is on line 1 of one.
pub(crate) fn push_name<A: Allocator>(names: &mut Vec<Name, A>, origin: &Option<Origin>)
    requires { IfSome origin.now (λ o. o.line ≡ 1 → length names.old.items < vec_capacity names.old) }
    ensures { Appends names.old names.new (cons_option (begun_name origin.now) []) }
{
    let Some(origin) = origin else {
        return;
    };
    if origin.line == 1 {
        push_within(names, origin.stack);
    }
}

/// The stack that a request begins, if it is on line 1 of one.
pub(crate) fn begun_by(requests: &[Request], request: &Request) -> Option<LoadedStack>
    ensures { result ≡ begun_by requests.now request.now }
{
    let origin = request.origin?;
    if origin.line != 1 {
        return None;
    }
    Some(LoadedStack {
        name: origin.stack,
        author: request.author,
        critical: has_critical_row(requests, &origin.stack),
    })
}

/// Adds an approval, if it is of this stack.
fn add_given(kept: &mut Approvals, approval: &StackApproval, name: &Name)
    requires { is_same_name approval.now.stack name.now ≡ true → refusal_of approval.now.person kept.old ≡ None }
    ensures { kept.new ≡ (if is_same_name approval.now.stack name.now then approved approval.now.person kept.old else kept.old) }
{
    if is_same_name(&approval.stack, name) {
        let is_added = kept.add(approval.person).is_ok();
        prove!(is_added);
    }
}

/// The approval of a stack of this author: two persons are wanted where one of its rows is critical.
pub(crate) fn approval_of_stack(
    author: Name,
    critical: bool,
    approvals: &[StackApproval],
    name: &Name,
) -> Approvals
    requires { IsApproval (record { author = author; critical = critical; persons = stack_approvers_of approvals.now name.now }) }
    ensures { result ≡ record { author = author; critical = critical; persons = stack_approvers_of approvals.now name.now } }
{
    let mut kept = Approvals::new(author, critical);
    for approval in approvals {
        add_given(&mut kept, approval, name);
    }
    kept
}
