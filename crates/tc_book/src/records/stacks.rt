//! What the records tell of stacks, and the approval of one.
ghost use Rattle.std.specs.Prelude.{◌≡◌, ◌+◌, ◌<◌, ◌≤◌, ◌^◌, [], length, count_by, MatchOption, IfSome, if◌then◌else◌, None, Some, true, false};
ghost use Rattle.tc_types.specs.Limits.{most_requests};
ghost use Rattle.tc_proc.specs.Logs.{empty_log};
ghost use Rattle.tc_book.specs.Acts.{first_refusal, approval_tests, completes, approvals_first, row_approved, rows_approved};
ghost use Rattle.tc_book.specs.Book.{request_at};
ghost use Rattle.tc_book.specs.Good.{IsGoodBook};
ghost use Rattle.tc_book.specs.Interlocks.{IsHeldByRule};
ghost use Rattle.tc_book.specs.Loads.{has_all_stacks};
ghost use Rattle.tc_book.specs.Records.{Becomes};
ghost use Rattle.tc_book.specs.Stacks.{is_loaded, is_in_stack, came_with_stack, stack_approval_at, stack_approvers_of, with_stack_approval, is_stack_approved, is_held_back, is_interlocked};

use crate::firsts::First;
use crate::histories::History;
use crate::pushes::push_within;
use crate::records::Records;
use crate::stacks::{
    approval_of_stack, count_rows, first_row, has_critical_row, has_name, is_in_stack,
};
use crate::stamps::Stamp;
use std::alloc::Allocator;
use tc_stack::Approvals;
use tc_types::limits::MOST_STACKS;
use tc_types::{Cause, Name, Origin, Person, Place, Refusal, Request, StackApproval};

/// Whether the line that has to be completed before request `n`, which came from here, is not at Completed.
fn is_held_back<A: Allocator + Copy + Drop>(
    history: &History<A>,
    n: u32,
    origin: Option<Origin>,
) -> bool
    requires { IfSome origin (λ o. IfSome o.after (λ line. n + line < 2 ^ 32)) }
    ensures { result ≡ is_held_back (record { requests = []; history = history.now.rows; approvals = []; stack_approvals = []; log = empty_log }) n origin }
{
    let Some(origin) = origin else {
        return false;
    };
    let Some(line) = origin.after else {
        return false;
    };
    let before = (n + line).saturating_sub(origin.line);
    !matches!(history.place_of(before), Some(Place::Completed))
}

impl<A: Allocator + Copy + Drop> Records<A> {
    /// Whether a stack with this name was loaded.
    pub fn is_loaded(&self, name: &Name) -> bool
        ensures loaded { result ≡ is_loaded self.now.book name.now }
        // nobody approved a stack that was not loaded
        ensures unapproved { result ≡ false → stack_approvers_of self.now.book.stack_approvals name.now ≡ [] }
        ensures good { IsGoodBook self.now.book }
    {
        has_name(&self.stacks, name)
    }

    /// Whether request `n` came with a stack.
    pub fn came_with_stack(&self, n: u32) -> bool
        ensures { result ≡ came_with_stack self.now.book n }
    {
        match self.request(n) {
            Some(request) => request.origin.is_some(),
            None => false,
        }
    }

    /// Whether request `n` came with a stack and waits there for a line that is not completed.
    #[tactic(auto, using(crate::proofs::InterlockLemmas::held_by_rule))]
    pub fn is_interlocked(&self, n: u32) -> bool
        ensures held { result ≡ is_interlocked self.now.book n }
        // where the rows of a stack stand in the book, this is the rule of stacks
        ensures rule { IsHeldByRule self.now.book n result }
    {
        match self.request(n) {
            Some(request) => is_held_back(&self.history, n, request.origin),
            None => false,
        }
    }

    /// Whether there may be no more stacks.
    pub fn has_all_stacks(&self) -> bool
        ensures { result ≡ has_all_stacks self.now.book }
    {
        self.stacks.len() >= MOST_STACKS
    }

    /// How many rows the stack with this name has.
    pub fn count_rows(&self, name: &Name) -> usize
        ensures count { result ≡ count_by (is_in_stack name.now) self.now.book.requests }
        ensures few { result ≤ most_requests }
    {
        count_rows(&self.requests, name)
    }

    /// The approval of the stack with this name.
    pub(crate) fn stack_approvals(&self, name: &Name) -> Option<Approvals>
        ensures { MatchOption result (stack_approval_at self.now.book name.now ≡ None) (λ kept. stack_approval_at self.now.book name.now ≡ Some kept) }
    {
        let first = first_row(&self.requests, name)?;
        let critical = has_critical_row(&self.requests, name);
        Some(approval_of_stack(first.author, critical, &self.stack_approvals, name))
    }

    /// Why this person may not approve the stack with this name, if so.
    pub fn stack_refusal(&self, name: &Name, person: &Person) -> Option<Refusal>
        ensures { result ≡ first_refusal (approval_tests person.now (stack_approval_at self.now.book name.now)) }
    {
        self.stack_approvals(name)?.refusal(&person.name())
    }

    /// How a reply to the next approval of the stack with this name begins.
    pub fn next_stack_approval(&self, name: &Name) -> First
        ensures { result ≡ approvals_first (stack_approval_at self.now.book name.now) }
    {
        match self.stack_approvals(name) {
            None => First::Plain,
            Some(kept) => First::Approvals {
                given: kept.count() + 1,
                wanted: kept.wanted(),
            },
        }
    }

    /// Whether an approval of the stack with this name by this person is the last that is wanted.
    fn completes_stack(&self, name: &Name, person: Name) -> bool
        requires { first_refusal (approval_tests person (stack_approval_at self.now.book name.now)) ≡ None }
        ensures { result ≡ completes person (stack_approval_at self.now.book name.now) }
    {
        match self.stack_approvals(name) {
            None => false,
            Some(mut kept) => kept.add(person).unwrap_or(false),
        }
    }

    /// A person approves a stack: whether this approval is the last that is wanted.
    pub fn approve_stack(&mut self, name: Name, person: Person) -> bool
        requires known { is_loaded self.old.book name ≡ true }
        requires may { first_refusal (approval_tests person (stack_approval_at self.old.book name)) ≡ None }
        requires room { length self.old.book.stack_approvals < self.old.most_stack_approvals }
        ensures becomes { Becomes self.old self.new (with_stack_approval self.old.book name person) }
        ensures complete { result ≡ completes person (stack_approval_at self.old.book name) }
        ensures full { result ≡ true → is_stack_approved self.new.book name ≡ true }
    {
        let person = person.name();
        let complete = self.completes_stack(&name, person);
        push_within(
            &mut self.stack_approvals,
            StackApproval {
                stack: name,
                person,
            },
        );
        complete
    }

    /// A row of a stack that is approved goes to Approved, if this is one and still at Entered.
    fn approve_row(&mut self, stamp: &Stamp, name: &Name, row: Request)
        requires there { request_at self.old.book row.number ≡ Some row }
        requires room { is_in_stack name.now row ≡ true → length self.old.book.history < self.old.most_rows }
        requires approved { is_stack_approved self.old.book name.now ≡ true }
        ensures becomes { Becomes self.old self.new (if is_in_stack name.now row then row_approved stamp.now self.old.book row.number else self.old.book) }
        ensures rows { length self.new.book.history ≤ length self.old.book.history + (if is_in_stack name.now row then 1 else 0) }
    {
        if is_in_stack(&row, name) && self.stands(row.number.get(), &[Place::Entered]) {
            self.record(*stamp, row.number, Place::Approved, Cause::Approve);
        }
    }

    /// Each row of a stack that is approved goes to Approved, if it is still at Entered, in order of line.
    pub fn approve_rows(&mut self, stamp: &Stamp, name: &Name)
        requires room { length self.old.book.history + count_by (is_in_stack name.now) self.old.book.requests ≤ self.old.most_rows }
        requires approved { is_stack_approved self.old.book name.now ≡ true }
        ensures becomes { Becomes self.old self.new (rows_approved stamp.now name.now self.old.book) }
        ensures rows { length self.new.book.history ≤ length self.old.book.history + count_by (is_in_stack name.now) self.old.book.requests }
    {
        for at in 0..self.requests.len() {
            let row = self.requests[at];
            self.approve_row(stamp, name, row);
        }
    }
}
