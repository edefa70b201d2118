//! What waits for a person, and which requests stand at a place.
ghost use Rattle.std.specs.Prelude.{◌≡◌, ◌≤◌, ◌++◌, ◌∷◌, [], ◌&&◌, IfOk, IsSomeAnd, MatchOption, None, OnOk, Some, count_by, drop, filter, length, take, take_while};
ghost use Rattle.std.specs.List.{cons_option, filter_map, find};
ghost use Rattle.std.specs.Option.{option_and_then, option_copied};
ghost use Rattle.tc_types.specs.declared.history.places.Place.TheVariants.{Entered};
ghost use Rattle.tc_types.specs.History.{AllAfter, place_of};
ghost use Rattle.tc_types.specs.Lawful.{is_among};
ghost use Rattle.tc_types.specs.Limits.{most_requests};
ghost use Rattle.tc_types.specs.Names.{is_same_name};
ghost use Rattle.tc_proc.specs.Logs.{execution_at, procedure_at};
ghost use Rattle.tc_book.specs.Book.{approval_at, place_in, request_at, request_in};
ghost use Rattle.tc_book.specs.Good.{IsGoodRequest};
ghost use Rattle.tc_book.specs.Stacks.{is_in_stack};
ghost use Rattle.tc_book.specs.Waiting.{BeginsStack, wanting_of, entered_rows, begun_waits, lock_of, first_lock_of, first_lock, waits_at, request_waits, execution_waits, waiting_of, standing_past};

use crate::approvals::approvals_of;
use crate::histories::History;
use crate::records::Records;
use crate::stacks::is_in_stack;
use std::alloc::{AllocError, Allocator};
use tc_stack::Approvals;
use tc_types::{
    LoadedProcedure, Lock, Name, Place, ProcedureStep, Request, Waiting, Wanting, is_among,
    is_same_name,
};

/// How far an approval has come that is not complete.
fn wanting(approvals: &Approvals) -> Wanting
    ensures { result ≡ wanting_of approvals.now }
{
    Wanting {
        author: approvals.author(),
        critical: approvals.is_critical(),
        by: approvals.first(),
    }
}

/// Appends what waits, if something does. Fails where memory is refused.
fn add_one<A: Allocator>(
    waiting: &mut Vec<Waiting, A>,
    one: Option<Waiting>,
) -> Result<(), AllocError>
    ensures { OnOk result (waiting.new.items ≡ waiting.old.items ++ cons_option one []) }
{
    if let Some(one) = one {
        waiting.push(one)?;
    }
    Ok(())
}

/// How many of the rows of a stack that these begin with stand at Entered.
fn count_entered<A: Allocator + Copy + Drop>(
    rows: &[Request],
    history: &History<A>,
    name: &Name,
) -> usize
    ensures count { result ≡ count_by (λ r. is_among (Entered ∷ []) (place_of history.now.rows r.number)) (take_while (is_in_stack name.now) rows.now) }
    ensures few { result ≤ length rows.now }
{
    rows.iter()
        .take_while(|row| is_in_stack(row, name))
        .filter(|row| is_among(history.place_of(row.number.get()), &[Place::Entered]))
        .count()
}

/// How many rows of a stack stand at Entered, where request `n` is on its line 1: they stand one after the other.
fn count_from_first<A: Allocator + Copy + Drop>(
    requests: &[Request],
    history: &History<A>,
    name: &Name,
    n: u32,
) -> usize
    requires good { AllAfter IsGoodRequest [] requests.now }
    requires begun { IsSomeAnd (request_in requests.now n) (BeginsStack name.now) }
    ensures count { result ≡ count_by (λ r. is_in_stack name.now r && is_among (Entered ∷ []) (place_of history.now.rows r.number)) requests.now }
    ensures few { result ≤ length requests.now }
{
    count_entered(&requests[n as usize - 1..], history, name)
}

/// Those of these requests that stand at this place, in order, the first `most` of them. Fails where memory is refused.
fn standing_among<A: Allocator + Copy + Drop>(
    alloc: A,
    requests: &[Request],
    history: &History<A>,
    place: Place,
    most: usize,
) -> Result<Vec<Request, A>, AllocError>
    ensures { IfOk result (λ found. found.items ≡ take most (filter (λ r. is_among (place ∷ []) (place_of history.now.rows r.number)) requests.now)) }
{
    requests
        .iter()
        .filter(|request| is_among(history.place_of(request.number.get()), &[place]))
        .take(most)
        .copied()
        .collect(alloc)
}

/// The same of the requests with a greater number than `after`.
fn standing_behind<A: Allocator + Copy + Drop>(
    alloc: A,
    requests: &[Request],
    history: &History<A>,
    place: Place,
    after: u32,
    most: usize,
) -> Result<Vec<Request, A>, AllocError>
    ensures { IfOk result (λ found. found.items ≡ take most (filter (λ r. is_among (place ∷ []) (place_of history.now.rows r.number)) (drop after requests.now))) }
{
    let behind = &requests[requests.len().min(after as usize)..];
    standing_among(alloc, behind, history, place, most)
}

/// The procedure with this name among these.
fn procedure_in<'a>(loaded: &'a [LoadedProcedure], name: &Name) -> Option<&'a LoadedProcedure>
    ensures { option_copied result ≡ find (λ l. is_same_name l.name name.now) loaded.now }
{
    loaded
        .iter()
        .find(|procedure| is_same_name(&procedure.name, name))
}

impl<A: Allocator + Copy + Drop> Records<A> {
    /// The approval of request `n`.
    fn approvals(&self, n: u32) -> Option<&Approvals>
        ensures { MatchOption result (approval_at self.now.book n ≡ None) (λ kept. approval_at self.now.book n ≡ Some kept.now) }
    {
        approvals_of(&self.approved, n)
    }

    /// How many rows of a stack stand at Entered, where request `n` is on its line 1.
    fn entered_rows(&self, name: &Name, n: u32) -> usize
        requires { IsSomeAnd (request_at self.now.book n) (BeginsStack name.now) }
        ensures rows { result ≡ entered_rows self.now.book name.now }
        ensures few { result ≤ most_requests }
    {
        count_from_first(&self.requests, &self.history, name, n)
    }

    /// What is said of a stack on its line 1, if request `n` is there: that it waits for approval, where a row of it stands at Entered.
    fn stack_waits(&self, n: u32, request: &Request) -> Option<Waiting>
        requires { request_at self.now.book n ≡ Some request.now }
        ensures { result ≡ option_and_then (begun_waits self.now.book request.now.number) request.now.origin }
    {
        let origin = request.origin?;
        if origin.line != 1 {
            return None;
        }
        let rows = self.entered_rows(&origin.stack, n);
        if rows == 0 {
            return None;
        }
        let approval = wanting(&self.stack_approvals(&origin.stack)?);
        Some(Waiting::Stack {
            stack: origin.stack,
            approval,
            rows: rows as u32,
            first: request.number.get(),
        })
    }

    /// What holds request `n` back.
    fn lock_of(&self, n: u32) -> Option<Lock>
        ensures { result ≡ lock_of self.now.book n }
    {
        if !self.is_interlocked(n) {
            return None;
        }
        let origin = self.request(n)?.origin?;
        let line = origin.after?;
        Some(Lock {
            stack: origin.stack,
            line,
        })
    }

    /// What holds the first of these requests back that is held back.
    fn first_lock_of(&self, numbers: &[u32]) -> Option<Lock>
        ensures { result ≡ first_lock_of self.now.book numbers.now }
    {
        for number in numbers {
            if let Some(lock) = self.lock_of(*number) {
                return Some(lock);
            }
        }
        None
    }

    /// What holds a request back first: itself, or an activity that it inserts.
    fn first_lock(&self, request: &Request) -> Option<Lock>
        ensures { result ≡ first_lock self.now.book request.now }
    {
        if let Some(lock) = self.lock_of(request.number.get()) {
            return Some(lock);
        }
        self.first_lock_of(request.body.command.inserted().as_slice())
    }

    /// Request `n` at Entered: it waits for approval, if it came by itself.
    fn entry_waits(&self, n: u32, request: &Request) -> Option<Waiting>
        requires { request_at self.now.book n ≡ Some request.now }
        ensures { result ≡ waits_at self.now.book request.now (Some Entered) }
    {
        if request.origin.is_some() {
            return None;
        }
        let approval = wanting(self.approvals(n)?);
        Some(Waiting::Request {
            request: request.number.get(),
            approval,
        })
    }

    /// What is said of request `n` by where it stands.
    fn waits_at(&self, n: u32, request: &Request) -> Option<Waiting>
        requires { request_at self.now.book n ≡ Some request.now }
        ensures { result ≡ waits_at self.now.book request.now (place_in self.now.book request.now.number) }
    {
        let number = request.number.get();
        match self.place_of(number)? {
            Place::Entered => self.entry_waits(n, request),
            Place::Approved => match self.first_lock(request) {
                Some(lock) => Some(Waiting::Locked {
                    request: number,
                    lock,
                }),
                None => Some(Waiting::Free { request: number }),
            },
            Place::Doubtful => Some(Waiting::Doubtful { request: number }),
            _ => None,
        }
    }

    /// What is said of request `n`: on line 1 of a stack that waits, this; else by where it stands.
    fn request_waits(&self, n: u32) -> Option<Waiting>
        ensures { result ≡ option_and_then (request_waits self.now.book) (request_at self.now.book n) }
    {
        let request = self.request(n)?;
        match self.stack_waits(n, &request) {
            Some(stack) => Some(stack),
            None => self.waits_at(n, &request),
        }
    }

    /// An execution that has not ended waits for its next step.
    fn execution_waits(&self, e: u32) -> Option<Waiting>
        ensures { result ≡ option_and_then (execution_waits self.now.book.log) (execution_at self.now.book.log e) }
    {
        let begun = self.execution(e)?;
        let step = self.next_of(e);
        if step == 0 {
            return None;
        }
        Some(Waiting::Step {
            execution: begun.execution,
            procedure: begun.procedure,
            step,
            is_countersigned: self.is_next_countersigned(e),
        })
    }

    /// Appends what is said of each request.
    fn add_requests(&self, waiting: &mut Vec<Waiting, A>) -> Result<(), AllocError>
        ensures { OnOk result (waiting.new.items ≡ waiting.old.items ++ filter_map (request_waits self.now.book) self.now.book.requests) }
    {
        for at in 0..self.count() {
            add_one(waiting, self.request_waits(at + 1))?;
        }
        Ok(())
    }

    /// Appends what is said of each execution.
    fn add_executions(&self, waiting: &mut Vec<Waiting, A>) -> Result<(), AllocError>
        ensures { OnOk result (waiting.new.items ≡ waiting.old.items ++ filter_map (execution_waits self.now.book.log) self.now.book.log.executions) }
    {
        for at in 0..self.count_executions() {
            add_one(waiting, self.execution_waits(at + 1))?;
        }
        Ok(())
    }

    /// What waits for a person: requests and stacks by number, then executions. Fails where memory is refused.
    pub fn waiting(&self, alloc: A) -> Result<Vec<Waiting, A>, AllocError>
        ensures { IfOk result (λ waiting. waiting.items ≡ waiting_of self.now.book) }
    {
        let mut waiting = Vec::new(alloc);
        self.add_requests(&mut waiting)?;
        self.add_executions(&mut waiting)?;
        Ok(waiting)
    }

    /// The requests with a greater number than `after` that stand at this place, in order, the first `most` of them. Fails where memory is
    /// refused.
    pub fn standing(
        &self,
        alloc: A,
        place: Place,
        after: u32,
        most: usize,
    ) -> Result<Vec<Request, A>, AllocError>
        ensures { IfOk result (λ found. found.items ≡ take most (standing_past self.now.book place after)) }
    {
        standing_behind(alloc, &self.requests, &self.history, place, after, most)
    }

    /// The procedure with this name, as it was loaded; `None` where there is none.
    pub fn procedure(&self, name: &Name) -> Option<LoadedProcedure>
        ensures { result ≡ procedure_at self.now.book.log name.now }
    {
        procedure_in(self.log.loaded(), name).copied()
    }

    /// The steps of all procedures, those of one in order.
    pub fn procedure_steps(&self) -> &[ProcedureStep]
        ensures { result.now ≡ self.now.book.log.steps }
    {
        self.log.steps()
    }
}
