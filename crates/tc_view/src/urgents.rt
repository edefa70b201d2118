//! What is open, as the wall shows it.
ghost use Rattle.std.specs.Prelude.{◌≡◌, IfOk, List, drop, map, take};
ghost use Rattle.std.specs.List.{find};
ghost use Rattle.std.specs.Option.{option_copied};
ghost use Rattle.tc_types.specs.declared.link.activities.ListedActivity.{ListedActivity as SomeActivity};
ghost use Rattle.tc_types.specs.declared.requests.Request.{Request as SomeRequest};
ghost use Rattle.tc_book.specs.Waiting.{waiting_of};
ghost use Rattle.tc_view.specs.Urgents.{counts_of, is_about, is_critical, is_of_stack, request_of, row_of, row_with, scheduled_in, step_text, text_of};

use crate::adding::add;
use std::alloc::{AllocError, Allocator};
use tc_book::Records;
use tc_types::{
    ListedActivity, Name, Place, ProcedureStep, Request, StepText, Waiting, is_same_name,
};
use tc_urgent::{UrgentKind, UrgentLine, count_of};
use tc_wall::{KINDS, MOST_LINES, UrgentRow};

/// Whether a line is of this stack.
fn is_of_stack(name: &Name, stack: &Option<Name>) -> bool
    ensures { result ≡ is_of_stack name.now stack.now }
{
    match stack {
        None => false,
        Some(stack) => is_same_name(stack, name),
    }
}

/// Whether what waits is what a line is of.
fn is_about(line: &UrgentLine, waiting: &Waiting) -> bool
    ensures { result ≡ is_about line.now waiting.now }
{
    match waiting {
        Waiting::Request { request, .. }
        | Waiting::Free { request }
        | Waiting::Locked { request, .. }
        | Waiting::Doubtful { request } => line.on_board.is_some() && *request == line.number,
        Waiting::Stack { stack, .. } => {
            line.kind.urgency() == UrgentKind::Approval.urgency() && is_of_stack(stack, &line.stack)
        }
        Waiting::Step { execution, .. } => line.on_board.is_none() && *execution == line.number,
    }
}

/// What a line waits for, among this.
fn find_wait<'a>(waiting: &'a [Waiting], line: &UrgentLine) -> Option<&'a Waiting>
    ensures { option_copied result ≡ find (is_about line.now) waiting.now }
{
    waiting.iter().find(|one| is_about(line, one))
}

/// The same, as a value.
fn wait_of(waiting: &[Waiting], line: &UrgentLine) -> Option<Waiting>
    ensures { result ≡ find (is_about line.now) waiting.now }
{
    find_wait(waiting, line).copied()
}

/// The text of the step of a procedure with this number.
fn step_text(steps: &[ProcedureStep], procedure: &Name, number: u32) -> Option<StepText>
    ensures { result ≡ step_text steps.now procedure.now number }
{
    steps
        .iter()
        .find(|step| step.step == number && is_same_name(&step.procedure, procedure))
        .map(|step| step.text)
}

/// Where an execution waits for a step: its text.
fn text_of(steps: &[ProcedureStep], waiting: &Option<Waiting>) -> Option<StepText>
    ensures { result ≡ text_of steps.now waiting.now }
{
    match waiting {
        Some(
            Waiting::Step {
                procedure,
                step,
                ..
            },
        ) => step_text(steps, procedure, *step),
        _ => None,
    }
}

/// The request of a line; an execution has none.
pub(crate) fn request_of<A: Allocator + Copy + Drop>(
    records: &Records<A>,
    line: &UrgentLine,
) -> Option<Request>
    ensures { result ≡ request_of records.now.book line.now }
{
    if line.on_board.is_none() {
        return None;
    }
    records.request(line.number)
}

/// Whether the request of a line is critical.
fn is_request_critical<A: Allocator + Copy + Drop>(records: &Records<A>, line: &UrgentLine) -> bool
    ensures { result ≡ is_critical records.now.book line.now None }
{
    match request_of(records, line) {
        Some(request) => line.same == 0 && request.critical,
        None => false,
    }
}

/// Whether a line is critical; one that waits for approval with its stack is if the stack is.
fn is_critical<A: Allocator + Copy + Drop>(
    records: &Records<A>,
    line: &UrgentLine,
    waiting: &Option<Waiting>,
) -> bool
    ensures { result ≡ is_critical records.now.book line.now waiting.now }
{
    match waiting {
        Some(Waiting::Stack { approval, .. }) => approval.critical,
        _ => is_request_critical(records, line),
    }
}

/// A line, with what it waits for.
fn row_with<A: Allocator + Copy + Drop>(
    records: &Records<A>,
    line: &UrgentLine,
    waiting: &Option<Waiting>,
) -> UrgentRow
    ensures { result ≡ row_with records.now.book line.now waiting.now }
{
    UrgentRow {
        line: *line,
        critical: is_critical(records, line, waiting),
        waiting: *waiting,
        text: text_of(records.procedure_steps(), waiting),
    }
}

/// A line, with what it waits for among all that waits.
fn row_of<A: Allocator + Copy + Drop>(
    records: &Records<A>,
    waiting: &[Waiting],
    line: &UrgentLine,
) -> UrgentRow
    requires { waiting.now ≡ waiting_of records.now.book }
    ensures { result ≡ row_of records.now.book line.now }
{
    row_with(records, line, &wait_of(waiting, line))
}

/// A row for each of these lines. Fails if memory is refused.
fn each_of<A: Allocator + Copy + Drop>(
    alloc: A,
    records: &Records<A>,
    waiting: &[Waiting],
    lines: &[UrgentLine],
) -> Result<Vec<UrgentRow, A>, AllocError>
    requires { waiting.now ≡ waiting_of records.now.book }
    ensures { IfOk result (λ rows. rows.items ≡ map (row_of records.now.book) lines.now) }
{
    let mut rows = Vec::new(alloc);
    for line in lines {
        add(&mut rows, &row_of(records, waiting, line))?;
    }
    Ok(rows)
}

/// The first of these lines, at most so many.
fn first_of(lines: &[UrgentLine], most: usize) -> &[UrgentLine]
    ensures { result.now ≡ take most lines.now }
{
    &lines[..most.min(lines.len())]
}

/// The lines after so many.
fn left_of(lines: &[UrgentLine], most: usize) -> &[UrgentLine]
    ensures { result.now ≡ drop most lines.now }
{
    let start = most.min(lines.len());
    &lines[start..]
}

/// A row for each of the first of these lines. Fails if memory is refused.
pub(crate) fn rows_of<A: Allocator + Copy + Drop>(
    alloc: A,
    records: &Records<A>,
    lines: &[UrgentLine],
) -> Result<Vec<UrgentRow, A>, AllocError>
    ensures { IfOk result (λ rows. rows.items ≡ map (row_of records.now.book) (take MOST_LINES lines.now)) }
{
    let waiting = records.waiting(alloc)?;
    each_of(alloc, records, &waiting, first_of(lines, MOST_LINES))
}

/// How many of these lines have each rank.
fn counts_of(lines: &[UrgentLine]) -> [usize; KINDS]
    ensures { result ≡ counts_of lines.now }
{
    [
        count_of(lines, 1),
        count_of(lines, 2),
        count_of(lines, 3),
        count_of(lines, 4),
        count_of(lines, 5),
        count_of(lines, 6),
        count_of(lines, 7),
        count_of(lines, 8),
        count_of(lines, 9),
        count_of(lines, 10),
    ]
}

/// How many lines of each kind are not shown.
pub(crate) fn left_counts(lines: &[UrgentLine]) -> [usize; KINDS]
    ensures { result ≡ counts_of (drop MOST_LINES lines.now) }
{
    counts_of(left_of(lines, MOST_LINES))
}

/// The requests of these activities. Fails if memory is refused.
pub(crate) fn requests_of<A: Allocator + Copy>(
    alloc: A,
    activities: &[ListedActivity],
) -> Result<Vec<u32, A>, AllocError>
    ensures { IfOk result (λ requests. requests.items ≡ map (λ (a : SomeActivity). a.request) activities.now) }
{
    let mut requests = Vec::new(alloc);
    for activity in activities {
        requests.push(activity.request.get())?;
    }
    Ok(requests)
}

/// The numbers of these requests. Fails if memory is refused.
fn numbers_of<A: Allocator + Copy>(alloc: A, found: &[Request]) -> Result<Vec<u32, A>, AllocError>
    ensures { IfOk result (λ numbers. numbers.items ≡ map (λ (r : SomeRequest). r.number) found.now) }
{
    let mut numbers = Vec::new(alloc);
    for request in found {
        numbers.push(request.number.get())?;
    }
    Ok(numbers)
}

/// The requests of a book at Scheduled. Fails if memory is refused.
pub(crate) fn scheduled_in<A: Allocator + Copy + Drop>(
    alloc: A,
    records: &Records<A>,
) -> Result<Vec<u32, A>, AllocError>
    ensures { IfOk result (λ requests. requests.items ≡ scheduled_in records.now.book) }
{
    let most = records.count() as usize;
    let found = records.standing(alloc, Place::Scheduled, 0, most)?;
    numbers_of(alloc, &found)
}
