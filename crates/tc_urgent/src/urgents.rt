//! All lines of the board, most urgent first.
ghost use Rattle.std.specs.Prelude.{◌≡◌, ◌++◌, [], IfOk, OnOk, IsPermutation, length};
ghost use Rattle.std.specs.List.{cons_option, filter_map};
ghost use Rattle.std.specs.Option.{option_and_then};
ghost use Rattle.tc_proc.specs.Logs.{execution_at};
ghost use Rattle.tc_book.specs.Book.{request_at};
ghost use Rattle.tc_book.specs.Good.{IsGoodBook};
ghost use Rattle.tc_urgent.specs.Kinds.{urgency};
ghost use Rattle.tc_urgent.specs.Judging.{AreLastMoves, latest as latest_of, open_inserts};
ghost use Rattle.tc_urgent.specs.Laws.{AreByUrgency};
ghost use Rattle.tc_urgent.specs.Lines.{execution_line, lines_of, request_line, request_lines};
ghost use Rattle.tc_urgent.specs.Pages.{AreUrgent};

use crate::folds::folded;
use crate::inserts::{add_one, open_inserts};
use crate::judging::{is_silent, kind_of};
use crate::kinds::UrgentKind;
use crate::lines::{UrgentLine, line_as};
use crate::moves::{LastMove, last_moves, latest};
use std::alloc::{AllocError, Allocator};
use tc_book::Records;
use tc_types::Request;

/// What the lines need beside the book: how many moves stood at the opening, which requests the
/// mirror has on board, the open inserts, the last move of each request, and the moment of the
/// desk's last move.
#[derive(Clone, Copy)]
struct Given<'a> {
    opened: usize,
    scheduled: &'a [u32],
    inserts: &'a [Request],
    last: &'a [LastMove],
    latest: u32,
}

/// The line of request `n`, if it has one.
fn request_line<A: Allocator + Copy + Drop>(
    book: &Records<A>,
    given: &Given<'_>,
    n: u32,
) -> Option<UrgentLine>
    requires inserts { given.now.inserts.now ≡ open_inserts book.now.book }
    requires last { AreLastMoves book.now.book.history (length book.now.book.requests) given.now.last.now }
    requires latest { given.now.latest ≡ latest_of book.now.book.history }
    requires good { IsGoodBook book.now.book }
    ensures { result ≡ option_and_then (request_line book.now.book given.now.opened given.now.scheduled.now) (request_at book.now.book n) }
{
    if is_silent(book.place_of(n)) {
        return None;
    }
    let request = book.request(n)?;
    let last = &given.last[request.number.get() as usize - 1];
    let kind = kind_of(
        book,
        given.inserts,
        given.opened,
        given.scheduled,
        last.seq,
        &request,
    )?;
    Some(line_as(&request, kind, last, given.latest))
}

/// The line of execution `e`, if it has not ended.
fn execution_line<A: Allocator + Copy + Drop>(book: &Records<A>, e: u32) -> Option<UrgentLine>
    ensures { result ≡ option_and_then (execution_line book.now.book.log) (execution_at book.now.book.log e) }
{
    let begun = book.execution(e)?;
    if book.next_of(e) == 0 {
        return None;
    }
    Some(UrgentLine {
        kind: UrgentKind::StepDue,
        number: begun.execution,
        on_board: None,
        stack: None,
        since: 0,
        waited: 0,
        same: 0,
    })
}

/// Appends the line of each request.
fn add_requests<A: Allocator + Copy + Drop>(
    book: &Records<A>,
    given: &Given<'_>,
    lines: &mut Vec<UrgentLine, A>,
) -> Result<(), AllocError>
    requires inserts { given.now.inserts.now ≡ open_inserts book.now.book }
    requires last { AreLastMoves book.now.book.history (length book.now.book.requests) given.now.last.now }
    requires latest { given.now.latest ≡ latest_of book.now.book.history }
    requires good { IsGoodBook book.now.book }
    ensures { OnOk result (lines.new.items ≡ lines.old.items ++ request_lines book.now.book given.now.opened given.now.scheduled.now) }
{
    for at in 0..book.count() {
        add_one(lines, request_line(book, given, at + 1))?;
    }
    Ok(())
}

/// Appends the line of each execution.
fn add_executions<A: Allocator + Copy + Drop>(
    book: &Records<A>,
    lines: &mut Vec<UrgentLine, A>,
) -> Result<(), AllocError>
    ensures { OnOk result (lines.new.items ≡ lines.old.items ++ filter_map (execution_line book.now.book.log) book.now.book.log.executions) }
{
    for at in 0..book.count_executions() {
        add_one(lines, execution_line(book, at + 1))?;
    }
    Ok(())
}

/// All lines by number. Fails if memory is refused.
fn lines_of<A: Allocator + Copy + Drop>(
    alloc: A,
    book: &Records<A>,
    opened: usize,
    scheduled: &[u32],
) -> Result<Vec<UrgentLine, A>, AllocError>
    ensures { IfOk result (λ lines. lines.items ≡ lines_of book.now.book opened scheduled.now) }
{
    // read for the proof alone: the book is good
    let _mark = book.mark();
    let inserts = open_inserts(alloc, book)?;
    let last = last_moves(alloc, book.rows(), book.count() as usize)?;
    let given = Given {
        opened,
        scheduled,
        inserts: &inserts,
        last: &last,
        latest: latest(book.rows()),
    };
    let mut lines = Vec::new(alloc);
    add_requests(book, &given, &mut lines)?;
    add_executions(book, &mut lines)?;
    Ok(lines)
}

/// By what the lines are sorted.
fn rank(line: &UrgentLine) -> (u8, u32)
    ensures { result ≡ (urgency line.now.kind, line.now.number) }
{
    (line.kind.urgency(), line.number)
}

/// Returns all lines of a book, most urgent first, those of one rank by number. Fails if memory is
/// refused.
///
/// `opened` moves stood at the opening, and the mirror has the requests `scheduled` on board.
pub fn urgent<A: Allocator + Copy + Drop>(
    alloc: A,
    book: &Records<A>,
    opened: usize,
    scheduled: &[u32],
) -> Result<Vec<UrgentLine, A>, AllocError>
    // each line once
    ensures once { IfOk result (λ lines. IsPermutation (lines_of book.now.book opened scheduled.now) lines.items) }
    ensures sorted { IfOk result (λ lines. AreByUrgency lines.items) }
{
    let mut lines = lines_of(alloc, book, opened, scheduled)?;
    lines.sort_by_key(|line| rank(line))?;
    Ok(lines)
}

/// Returns all lines of a book, most urgent first, with those that are folded as one line. Fails if
/// memory is refused.
pub fn urgent_folded<A: Allocator + Copy + Drop>(
    alloc: A,
    book: &Records<A>,
    opened: usize,
    scheduled: &[u32],
) -> Result<Vec<UrgentLine, A>, AllocError>
    ensures { IfOk result (λ shown. AreUrgent book.now.book opened scheduled.now shown.items) }
{
    let lines = urgent(alloc, book, opened, scheduled)?;
    folded(alloc, &lines)
}
