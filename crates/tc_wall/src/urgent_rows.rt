//! What is open, most urgent first.
ghost use Rattle.std.specs.Prelude.{◌≡◌, OnOk};
ghost use Rattle.std.specs.List.{flat_map};
ghost use Rattle.std.specs.String.{string_bytes};
ghost use Rattle.tc_wall.specs.Parts.{Adds};
ghost use Rattle.tc_wall.specs.Urgents.{age_parts, begin_parts, critical_parts, group_of, group_parts, left_first_parts, left_last_parts, left_parts, marked_parts, on_board_parts, same_parts, subject_parts, two_parts, urgent_parts, urgents_parts, waited_parts};

use crate::bounds::{add_fixed, add_none, first_of};
use crate::escapes::Escaped;
use crate::fixed::URGENT;
use crate::kinds::{kind_begins, kind_class, kind_letter};
use crate::wait_rows::{add_says, text_of};
use crate::walls::{KINDS, MOST_LINES, UrgentRow, Wall};
use std::alloc::{AllocError, Allocator};
use std::fmt::Write;
use tc_types::{Name, Waiting};
use tc_urgent::{OnBoard, UrgentKind};

/// Adds where the row of a line begins: its kind, and its number.
#[tactic(auto, unfolding(crate::specs::Urgents::subject_parts))]
fn add_subject<A: Allocator + Copy>(
    page: &mut String<A>,
    kind: &UrgentKind,
    number: u32,
) -> Result<(), AllocError>
    ensures { OnOk result (Adds (subject_parts kind.now number) (string_bytes page.old) (string_bytes page.new)) }
{
    let letter = kind_letter(kind);
    let class = kind_class(kind);
    let begins = kind_begins(kind);
    let shown = number;
    write!(
        page,
        "<tr id=\"{letter}{number}\" class=\"{class}\">{begins}{shown}"
    )
}

/// Adds how many further lines a line stands for, if it does.
#[tactic(auto, unfolding(crate::specs::Urgents::same_parts))]
fn add_same<A: Allocator + Copy>(page: &mut String<A>, same: u32) -> Result<(), AllocError>
    ensures { OnOk result (Adds (same_parts same) (string_bytes page.old) (string_bytes page.new)) }
{
    if same == 0 {
        return Ok(());
    }
    write!(page, " <b>and {same} more</b>")
}

/// The procedure of an execution, or the stack of a request.
fn group_of(waiting: &Option<Waiting>, stack: &Option<Name>) -> Option<Name>
    ensures { result ≡ group_of waiting.now stack.now }
{
    match waiting {
        Some(Waiting::Step { procedure, .. }) => Some(*procedure),
        _ => *stack,
    }
}

/// Adds the procedure or the stack, if there is one.
#[tactic(auto, unfolding(crate::specs::Urgents::group_parts))]
fn add_group<A: Allocator + Copy>(
    page: &mut String<A>,
    group: &Option<Name>,
) -> Result<(), AllocError>
    ensures { OnOk result (Adds (group_parts group.now) (string_bytes page.old) (string_bytes page.new)) }
{
    match group {
        None => Ok(()),
        Some(name) => {
            let name = Escaped(name.as_str());
            write!(page, " of {name}")
        }
    }
}

/// Adds the sign of what is critical, if it is.
#[tactic(auto, unfolding(crate::specs::Urgents::critical_parts))]
pub(crate) fn add_critical<A: Allocator + Copy>(
    page: &mut String<A>,
    critical: bool,
) -> Result<(), AllocError>
    ensures { OnOk result (Adds (critical_parts critical) (string_bytes page.old) (string_bytes page.new)) }
{
    if !critical {
        return Ok(());
    }
    page.push_str("<em>&#9650; critical</em>")
}

/// Adds it after a space.
#[tactic(auto, using(crate::proofs::PartLemmas::then_adds), unfolding(crate::specs::Urgents::marked_parts))]
fn add_marked<A: Allocator + Copy>(page: &mut String<A>, critical: bool) -> Result<(), AllocError>
    ensures { OnOk result (Adds (marked_parts critical) (string_bytes page.old) (string_bytes page.new)) }
{
    if !critical {
        return Ok(());
    }
    add_fixed(page, " ")?;
    add_critical(page, critical)
}

/// Adds by what a request is known on board: its name, its service and its subtype.
#[tactic(auto, unfolding(crate::specs::Urgents::on_board_parts))]
fn add_on_board<A: Allocator + Copy>(
    page: &mut String<A>,
    on_board: &Option<OnBoard>,
) -> Result<(), AllocError>
    ensures { OnOk result (Adds (on_board_parts on_board.now) (string_bytes page.old) (string_bytes page.new)) }
{
    match on_board {
        None => add_fixed(page, "</td><td></td><td></td><td>"),
        Some(on_board) => {
            let apid = on_board.identity.apid.get();
            let count = on_board.identity.count.get();
            let service = on_board.service;
            let subtype = on_board.subtype;
            write!(
                page,
                "</td><td>{apid}/{count}</td><td>{service}/{subtype}</td><td>"
            )
        }
    }
}

/// Adds the first cells of a row.
#[tactic(auto, using(crate::proofs::PartLemmas::then_adds), unfolding(crate::specs::Urgents::begin_parts))]
fn begin_row<A: Allocator + Copy>(page: &mut String<A>, row: &UrgentRow) -> Result<(), AllocError>
    ensures { OnOk result (Adds (begin_parts row.now) (string_bytes page.old) (string_bytes page.new)) }
{
    add_subject(page, &row.line.kind, row.line.number)?;
    add_same(page, row.line.same)?;
    add_group(page, &group_of(&row.waiting, &row.line.stack))?;
    add_marked(page, row.critical)?;
    add_on_board(page, &row.line.on_board)
}

/// Adds so many of a unit, and the rest in a smaller one.
#[tactic(auto, unfolding(crate::specs::Urgents::two_parts))]
fn add_two<A: Allocator + Copy>(
    page: &mut String<A>,
    count: u32,
    unit: &str,
    rest: u32,
    small: &str,
) -> Result<(), AllocError>
    ensures { OnOk result (Adds (two_parts count unit.now rest small.now) (string_bytes page.old) (string_bytes page.new)) }
{
    write!(page, "{count}{unit}{rest}{small}")
}

/// Adds so many seconds, minutes, hours or days.
#[tactic(auto, unfolding(crate::specs::Urgents::waited_parts))]
fn add_waited<A: Allocator + Copy>(page: &mut String<A>, seconds: u32) -> Result<(), AllocError>
    ensures { OnOk result (Adds (waited_parts seconds) (string_bytes page.old) (string_bytes page.new)) }
{
    if seconds < 60 {
        return write!(page, "{seconds} s");
    }
    if seconds < 3600 {
        let minutes = seconds / 60;
        return write!(page, "{minutes} min");
    }
    if seconds < 86_400 {
        return add_two(page, seconds / 3600, " h ", seconds % 3600 / 60, " min");
    }
    add_two(page, seconds / 86_400, " d ", seconds % 86_400 / 3600, " h")
}

/// Adds for how long a request stands so; an execution has no such time.
fn add_age<A: Allocator + Copy>(
    page: &mut String<A>,
    on_board: &Option<OnBoard>,
    seconds: u32,
) -> Result<(), AllocError>
    ensures { OnOk result (Adds (age_parts on_board.now seconds) (string_bytes page.old) (string_bytes page.new)) }
{
    match on_board {
        None => Ok(()),
        Some(_) => add_waited(page, seconds),
    }
}

/// Adds the row of a line.
#[tactic(auto, using(crate::proofs::PartLemmas::then_adds), unfolding(crate::specs::Urgents::urgent_parts))]
fn add_row<A: Allocator + Copy>(page: &mut String<A>, row: &UrgentRow) -> Result<(), AllocError>
    ensures { OnOk result (Adds (urgent_parts row.now) (string_bytes page.old) (string_bytes page.new)) }
{
    begin_row(page, row)?;
    add_says(page, &row.line.kind, &row.waiting, text_of(&row.text))?;
    add_fixed(page, "</td><td>")?;
    add_age(page, &row.line.on_board, row.line.waited)?;
    add_fixed(page, "</td></tr>\n")
}

/// Adds a row for each of these, in order.
#[tactic(auto, using(crate::proofs::PartLemmas::none_added, crate::proofs::PartLemmas::one_more))]
fn add_rows<A: Allocator + Copy>(page: &mut String<A>, rows: &[UrgentRow]) -> Result<(), AllocError>
    ensures { OnOk result (Adds (flat_map urgent_parts rows.now) (string_bytes page.old) (string_bytes page.new)) }
{
    for row in rows {
        add_row(page, row)?;
    }
    Ok(())
}

/// Adds how many lines of a kind are left out, if some are.
#[tactic(auto, unfolding(crate::specs::Urgents::left_parts))]
fn add_left<A: Allocator + Copy>(
    page: &mut String<A>,
    count: usize,
    words: &str,
) -> Result<(), AllocError>
    ensures { OnOk result (Adds (left_parts count words.now) (string_bytes page.old) (string_bytes page.new)) }
{
    if count == 0 {
        return Ok(());
    }
    write!(
        page,
        "<p class=\"more\">lines left out: {count} {words}</p>\n"
    )
}

/// Adds how many lines of each of the first five kinds are left out.
#[tactic(auto, using(crate::proofs::PartLemmas::then_adds), unfolding(crate::specs::Urgents::left_first_parts))]
fn add_left_first<A: Allocator + Copy>(
    page: &mut String<A>,
    left: &[usize; KINDS],
) -> Result<(), AllocError>
    ensures { OnOk result (Adds (left_first_parts left.now) (string_bytes page.old) (string_bytes page.new)) }
{
    add_left(page, left[0], "in doubt")?;
    add_left(page, left[1], "failed")?;
    add_left(page, left[2], "wait for approval")?;
    add_left(page, left[3], "step due")?;
    add_left(page, left[4], "on the way")
}

/// Adds how many lines of each of the last five kinds are left out.
#[tactic(auto, using(crate::proofs::PartLemmas::then_adds), unfolding(crate::specs::Urgents::left_last_parts))]
fn add_left_last<A: Allocator + Copy>(
    page: &mut String<A>,
    left: &[usize; KINDS],
) -> Result<(), AllocError>
    ensures { OnOk result (Adds (left_last_parts left.now) (string_bytes page.old) (string_bytes page.new)) }
{
    add_left(page, left[5], "report lost")?;
    add_left(page, left[6], "free to release")?;
    add_left(page, left[7], "activities")?;
    add_left(page, left[8], "locked for ever")?;
    add_left(page, left[9], "locked")
}

/// Adds what is open, most urgent first, up to a bound.
#[tactic(auto, using(crate::proofs::PartLemmas::then_adds), unfolding(crate::specs::Urgents::urgents_parts))]
pub(crate) fn add_urgents<A: Allocator + Copy>(
    page: &mut String<A>,
    wall: &Wall,
) -> Result<(), AllocError>
    ensures { OnOk result (Adds (urgents_parts wall.now) (string_bytes page.old) (string_bytes page.new)) }
{
    add_fixed(page, URGENT)?;
    add_rows(page, first_of(wall.urgent, MOST_LINES))?;
    add_fixed(page, "</tbody>\n</table>\n")?;
    add_none(page, wall.lines, "Nothing is open.")?;
    add_left_first(page, wall.left)?;
    add_left_last(page, wall.left)?;
    add_fixed(page, "</section>\n")
}
