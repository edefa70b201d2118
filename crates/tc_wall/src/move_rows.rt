//! The last moves.
ghost use Rattle.std.specs.Prelude.{◌≡◌, ◌++◌, reverse, OnOk};
ghost use Rattle.std.specs.List.{flat_map};
ghost use Rattle.std.specs.String.{string_bytes};
ghost use Rattle.tc_wall.specs.Parts.{Adds};
ghost use Rattle.tc_wall.specs.MoveParts.{who_parts, what_parts, move_parts, moves_parts};

use crate::bounds::{add_fixed, add_left_out, add_none, last_of};
use crate::escapes::Escaped;
use crate::fixed::MOVES;
use crate::times::time_text;
use crate::walls::{MOST_MOVES, Wall};
use std::alloc::{AllocError, Allocator};
use std::fmt::Write;
use tc_types::{Move, from_name};

/// Adds which move it is, when it was, and who made it.
#[tactic(auto, unfolding(crate::specs::MoveParts::who_parts))]
fn add_who<A: Allocator + Copy>(page: &mut String<A>, row: &Move) -> Result<(), AllocError>
    ensures { OnOk result (Adds (who_parts row.now) (string_bytes page.old) (string_bytes page.new)) }
{
    let to = row.to.name();
    let seq = row.seq;
    let time = time_text(row.moment);
    let time = time.as_str();
    let by = Escaped(row.by.as_str());
    write!(
        page,
        "<tr class=\"{to}\"><td>{seq}</td><td>{time}</td><td>{by}</td>"
    )
}

/// Adds which request moved, from where, to where and why.
#[tactic(auto, unfolding(crate::specs::MoveParts::what_parts))]
fn add_what<A: Allocator + Copy>(page: &mut String<A>, row: &Move) -> Result<(), AllocError>
    ensures { OnOk result (Adds (what_parts row.now) (string_bytes page.old) (string_bytes page.new)) }
{
    let request = row.request.get();
    let from = from_name(row.from);
    let to = row.to.name();
    let cause = row.cause.name();
    write!(
        page,
        "<td>{request}</td><td>{from}</td><td>{to}</td><td>{cause}</td></tr>\n"
    )
}

/// Adds the row of a move.
#[tactic(auto, using(crate::proofs::PartLemmas::then_adds))]
fn add_move<A: Allocator + Copy>(page: &mut String<A>, row: &Move) -> Result<(), AllocError>
    ensures { OnOk result (Adds (move_parts row.now) (string_bytes page.old) (string_bytes page.new)) }
{
    add_who(page, row)?;
    add_what(page, row)
}

/// Adds the rows of these moves, the last first.
fn add_rows<A: Allocator + Copy>(page: &mut String<A>, rows: &[Move]) -> Result<(), AllocError>
    ensures { OnOk result (Adds (flat_map move_parts (reverse rows.now)) (string_bytes page.old) (string_bytes page.new)) }
{
    let mut rest = rows;
    while let Some((row, others)) = rest.split_last() {
        add_move(page, row)?;
        rest = others;
    }
    Ok(())
}

/// Adds the last moves, the newest first, up to a bound.
#[tactic(auto, using(crate::proofs::PartLemmas::then_adds), unfolding(crate::specs::MoveParts::moves_parts))]
pub(crate) fn add_moves<A: Allocator + Copy>(
    page: &mut String<A>,
    wall: &Wall,
) -> Result<(), AllocError>
    ensures { OnOk result (Adds (moves_parts wall.now) (string_bytes page.old) (string_bytes page.new)) }
{
    add_fixed(page, MOVES)?;
    add_rows(page, last_of(wall.moves, MOST_MOVES))?;
    add_fixed(page, "</tbody>\n</table>\n")?;
    add_none(page, wall.moved, "Nothing moved yet.")?;
    add_left_out(page, wall.moved, MOST_MOVES)?;
    add_fixed(page, "</section>\n")
}
