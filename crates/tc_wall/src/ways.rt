//! The ways of the requests that are open, over their axis.
ghost use Rattle.std.specs.Prelude.{◌≤◌, length, OnOk};
ghost use Rattle.std.specs.List.{flat_map};
ghost use Rattle.std.specs.String.{string_bytes};
ghost use Rattle.tc_wall.specs.Parts.{Adds};
ghost use Rattle.tc_wall.specs.WayParts.{label_parts, tick_parts, ticks_begin, axis_parts, way_parts, table_parts, ways_parts};

use crate::axes::{Mark, WIDTH, axis_of};
use crate::bounds::{add_fixed, add_left_out, add_none, first_of};
use crate::fixed::{WAYS, WAYS_HEAD};
use crate::lines::lines_of;
use crate::times::time_text;
use crate::walls::{MOST_OPEN, Wall, Way};
use crate::way_rows::add_way;
use std::alloc::{AllocError, Allocator};
use std::fmt::Write;

/// Adds the time of a line of the axis.
#[tactic(auto, unfolding(crate::specs::WayParts::label_parts))]
fn add_label<A: Allocator + Copy>(page: &mut String<A>, line: &Mark) -> Result<(), AllocError>
    ensures { OnOk result (Adds (label_parts line.now) (string_bytes page.old) (string_bytes page.new)) }
{
    let x = line.x;
    let time = time_text(line.moment);
    let time = time.as_str();
    write!(
        page,
        "<b style=\"left:calc(100% * {x} / {WIDTH})\">{time}</b>\n"
    )
}

/// Adds those of these lines.
#[tactic(auto, using(crate::proofs::PartLemmas::none_added, crate::proofs::PartLemmas::one_more))]
fn add_labels<A: Allocator + Copy>(page: &mut String<A>, lines: &[Mark]) -> Result<(), AllocError>
    ensures { OnOk result (Adds (flat_map label_parts lines.now) (string_bytes page.old) (string_bytes page.new)) }
{
    for line in lines {
        add_label(page, line)?;
    }
    Ok(())
}

/// Adds a line of the axis.
#[tactic(auto, unfolding(crate::specs::WayParts::tick_parts))]
fn add_tick<A: Allocator + Copy>(page: &mut String<A>, line: &Mark) -> Result<(), AllocError>
    ensures { OnOk result (Adds (tick_parts line.now) (string_bytes page.old) (string_bytes page.new)) }
{
    let x = line.x;
    write!(page, "M{x} 0V10")
}

/// Adds these lines.
#[tactic(auto, using(crate::proofs::PartLemmas::none_added, crate::proofs::PartLemmas::one_more))]
fn add_ticks<A: Allocator + Copy>(page: &mut String<A>, lines: &[Mark]) -> Result<(), AllocError>
    ensures { OnOk result (Adds (flat_map tick_parts lines.now) (string_bytes page.old) (string_bytes page.new)) }
{
    for line in lines {
        add_tick(page, line)?;
    }
    Ok(())
}

/// Adds where the lines begin.
#[tactic(auto, unfolding(crate::specs::WayParts::ticks_begin))]
fn begin_ticks<A: Allocator + Copy>(page: &mut String<A>) -> Result<(), AllocError>
    ensures { OnOk result (Adds ticks_begin (string_bytes page.old) (string_bytes page.new)) }
{
    write!(
        page,
        "</div><svg viewBox=\"0 0 {WIDTH} 10\" preserveAspectRatio=\"none\" class=\"lines\"><path id=\"ticks\" d=\""
    )
}

/// Adds the head of the table: the lines of the axis, and their times.
#[tactic(auto, using(crate::proofs::PartLemmas::then_adds), unfolding(crate::specs::WayParts::axis_parts))]
fn add_axis<A: Allocator + Copy>(page: &mut String<A>, lines: &[Mark]) -> Result<(), AllocError>
    ensures { OnOk result (Adds (axis_parts lines.now) (string_bytes page.old) (string_bytes page.new)) }
{
    add_fixed(page, WAYS_HEAD)?;
    add_labels(page, lines)?;
    begin_ticks(page)?;
    add_ticks(page, lines)?;
    add_fixed(
        page,
        "\"/></svg></th><th>Stands at</th></tr></thead>\n<tbody>\n",
    )
}

/// Adds the rows of these requests, in order.
#[tactic(auto, using(crate::proofs::PartLemmas::none_added, crate::proofs::PartLemmas::one_more))]
fn add_rows<A: Allocator + Copy>(
    page: &mut String<A>,
    axis: &[Mark],
    ways: &[Way],
) -> Result<(), AllocError>
    ensures { OnOk result (Adds (flat_map (way_parts axis.now) ways.now) (string_bytes page.old) (string_bytes page.new)) }
{
    for way in ways {
        add_way(page, axis, way)?;
    }
    Ok(())
}

/// Adds the table of these ways, where there are any.
#[tactic(auto, using(crate::proofs::PartLemmas::then_adds), unfolding(crate::specs::WayParts::table_parts))]
fn add_table<A: Allocator + Copy>(
    alloc: A,
    page: &mut String<A>,
    ways: &[Way],
) -> Result<(), AllocError>
    requires { length ways.now ≤ MOST_OPEN }
    ensures { OnOk result (Adds (table_parts ways.now) (string_bytes page.old) (string_bytes page.new)) }
{
    if ways.is_empty() {
        return Ok(());
    }
    let axis = axis_of(alloc, ways)?;
    let lines = lines_of(alloc, axis.as_slice())?;
    add_axis(page, lines.as_slice())?;
    add_rows(page, axis.as_slice(), ways)?;
    add_fixed(page, "</tbody>\n</table>\n")
}

/// Adds the ways, up to a bound.
#[tactic(auto, using(crate::proofs::PartLemmas::then_adds), unfolding(crate::specs::WayParts::ways_parts))]
pub(crate) fn add_ways<A: Allocator + Copy>(
    alloc: A,
    page: &mut String<A>,
    wall: &Wall,
) -> Result<(), AllocError>
    ensures { OnOk result (Adds (ways_parts wall.now) (string_bytes page.old) (string_bytes page.new)) }
{
    add_fixed(page, WAYS)?;
    add_table(alloc, page, first_of(wall.ways, MOST_OPEN))?;
    add_none(page, wall.opened, "No request is open.")?;
    add_left_out(page, wall.opened, MOST_OPEN)?;
    add_fixed(page, "</section>\n")
}
