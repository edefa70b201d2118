//! The heading.
ghost use Rattle.std.specs.Prelude.{◌-◌, length, slice_get, OnOk};
ghost use Rattle.std.specs.String.{string_bytes};
ghost use Rattle.tc_wall.specs.Parts.{Adds};
ghost use Rattle.tc_wall.specs.Heading.{file_parts, opened_parts, entered_parts, moved_parts, last_parts, heading_parts};

use crate::bounds::add_fixed;
use crate::fixed::{CLOSED, HEADING};
use crate::times::time_text;
use crate::walls::{Opening, Wall};
use std::alloc::{AllocError, Allocator};
use std::fmt::Write;
use tc_types::Move;

/// Adds when the desk was opened, and how many moves stood then.
#[tactic(auto, unfolding(crate::specs::Heading::opened_parts))]
fn add_opened<A: Allocator + Copy>(page: &mut String<A>, opening: Opening) -> Result<(), AllocError>
    ensures { OnOk result (Adds (opened_parts opening) (string_bytes page.old) (string_bytes page.new)) }
{
    let stood = opening.stood;
    let time = time_text(opening.since);
    let time = time.as_str();
    write!(
        page,
        "<p>opened at <b>{time}</b> UTC after <b>{stood}</b> moves</p>\n"
    )
}

/// Adds how the desk was opened, or that the file is closed.
#[tactic(auto, unfolding(crate::specs::Heading::file_parts))]
fn add_file<A: Allocator + Copy>(
    page: &mut String<A>,
    opening: Option<Opening>,
) -> Result<(), AllocError>
    ensures { OnOk result (Adds (file_parts opening) (string_bytes page.old) (string_bytes page.new)) }
{
    match opening {
        Some(opening) => add_opened(page, opening),
        None => add_fixed(page, CLOSED),
    }
}

/// Adds how many requests were entered.
#[tactic(auto, unfolding(crate::specs::Heading::entered_parts))]
fn add_entered<A: Allocator + Copy>(page: &mut String<A>, entered: u32) -> Result<(), AllocError>
    ensures { OnOk result (Adds (entered_parts entered) (string_bytes page.old) (string_bytes page.new)) }
{
    write!(page, "<p><b>{entered}</b> entered</p>\n")
}

/// Adds the number of the last move, and its moment.
#[tactic(auto, unfolding(crate::specs::Heading::moved_parts))]
fn add_moved<A: Allocator + Copy>(page: &mut String<A>, row: &Move) -> Result<(), AllocError>
    ensures { OnOk result (Adds (moved_parts row.now) (string_bytes page.old) (string_bytes page.new)) }
{
    let seq = row.seq;
    let time = time_text(row.moment);
    let time = time.as_str();
    let moment = row.moment.get();
    write!(
        page,
        "<p id=\"moved\" data-at=\"{moment}\">last move <b>{seq}</b> at <b>{time}</b> UTC</p>\n"
    )
}

/// Adds the last of these moves, where there is one.
fn add_last<A: Allocator + Copy>(page: &mut String<A>, moves: &[Move]) -> Result<(), AllocError>
    ensures { OnOk result (Adds (last_parts (slice_get moves.now (length moves.now - 1))) (string_bytes page.old) (string_bytes page.new)) }
{
    match moves.last() {
        Some(row) => add_moved(page, row),
        None => add_fixed(page, "<p>nothing moved yet</p>\n"),
    }
}

/// Adds the heading: how the desk was opened, how many requests were entered, and the last move; a closed file says so.
#[tactic(auto, using(crate::proofs::PartLemmas::then_adds), unfolding(crate::specs::Heading::heading_parts))]
pub(crate) fn add_heading<A: Allocator + Copy>(
    page: &mut String<A>,
    wall: &Wall,
) -> Result<(), AllocError>
    ensures { OnOk result (Adds (heading_parts wall.now) (string_bytes page.old) (string_bytes page.new)) }
{
    add_fixed(page, HEADING)?;
    add_file(page, wall.opening)?;
    add_entered(page, wall.entered)?;
    add_last(page, wall.moves)?;
    add_fixed(page, "</header>\n")
}
