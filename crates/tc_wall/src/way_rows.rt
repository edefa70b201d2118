//! The rows of the requests that are open.
ghost use Rattle.std.specs.Prelude.{◌≡◌, OnOk};
ghost use Rattle.std.specs.String.{string_bytes};
ghost use Rattle.tc_wall.specs.Parts.{Adds};
ghost use Rattle.tc_wall.specs.WayParts.{service_of, subtype_of, row_begins, identity_parts, command_parts, earlier_parts, author_parts, origin_parts, bar_begins, place_parts, request_parts, way_parts};

use crate::axes::{Mark, WIDTH, drawn};
use crate::bars::add_bar;
use crate::escapes::Escaped;
use crate::signs::sign;
use crate::urgent_rows::add_critical;
use crate::walls::{MOST_STAGES, Way};
use std::alloc::{AllocError, Allocator};
use std::fmt::Write;
use tc_types::{Command, Identity, Name, Origin, Place};

/// A command's service and subtype.
pub(crate) fn kind(command: &Command) -> (u8, u8)
    ensures service { result.0 ≡ service_of command.now }
    ensures subtype { result.1 ≡ subtype_of command.now }
{
    match command {
        Command::Plain { service, subtype } => (service.get(), subtype.get()),
        Command::EnableSchedule => (11, 1),
        Command::DisableSchedule => (11, 2),
        Command::ResetSchedule => (11, 3),
        Command::InsertActivities(_) => (11, 4),
        Command::DeleteActivity { .. } => (11, 5),
        Command::ShiftActivity { .. } => (11, 7),
        Command::ShiftAll { .. } => (11, 15),
        Command::SummarizeAll => (11, 17),
    }
}

/// Adds where the row of a request begins.
#[tactic(auto, unfolding(crate::specs::WayParts::row_begins))]
fn begin_row<A: Allocator + Copy>(
    page: &mut String<A>,
    number: u32,
    place: Place,
) -> Result<(), AllocError>
    ensures { OnOk result (Adds (row_begins number place) (string_bytes page.old) (string_bytes page.new)) }
{
    let name = place.name();
    let shown = number;
    write!(
        page,
        "<tr id=\"r{number}\" class=\"{name}\"><td><b>{shown}</b></td>"
    )
}

/// Adds by what it is named on board.
#[tactic(auto, unfolding(crate::specs::WayParts::identity_parts))]
fn add_identity<A: Allocator + Copy>(
    page: &mut String<A>,
    identity: &Identity,
) -> Result<(), AllocError>
    ensures { OnOk result (Adds (identity_parts identity.now) (string_bytes page.old) (string_bytes page.new)) }
{
    let apid = identity.apid.get();
    let count = identity.count.get();
    write!(page, "<td>{apid}/{count}</td>")
}

/// Adds its service and subtype.
#[tactic(auto, unfolding(crate::specs::WayParts::command_parts))]
fn add_command<A: Allocator + Copy>(
    page: &mut String<A>,
    command: &Command,
) -> Result<(), AllocError>
    ensures { OnOk result (Adds (command_parts command.now) (string_bytes page.old) (string_bytes page.new)) }
{
    let (service, subtype) = kind(command);
    write!(page, "<td>{service}/{subtype}</td><td>")
}

/// Adds how many moves there are before those that are drawn.
#[tactic(auto, unfolding(crate::specs::WayParts::earlier_parts))]
fn add_earlier<A: Allocator + Copy>(page: &mut String<A>, moved: usize) -> Result<(), AllocError>
    ensures { OnOk result (Adds (earlier_parts moved) (string_bytes page.old) (string_bytes page.new)) }
{
    if moved <= MOST_STAGES {
        return Ok(());
    }
    let earlier = moved - MOST_STAGES;
    write!(page, " {earlier} moves before")
}

/// Adds who entered it.
#[tactic(auto, unfolding(crate::specs::WayParts::author_parts))]
fn add_author<A: Allocator + Copy>(page: &mut String<A>, author: &Name) -> Result<(), AllocError>
    ensures { OnOk result (Adds (author_parts author.now) (string_bytes page.old) (string_bytes page.new)) }
{
    let author = Escaped(author.as_str());
    write!(page, "</td><td class=\"by\">{author}</td><td class=\"by\">")
}

/// Adds the stack that it came with, and its line there.
#[tactic(auto, unfolding(crate::specs::WayParts::origin_parts))]
fn add_origin<A: Allocator + Copy>(
    page: &mut String<A>,
    origin: &Option<Origin>,
) -> Result<(), AllocError>
    ensures { OnOk result (Adds (origin_parts origin.now) (string_bytes page.old) (string_bytes page.new)) }
{
    match origin {
        None => Ok(()),
        Some(origin) => {
            let stack = Escaped(origin.stack.as_str());
            let line = origin.line;
            write!(page, "{stack} {line}")
        }
    }
}

/// Adds where its bar begins.
#[tactic(auto, unfolding(crate::specs::WayParts::bar_begins))]
fn begin_bar<A: Allocator + Copy>(page: &mut String<A>) -> Result<(), AllocError>
    ensures { OnOk result (Adds bar_begins (string_bytes page.old) (string_bytes page.new)) }
{
    write!(
        page,
        "</td><td class=\"bar\"><svg viewBox=\"0 0 {WIDTH} 10\" preserveAspectRatio=\"none\"><use href=\"#ticks\"/>"
    )
}

/// Adds where it stands.
#[tactic(auto, unfolding(crate::specs::WayParts::place_parts))]
fn add_place<A: Allocator + Copy>(page: &mut String<A>, place: Place) -> Result<(), AllocError>
    ensures { OnOk result (Adds (place_parts place) (string_bytes page.old) (string_bytes page.new)) }
{
    let sign = sign(place);
    let name = place.name();
    write!(
        page,
        "</svg></td><td class=\"place\">{sign} {name}</td></tr>\n"
    )
}

/// Adds which request it is, and who entered it.
#[tactic(auto, using(crate::proofs::PartLemmas::then_adds), unfolding(crate::specs::WayParts::request_parts))]
fn add_request<A: Allocator + Copy>(page: &mut String<A>, way: &Way) -> Result<(), AllocError>
    ensures { OnOk result (Adds (request_parts way.now) (string_bytes page.old) (string_bytes page.new)) }
{
    begin_row(page, way.request.number.get(), way.place)?;
    add_identity(page, &way.request.body.identity)?;
    add_command(page, &way.request.body.command)?;
    add_critical(page, way.request.critical)?;
    add_earlier(page, way.moved)?;
    add_author(page, &way.request.author)?;
    add_origin(page, &way.request.origin)
}

/// Adds the row of a request.
#[tactic(auto, using(crate::proofs::PartLemmas::then_adds), unfolding(crate::specs::WayParts::way_parts))]
pub(crate) fn add_way<A: Allocator + Copy>(
    page: &mut String<A>,
    axis: &[Mark],
    way: &Way,
) -> Result<(), AllocError>
    ensures { OnOk result (Adds (way_parts axis.now way.now) (string_bytes page.old) (string_bytes page.new)) }
{
    add_request(page, way)?;
    begin_bar(page)?;
    add_bar(page, axis, drawn(way))?;
    add_place(page, way.place)
}
