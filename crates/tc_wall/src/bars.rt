//! The bars of the ways.
ghost use Rattle.std.specs.Prelude.{◌≡◌, OnOk};
ghost use Rattle.std.specs.String.{string_bytes};
ghost use Rattle.tc_wall.specs.Parts.{Adds};
ghost use Rattle.tc_wall.specs.Bars.{stage_parts, begin_of, end_of, bar_parts};

use crate::axes::{Mark, WIDTH, x_of};
use std::alloc::{AllocError, Allocator};
use std::fmt::Write;
use tc_types::{Move, Place};

/// Adds a stage; none where it has no width.
#[tactic(auto, unfolding(crate::specs::Bars::stage_parts))]
fn add_stage<A: Allocator + Copy>(
    page: &mut String<A>,
    place: Place,
    begin: u32,
    end: u32,
) -> Result<(), AllocError>
    ensures { OnOk result (Adds (stage_parts place begin end) (string_bytes page.old) (string_bytes page.new)) }
{
    if end <= begin {
        return Ok(());
    }
    let name = place.name();
    let width = end - begin;
    write!(
        page,
        "<rect class=\"{name}\" x=\"{begin}\" width=\"{width}\" height=\"10\"/>"
    )
}

/// Where a stage begins: at its move, or where the one before it begins if that is later.
fn begin_of(axis: &[Mark], before: u32, row: &Move) -> u32
    ensures { result ≡ begin_of axis.now before row.now }
{
    before.max(x_of(axis, row.moment))
}

/// Where a stage ends: where the next begins, the last at the end of the axis.
fn end_of(axis: &[Mark], begin: u32, others: &[Move]) -> u32
    ensures { result ≡ end_of axis.now begin others.now }
{
    match others.first() {
        Some(next) => begin_of(axis, begin, next),
        None => WIDTH,
    }
}

/// Adds the stages of these moves; the one before them begins there.
pub(crate) fn add_bar<A: Allocator + Copy>(
    page: &mut String<A>,
    axis: &[Mark],
    moves: &[Move],
) -> Result<(), AllocError>
    ensures { OnOk result (Adds (bar_parts axis.now 0 moves.now) (string_bytes page.old) (string_bytes page.new)) }
{
    let mut begin = 0;
    let mut rest = moves;
    while let Some((row, others)) = rest.split_first() {
        begin = begin_of(axis, begin, row);
        add_stage(page, row.to, begin, end_of(axis, begin, others))?;
        rest = others;
    }
    Ok(())
}
