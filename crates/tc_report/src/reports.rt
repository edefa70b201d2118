//! The whole report.
ghost use Rattle.std.specs.Prelude.{◌≡◌, ℕ, List, IfOk, sum};
ghost use Rattle.std.specs.String.{string_bytes};
ghost use Rattle.tc_report.specs.ShiftReport.{IsReport, premise_text};
ghost use Rattle.tc_report.specs.Texts.{ended, AreLines};

use crate::heads::head_text;
use crate::premises::Premise;
use crate::shifts::{add_rows_within, count_within};
use std::alloc::{AllocError, Allocator};
use tc_types::{Moment, Move, PLACES};

/// The last line.
pub const END: &str = "END\n";

/// The report of a shift, from `from` on and before `to`, over these moves: `premise` holds of the link, `entered` requests
/// were entered, and so many stand at each place.
pub fn report_text<A: Allocator + Copy>(
    alloc: A,
    premise: Premise,
    entered: u32,
    places: &[u32; PLACES],
    moves: &[Move],
    from: Moment,
    to: Moment,
) -> Result<String<A>, AllocError>
    requires { entered ≡ sum places.now }
    ensures { IfOk result (λ t. (lines : List (List ℕ)) × IsReport (premise_text premise) places.now moves.now from to lines × AreLines lines × (string_bytes t ≡ ended lines)) }
{
    let many = count_within(from, to, moves);
    let mut report = head_text(alloc, premise, entered, places, many, from, to)?;
    add_rows_within(alloc, &mut report, from, to, moves)?;
    report.push_str(END)?;
    Ok(report)
}
