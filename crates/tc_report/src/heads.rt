//! The lines before those of the moves.
ghost use Rattle.std.specs.Prelude.{◌≡◌, ◌++◌, ◌∷◌, [], ℕ, List, IfOk, sum, codes};
ghost use Rattle.std.specs.String.{string_bytes};
ghost use Rattle.std.specs.Fmt.{decimal};
ghost use Rattle.tc_report.specs.ShiftReport.{IsReportHead, premise_text};
ghost use Rattle.tc_report.specs.Texts.{ended, AreLines};

use crate::premises::Premise;
use crate::texts::add_line;
use crate::times::time_text;
use std::alloc::{AllocError, Allocator};
use tc_lines::places_text;
use tc_types::{Moment, PLACES};

/// A line: words, and what they are about.
fn line_of<A: Allocator + Copy>(alloc: A, words: &str, about: &str) -> Result<String<A>, AllocError>
    ensures { IfOk result (λ t. string_bytes t ≡ words.now ++ about.now) }
{
    format!(in alloc; "{words}{about}")
}

/// The line that says how many moves follow.
fn moves_line<A: Allocator + Copy>(alloc: A, many: usize) -> Result<String<A>, AllocError>
    ensures { IfOk result (λ t. string_bytes t ≡ codes "moves " ++ decimal many) }
{
    format!(in alloc; "moves {many}")
}

/// The lines before those of the moves: the shift from `from` on and before `to`, what holds of the link, how many requests
/// were entered and how many stand at each place, and how many moves follow.
pub fn head_text<A: Allocator + Copy>(
    alloc: A,
    premise: Premise,
    entered: u32,
    places: &[u32; PLACES],
    many: usize,
    from: Moment,
    to: Moment,
) -> Result<String<A>, AllocError>
    requires { entered ≡ sum places.now }
    ensures { IfOk result (λ t. (lines : List (List ℕ)) × IsReportHead (premise_text premise) places.now many from to lines × AreLines lines × (string_bytes t ≡ ended lines)) }
{
    let begins = time_text(from);
    let ends = time_text(to);
    let mut head = String::from_str(alloc, "SHIFT REPORT\n")?;
    add_line(
        &mut head,
        line_of(alloc, "from ", begins.as_str())?.as_str(),
    )?;
    add_line(&mut head, line_of(alloc, "to   ", ends.as_str())?.as_str())?;
    add_line(
        &mut head,
        line_of(alloc, "premise ", premise.name())?.as_str(),
    )?;
    add_line(&mut head, places_text(alloc, entered, places)?.as_str())?;
    add_line(&mut head, moves_line(alloc, many)?.as_str())?;
    Ok(head)
}
