//! The lines of lists of which the first fifty are shown, as text without their LF.
ghost use Rattle.std.specs.Prelude.{◌≡◌, ◌++◌, [], codes, if◌then◌else◌, IfOk, IsTrue};
ghost use Rattle.std.specs.String.{string_bytes};
ghost use Rattle.tc_types.specs.Words.{is_one_line};
ghost use Rattle.tc_types.specs.ListLines.{moves_line, standing_line, named_line};

use std::alloc::{AllocError, Allocator};
use tc_types::{Identity, Place};

/// Adds ` more` to a line, where others are left out.
fn with_more<A: Allocator + Copy>(mut line: String<A>, more: bool) -> Result<String<A>, AllocError>
    ensures { IfOk result (λ t. string_bytes t ≡ string_bytes line ++ (if more then codes " more" else [])) }
{
    if more {
        line.push_str(" more")?;
    }
    Ok(line)
}

/// The first line of the moves behind a number: `moves K`, and ` more` where others are left out. Fails where memory is refused.
#[tactic(auto, using(crate::proofs::WaitingLines::moves_one))]
pub fn moves_text<A: Allocator + Copy>(
    alloc: A,
    shown: u32,
    more: bool,
) -> Result<String<A>, AllocError>
    ensures text { IfOk result (λ t. string_bytes t ≡ moves_line shown more) }
    ensures one_line { IfOk result (λ t. IsTrue (is_one_line (moves_line shown more))) }
{
    with_more(format!(in alloc; "moves {shown}")?, more)
}

/// The first line of the requests at a place: `standing PLACE: K`, and ` more` where others are left out. Fails where memory is refused.
#[tactic(auto, using(crate::proofs::WaitingLines::standing_one))]
pub fn standing_text<A: Allocator + Copy>(
    alloc: A,
    place: Place,
    shown: u32,
    more: bool,
) -> Result<String<A>, AllocError>
    ensures text { IfOk result (λ t. string_bytes t ≡ standing_line place shown more) }
    ensures one_line { IfOk result (λ t. IsTrue (is_one_line (standing_line place shown more))) }
{
    let place = place.name();
    with_more(format!(in alloc; "standing {place}: {shown}")?, more)
}

/// The line that names a request: `request N APID/COUNT`. Fails where memory is refused.
#[tactic(auto, using(crate::proofs::WaitingLines::named_one))]
pub fn named_text<A: Allocator + Copy>(
    alloc: A,
    number: u32,
    identity: Identity,
) -> Result<String<A>, AllocError>
    ensures text { IfOk result (λ t. string_bytes t ≡ named_line number identity) }
    ensures one_line { IfOk result (λ t. IsTrue (is_one_line (named_line number identity))) }
{
    let apid = identity.apid.get();
    let count = identity.count.get();
    format!(in alloc; "request {number} {apid}/{count}")
}
