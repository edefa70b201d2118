//! How a desk was opened.
ghost use Rattle.std.specs.Prelude.{◌≡◌, ◌∷◌, [], IfOk};
ghost use Rattle.std.specs.String.{string_bytes};
ghost use Rattle.tc_room.specs.Replies.{AreLines, ended};
ghost use Rattle.tc_api.specs.Openings.{opening_line};

use sqlite::Alter;
use std::alloc::{AllocError, Global};
use tc_room::Room;
use tc_types::Moment;

/// The line that tells how many moves stood once a desk was opened, and when that was.
#[tactic(auto, using(crate::proofs::OpeningLemmas::opening_lines))]
fn opening_line(alloc: Global, moves: usize, since: Moment) -> Result<String, AllocError>
    ensures line { IfOk result (λ line. string_bytes line ≡ opening_line moves since) }
    ensures lines { IfOk result (λ line. AreLines (opening_line moves since ∷ [])) }
{
    let seconds = since.get();
    format!(in alloc; "opening {moves} at {seconds}")
}

/// What is told of a room that was opened at this moment: one line, ended by LF. Fails only if memory is refused.
pub(crate) fn opening_text<S: Alter + Drop>(
    alloc: Global,
    room: &Room<S>,
    since: Moment,
) -> Result<String, AllocError>
    ensures told { IfOk result (λ text. string_bytes text ≡ ended (opening_line room.now.opened since ∷ [])) }
    ensures lines { IfOk result (λ text. AreLines (opening_line room.now.opened since ∷ [])) }
{
    let mut text = opening_line(alloc, room.opened(), since)?;
    text.push_str("\n")?;
    Ok(text)
}
