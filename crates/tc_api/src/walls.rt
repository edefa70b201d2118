//! The page of the wall of a room.
ghost use Rattle.std.specs.Prelude.{◌≤◌, IfErr, IfOk};
ghost use Rattle.std.specs.String.{string_bytes, string_len};
ghost use Rattle.tc_api.specs.Walls.{RefusesWall, TellsWall};

use sqlite::Alter;
use std::alloc::Global;
use tc_room::Room;
use tc_types::{Moment, Refusal};
use tc_view::desk_page;
use tc_wall::{MOST_BYTES, Opening};

/// The page of the wall of a room that was opened at this moment. The desk says it: no table is read. `Stopped` where the room has stopped, else `Memory` where that is refused.
pub(crate) fn wall_page<S: Alter + Drop>(
    alloc: Global,
    room: &Room<S>,
    since: Moment,
) -> Result<String, Refusal>
    ensures told { IfOk result (λ page. TellsWall since room.now (string_bytes page)) }
    ensures few { IfOk result (λ page. string_len page ≤ MOST_BYTES) }
    ensures refused { IfErr result (RefusesWall room.now) }
{
    if room.stopped() {
        return Err(Refusal::Stopped);
    }
    let opening = Opening {
        since,
        stood: room.opened(),
    };
    Ok(desk_page(alloc, room.desk(), opening)?)
}
