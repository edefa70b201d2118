//! The pages.
ghost use Rattle.std.specs.Prelude.{◌≡◌, ◌≤◌, IfOk};
ghost use Rattle.std.specs.String.{string_bytes, string_len};
ghost use Rattle.tc_wall.specs.declared.walls.Wall.{Wall as SomeWall};
ghost use Rattle.tc_wall.specs.Page.{wall_page};
ghost use Rattle.tc_view.specs.Shown.{IsDeskPage, IsFilePage, ShowsBook};

use crate::gathering::gather;
use crate::lives::link_of;
use crate::opens::open_of;
use crate::trails::{trails_of, ways_of};
use crate::urgents::{left_counts, requests_of, rows_of, scheduled_in};
use std::alloc::{AllocError, Allocator};
use tc_book::Records;
use tc_desk::Desk;
use tc_types::{Frame, Report};
use tc_urgent::{UrgentKind, count_of, folded, urgent};
use tc_wall::{Live, MOST_BYTES, Opening, ShownSchedule, Wall, wall_text};
use tc_world::Carrier;

/// The page of a book of which so many moves stood at the opening, and of which these requests are on board; with how a desk that has it open was opened, and
/// what is told of it. Fails if memory is refused.
fn page_of<A: Allocator + Copy + Drop>(
    alloc: A,
    records: &Records<A>,
    stood: usize,
    scheduled: &[u32],
    opening: Option<Opening>,
    live: Option<Live<'_>>,
) -> Result<String<A>, AllocError>
    ensures page { IfOk result (λ t. (wall : SomeWall) × ShowsBook records.now.book stood scheduled.now wall × (wall.opening ≡ opening) × (wall.live ≡ live.entry) × (string_bytes t ≡ wall_page wall)) }
    ensures few { IfOk result (λ t. string_len t ≤ MOST_BYTES) }
{
    // read for the proof alone: the book is good
    let _mark = records.mark();
    let lines = urgent(alloc, records, stood, scheduled)?;
    let shown = folded(alloc, &lines)?;
    let rows = rows_of(alloc, records, &shown)?;
    let left = left_counts(&shown);
    let rank = UrgentKind::FailedSince.urgency();
    let failed = count_of(&shown, rank);
    let found = open_of(alloc, records, &lines)?;
    let gathered = gather(alloc, records, &found.first)?;
    let trails = trails_of(alloc, records, &gathered, &found.first)?;
    let ways = ways_of(alloc, &trails)?;
    let counts = records.tallies();
    let moves = records.rows();
    let wall = Wall {
        entered: records.count(),
        counts: &counts,
        urgent: &rows,
        lines: shown.len(),
        left: &left,
        failed,
        opening,
        live,
        ways: &ways,
        opened: found.count,
        moves,
        moved: moves.len(),
    };
    wall_text(alloc, &wall)
}

/// The page of the book of a file that nobody has open. Fails if memory is refused.
pub fn file_page<A: Allocator + Copy + Drop>(
    alloc: A,
    records: &Records<A>,
) -> Result<String<A>, AllocError>
    ensures page { IfOk result (λ t. IsFilePage records.now.book (string_bytes t)) }
    ensures few { IfOk result (λ t. string_len t ≤ MOST_BYTES) }
{
    let scheduled = scheduled_in(alloc, records)?;
    page_of(alloc, records, records.rows().len(), &scheduled, None, None)
}

/// The page of a desk that was opened so. Fails if memory is refused.
pub fn desk_page<U: Carrier<Frame> + Drop, D: Carrier<Report> + Drop, A: Allocator + Copy + Drop>(
    alloc: A,
    desk: &Desk<U, D, A>,
    opening: Opening,
) -> Result<String<A>, AllocError>
    ensures page { IfOk result (λ t. IsDeskPage U.kind D.kind opening desk.now.parts (string_bytes t)) }
    ensures few { IfOk result (λ t. string_len t ≤ MOST_BYTES) }
{
    let schedule = desk.schedule()?;
    let scheduled = requests_of(alloc, &schedule.activities)?;
    let stood = opening.stood;
    let live = Live {
        link: link_of(&desk.link()),
        schedule: ShownSchedule {
            enabled: schedule.enabled,
            activities: &schedule.activities,
            laid_in: schedule.activities.len(),
        },
    };
    page_of(
        alloc,
        desk.records(),
        stood,
        &scheduled,
        Some(opening),
        Some(live),
    )
}
