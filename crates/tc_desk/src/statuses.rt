//! What the questions `link` and `schedule` tell, and which requests the mirror has on board.
ghost use Rattle.std.specs.Prelude.{◌≡◌, IfOk, map};
ghost use Rattle.tc_types.specs.declared.link.activities.ListedActivity.{ListedActivity as SomeActivity};

use std::alloc::{AllocError, Allocator};
use tc_farm::FarmView;
use tc_fop::FopView;
use tc_types::ListedActivity;

/// How the FOP, the FARM and the carriers stand.
#[derive(Clone, Copy, Debug, PartialEq, Eq)]
pub struct LinkStatus {
    /// The variables of the FOP.
    pub fop: FopView,
    /// The variables of the FARM.
    pub farm: FarmView,
    /// How many frames are in flight.
    pub up: usize,
    /// How many control words and reports are in flight.
    pub down: usize,
    /// Whether every start so far was good: at each initiation nothing was in flight, and at each without check both sides
    /// agreed.
    pub clean: bool,
}

/// The on-board schedule, as the reports that were read tell it.
#[derive(Drop)]
pub struct KnownSchedule<A: Allocator + Copy + Drop> {
    /// Whether it is enabled.
    pub enabled: bool,
    /// Its activities, by time, application process and count.
    pub activities: Vec<ListedActivity, A>,
}

/// The requests of these activities. Fails where memory is refused.
pub(crate) fn requests_in<A: Allocator>(
    alloc: A,
    activities: &[ListedActivity],
) -> Result<Vec<u32, A>, AllocError>
    ensures { IfOk result (λ requests. requests.items ≡ map (λ (a : SomeActivity). a.request) activities.now) }
{
    let mut requests = Vec::new(alloc);
    for activity in activities {
        requests.push(activity.request.get())?;
    }
    Ok(requests)
}
