//! What the spacecraft sends down, and what it tells the FARM: neither is refused memory.
ghost use Rattle.std.specs.Prelude.{◌+◌, ◌<◌, ◌≤◌, [], ◌∷◌, length};
ghost use Rattle.tc_world.specs.declared.events.Event.TheVariants as event;
ghost use Rattle.tc_desk.specs.Machine.{Happened, PutsDown};

use std::alloc::Allocator;
use tc_types::{Frame, Report, Telemetry};
use tc_world::{Carrier, Event, World};

/// Puts a report on the downlink, where there is room.
pub(crate) fn put_down<
    U: Carrier<Frame> + Drop,
    D: Carrier<Report> + Drop,
    A: Allocator + Copy + Drop,
>(world: &mut World<U, D, A>, report: Telemetry)
    requires { 0 < D.covered world.old.down }
    ensures put { PutsDown U.kind D.kind (report ∷ []) world.old world.new }
    ensures room { D.covered world.old.down ≤ D.covered world.new.down + 1 }
{
    let is_put = world.step(Event::Put(report)).is_ok();
    prove!(is_put);
}

/// Puts these reports on the downlink, in order, where there is room for all.
pub(crate) fn put_all<
    U: Carrier<Frame> + Drop,
    D: Carrier<Report> + Drop,
    A: Allocator + Copy + Drop,
>(world: &mut World<U, D, A>, reports: &[Telemetry])
    requires { length reports.now ≤ D.covered world.old.down }
    ensures { PutsDown U.kind D.kind reports.now world.old world.new }
{
    for report in reports {
        put_down(world, *report);
    }
}

/// Tells the FARM that a buffer is free.
pub(crate) fn free_buffer<
    U: Carrier<Frame> + Drop,
    D: Carrier<Report> + Drop,
    A: Allocator + Copy + Drop,
>(world: &mut World<U, D, A>)
    ensures { Happened U.kind D.kind event.Release world.old world.new [] }
{
    let is_free = world.step(Event::Release).is_ok();
    prove!(is_free);
}
