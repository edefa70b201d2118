//! One event.
ghost use Rattle.std.specs.Prelude.{IfOk};
ghost use Rattle.tc_world.specs.World.{Happens, EndsWithin};

use crate::carriers::Carrier;
use crate::events::Event;
use crate::indications::Indications;
use crate::parts::LinkParts;
use std::alloc::Allocator;
use tc_types::{Frame, Refusal, Report};

impl<U: Carrier<Frame>, D: Carrier<Report>, A: Allocator + Copy + Drop> LinkParts<U, D, A> {
    /// One event.
    pub(crate) fn step(&mut self, event: Event) -> Result<Indications<A>, Refusal>
        ensures happens { IfOk result (λ answer. Happens U.kind D.kind event self.old self.new answer) }
        ensures limits { EndsWithin U.kind D.kind D.covered event self.old self.new result }
    {
        match event {
            Event::Offer { request, body } => self.offer(request, body),
            Event::Directive(directive) => self.directive(directive),
            Event::Tick => self.tick(),
            Event::Uplink { free_buffer } => self.uplink(free_buffer),
            Event::LoseUp(place) => self.lose_up(place),
            Event::Release => self.release(),
            Event::Clcw => self.clcw(),
            Event::Put(telemetry) => self.put(telemetry),
            Event::Downlink => self.downlink(),
            Event::LoseDown(place) => self.lose_down(place),
            Event::Transmit => self.transmit(),
            Event::Hear(item) => self.hear(item),
        }
    }
}
