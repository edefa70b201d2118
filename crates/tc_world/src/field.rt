//! What happens over a link that leaves this machine: the front end takes frames, and what came down elsewhere is heard.
ghost use Rattle.std.specs.Prelude.{IfOk};
ghost use Rattle.tc_world.specs.declared.events.Event.TheVariants as event;
ghost use Rattle.tc_world.specs.World.{Happens, EndsWithin};

use crate::carriers::Carrier;
use crate::events::LinkIndication;
use crate::indications::Indications;
use crate::parts::LinkParts;
use std::alloc::Allocator;
use tc_types::{Frame, Refusal, Report};

impl<U: Carrier<Frame>, D: Carrier<Report>, A: Allocator + Copy + Drop> LinkParts<U, D, A> {
    /// The front end takes the first frame of the uplink. Where none flies nothing is told.
    pub(crate) fn transmit(&mut self) -> Result<Indications<A>, Refusal>
        ensures happens { IfOk result (λ answer. Happens U.kind D.kind event.Transmit self.old self.new answer) }
        ensures limits { EndsWithin U.kind D.kind D.covered event.Transmit self.old self.new result }
    {
        if self.side.up.is_empty() {
            return Ok(Indications::none(self.alloc));
        }
        let Some(frame) = self.side.up.take() else {
            unreachable!()
        };
        Ok(Indications::lone(LinkIndication::Transmitted(frame)))
    }

    /// This came from outside, and is heard as one that came down. Of the starts nothing is known any more.
    pub(crate) fn hear(&mut self, item: Report) -> Result<Indications<A>, Refusal>
        ensures happens { IfOk result (λ answer. Happens U.kind D.kind (event.Hear item) self.old self.new answer) }
        ensures limits { EndsWithin U.kind D.kind D.covered (event.Hear item) self.old self.new result }
    {
        let answer = self.side.reserve(self.alloc)?;
        self.clean = false;
        match item {
            Report::Word(word) => {
                let answer = self.side.pass_word(self.vc, word, answer);
                Ok(Indications::many(answer))
            }
            Report::Telemetry(telemetry) => Ok(Indications::lone(LinkIndication::Received(
                Report::Telemetry(telemetry),
            ))),
        }
    }
}
