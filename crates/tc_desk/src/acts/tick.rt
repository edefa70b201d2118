//! The act `tick`: one tick of the FOP's timer.
ghost use Rattle.tc_types.specs.declared.acts.Act.TheVariants as act;
ghost use Rattle.tc_types.specs.declared.acts.LinkAct.TheVariants as link_act;
ghost use Rattle.tc_desk.specs.Parts.{Performs};

use crate::flights::{Flight, ask, most_rows};
use crate::hearing::hear_all;
use crate::parts::Parts;
use std::alloc::Allocator;
use tc_book::Stamp;
use tc_types::{Frame, Refusal, Report};
use tc_world::{Carrier, Event};

impl<U: Carrier<Frame> + Drop, D: Carrier<Report> + Drop, A: Allocator + Copy + Drop> Parts<
    U,
    D,
    A,
> {
    /// One tick of the FOP's timer.
    pub(crate) fn tick(&mut self, stamp: Stamp) -> Result<Flight<A>, Refusal>
        ensures { Performs U.kind D.kind self.old stamp (act.Link link_act.Tick) self.new result }
    {
        if self.records.has_all_rows() {
            return Err(Refusal::DeskFull);
        }
        let most = most_rows(&self.records);
        let flight = ask(
            &mut self.records,
            &mut self.world,
            self.alloc,
            Event::Tick,
            most,
        )?;
        hear_all(&mut self.records, &stamp, flight.said.as_slice());
        Ok(flight)
    }
}
