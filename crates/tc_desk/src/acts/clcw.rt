//! The act `clcw`: the FARM's control word is put on the downlink.
ghost use Rattle.tc_types.specs.declared.acts.Act.TheVariants as act;
ghost use Rattle.tc_types.specs.declared.acts.LinkAct.TheVariants as link_act;
ghost use Rattle.tc_desk.specs.Parts.{Performs};

use crate::flights::{Flight, pass};
use crate::parts::Parts;
use std::alloc::Allocator;
use tc_book::Stamp;
use tc_types::{Frame, Refusal, Report};
use tc_world::{Carrier, Event};

impl<U: Carrier<Frame> + Drop, D: Carrier<Report> + Drop, A: Allocator + Copy + Drop> Parts<
    U,
    D,
    A,
> {
    /// The FARM's control word is put on the downlink.
    pub(crate) fn clcw(&mut self, stamp: Stamp) -> Result<Flight<A>, Refusal>
        ensures { Performs U.kind D.kind self.old stamp (act.Link link_act.Clcw) self.new result }
    {
        let flight = pass(&mut self.records, &mut self.world, self.alloc, Event::Clcw)?;
        Ok(Flight { put: 1, ..flight })
    }
}
