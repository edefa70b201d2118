//! The act `clock`: the spacecraft's time goes on.
ghost use Rattle.tc_types.specs.declared.acts.Act.TheVariants as act;
ghost use Rattle.tc_types.specs.declared.acts.LinkAct.TheVariants as link_act;
ghost use Rattle.tc_desk.specs.Parts.{Performs};

use crate::downlinks::put_all;
use crate::firsts::FirstLine;
use crate::flights::Flight;
use crate::parts::Parts;
use std::alloc::Allocator;
use tc_book::{First, Needs, Stamp, make_room};
use tc_types::{Frame, Moment, Refusal, Report};
use tc_world::{Carrier, Indications};

/// The most reports that all activities make as they are released.
const MOST_REPORTS: usize = 768;

impl<U: Carrier<Frame> + Drop, D: Carrier<Report> + Drop, A: Allocator + Copy + Drop> Parts<
    U,
    D,
    A,
> {
    /// The spacecraft's time is now this one, and what falls due by it is released: its reports are put on the downlink.
    pub(crate) fn clock(&mut self, stamp: Stamp, time: Moment) -> Result<Flight<A>, Refusal>
        ensures { Performs U.kind D.kind self.old stamp (act.Link (link_act.Clock time)) self.new result }
    {
        if time.get() < self.board.now().get() {
            return Err(Refusal::BadDirective);
        }
        let draft = make_room(&mut self.records, self.alloc, First::Plain, Needs::NONE)?;
        self.world.reserve(MOST_REPORTS)?;
        let reports = self.board.clock(time)?;
        put_all(&mut self.world, &reports);
        Ok(Flight {
            first: FirstLine::Now(time),
            said: Indications::none(self.alloc),
            put: reports.len(),
            draft,
        })
    }
}
