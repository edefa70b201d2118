//! The acts `loseup` and `losedown`: an item in flight is lost.
ghost use Rattle.std.specs.Prelude.{◌≡◌};
ghost use Rattle.tc_types.specs.declared.acts.Act.TheVariants as act;
ghost use Rattle.tc_types.specs.declared.acts.LinkAct.TheVariants as link_act;
ghost use Rattle.tc_desk.specs.Acts.{first_of_loss};
ghost use Rattle.tc_desk.specs.Parts.{Performs};

use crate::firsts::FirstLine;
use crate::flights::{Flight, pass};
use crate::parts::Parts;
use std::alloc::Allocator;
use tc_book::Stamp;
use tc_types::{Frame, Refusal, Report};
use tc_world::{Carrier, Event, LinkIndication};

/// How the reply to a loss begins.
fn first_of_loss(said: &[LinkIndication]) -> FirstLine
    ensures { result ≡ first_of_loss said.now }
{
    match said.first() {
        Some(LinkIndication::Lost) => FirstLine::Lost,
        None
        | Some(
            LinkIndication::Fop(_)
            | LinkIndication::Farm(_)
            | LinkIndication::Received(_)
            | LinkIndication::Transmitted(_),
        ) => { FirstLine::Nothing }
    }
}

impl<U: Carrier<Frame> + Drop, D: Carrier<Report> + Drop, A: Allocator + Copy + Drop> Parts<
    U,
    D,
    A,
> {
    /// The item at this place of the uplink is lost.
    pub(crate) fn lose_up(&mut self, stamp: Stamp, place: u32) -> Result<Flight<A>, Refusal>
        ensures { Performs U.kind D.kind self.old stamp (act.Link (link_act.LoseUp place)) self.new result }
    {
        let event = Event::LoseUp(place as usize);
        let flight = pass(&mut self.records, &mut self.world, self.alloc, event)?;
        let first = first_of_loss(flight.said.as_slice());
        Ok(Flight { first, ..flight })
    }

    /// The item at this place of the downlink is lost.
    pub(crate) fn lose_down(&mut self, stamp: Stamp, place: u32) -> Result<Flight<A>, Refusal>
        ensures { Performs U.kind D.kind self.old stamp (act.Link (link_act.LoseDown place)) self.new result }
    {
        let event = Event::LoseDown(place as usize);
        let flight = pass(&mut self.records, &mut self.world, self.alloc, event)?;
        let first = first_of_loss(flight.said.as_slice());
        Ok(Flight { first, ..flight })
    }
}
