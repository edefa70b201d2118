//! The act `up`: the first frame of the uplink comes on board.
ghost use Rattle.std.specs.Prelude.{◌≡◌, ◌<◌, true, is_some, length};
ghost use Rattle.tc_types.specs.declared.acts.Act.TheVariants as act;
ghost use Rattle.tc_types.specs.declared.acts.LinkAct.TheVariants as link_act;
ghost use Rattle.tc_desk.specs.Acts.{first_of_up};
ghost use Rattle.tc_desk.specs.Asks.{telecommand_of, taken_in, board_after, reports_after};
ghost use Rattle.tc_desk.specs.Machine.{PutsDown};
ghost use Rattle.tc_desk.specs.Parts.{Performs};

use crate::downlinks::put_down;
use crate::firsts::FirstLine;
use crate::flights::{Flight, pass};
use crate::parts::Parts;
use std::alloc::Allocator;
use tc_book::Stamp;
use tc_farm::FrameVerdict;
use tc_types::{Frame, Payload, Refusal, Report, RequestNumber, Telecommand};
use tc_world::{Carrier, Event, LinkIndication};

/// How the reply to `up` begins.
fn first_of_up(said: &[LinkIndication]) -> FirstLine
    ensures { result ≡ first_of_up said.now }
{
    match said.first() {
        Some(LinkIndication::Farm(FrameVerdict::Accepted { request, .. })) => FirstLine::Accepted(
            *request,
        ),
        Some(LinkIndication::Farm(FrameVerdict::Discarded)) => FirstLine::Discarded,
        Some(LinkIndication::Farm(FrameVerdict::Control)) => FirstLine::Control,
        None
        | Some(
            LinkIndication::Fop(_)
            | LinkIndication::Received(_)
            | LinkIndication::Lost
            | LinkIndication::Transmitted(_),
        ) => { FirstLine::Nothing }
    }
}

/// A request as it comes on board.
fn telecommand_of(request: RequestNumber, body: &Payload) -> Telecommand
    ensures { result ≡ telecommand_of request body.now }
{
    Telecommand {
        request,
        identity: body.identity,
        ack: body.ack,
        task: body.task,
    }
}

/// The request that the FARM accepted, if it did.
fn taken_in(said: &[LinkIndication]) -> Option<Telecommand>
    ensures { result ≡ taken_in said.now }
{
    match said.first() {
        Some(LinkIndication::Farm(FrameVerdict::Accepted { request, body })) => {
            Some(telecommand_of(*request, body))
        }
        _ => None,
    }
}

impl<U: Carrier<Frame> + Drop, D: Carrier<Report> + Drop, A: Allocator + Copy + Drop> Parts<
    U,
    D,
    A,
> {
    /// The first frame of the uplink comes on board. What the FARM accepts goes to the spacecraft, which has a buffer free,
    /// since the FARM accepts nothing without.
    pub(crate) fn up(&mut self, stamp: Stamp) -> Result<Flight<A>, Refusal>
        ensures { Performs U.kind D.kind self.old stamp (act.Link link_act.Up) self.new result }
    {
        self.world.reserve(1)?;
        let free_buffer = self.board.room();
        let event = Event::Uplink { free_buffer };
        let flight = pass(&mut self.records, &mut self.world, self.alloc, event)?;
        let first = first_of_up(flight.said.as_slice());
        let taken = taken_in(flight.said.as_slice());
        let put = self.deliver(taken);
        Ok(Flight {
            first,
            put,
            ..flight
        })
    }

    /// A request, if one was taken, comes to the spacecraft, which has a buffer free. The report that this makes at once is put
    /// on the downlink, where there is room. Says how many reports that were: one, or none.
    fn deliver(&mut self, taken: Option<Telecommand>) -> usize
        requires buffer { is_some taken ≡ true → length self.old.board.buffer < 4 }
        requires room { 0 < D.covered self.old.world.down }
        ensures count { result ≡ length (reports_after taken) }
        ensures board { self.new.board ≡ board_after taken self.old.board }
        ensures reports { PutsDown U.kind D.kind (reports_after taken) self.old.world self.new.world }
        ensures book { self.new.book ≡ self.old.book }
        ensures mirror { self.new.mirror ≡ self.old.mirror }
    {
        if let Some(request) = taken {
            if let Some(report) = self.board.accept(request) {
                put_down(&mut self.world, report);
                return 1;
            }
        }
        0
    }
}
