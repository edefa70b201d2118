//! What happens to the link on the FARM's side: frames come up, control words and reports go down, and items are lost.
ghost use Rattle.std.specs.Prelude.{IfOk};
ghost use Rattle.tc_world.specs.declared.events.Event.TheVariants as event;
ghost use Rattle.tc_world.specs.World.{Happens, IsWordOf, EndsWithin};

use crate::carriers::Carrier;
use crate::events::LinkIndication;
use crate::indications::Indications;
use crate::parts::LinkParts;
use std::alloc::Allocator;
use tc_farm::Clcw;
use tc_types::{Frame, Refusal, Report, Telemetry};

impl<U: Carrier<Frame>, D: Carrier<Report>, A: Allocator + Copy + Drop> LinkParts<U, D, A> {
    /// The FARM gets the first frame of the uplink; `free_buffer` says whether a buffer is free for it.
    pub(crate) fn uplink(&mut self, free_buffer: bool) -> Result<Indications<A>, Refusal>
        ensures happens { IfOk result (λ answer. Happens U.kind D.kind (event.Uplink free_buffer) self.old self.new answer) }
        ensures limits { EndsWithin U.kind D.kind D.covered (event.Uplink free_buffer) self.old self.new result }
    {
        if self.side.up.is_empty() {
            return Ok(Indications::none(self.alloc));
        }
        self.side.newest.reserve_verdict()?;
        let Some(frame) = self.side.up.take() else {
            unreachable!()
        };
        let verdict = self.farm.frame(frame, free_buffer);
        self.side.newest.board(&verdict);
        Ok(Indications::lone(LinkIndication::Farm(verdict)))
    }

    /// The frame at this place of the uplink is lost, and told to be lost, where there is one.
    pub(crate) fn lose_up(&mut self, place: usize) -> Result<Indications<A>, Refusal>
        ensures happens { IfOk result (λ answer. Happens U.kind D.kind (event.LoseUp place) self.old self.new answer) }
        ensures limits { EndsWithin U.kind D.kind D.covered (event.LoseUp place) self.old self.new result }
    {
        let found = self.side.up.lose(place);
        Ok(Indications::of_loss(self.alloc, found))
    }

    /// A buffer became free on board.
    pub(crate) fn release(&mut self) -> Result<Indications<A>, Refusal>
        ensures happens { IfOk result (λ answer. Happens U.kind D.kind event.Release self.old self.new answer) }
        ensures limits { EndsWithin U.kind D.kind D.covered event.Release self.old self.new result }
    {
        self.farm.release();
        Ok(Indications::none(self.alloc))
    }

    /// The FARM puts its control word, on this channel, on the downlink.
    pub(crate) fn clcw(&mut self) -> Result<Indications<A>, Refusal>
        ensures happens { IfOk result (λ answer. Happens U.kind D.kind event.Clcw self.old self.new answer) }
        ensures limits { EndsWithin U.kind D.kind D.covered event.Clcw self.old self.new result }
    {
        self.down.reserve(1)?;
        let clcw = self.control_word();
        self.down.put(Report::Word(clcw.word()));
        Ok(Indications::none(self.alloc))
    }

    /// The spacecraft puts a report on the downlink.
    pub(crate) fn put(&mut self, telemetry: Telemetry) -> Result<Indications<A>, Refusal>
        ensures happens { IfOk result (λ answer. Happens U.kind D.kind (event.Put telemetry) self.old self.new answer) }
        ensures limits { EndsWithin U.kind D.kind D.covered (event.Put telemetry) self.old self.new result }
    {
        self.down.reserve(1)?;
        self.down.put(Report::Telemetry(telemetry));
        Ok(Indications::none(self.alloc))
    }

    /// The ground gets the first item of the downlink.
    pub(crate) fn downlink(&mut self) -> Result<Indications<A>, Refusal>
        ensures happens { IfOk result (λ answer. Happens U.kind D.kind event.Downlink self.old self.new answer) }
        ensures limits { EndsWithin U.kind D.kind D.covered event.Downlink self.old self.new result }
    {
        if self.down.is_empty() {
            return Ok(Indications::none(self.alloc));
        }
        let answer = self.side.reserve(self.alloc)?;
        let Some(item) = self.down.take() else {
            unreachable!()
        };
        match item {
            Report::Word(word) => {
                let answer = self.side.pass_word(self.vc, word, answer);
                Ok(Indications::many(answer))
            }
            Report::Telemetry(telemetry) => Ok(Indications::lone(LinkIndication::Received(
                Report::Telemetry(telemetry),
            ))),
        }
    }

    /// The item at this place of the downlink is lost, and told to be lost, where there is one.
    pub(crate) fn lose_down(&mut self, place: usize) -> Result<Indications<A>, Refusal>
        ensures happens { IfOk result (λ answer. Happens U.kind D.kind (event.LoseDown place) self.old self.new answer) }
        ensures limits { EndsWithin U.kind D.kind D.covered (event.LoseDown place) self.old self.new result }
    {
        let found = self.down.lose(place);
        Ok(Indications::of_loss(self.alloc, found))
    }

    /// The FARM's control word, on this channel.
    fn control_word(&self) -> Clcw
        ensures { IsWordOf self.now.farm self.now.vc result }
    {
        let vc = self.vc;
        let word = self.farm.clcw();
        match word.on(vc) {
            Some(moved) => moved,
            None => unreachable!(),
        }
    }
}
