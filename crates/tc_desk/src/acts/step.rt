//! The act `step`: a step of an execution is recorded, and where it is done, the request that it names is released.
ghost use Rattle.std.specs.Prelude.{◌≡◌, None, Some};
ghost use Rattle.tc_types.specs.declared.acts.Act.TheVariants as act;
ghost use Rattle.tc_book.specs.Acts.{first_refusal};
ghost use Rattle.tc_book.specs.Logs.{step_tests, released_with};
ghost use Rattle.tc_desk.specs.Parts.{Performs};

use crate::acts::release::{Departure, depart, most_departing, prepare};
use crate::flights::{Flight, PLAIN, ask};
use crate::parts::Parts;
use std::alloc::Allocator;
use tc_book::{First, Needs, Stamp, make_room};
use tc_types::{Frame, Refusal, Report, StepAct};
use tc_world::{Carrier, Indications};

impl<U: Carrier<Frame> + Drop, D: Carrier<Report> + Drop, A: Allocator + Copy + Drop> Parts<
    U,
    D,
    A,
> {
    /// Records a step with which nothing is released.
    fn note(&mut self, stamp: &Stamp, given: &StepAct) -> Result<Flight<A>, Refusal>
        requires may { first_refusal (step_tests stamp.now self.old.book given.now) ≡ None }
        requires alone { released_with self.old.book given.now ≡ None }
        ensures { Performs U.kind D.kind self.old stamp.now (act.Step given.now) self.new result }
    {
        if self.records.has_all_rows() {
            return Err(Refusal::DeskFull);
        }
        let needs = Needs {
            log: 1,
            ..Needs::NONE
        };
        let draft = make_room(&mut self.records, self.alloc, First::Plain, needs)?;
        self.records.reserve_record(given.execution)?;
        self.records.record_step(stamp, given);
        Ok(Flight {
            first: PLAIN,
            said: Indications::none(self.alloc),
            put: 0,
            draft,
        })
    }

    /// Records a step, and releases the request `n` with it.
    fn release_beside(
        &mut self,
        stamp: &Stamp,
        given: &StepAct,
        n: u32,
    ) -> Result<Flight<A>, Refusal>
        requires may { first_refusal (step_tests stamp.now self.old.book given.now) ≡ None }
        requires beside { released_with self.old.book given.now ≡ Some n }
        ensures { Performs U.kind D.kind self.old stamp.now (act.Step given.now) self.new result }
    {
        let Departure {
            number,
            event,
            activities,
        } = prepare(&self.records, self.world.fop_view(), n)?;
        let most = most_departing(&self.records);
        self.records.reserve_record(given.execution)?;
        let flight = ask(&mut self.records, &mut self.world, self.alloc, event, most)?;
        self.records.record_step(stamp, given);
        depart(
            &mut self.records,
            stamp,
            number,
            activities.as_slice(),
            flight.said.as_slice(),
        );
        Ok(flight)
    }

    /// Records a step of an execution; where it is done and names a request, that is released.
    pub(crate) fn step(&mut self, stamp: Stamp, given: StepAct) -> Result<Flight<A>, Refusal>
        ensures { Performs U.kind D.kind self.old stamp (act.Step given) self.new result }
    {
        if let Some(refusal) = self.records.record_refusal(&stamp, &given) {
            return Err(refusal);
        }
        match self.records.released_with(&stamp, &given) {
            None => self.note(&stamp, &given),
            Some(number) => self.release_beside(&stamp, &given, number.get()),
        }
    }
}
