//! The act `work`: the spacecraft carries out the oldest request of its buffer.
ghost use Rattle.std.specs.Prelude.{◌≡◌};
ghost use Rattle.tc_types.specs.declared.acts.Act.TheVariants as act;
ghost use Rattle.tc_types.specs.declared.acts.LinkAct.TheVariants as link_act;
ghost use Rattle.tc_desk.specs.Acts.{first_of_work};
ghost use Rattle.tc_desk.specs.Parts.{Performs};

use crate::downlinks::{free_buffer, put_all};
use crate::firsts::FirstLine;
use crate::flights::Flight;
use crate::parts::Parts;
use std::alloc::Allocator;
use tc_book::{First, Needs, Stamp, make_room};
use tc_types::{Frame, Identity, Refusal, Report};
use tc_world::{Carrier, Indications};

/// The most reports that one request makes as it is carried out.
const MOST_REPORTS: usize = 11;

/// How the reply to `work` begins.
fn first_of_work(oldest: Option<Identity>) -> FirstLine
    ensures { result ≡ first_of_work oldest }
{
    match oldest {
        None => FirstLine::Nothing,
        Some(identity) => FirstLine::Worked(identity),
    }
}

impl<U: Carrier<Frame> + Drop, D: Carrier<Report> + Drop, A: Allocator + Copy + Drop> Parts<
    U,
    D,
    A,
> {
    /// The spacecraft carries out the oldest request of its buffer, its reports are put on the downlink, and the FARM is told
    /// that a buffer is free.
    pub(crate) fn work(&mut self, stamp: Stamp) -> Result<Flight<A>, Refusal>
        ensures { Performs U.kind D.kind self.old stamp (act.Link link_act.Work) self.new result }
    {
        let draft = make_room(&mut self.records, self.alloc, First::Plain, Needs::NONE)?;
        self.world.reserve(MOST_REPORTS)?;
        let first = first_of_work(self.board.oldest());
        let reports = self.board.work()?;
        put_all(&mut self.world, &reports);
        free_buffer(&mut self.world);
        Ok(Flight {
            first,
            said: Indications::none(self.alloc),
            put: reports.len(),
            draft,
        })
    }
}
