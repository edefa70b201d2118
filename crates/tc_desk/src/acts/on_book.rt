//! Acts on the book alone: the link is asked nothing.
ghost use Rattle.std.specs.Prelude.{OnOk};
ghost use Rattle.tc_types.specs.declared.acts.Act.TheVariants as act;
ghost use Rattle.tc_book.specs.Batch.{GoesOn};
ghost use Rattle.tc_desk.specs.Parts.{Performs};

use crate::firsts::FirstLine;
use crate::flights::Flight;
use crate::parts::Parts;
use std::alloc::Allocator;
use tc_book::{Stamp, acts};
use tc_types::{BookAct, Frame, Refusal, Report};
use tc_world::{Carrier, Indications};

impl<U: Carrier<Frame> + Drop, D: Carrier<Report> + Drop, A: Allocator + Copy + Drop> Parts<
    U,
    D,
    A,
> {
    /// Carries an act on the book out.
    pub(crate) fn on_book(&mut self, stamp: Stamp, given: BookAct) -> Result<Flight<A>, Refusal>
        ensures performs { Performs U.kind D.kind self.old stamp (act.Book given) self.new result }
        ensures goes_on { OnOk result (GoesOn self.old.book self.new.book) }
    {
        let draft = acts::perform(&mut self.records, self.alloc, stamp, given)?;
        Ok(Flight {
            first: FirstLine::Book(draft.first),
            said: Indications::none(self.alloc),
            put: 0,
            draft,
        })
    }
}
