//! The load of a stack or of a procedure: the book takes it, and the link is asked nothing.
ghost use Rattle.tc_desk.specs.Loads.{TakesLoad, Stack as StackGiven, Procedure as ProcedureGiven};

use crate::dones::{Done, answer};
use crate::parts::Parts;
use std::alloc::Allocator;
use tc_book::Stamp;
use tc_book::acts::load::load;
use tc_book::acts::load_procedure::load_procedure;
use tc_proc::Procedure;
use tc_stack::Stack;
use tc_types::{Frame, Name, Refusal, Report};
use tc_world::Carrier;

impl<U: Carrier<Frame> + Drop, D: Carrier<Report> + Drop, A: Allocator + Copy + Drop> Parts<
    U,
    D,
    A,
> {
    /// Loads a stack under this name, and fills its moves and its batch in.
    pub(crate) fn load_stack(
        &mut self,
        stamp: Stamp,
        name: Name,
        stack: &Stack,
    ) -> Result<Done<A>, Refusal>
        ensures { TakesLoad stamp (StackGiven name stack.now) self.old self.new result }
    {
        let mark = self.records.mark();
        let draft = load(&mut self.records, self.alloc, stamp, name, stack)?;
        let filled = self.records.fill(mark, draft);
        Ok(answer(self.alloc, filled))
    }

    /// Loads a procedure under this name, and fills its batch in; it makes no moves.
    pub(crate) fn load_procedure(
        &mut self,
        stamp: Stamp,
        name: Name,
        procedure: &Procedure,
    ) -> Result<Done<A>, Refusal>
        ensures { TakesLoad stamp (ProcedureGiven name procedure.now) self.old self.new result }
    {
        let mark = self.records.mark();
        let draft = load_procedure(&mut self.records, self.alloc, stamp, name, procedure)?;
        let filled = self.records.fill(mark, draft);
        Ok(answer(self.alloc, filled))
    }
}
