//! The load of a procedure: it is kept with all its steps, or not at all.
ghost use Rattle.std.specs.Prelude.{◌≡◌};
ghost use Rattle.tc_book.specs.Answers.{ProcedureAnswers, IsLoaded};

use crate::drafts::{Draft, Needs, make_room};
use crate::firsts::First;
use crate::records::Records;
use crate::stamps::Stamp;
use std::alloc::Allocator;
use tc_proc::Procedure;
use tc_types::{Name, Refusal};

/// Loads a procedure under this name.
pub fn load_procedure<A: Allocator + Copy + Drop>(
    records: &mut Records<A>,
    alloc: A,
    stamp: Stamp,
    name: Name,
    procedure: &Procedure,
) -> Result<Draft<A>, Refusal>
    // one step, which enters and moves no request
    ensures { IsLoaded (ProcedureAnswers (λ draft. draft.first) records.old.book stamp name procedure.now records.new.book result) stamp records.old.book records.new.book result }
{
    let steps = procedure.steps();
    if let Some(refusal) = records.procedure_refusal(&name, steps) {
        return Err(refusal);
    }
    let first = First::ProcedureLoaded {
        name,
        steps: steps.len() as u32,
    };
    let needs = Needs {
        log: steps.len() + 1,
        ..Needs::NONE
    };
    let draft = make_room(records, alloc, first, needs)?;
    // last, since it asks for memory too
    records.load_procedure(&stamp, name, procedure)?;
    Ok(draft)
}
