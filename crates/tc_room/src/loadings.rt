//! What is loaded: a stack or a procedure, read from a text and taken by a desk; and whether a text is too long for either.
ghost use Rattle.std.specs.Prelude.{◌≡◌, ◌↔◌, ℕ, List, Some, IfErr, IfOk, IfSome, IsTrue};
ghost use Rattle.tc_csv.specs.declared.faults.Fault.{Fault as SomeFault};
ghost use Rattle.tc_world.specs.EitherLink.{either};
ghost use Rattle.tc_desk.specs.Loads.{TakesLoad};
ghost use Rattle.tc_desk.specs.Standing.{StaysTrue};
ghost use Rattle.tc_room.specs.Loads.{IsNotRead, IsTextFault, IsTooLong, SpellsLoading, loading_of};

use crate::desks::LinkDesk;
use std::alloc::{AllocError, Global};
use tc_book::Stamp;
use tc_csv::{Fault, read_procedure, read_stack, why_no_procedure, why_no_stack};
use tc_desk::Done;
use tc_proc::Procedure;
use tc_stack::Stack;
use tc_types::{LoadKind, Name, Refusal};

/// What a text spells.
#[derive(Drop)]
pub(crate) enum Spelled {
    /// A stack of requests.
    Stack(Stack),
    /// A procedure.
    Procedure(Procedure),
}

/// What a text of this kind spells. It is refused with `TooLong`, `BadText` or, of a stack, `BadActivity` where the text breaks a
/// rule, and with `Memory` where memory was refused.
pub(crate) fn read(alloc: Global, kind: LoadKind, text: &[u8]) -> Result<Spelled, Refusal>
    ensures read { IfOk result (λ spelled. (name : List ℕ) → SpellsLoading kind name text.now (loading_of name spelled)) }
    ensures refused { IfErr result (λ why. IsNotRead kind text.now why) }
{
    match kind {
        LoadKind::Stack => Ok(Spelled::Stack(read_stack(alloc, text)?)),
        LoadKind::Procedure => Ok(Spelled::Procedure(read_procedure(alloc, text)?)),
    }
}

/// Why a text of this kind spells nothing: the first rule that it breaks, and where; `None` where it spells something. It is refused for want of
/// memory alone.
fn why_unread(alloc: Global, kind: LoadKind, text: &[u8]) -> Result<Option<Fault>, AllocError>
    ensures told { IfOk result (λ told. IfSome told (IsTextFault kind text.now)) }
    ensures only { (fault : SomeFault) → IsTextFault kind text.now fault → IfOk result (λ told. told ≡ Some fault) }
{
    match kind {
        LoadKind::Stack => why_no_stack(alloc, text),
        LoadKind::Procedure => why_no_procedure(alloc, text),
    }
}

/// Whether a text of this kind is refused with `TooLong`: it has more than 65,536 bytes, or more rows than its kind may have, 200 of a stack and
/// 100 of a procedure, and that is the first rule that it breaks. It is refused itself for want of memory alone.
pub(crate) fn is_too_long(alloc: Global, kind: LoadKind, text: &[u8]) -> Result<bool, AllocError>
    ensures { IfOk result (λ told. IsTrue told ↔ IsTooLong kind text.now) }
{
    let why = why_unread(alloc, kind, text)?;
    match why {
        Some(fault) => Ok(fault.rule.refusal() == Refusal::TooLong),
        None => Ok(false),
    }
}

/// Loads what was read into a desk, under a name, as a person does at a moment.
pub(crate) fn load_into(
    desk: &mut LinkDesk,
    stamp: Stamp,
    name: Name,
    spelled: &Spelled,
) -> Result<Done<Global>, Refusal>
    ensures loads { TakesLoad stamp (loading_of name spelled.now) desk.old.parts desk.new.parts result }
    ensures stays { StaysTrue either desk.old desk.new }
    ensures whole { desk.new.whole ≡ desk.old.whole }
{
    match spelled {
        Spelled::Stack(stack) => desk.load_stack(stamp, name, stack),
        Spelled::Procedure(procedure) => desk.load_procedure(stamp, name, procedure),
    }
}
