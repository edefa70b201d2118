//! Where memory is refused nothing changes, and what was reserved is there.
use super::calls::{Call, all_done, check_call, check_output, check_refused, check_view, done};
use super::ends::{OnGround, fop, refusal_to_make};
use super::{ad, check, check_at, number};
use linked_list_allocator::LocalHeap;
use std::alloc::Global;
use std::process::Abort;
use std::test::Fail;
use tc_fop::FopView;
use tc_fop::signals::Indication;
use tc_types::{Directive, Refusal};

/// More than a FOP and an output take.
const HEAP: usize = 524_288;

/// The service starts without check.
const START: Call = Call::Direct(Directive::InitiateNone);

/// How many sizes are tried of what something else takes of the heap.
const SIZES: usize = 256;

/// The sizes by 2,048 bytes, from the largest down to nothing: the one at this place.
fn size_at(place: usize) -> usize {
    HEAP.saturating_sub(2_048)
        .saturating_sub(place.saturating_mul(2_048))
}

/// Checks that this refusal is one of memory, and that nothing changed.
fn check_unchanged<G: OnGround>(rt: &impl Abort, fop: &G, before: &FopView, refusal: Refusal) {
    check(rt, refusal == Refusal::Memory, "another refusal");
    check_view(rt, fop, before, "a call that was refused memory");
}

/// Makes the call while ever less of the heap is taken by something else: until it succeeds it is refused memory, and
/// nothing changes. It is refused more than four times.
fn squeezed<G: OnGround>(
    rt: &impl Abort,
    heap: &LocalHeap,
    fop: &mut G,
    call: Call,
) -> Result<G::Out, Refusal> {
    let before = fop.variables();
    let mut refused = 0u32;
    for place in 0..SIZES {
        let Ok(_taken) = Vec::<u8, &LocalHeap>::with_capacity(heap, size_at(place)) else {
            continue;
        };
        match done(rt, fop, call) {
            Ok(out) => {
                check_at(rt, refused > 4, "refused", refused);
                return Ok(out);
            }
            Err(refusal) => {
                check_unchanged(rt, fop, &before, refusal);
                refused = refused.saturating_add(1);
            }
        }
    }
    Err(Refusal::Memory)
}

/// A word of P6 and a retransmission are refused memory, and go on.
fn goes_on<G: OnGround>(rt: &impl Abort, heap: &LocalHeap, fop: &mut G) -> Result<(), Refusal> {
    all_done(rt, fop, &[START, Call::Offer(1), Call::Offer(2)])?;
    done(rt, fop, Call::Offer(3))?;
    let out = squeezed(rt, heap, fop, Call::Report(1))?;
    let indicated = [
        Indication::Confirmed(number(rt, 1)),
        Indication::Sent(number(rt, 3)),
    ];
    check_output(rt, &out, &[ad(rt, 2, 3)], &indicated, "P6");
    let out = squeezed(rt, heap, fop, Call::Again(1))?;
    let again = [ad(rt, 1, 2), ad(rt, 2, 3)];
    check_output(rt, &out, &again, &[], "a retransmission");
    Ok(())
}

#[test]
fn is_refused_memory_and_goes_on(rt: HostRuntime) -> Result<(), Fail> {
    let heap = LocalHeap::new(rt.alloc(), HEAP)?;
    let mut fop = fop(&heap, 2, 10, 3)?;
    goes_on(&rt, &heap, &mut fop)?;
    Ok(())
}

/// Takes what is left of the heap, or nothing where nothing is left.
fn fill<'a>(heap: &'a LocalHeap) -> Vec<u8, &'a LocalHeap> {
    for place in 1..8_193usize {
        let size = HEAP.saturating_sub(place.saturating_mul(64));
        if let Ok(taken) = Vec::with_capacity(heap, size) {
            return taken;
        }
    }
    Vec::new(heap)
}

/// Checks that a call is not refused the memory that was reserved for it, where the heap is full, and whether it took
/// that memory.
fn check_reserved<G: OnGround>(
    rt: &impl Abort,
    heap: &LocalHeap,
    fop: &mut G,
    (call, takes): (Call, bool),
    place: u32,
) -> Result<(), Refusal> {
    fop.reserves()?;
    let taken = fill(heap);
    let out = done(rt, fop, call);
    check_at(rt, out.is_ok(), "has its memory", place);
    let is_taken = fop.reserves().is_err();
    check_at(rt, is_taken == takes, "takes it, or not", place);
    drop(taken);
    Ok(())
}

/// Calls that send, that wait, that are ignored, that send again, that confirm, and that stop the service, and which of
/// them take the memory that was reserved: what waits and what is ignored leaves it.
const CALLS: &[(Call, bool)] = &[
    (START, true),
    (Call::Offer(1), true),
    (Call::Offer(2), false),
    (Call::Report(0), false),
    (Call::Again(0), true),
    (Call::Report(1), true),
    (Call::Ticks(1), true),
    (Call::Invalid, true),
];

/// Checks the same of these calls, one after the other.
fn check_all_reserved<G: OnGround>(
    rt: &impl Abort,
    heap: &LocalHeap,
    fop: &mut G,
    calls: &[(Call, bool)],
) -> Result<(), Refusal> {
    let mut place = 0u32;
    for call in calls {
        check_reserved(rt, heap, fop, *call, place)?;
        place = place.saturating_add(1);
    }
    Ok(())
}

#[test]
fn is_not_refused_what_was_reserved(rt: HostRuntime) -> Result<(), Fail> {
    let heap = LocalHeap::new(rt.alloc(), HEAP)?;
    let mut fop = fop(&heap, 1, 10, 3)?;
    check_all_reserved(&rt, &heap, &mut fop, CALLS)?;
    Ok(())
}

/// Where the window is full and so much of the heap is taken by something else, an offer waits, and a word of P5 in S1 is
/// ignored: neither is refused memory.
fn waits_beside<G: OnGround>(
    rt: &impl Abort,
    heap: &LocalHeap,
    fop: &mut G,
    size: usize,
) -> Result<(), Refusal> {
    all_done(rt, fop, &[START, Call::Offer(1), Call::Offer(2)])?;
    let taken = Vec::<u8, &LocalHeap>::with_capacity(heap, size);
    check_call(rt, fop, Call::Report(0), &[], &[], "P5")?;
    check_call(rt, fop, Call::Offer(3), &[], &[], "an offer that waits")?;
    check_call(rt, fop, Call::Report(0), &[], &[], "P5 while one waits")?;
    drop(taken);
    Ok(())
}

#[test]
fn what_waits_wants_no_memory(rt: HostRuntime) -> Result<(), Fail> {
    let heap = LocalHeap::new(rt.alloc(), HEAP)?;
    for place in 0..SIZES {
        let mut fop = fop(&heap, 2, 10, 3)?;
        waits_beside(&rt, &heap, &mut fop, size_at(place))?;
    }
    Ok(())
}

/// Checks that an offer and a directive that are refused leave what was reserved: the next call has it, where the heap
/// is full.
fn check_kept<G: OnGround>(rt: &impl Abort, heap: &LocalHeap, fop: &mut G) -> Result<(), Refusal> {
    all_done(rt, fop, &[START, Call::Offer(1), Call::Offer(2)])?;
    fop.reserves()?;
    let taken = fill(heap);
    let (full, late) = (Refusal::WaitQueueFull, Refusal::BadDirective);
    check_refused(rt, fop, Call::Offer(3), full, "an offer");
    check_refused(rt, fop, START, late, "a start");
    let out = done(rt, fop, Call::Invalid);
    check(rt, out.is_ok(), "a call after refusals");
    drop(taken);
    Ok(())
}

#[test]
fn refusals_leave_what_was_reserved(rt: HostRuntime) -> Result<(), Fail> {
    let heap = LocalHeap::new(rt.alloc(), HEAP)?;
    let mut fop = fop(&heap, 1, 10, 3)?;
    check_kept(&rt, &heap, &mut fop)?;
    Ok(())
}

/// How the making of a FOP over a heap of this size is refused.
fn refusal_in(alloc: Global, size: usize) -> Result<Option<Refusal>, Fail> {
    let heap = LocalHeap::new(alloc, size)?;
    Ok(refusal_to_make(&heap, 1, 10, 3))
}

#[test]
fn is_made_where_there_is_room(rt: HostRuntime) -> Result<(), Fail> {
    let (mut refused, mut made) = (0u32, 0u32);
    for size in (8_192..262_144).step_by(8_192) {
        match refusal_in(rt.alloc(), size)? {
            None => made = made.saturating_add(1),
            Some(refusal) => {
                check(&rt, refusal == Refusal::Memory, "another refusal");
                check_at(&rt, made == 0, "refuses what fewer gave", refused);
                refused = refused.saturating_add(1);
            }
        }
    }
    check_at(&rt, refused > 4, "refused", refused);
    check_at(&rt, made > 4, "made", made);
    Ok(())
}
