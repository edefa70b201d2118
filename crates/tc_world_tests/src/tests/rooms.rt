//! Memory refused: an event that has no memory does not happen, and those before it stand.
use super::rounds::{check_all, round};
use super::{
    AMPLE, Act, Ballast, Scenario, acts, add, all_happen, check, check_at, flies, lists,
    over_lists, take_all_but,
};
use crate::links::{Link, Written};
use linked_list_allocator::LocalHeap;
use std::alloc::Global;
use std::process::Abort;
use std::test::Fail;
use tc_fop::FopView;
use tc_types::Refusal;
use tc_world::Event;

/// All 605 events of 300 requests: those up to the last offer, 45 frames, and the last control word.
fn all_events(rt: &impl Abort, events: &mut Vec<Event, Global>) -> Result<(), Fail> {
    round(rt, events)?;
    add(rt, events, Act::Up, 45)?;
    add(rt, events, Act::Clcw, 1)?;
    add(rt, events, Act::Downlink, 1)?;
    check(rt, events.len() == 605, "605 events");
    Ok(())
}

/// How many bytes are left in one block, and how many of the events are refused memory then, at least: the start, the
/// 299 offers that are sent at once, and the two words that come down, where the room for all that an event may tell
/// is refused; and the start alone, where that is there.
const LEFT: &[(usize, usize)] = &[
    (0, 302),
    (16, 302),
    (64, 302),
    (256, 302),
    (1_024, 302),
    (4_096, 302),
    (65_536, 302),
    (262_144, 302),
    (327_680, 1),
    (393_216, 1),
    (524_288, 1),
];

/// Events that want no memory and change nothing.
const SPARED: &[Act] = &[Act::Release, Act::LoseUp(usize::MAX)];

/// More control words than fit into the memory of any test.
const TOO_MANY: usize = 1_000_000;

/// Room is taken, and control words use it up; where it is refused nothing changes.
pub fn reserves<L: Link>(rt: &impl Abort, link: &mut L) {
    let made = link.reserves(3);
    check(rt, made.is_ok(), "room for three");
    check(rt, flies(link, 0), "nothing in flight");
    acts(
        rt,
        link,
        &[Act::Release, Act::Clcw, Act::Clcw, Act::Release, Act::Clcw],
    );
    check(rt, link.in_flight() == (0, 3), "three words");
    let refusal = link.reserves(TOO_MANY).err();
    check(
        rt,
        refusal == Some(Refusal::Memory),
        "no room for a million",
    );
    check(rt, link.in_flight() == (0, 3), "three words after that");
}

/// All that is seen of a link in its first session.
#[derive(Clone, Copy, PartialEq, Eq)]
struct Standing<'a> {
    fop: FopView,
    vr: u8,
    in_flight: (usize, usize),
    sessions: usize,
    first: Option<Written<'a>>,
}

/// All that is seen of this link.
fn seen<L: Link>(link: &L) -> Standing<'_> {
    Standing {
        fop: link.fop(),
        vr: link.farm().vr,
        in_flight: link.in_flight(),
        sessions: link.sessions(),
        first: link.written(0),
    }
}

/// Whether two links stand alike.
fn is_alike<L: Link, M: Link>(link: &L, ample: &M) -> bool {
    seen(link) == seen(ample)
}

/// What wants no memory happens where memory is refused: a release, a loss of nothing, a downlink of nothing.
fn spares<L: Link>(rt: &impl Abort, link: &mut L) {
    acts(rt, link, SPARED);
    let (_, down) = link.in_flight();
    if down == 0 {
        acts(rt, link, &[Act::Downlink]);
    }
}

/// Whether this refusal is one of memory, or there is none.
fn is_memory(refusal: Option<Refusal>) -> bool {
    refusal.is_none() || refusal == Some(Refusal::Memory)
}

/// Makes the events happen up to the first that is refused memory, and the same on a link with ample memory: the two
/// then stand alike. Then there is memory, and that event happens too. Answers how many have happened then, and one
/// more where none is left.
fn refuses_one<L: Link, M: Link>(
    rt: &impl Abort,
    ballast: Ballast<'_>,
    link: &mut L,
    ample: &mut M,
    events: &[Event],
) -> usize {
    let end = link.does_all(events);
    let (happened, left) = events
        .split_at_checked(end.done)
        .expect(rt, "no more than there are");
    all_happen(rt, ample, happened);
    check_at(rt, is_alike(link, ample), "alike after events", end.done);
    check_at(rt, is_memory(end.refusal), "refused memory after", end.done);
    let is_done = end.refusal.is_none() == left.is_empty();
    check_at(rt, is_done, "done, or refused after", end.done);
    spares(rt, link);
    drop(ballast);
    let next = left.get(..1).unwrap_or(&[]);
    all_happen(rt, link, next);
    all_happen(rt, ample, next);
    check_at(rt, is_alike(link, ample), "alike one after", end.done);
    end.done.saturating_add(1)
}

/// Makes the events happen, where each that wants memory is refused it first. Answers how many were refused.
fn refuses_in_turn<L: Link, M: Link>(
    rt: &impl Abort,
    alloc: Global,
    heap: &LocalHeap,
    left: usize,
    link: &mut L,
    ample: &mut M,
    events: &[Event],
) -> Result<usize, Fail> {
    let mut done = 0usize;
    let mut refused = 0;
    for turn in 0..=events.len() {
        let Some(others) = events.get(done..) else {
            break;
        };
        refused = turn;
        let ballast = take_all_but(alloc, heap, left)?;
        done = done.saturating_add(refuses_one(rt, ballast, link, ample, others));
    }
    check_all(rt, link);
    Ok(refused)
}

/// How many of the events are refused memory where a block of so many bytes is left, on a heap of its own, beside a
/// world with ample memory.
fn refused_beside<M: Link>(
    rt: &impl Abort,
    alloc: Global,
    left: usize,
    ample: &mut M,
    events: &[Event],
) -> Result<usize, Fail> {
    let heap = LocalHeap::new(alloc, AMPLE)?;
    let mut link = lists(&heap, 255, 254, 0)?;
    refuses_in_turn(rt, alloc, &heap, left, &mut link, ample, events)
}

/// How many of the events are refused memory where a block of so many bytes is left.
fn refused_in(
    rt: &impl Abort,
    alloc: Global,
    left: usize,
    events: &[Event],
) -> Result<usize, Fail> {
    let mut ample = lists(alloc, 255, 254, 0)?;
    refused_beside(rt, alloc, left, &mut ample, events)
}

#[test]
fn is_refused_memory_and_stands(rt: HostRuntime) -> Result<(), Fail> {
    let mut events = Vec::new(rt.alloc());
    all_events(&rt, &mut events)?;
    for &(left, least) in LEFT {
        let refused = refused_in(&rt, rt.alloc(), left, &events)?;
        check_at(&rt, refused >= least, "refused with so many bytes", left);
    }
    Ok(())
}

/// Whether a world is refused memory where a block of so many bytes is left. None of it is kept then.
fn is_world_refused(rt: &impl Abort, alloc: Global, left: usize) -> Result<bool, Fail> {
    let heap = LocalHeap::new(alloc, AMPLE)?;
    let _ballast = take_all_but(alloc, &heap, left)?;
    let before = heap.used();
    let refusal = lists(&heap, 255, 254, 0).err();
    check_at(rt, heap.used() == before, "keeps none beside", left);
    check_at(
        rt,
        is_memory(refusal),
        "made, or refused memory beside",
        left,
    );
    Ok(refusal.is_some())
}

#[test]
fn is_made_or_refused_memory(rt: HostRuntime) -> Result<(), Fail> {
    let mut refused = 0usize;
    let mut is_last_refused = true;
    for left in (0..1_048_576).step_by(4_096) {
        is_last_refused = is_world_refused(&rt, rt.alloc(), left)?;
        if is_last_refused {
            refused = refused.saturating_add(1);
        }
    }
    check_at(&rt, refused > 4, "worlds are refused", refused);
    check(&rt, !is_last_refused, "the last is made");
    Ok(())
}

#[test]
fn takes_room_or_is_refused_it(rt: HostRuntime) -> Result<(), Fail> {
    over_lists(&rt, rt.alloc(), Scenario::Room, 1, 4, 0)
}
