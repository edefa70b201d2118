//! Which refusal comes first.
use super::{
    AMPLE, Act, CHECK, START, STOP, Scenario, acts, answers, check, check_at, event, lists,
    over_lists,
};
use crate::links::Link;
use linked_list_allocator::LocalHeap;
use std::process::Abort;
use std::test::Fail;
use tc_types::Refusal;

/// Why this act is refused, where it is.
type Tried = (Act, Option<Refusal>);

/// A request that was sent, or that waits, is refused before all that the FOP refuses: before the first start, and in
/// the session.
const IN_SESSION: &[Tried] = &[
    (Act::Offer(1), Some(Refusal::ServiceNotActive)),
    (START, None),
    (Act::Offer(1), None),
    (Act::Offer(2), None),
    (Act::Offer(1), Some(Refusal::WrongPlace)),
    (Act::Offer(2), Some(Refusal::WrongPlace)),
    (Act::Offer(3), Some(Refusal::WaitQueueFull)),
    (STOP, None),
];

/// After the end of that session, in S6 and in the next session.
const LATER: &[Tried] = &[
    (Act::Offer(1), Some(Refusal::WrongPlace)),
    (Act::Offer(2), Some(Refusal::ServiceNotActive)),
    (Act::Offer(3), Some(Refusal::ServiceNotActive)),
    (START, None),
    (Act::Offer(1), Some(Refusal::WrongPlace)),
    (Act::Offer(2), None),
    (START, Some(Refusal::BadDirective)),
];

/// Each act is answered so.
fn tries<L: Link>(rt: &impl Abort, link: &mut L, tried: &[Tried], what: &str) {
    for (place, (act, refusal)) in tried.iter().enumerate() {
        let is_so = answers(link, event(rt, act), *refusal);
        check_at(rt, is_so, what, place);
    }
}

/// A request is refused in the session in which it was sent, and later.
pub fn refuses<L: Link>(rt: &impl Abort, link: &mut L) {
    tries(rt, link, IN_SESSION, "in the session");
    tries(rt, link, LATER, "later");
}

/// There is no session before the first start.
pub fn begins_with_none<L: Link>(rt: &impl Abort, link: &mut L) {
    check(rt, link.sessions() == 0, "no session");
    check(rt, link.written(0).is_none(), "no first session");
    check(rt, link.written(usize::MAX).is_none(), "no last session");
    acts(rt, link, &[CHECK]);
    check(rt, link.sessions() == 1, "one session");
    check(rt, link.written(0).is_some(), "a first session");
    check(rt, link.written(1).is_none(), "no second session");
}

/// Whether a world on this virtual channel is refused so, or made where there is no refusal.
fn answers_on(heap: &LocalHeap, vc: u8, refusal: Option<Refusal>) -> bool {
    lists(heap, 3, 4, vc).err() == refusal
}

#[test]
fn refuses_a_request_twice(rt: HostRuntime) -> Result<(), Fail> {
    over_lists(&rt, rt.alloc(), Scenario::Refusals, 1, 4, 0)
}

#[test]
fn has_channels_0_to_63(rt: HostRuntime) -> Result<(), Fail> {
    let heap = LocalHeap::new(rt.alloc(), AMPLE)?;
    for (vc, refusal) in [
        (0, None),
        (63, None),
        (64, Some(Refusal::BadDirective)),
        (255, Some(Refusal::BadDirective)),
    ] {
        let is_so = answers_on(&heap, vc, refusal);
        check_at(&rt, is_so, "channel", usize::from(vc));
    }
    Ok(())
}

#[test]
fn has_no_session_before_the_first(rt: HostRuntime) -> Result<(), Fail> {
    over_lists(&rt, rt.alloc(), Scenario::FirstSession, 1, 4, 0)
}
