//! 300 requests, over the end of the frames' numbers.
use super::rings::rings;
use super::{
    Act, START, Scenario, acts, add, add_offers, all_happen, answers, check, check_at,
    check_session, flies, offer, over_lists, repeats, skips,
};
use crate::links::Link;
use std::alloc::Global;
use std::process::Abort;
use std::test::Fail;
use tc_farm::FarmState;
use tc_types::Refusal;
use tc_world::Event;

/// A control word comes down.
const WORD: &[Act] = &[Act::Clcw, Act::Downlink];

/// V(S), the oldest number that is not acknowledged, how many requests were sent and are not acknowledged, how many
/// wait, and V(R).
fn standing<L: Link>(link: &L) -> [u8; 5] {
    let fop = link.fop();
    [fop.vs, fop.nn, fop.sent, fop.waiting, link.farm().vr]
}

/// Checks that, and how many frames are in flight, where nothing else is.
fn stands<L: Link>(rt: &impl Abort, link: &L, numbers: [u8; 5], frames: usize) {
    check_at(
        rt,
        standing(link) == numbers,
        "numbers with in flight",
        frames,
    );
    check_at(rt, flies(link, frames), "in flight", frames);
}

/// The requests from one number to another are offered.
fn offers<L: Link>(
    rt: &impl Abort,
    alloc: Global,
    link: &mut L,
    first: u32,
    last: u32,
) -> Result<(), Fail> {
    let mut events = Vec::new(alloc);
    add_offers(rt, &mut events, first, last)?;
    all_happen(rt, link, &events);
    Ok(())
}

/// The first 256 requests: 255 fill the window, under 0 to 254, and the last waits until one word acknowledges them
/// all; then it takes 255, and the next number is 0.
fn fills_the_window<L: Link>(rt: &impl Abort, link: &mut L) {
    stands(rt, link, [255, 0, 255, 1, 0], 255);
    let is_full = answers(link, offer(rt, 257), Some(Refusal::WaitQueueFull));
    check(rt, is_full, "no second request waits");
    stands(rt, link, [255, 0, 255, 1, 0], 255);
    repeats(rt, link, &Act::Up, 255);
    stands(rt, link, [255, 0, 255, 1, 255], 0);
    acts(rt, link, WORD);
    stands(rt, link, [0, 255, 1, 0, 255], 1);
}

/// The other 44, under 0 to 43.
fn goes_on<L: Link>(rt: &impl Abort, link: &mut L) {
    stands(rt, link, [44, 255, 45, 0, 255], 45);
    repeats(rt, link, &Act::Up, 45);
    stands(rt, link, [44, 255, 45, 0, 44], 0);
    acts(rt, link, WORD);
    stands(rt, link, [44, 44, 0, 0, 44], 0);
}

/// Each of the 300 was sent, accepted and confirmed once, in order, in one session.
pub fn check_all<L: Link>(rt: &impl Abort, link: &L) {
    check(rt, link.is_clean(), "clean");
    check(rt, link.sessions() == 1, "one session");
    check_session(rt, link, 0, 1, [300, 300, 300]);
}

/// 300 requests, each of which is confirmed.
pub fn confirms<L: Link>(rt: &impl Abort, alloc: Global, link: &mut L) -> Result<(), Fail> {
    acts(rt, link, &[START]);
    offers(rt, alloc, link, 1, 256)?;
    fills_the_window(rt, link);
    offers(rt, alloc, link, 257, 300)?;
    goes_on(rt, link);
    check_all(rt, link);
    Ok(())
}

#[test]
fn confirms_300_requests_in_order(rt: HostRuntime) -> Result<(), Fail> {
    over_lists(&rt, rt.alloc(), Scenario::Round, 255, 254, 0)
}

#[test]
fn confirms_300_requests_over_rings_that_never_fill(rt: HostRuntime) -> Result<(), Fail> {
    let mut link = rings(rt.alloc(), 4_096, 255, 254)?;
    confirms(&rt, rt.alloc(), &mut link)
}

/// Puts all events up to the last offer into one list.
pub fn round(rt: &impl Abort, events: &mut Vec<Event, Global>) -> Result<(), Fail> {
    add(rt, events, START, 1)?;
    add_offers(rt, events, 1, 256)?;
    add(rt, events, Act::Up, 255)?;
    add(rt, events, Act::Clcw, 1)?;
    add(rt, events, Act::Downlink, 1)?;
    add_offers(rt, events, 257, 300)
}

/// The first frame never comes up, and one far ahead does: the FARM locks, the service stops, and so does the run.
fn stops<L: Link>(rt: &impl Abort, link: &mut L, events: &[Event]) {
    let end = link.does_all(events);
    check_at(rt, end.done == 514, "514 happen", end.done);
    let is_stopped = end.refusal == Some(Refusal::ServiceNotActive);
    check(rt, is_stopped, "the service stopped");
    check(rt, link.is_clean(), "clean over links that skip");
    let is_locked = link.farm().state == FarmState::Lockout;
    check(rt, is_locked, "the FARM locks");
    check_session(rt, link, 0, 1, [255, 0, 0]);
}

/// Those events on links that skip.
fn stops_so(rt: &impl Abort, alloc: Global, events: &[Event]) -> Result<(), Fail> {
    let mut link = skips(alloc, 255, 254)?;
    stops(rt, &mut link, events);
    Ok(())
}

#[test]
fn stops_over_links_that_skip(rt: HostRuntime) -> Result<(), Fail> {
    let mut events = Vec::new(rt.alloc());
    round(&rt, &mut events)?;
    stops_so(&rt, rt.alloc(), &events)
}
