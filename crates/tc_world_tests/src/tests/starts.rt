//! Starts that are not good, after which `clean` stays false.
use super::{Act, CHECK, START, STOP, Scenario, UNLOCK, acts, check, flies, over_lists};
use crate::links::Link;
use std::process::Abort;
use std::test::Fail;
use tc_types::Directive;

/// A session that leaves a frame in flight.
const LEAVES_A_FRAME: &[Act] = &[START, Act::Offer(1), STOP];

/// The frame comes up, and the session ends.
const TAKES_THE_FRAME: &[Act] = &[Act::Up, STOP];

/// A start with a check.
const CHECKS: &[Act] = &[CHECK];

/// A start over a control word in flight.
const OVER_A_WORD: &[Act] = &[Act::Clcw, UNLOCK];

/// Another session, with a good start.
const ANOTHER: &[Act] = &[STOP, CHECK];

/// After these acts each start was good, or not.
fn leaves<L: Link>(rt: &impl Abort, link: &mut L, done: &[Act], good: bool, what: &str) {
    acts(rt, link, done);
    check(rt, link.is_clean() == good, what);
}

/// A start over a frame in flight, and a good one after it.
pub fn starts_over_a_frame<L: Link>(rt: &impl Abort, link: &mut L) {
    leaves(rt, link, LEAVES_A_FRAME, true, "before");
    leaves(rt, link, CHECKS, false, "over a frame");
    leaves(rt, link, TAKES_THE_FRAME, false, "without the frame");
    check(rt, flies(link, 0), "nothing in flight");
    leaves(rt, link, CHECKS, false, "after a good start");
    check(rt, link.sessions() == 3, "three sessions");
}

/// A start over a control word in flight.
pub fn starts_over_a_word<L: Link>(rt: &impl Abort, link: &mut L) {
    leaves(rt, link, OVER_A_WORD, false, "over a word");
}

/// A start where V(S) is this and V(R) is 0, and a good one after it: both end so.
pub fn starts_at<L: Link>(rt: &impl Abort, link: &mut L, first: u8, start: Directive, good: bool) {
    let set = Act::Directive(Directive::SetVs(first));
    acts(rt, link, &[set]);
    leaves(rt, link, &[Act::Directive(start)], good, "at the start");
    leaves(rt, link, ANOTHER, good, "after another");
}

#[test]
fn a_start_with_a_frame_in_flight_is_not_good(rt: HostRuntime) -> Result<(), Fail> {
    over_lists(&rt, rt.alloc(), Scenario::OverFrame, 3, 4, 0)
}

#[test]
fn a_start_with_a_word_in_flight_is_not_good(rt: HostRuntime) -> Result<(), Fail> {
    over_lists(&rt, rt.alloc(), Scenario::OverWord, 3, 4, 0)
}

#[test]
fn a_start_without_check_wants_both_sides_level(rt: HostRuntime) -> Result<(), Fail> {
    for (first, start, good) in [
        (0, Directive::InitiateNone, true),
        (0, Directive::InitiateCheck, true),
        (5, Directive::InitiateNone, false),
        (5, Directive::InitiateCheck, true),
    ] {
        let scenario = Scenario::StartsAt(first, start, good);
        over_lists(&rt, rt.alloc(), scenario, 3, 4, 0)?;
    }
    Ok(())
}
