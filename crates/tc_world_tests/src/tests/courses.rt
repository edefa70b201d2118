//! Long courses of random events, after each of which the claims are computed: in each session confirmed is a prefix of
//! accepted and accepted of sent, and no request is sent twice or accepted twice over all sessions.
//!
//! Requests are offered in the order of their numbers, so that none is sent twice where the numbers rise over all
//! sessions.
use super::{UP, answers, check, check_at, flies, identity, lists, number, offer, skips};
use crate::links::{Link, Written};
use std::process::Abort;
use std::test::Fail;
use tc_farm::FarmView;
use tc_fop::signals::FopState;
use tc_types::{Directive, Refusal, RequestNumber, Telemetry, Verification};
use tc_world::Event;

/// A linear congruential generator. The tests of `tc_board` have the same one, since no crate of tests can use another.
#[derive(Drop)]
pub struct Dice {
    state: u64,
}

impl Dice {
    /// A generator that starts here.
    pub fn new(state: u64) -> Dice {
        Dice { state }
    }

    /// A number below this one.
    pub fn roll(&mut self, sides: u32) -> u32 {
        self.state = self
            .state
            .wrapping_mul(6_364_136_223_846_793_005)
            .wrapping_add(1_442_695_040_888_963_407);
        let high = u32::try_from(self.state >> 33).unwrap_or(0);
        high.checked_rem(sides).unwrap_or(0)
    }

    /// A small place.
    pub fn place(&mut self) -> usize {
        usize::try_from(self.roll(6)).unwrap_or(0)
    }
}

/// Where a course stands.
#[derive(Drop)]
struct Course {
    dice: Dice,
    /// The next request to be offered.
    next: u32,
    /// How often the FOP stopped by itself.
    alerts: u32,
    /// How often an old request was offered again.
    again: u32,
}

/// Checks the claims in a session, where the earlier sessions sent requests up to this one; answers the last.
fn check_claims(rt: &impl Abort, session: &Written<'_>, earlier: u32) -> u32 {
    let is_prefix = session.sent.starts_with(session.accepted);
    check(rt, is_prefix, "accepted is a prefix of sent");
    let is_prefix = session.accepted.starts_with(session.confirmed);
    check(rt, is_prefix, "confirmed is a prefix of accepted");
    let mut last = earlier;
    for request in session.sent {
        check(rt, last < request.get(), "none is sent twice");
        last = request.get();
    }
    last
}

/// Checks the claims in all sessions; answers how many requests were confirmed.
fn check_all<L: Link>(rt: &impl Abort, link: &L) -> usize {
    check(rt, link.is_clean(), "clean");
    let mut last = 0;
    let mut confirmed = 0usize;
    for place in 0..link.sessions() {
        let session = link.written(place).expect(rt, "a session");
        last = check_claims(rt, &session, last);
        confirmed = confirmed.saturating_add(session.confirmed.len());
    }
    confirmed
}

/// An event happens, and the claims stand after it.
fn goes<L: Link>(rt: &impl Abort, link: &mut L, event: Event) -> Result<(), Fail> {
    link.does(event)?;
    check_all(rt, link);
    Ok(())
}

/// The next request is offered, and the FOP may refuse it.
fn offers_next<L: Link>(rt: &impl Abort, link: &mut L, course: &mut Course) {
    let refusal = link.does(offer(rt, course.next)).err();
    match refusal {
        None => course.next = course.next.saturating_add(1),
        Some(Refusal::WaitQueueFull) => {}
        _ => check(rt, refusal == Some(Refusal::ServiceNotActive), "an offer"),
    }
    check_all(rt, link);
}

/// A request that was sent in some session.
fn sent_before<L: Link>(link: &L, dice: &mut Dice) -> Option<RequestNumber> {
    let count = u32::try_from(link.sessions()).unwrap_or(0);
    let place = usize::try_from(dice.roll(count)).unwrap_or(0);
    let session = link.written(place)?;
    session.sent.get(dice.place()).copied()
}

/// A request that was sent is offered again, and is refused.
fn offers_again<L: Link>(rt: &impl Abort, link: &mut L, course: &mut Course) {
    let Some(request) = sent_before(link, &mut course.dice) else {
        return;
    };
    let is_refused = answers(link, offer(rt, request.get()), Some(Refusal::WrongPlace));
    check(rt, is_refused, "an offer again");
    course.again = course.again.saturating_add(1);
    check_all(rt, link);
}

/// A report of the spacecraft.
pub fn report(rt: &impl Abort) -> Telemetry {
    Telemetry::Verification {
        verification: Verification::Completed,
        request: number(rt, 1),
        identity: identity(rt, 1),
    }
}

/// An event that is neither an offer nor a directive.
fn random_event(rt: &impl Abort, dice: &mut Dice) -> Event {
    match dice.roll(96) {
        0 | 1 => Event::Uplink { free_buffer: false },
        2..=13 => Event::Clcw,
        14..=33 => Event::Downlink,
        34 | 35 => Event::Tick,
        36..=43 => Event::Release,
        44..=47 => Event::Put(report(rt)),
        48 => Event::LoseUp(dice.place()),
        49 => Event::LoseDown(dice.place()),
        _ => UP,
    }
}

/// How the next session starts, where both sides are level.
fn start(farm: &FarmView, dice: &mut Dice) -> Directive {
    let is_flagged = farm.wait || farm.retransmit;
    match dice.roll(4) {
        _ if farm.lockout => Directive::InitiateUnlock,
        0 if !is_flagged => Directive::InitiateNone,
        1 => Directive::InitiateCheck,
        2 => Directive::InitiateUnlock,
        _ => Directive::InitiateSetVr(u8::try_from(dice.roll(256)).unwrap_or(0)),
    }
}

/// The same event so many times.
fn goes_on<L: Link>(
    rt: &impl Abort,
    link: &mut L,
    event: &Event,
    times: usize,
) -> Result<(), Fail> {
    for _ in 0..times {
        goes(rt, link, *event)?;
    }
    Ok(())
}

/// A good start: the service ends, all that is in flight arrives, and both sides are level.
fn restarts<L: Link>(rt: &impl Abort, link: &mut L, course: &mut Course) -> Result<(), Fail> {
    goes(rt, link, Event::Directive(Directive::Terminate))?;
    let (frames, reports) = link.in_flight();
    goes_on(rt, link, &UP, frames)?;
    goes_on(rt, link, &Event::Downlink, reports)?;
    goes_on(rt, link, &UP, link.in_flight().0)?;
    check(rt, flies(link, 0), "all arrived");
    let farm = link.farm();
    goes(rt, link, Event::Directive(Directive::SetVs(farm.vr)))?;
    let first = start(&farm, &mut course.dice);
    goes(rt, link, Event::Directive(first))
}

/// One random event, and a start where the FOP stopped, and now and then where it did not.
fn turns<L: Link>(rt: &impl Abort, link: &mut L, course: &mut Course) -> Result<(), Fail> {
    match course.dice.roll(32) {
        0..=8 => offers_next(rt, link, course),
        9 => offers_again(rt, link, course),
        _ => {
            let event = random_event(rt, &mut course.dice);
            goes(rt, link, event)?;
        }
    }
    let is_stopped = link.fop().state == FopState::Initial;
    if is_stopped {
        course.alerts = course.alerts.saturating_add(1);
    }
    if is_stopped || course.dice.roll(1_000) == 0 {
        restarts(rt, link, course)?;
    }
    Ok(())
}

/// So many random events, from a generator that starts here: several sessions, and some requests offered again. Answers
/// how many requests were confirmed, and how often the FOP stopped by itself.
pub fn courses<L: Link>(
    rt: &impl Abort,
    link: &mut L,
    seed: u64,
    events: u32,
) -> Result<(usize, u32), Fail> {
    let mut course = Course {
        dice: Dice::new(seed),
        next: 1,
        alerts: 0,
        again: 0,
    };
    for _ in 0..events {
        turns(rt, link, &mut course)?;
    }
    check_at(rt, link.sessions() > 5, "sessions", link.sessions());
    check(rt, course.again > 9, "more than 9 are offered again");
    Ok((check_all(rt, link), course.alerts))
}

#[test]
fn the_claims_stand_over_100_000_events(rt: HostRuntime) -> Result<(), Fail> {
    let mut confirmed = 0usize;
    let mut alerts = 0u32;
    for (k, window, events) in [
        (255, 254, 100_000),
        (127, 254, 10_000),
        (10, 20, 10_000),
        (3, 4, 10_000),
    ] {
        let mut link = lists(rt.alloc(), k, window, 63)?;
        let counts = courses(&rt, &mut link, 1, events)?;
        confirmed = confirmed.saturating_add(counts.0);
        alerts = alerts.saturating_add(counts.1);
    }
    check_at(&rt, confirmed > 2_000, "confirmed over lists", confirmed);
    check(&rt, alerts > 9, "more than 9 alerts");
    Ok(())
}

#[test]
fn the_claims_stand_over_links_that_skip(rt: HostRuntime) -> Result<(), Fail> {
    let mut confirmed = 0usize;
    for (k, window) in [(255, 254), (10, 20), (2, 4)] {
        let mut link = skips(rt.alloc(), k, window)?;
        let counts = courses(&rt, &mut link, 2, 10_000)?;
        confirmed = confirmed.saturating_add(counts.0);
    }
    check_at(
        &rt,
        confirmed > 9,
        "confirmed over links that skip",
        confirmed,
    );
    Ok(())
}
