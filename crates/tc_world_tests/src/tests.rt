//! What no clause says: that events happen where there is memory, with which values, and what refused memory leaves.
//!
//! A function that holds a world makes it and hands it to one scenario, and does nothing else; a scenario is a function
//! over any `Link`, and its events stand as data.
ghost use Rattle.tc_world.specs.Links.{AreEmpty};

use crate::links::Link;
use crate::skipping::SkippingCarrier;
use linked_list_allocator::LocalHeap;
use std::alloc::{Allocator, Global};
use std::process::Abort;
use std::test::Fail;
use tc_farm::Farm;
use tc_fop::Fop;
use tc_types::{
    Ack, Apid, Directive, Frame, Identity, Outcome, Payload, Refusal, Report, RequestNumber,
    SequenceCount, Task,
};
use tc_world::{Carrier, Event, ListCarrier, World};

mod courses;
mod fitting;
mod lockouts;
mod refusing;
mod rings;
mod rooms;
mod rounds;
mod starts;
mod windows;

/// More than any world on a heap takes here.
const AMPLE: usize = 4_194_304;

/// More blocks of memory than a heap has holes.
const MOST_BLOCKS: usize = 4_096;

/// The service starts without check.
const START: Act = Act::Directive(Directive::InitiateNone);

/// The service starts with a check.
const CHECK: Act = Act::Directive(Directive::InitiateCheck);

/// The service starts with an Unlock.
const UNLOCK: Act = Act::Directive(Directive::InitiateUnlock);

/// The service stops.
const STOP: Act = Act::Directive(Directive::Terminate);

/// A frame comes up, and a buffer is free for it.
const UP: Event = Event::Uplink { free_buffer: true };

/// A world over links that lose what they are told to lose.
type Lists<A> = World<ListCarrier<Frame, A>, ListCarrier<Report, A>, A>;

/// A world over links that skip.
type Skips<A> = World<SkippingCarrier<Frame, A>, SkippingCarrier<Report, A>, A>;

/// An event, an offer by the number of its request.
#[derive(Clone, Copy)]
enum Act {
    /// Request `n` is offered.
    Offer(u32),
    /// A directive.
    Directive(Directive),
    /// A frame comes up, and a buffer is free for it.
    Up,
    /// A frame comes up, and no buffer is free for it.
    Blocked,
    /// One tick of the FOP's timer.
    Tick,
    /// The frame at this place of the uplink is lost, from 0 for the oldest.
    LoseUp(usize),
    /// A buffer becomes free on board.
    Release,
    /// A control word is sent.
    Clcw,
    /// A control word or a report comes down.
    Downlink,
}

/// What is done over lists on a heap with more memory than it takes.
#[derive(Clone, Copy)]
enum Scenario {
    /// 300 requests.
    Round,
    /// A lock-out, and how the service comes back.
    Lockout,
    /// Room for control words, with memory for it and without.
    Room,
    /// Offers and starts, some of which are refused.
    Refusals,
    /// The first start.
    FirstSession,
    /// A start over a frame in flight.
    OverFrame,
    /// A start over a control word in flight.
    OverWord,
    /// A start where V(S) is this and V(R) is 0, and whether it is good.
    StartsAt(u8, Directive, bool),
}

/// Checks that this holds, or else says what does not. Assertions stand here and in the one below alone: one takes a second to
/// prove, and a call next to nothing.
fn check(rt: &impl Abort, holds: bool, what: &str) {
    assert!(rt; holds, "{what}");
}

/// Checks that this holds at this place, or of this many.
fn check_at(rt: &impl Abort, holds: bool, what: &str, place: usize) {
    assert!(rt; holds, "{what}: {place}");
}

/// The number of a request.
fn number(rt: &impl Abort, n: u32) -> RequestNumber {
    RequestNumber::new(n).expect(rt, "a number of a request")
}

/// The name of request `n` on board: requests that follow one another differ by their count.
fn identity(rt: &impl Abort, n: u32) -> Identity {
    let count = u16::try_from(n % 16_384).expect(rt, "a small number");
    Identity {
        apid: Apid::new(5).expect(rt, "an application process"),
        count: SequenceCount::new(count).expect(rt, "a count"),
    }
}

/// The part of request `n` that flies.
fn body(rt: &impl Abort, n: u32) -> Payload {
    Payload {
        identity: identity(rt, n),
        ack: Ack {
            acceptance: true,
            start: false,
            progress: false,
            completion: true,
        },
        task: Task::Plain(Outcome::Completes),
    }
}

/// Request `n` is offered.
fn offer(rt: &impl Abort, n: u32) -> Event {
    Event::Offer {
        request: number(rt, n),
        body: body(rt, n),
    }
}

/// The event of an act.
fn event(rt: &impl Abort, act: &Act) -> Event {
    match *act {
        Act::Offer(n) => offer(rt, n),
        Act::Directive(directive) => Event::Directive(directive),
        Act::Up => UP,
        Act::Blocked => Event::Uplink { free_buffer: false },
        Act::Tick => Event::Tick,
        Act::LoseUp(place) => Event::LoseUp(place),
        Act::Release => Event::Release,
        Act::Clcw => Event::Clcw,
        Act::Downlink => Event::Downlink,
    }
}

/// Puts the offers of the requests from one number to another, the last among them, behind these events.
fn add_offers(
    rt: &impl Abort,
    events: &mut Vec<Event, Global>,
    first: u32,
    last: u32,
) -> Result<(), Fail> {
    for n in first..=last {
        events.push(offer(rt, n))?;
    }
    Ok(())
}

/// Puts an act so many times behind these events.
fn add(
    rt: &impl Abort,
    events: &mut Vec<Event, Global>,
    act: Act,
    times: usize,
) -> Result<(), Fail> {
    for _ in 0..times {
        events.push(event(rt, &act))?;
    }
    Ok(())
}

/// A world whose FOP stops after so many transmissions: its memory is this allocator's.
fn world<U: Carrier<Frame>, D: Carrier<Report>, A: Allocator + Copy + Drop>(
    alloc: A,
    up: U,
    down: D,
    k: u8,
    limit: u8,
    window: u16,
    vc: u8,
) -> Result<World<U, D, A>, Refusal>
    requires { AreEmpty U.kind D.kind up down }
{
    let farm = Farm::new(window).ok_or(Refusal::BadDirective)?;
    let fop = Fop::new(alloc, k, 10, limit)?;
    World::new(alloc, fop, farm, up, down, vc)
}

/// A world over lists.
fn lists<A: Allocator + Copy + Drop>(
    alloc: A,
    k: u8,
    window: u16,
    vc: u8,
) -> Result<Lists<A>, Refusal> {
    world(
        alloc,
        ListCarrier::new(alloc),
        ListCarrier::new(alloc),
        k,
        3,
        window,
        vc,
    )
}

/// A world over links that skip, with as many transmissions as there may be.
fn skips<A: Allocator + Copy + Drop>(alloc: A, k: u8, window: u16) -> Result<Skips<A>, Refusal> {
    world(
        alloc,
        SkippingCarrier::new(alloc),
        SkippingCarrier::new(alloc),
        k,
        255,
        window,
        0,
    )
}

/// What holds all memory of a heap that is free.
type Ballast<'a> = Vec<Vec<u8, &'a LocalHeap>, Global>;

/// Takes all memory of a heap, but one block of so many bytes.
fn take_all_but<'a>(alloc: Global, heap: &'a LocalHeap, left: usize) -> Result<Ballast<'a>, Fail> {
    let _spared: Vec<u8, &LocalHeap> = Vec::with_capacity(heap, left)?;
    let mut ballast = Vec::new(alloc);
    let mut bytes = AMPLE;
    for _ in 0..MOST_BLOCKS {
        if bytes == 0 {
            break;
        }
        match Vec::with_capacity(heap, bytes) {
            Ok(block) => ballast.push(block)?,
            Err(_) => bytes /= 2,
        }
    }
    Ok(ballast)
}

/// Plays a scenario on a link.
fn plays<L: Link>(
    rt: &impl Abort,
    alloc: Global,
    link: &mut L,
    scenario: Scenario,
) -> Result<(), Fail> {
    match scenario {
        Scenario::Round => rounds::confirms(rt, alloc, link)?,
        Scenario::Lockout => lockouts::comes_back(rt, alloc, link)?,
        Scenario::Room => rooms::reserves(rt, link),
        Scenario::Refusals => refusing::refuses(rt, link),
        Scenario::FirstSession => refusing::begins_with_none(rt, link),
        Scenario::OverFrame => starts::starts_over_a_frame(rt, link),
        Scenario::OverWord => starts::starts_over_a_word(rt, link),
        Scenario::StartsAt(first, start, good) => starts::starts_at(rt, link, first, start, good),
    }
    Ok(())
}

/// Plays a scenario over lists on a heap.
fn over_lists(
    rt: &impl Abort,
    alloc: Global,
    scenario: Scenario,
    k: u8,
    window: u16,
    vc: u8,
) -> Result<(), Fail> {
    let heap = LocalHeap::new(alloc, AMPLE)?;
    let mut link = lists(&heap, k, window, vc)?;
    plays(rt, alloc, &mut link, scenario)
}

/// Makes events happen, none of which is refused.
fn all_happen<L: Link>(rt: &impl Abort, link: &mut L, events: &[Event]) {
    let end = link.does_all(events);
    check_at(rt, end.refusal.is_none(), "one is refused after", end.done);
    check(rt, end.done == events.len(), "all happen");
}

/// Makes an act happen so many times.
fn repeats<L: Link>(rt: &impl Abort, link: &mut L, act: &Act, times: usize) {
    for _ in 0..times {
        all_happen(rt, link, &[event(rt, act)]);
    }
}

/// Makes these acts happen, none of which is refused.
fn acts<L: Link>(rt: &impl Abort, link: &mut L, acts: &[Act]) {
    for act in acts {
        all_happen(rt, link, &[event(rt, act)]);
    }
}

/// Whether an event is refused so, or happens where there is no refusal.
fn answers<L: Link>(link: &mut L, event: Event, refusal: Option<Refusal>) -> bool {
    link.does(event).err() == refusal
}

/// Whether so many frames are in flight, and no control word and no report.
fn flies<L: Link>(link: &L, frames: usize) -> bool {
    let (up, down) = link.in_flight();
    up == frames && down == 0
}

/// Checks the session at this place: the requests from one number on, as many as these were sent, accepted and
/// confirmed.
fn check_session<L: Link>(rt: &impl Abort, link: &L, place: usize, first: u32, counts: [usize; 3]) {
    let session = link.written(place).expect(rt, "a session");
    let [sent, accepted, confirmed] = counts;
    check_from(rt, session.sent, first, sent, "sent");
    check_from(rt, session.accepted, first, accepted, "accepted");
    check_from(rt, session.confirmed, first, confirmed, "confirmed");
}

/// Checks that these are the requests from one number on.
fn check_from(rt: &impl Abort, requests: &[RequestNumber], first: u32, count: usize, what: &str) {
    check(rt, requests.len() == count, what);
    let mut next = first;
    for request in requests {
        check(rt, request.get() == next, what);
        next = next.saturating_add(1);
    }
}
