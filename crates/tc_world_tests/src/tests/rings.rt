//! Rings beside a plain ring, and worlds over rings: random events, after each of which both have the same in flight.
use super::{AMPLE, Act, START, acts, check, check_at, courses, event, flies, take_all_but, world};
use crate::links::Link;
use linked_list_allocator::LocalHeap;
use std::alloc::{Allocator, Global};
use std::process::Abort;
use std::test::Fail;
use tc_types::{Frame, Refusal, Report};
use tc_world::{Carrier, LinkCarrier, ListCarrier, RingCarrier, World};

/// The sizes that are tried.
pub const SIZES: [u32; 5] = [1, 2, 3, 8, 300];

/// A world over links that are one of the two.
pub type Chosen<A> = World<LinkCarrier<Frame, A>, LinkCarrier<Report, A>, A>;

/// A link of numbers as a test sees it: its methods promise nothing.
trait Line {
    /// Puts a number behind the others.
    fn puts(&mut self, item: u32);

    /// Takes the first.
    fn takes(&mut self) -> Option<u32>;

    /// Loses the number at a place, and says whether there was one.
    fn loses(&mut self, place: usize) -> bool;

    /// How many there are.
    fn count(&self) -> usize;

    /// Whether there is none.
    fn is_bare(&self) -> bool;
}

impl<A: Allocator> Line for RingCarrier<u32, A> {
    fn puts(&mut self, item: u32) {
        self.put(item);
    }

    fn takes(&mut self) -> Option<u32> {
        self.take()
    }

    fn loses(&mut self, place: usize) -> bool {
        self.lose(place)
    }

    fn count(&self) -> usize {
        self.len()
    }

    fn is_bare(&self) -> bool {
        self.is_empty()
    }
}

/// A plain ring: a list, of which the first leaves where one more is put than it holds.
#[derive(Drop)]
struct PlainRing {
    items: Vec<u32, Global>,
    size: usize,
}

impl PlainRing {
    /// Puts a number behind the others.
    fn puts(&mut self, item: u32) -> Result<(), Fail> {
        if self.items.len() >= self.size {
            self.takes(0);
        }
        self.items.push(item)?;
        Ok(())
    }

    /// Takes the number at this place, where there is one.
    fn takes(&mut self, place: usize) -> Option<u32> {
        if place < self.items.len() {
            Some(self.items.remove(place))
        } else {
            None
        }
    }
}

/// One random call on both: they answer alike, and hold as many.
fn turns<L: Line>(
    rt: &impl Abort,
    ring: &mut L,
    plain: &mut PlainRing,
    dice: &mut courses::Dice,
    item: u32,
) -> Result<(), Fail> {
    let place = usize::try_from(dice.roll(10)).unwrap_or(0);
    let at = usize::try_from(item).unwrap_or(0);
    match dice.roll(16) {
        0..=7 => {
            ring.puts(item);
            plain.puts(item)?;
        }
        8..=11 => check_at(rt, ring.takes() == plain.takes(0), "a take", at),
        12..=14 => {
            let is_lost = ring.loses(place);
            let is_there = plain.takes(place).is_some();
            check_at(rt, is_lost == is_there, "a loss", at);
        }
        _ => check_at(rt, !ring.loses(plain.items.len()), "past the end", at),
    }
    check_at(rt, ring.count() == plain.items.len(), "how many", at);
    check_at(rt, ring.is_bare() == plain.items.is_empty(), "empty", at);
    Ok(())
}

/// So many random calls, and then all that is left is taken.
fn compares<L: Line>(
    rt: &impl Abort,
    alloc: Global,
    ring: &mut L,
    size: u32,
    calls: u32,
) -> Result<(), Fail> {
    let mut dice = courses::Dice::new(u64::from(size));
    let mut plain = PlainRing {
        items: Vec::new(alloc),
        size: usize::try_from(size).unwrap_or(0),
    };
    for item in 0..calls {
        turns(rt, ring, &mut plain, &mut dice, item)?;
    }
    for _ in 0..301 {
        check(rt, ring.takes() == plain.takes(0), "what is left");
    }
    check(rt, ring.is_bare(), "nothing is left");
    Ok(())
}

#[test]
fn is_a_plain_ring_over_random_calls(rt: HostRuntime) -> Result<(), Fail> {
    for size in SIZES {
        let mut ring = RingCarrier::<u32, Global>::new(rt.alloc(), size)?;
        compares(&rt, rt.alloc(), &mut ring, size, 20_000)?;
    }
    Ok(())
}

/// How a ring of this size is refused.
fn refusal_to_make(alloc: Global, size: u32) -> Option<Refusal> {
    RingCarrier::<u32, Global>::new(alloc, size).err()
}

#[test]
fn holds_1_to_4096(rt: HostRuntime) {
    for (size, refusal) in [
        (0, Some(Refusal::BadDirective)),
        (1, None),
        (4_096, None),
        (4_097, Some(Refusal::BadDirective)),
        (u32::MAX, Some(Refusal::BadDirective)),
    ] {
        let is_so = refusal_to_make(rt.alloc(), size) == refusal;
        check_at(&rt, is_so, "a size", usize::try_from(size).unwrap_or(0));
    }
}

/// A world over rings of this size, with as many transmissions as there may be.
pub fn rings<A: Allocator + Copy + Drop>(
    alloc: A,
    size: u32,
    k: u8,
    window: u16,
) -> Result<Chosen<A>, Refusal> {
    rings_within(alloc, size, k, 255, window)
}

/// The same with this limit of transmissions.
pub fn rings_within<A: Allocator + Copy + Drop>(
    alloc: A,
    size: u32,
    k: u8,
    limit: u8,
    window: u16,
) -> Result<Chosen<A>, Refusal> {
    let up = LinkCarrier::Ring(RingCarrier::new(alloc, size)?);
    let down = LinkCarrier::Ring(RingCarrier::new(alloc, size)?);
    world(alloc, up, down, k, limit, window, 0)
}

#[test]
fn the_claims_stand_over_rings(rt: HostRuntime) -> Result<(), Fail> {
    let mut confirmed = 0usize;
    for size in SIZES {
        let mut link = rings(rt.alloc(), size, 10, 20)?;
        let counts = courses::courses(&rt, &mut link, u64::from(size), 20_000)?;
        confirmed = confirmed.saturating_add(counts.0);
    }
    check_at(&rt, confirmed > 99, "confirmed over rings", confirmed);
    Ok(())
}

/// Three requests over rings of two: the first frame is dropped, and the FARM discards the two that come up.
fn drops_the_oldest<L: Link>(rt: &impl Abort, link: &mut L) {
    acts(
        rt,
        link,
        &[START, Act::Offer(1), Act::Offer(2), Act::Offer(3)],
    );
    check(rt, flies(link, 2), "the first is dropped");
    acts(rt, link, &[Act::Up, Act::Up]);
    let farm = link.farm();
    check(rt, farm.vr == 0 && farm.retransmit, "both are discarded");
    acts(rt, link, &[Act::Clcw, Act::Downlink]);
    check(rt, flies(link, 2), "the first is dropped again");
    acts(rt, link, &[Act::Up]);
    let session = link.written(0).expect(rt, "a session");
    check(rt, session.sent.len() == 3, "three are sent");
    check(rt, session.accepted.is_empty(), "none is accepted");
}

#[test]
fn a_ring_of_two_drops_the_oldest(rt: HostRuntime) -> Result<(), Fail> {
    let mut link = rings(rt.alloc(), 2, 10, 20)?;
    drops_the_oldest(&rt, &mut link);
    Ok(())
}

/// A world over lists, of the type that may be rings.
fn lists_chosen<A: Allocator + Copy + Drop>(alloc: A, k: u8) -> Result<Chosen<A>, Refusal> {
    let up = LinkCarrier::List(ListCarrier::new(alloc));
    let down = LinkCarrier::List(ListCarrier::new(alloc));
    world(alloc, up, down, k, 3, 4, 0)
}

/// Where the window is full and no memory is left, an offer waits; a control word of P5 stays in flight until there is
/// memory, since it is not known before what comes down.
fn waits_without_memory<L: Link>(
    rt: &impl Abort,
    alloc: Global,
    heap: &LocalHeap,
    link: &mut L,
) -> Result<(), Fail> {
    acts(rt, link, &[START, Act::Offer(1), Act::Clcw]);
    let ballast = take_all_but(alloc, heap, 0)?;
    let waits = link.does(event(rt, &Act::Offer(2))).is_ok();
    check(rt, waits && link.fop().waiting == 1, "an offer waits");
    check(rt, link.in_flight() == (1, 1), "one frame, one word");
    let heard = link.does(event(rt, &Act::Downlink)).err();
    check(
        rt,
        heard == Some(Refusal::Memory),
        "a word is refused memory",
    );
    check(rt, link.in_flight() == (1, 1), "and stays in flight");
    drop(ballast);
    acts(rt, link, &[Act::Downlink]);
    check(rt, link.in_flight() == (1, 0), "the word came down");
    check(rt, link.fop().sent == 1, "one is sent");
    let known = link.does(event(rt, &Act::Offer(2))).err();
    check(rt, known == Some(Refusal::WrongPlace), "request 2 again");
    Ok(())
}

#[test]
fn an_offer_that_waits_wants_no_memory(rt: HostRuntime) -> Result<(), Fail> {
    let heap = LocalHeap::new(rt.alloc(), AMPLE)?;
    let mut link = lists_chosen(&heap, 1)?;
    waits_without_memory(&rt, rt.alloc(), &heap, &mut link)
}
