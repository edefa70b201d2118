//! The Sent_Queue beside a plain one, a list of the frames that are out, over random calls: what is confirmed, what is in
//! doubt and what is sent again is what the plain one has, from the front.
use super::calls::{Call, done};
use super::ends::{OnGround, PutsOut, fop};
use super::{ad, check, check_at};
use std::alloc::Global;
use std::collections::VecDeque;
use std::process::Abort;
use std::test::Fail;
use tc_fop::signals::{FopState, Indication};
use tc_types::{Directive, Frame, Refusal, RequestNumber};

/// A linear congruential generator.
#[derive(Drop)]
struct Dice {
    state: u64,
}

impl Dice {
    /// A number below this one.
    fn roll(&mut self, sides: u32) -> u32 {
        self.state = self
            .state
            .wrapping_mul(6_364_136_223_846_793_005)
            .wrapping_add(1_442_695_040_888_963_407);
        let high = u32::try_from(self.state >> 33).unwrap_or(0);
        high.checked_rem(sides).unwrap_or(0)
    }

    /// A number of a frame.
    fn byte(&mut self) -> u8 {
        u8::try_from(self.roll(256)).unwrap_or(0)
    }
}

/// A plain queue, and what was seen.
#[derive(Drop)]
struct Plain {
    /// The frames that are out, from the front.
    frames: VecDeque<Frame, Global>,
    /// The request that is offered next.
    next: u32,
    /// How many requests were confirmed.
    confirmed: u32,
    /// How many were in doubt.
    doubted: u32,
    /// How many frames were sent again.
    again: u32,
}

/// Whether this is the frame of the request.
fn is_of(frame: &Frame, request: RequestNumber) -> bool {
    match *frame {
        Frame::Ad {
            request: carried,
            ..
        } => carried == request,
        Frame::Unlock | Frame::SetVr(_) => false,
    }
}

/// Takes the front of the plain queue: it is the frame of this request.
fn takes_front(rt: &impl Abort, plain: &mut Plain, request: RequestNumber) {
    let front = plain.frames.pop_front().expect(rt, "a front");
    check_at(rt, is_of(&front, request), "the front", request.get());
}

/// Follows what was indicated; answers whether a request was sent.
fn follows(rt: &impl Abort, plain: &mut Plain, indications: &[Indication]) -> bool {
    let mut is_sent = false;
    for indication in indications {
        match *indication {
            Indication::Confirmed(request) => {
                takes_front(rt, plain, request);
                plain.confirmed = plain.confirmed.saturating_add(1);
            }
            Indication::InDoubt(request) => {
                takes_front(rt, plain, request);
                plain.doubted = plain.doubted.saturating_add(1);
            }
            Indication::Sent(_) => is_sent = true,
            Indication::GivenBack(_) | Indication::Alert(_) | Indication::Started => {}
        }
    }
    is_sent
}

/// Checks that these are all frames of the plain queue, from the front.
fn check_all(rt: &impl Abort, plain: &mut Plain, frames: &[Frame]) {
    check(rt, frames.len() == plain.frames.len(), "all are sent again");
    for (place, frame) in frames.iter().enumerate() {
        let is_held = plain.frames.get(place) == Some(frame);
        check_at(rt, is_held, "a frame sent again behind", plain.again);
        plain.again = plain.again.saturating_add(1);
    }
}

/// Follows what a call put out, where this was V(S) and this request waited or was offered: frames that are sent again
/// are all of the plain queue, and a new one goes behind them.
fn follows_output<S: PutsOut>(
    rt: &impl Abort,
    plain: &mut Plain,
    out: &S,
    vs: u8,
    due: u32,
) -> Result<(), Fail> {
    let is_sent = follows(rt, plain, out.indicated());
    let Some((last, others)) = out.sent().split_last() else {
        check(rt, !is_sent, "a request is sent in a frame");
        return Ok(());
    };
    if !is_sent {
        check_all(rt, plain, out.sent());
        return Ok(());
    }
    if !others.is_empty() {
        check_all(rt, plain, others);
    }
    let fresh = ad(rt, vs, due);
    check_at(rt, *last == fresh, "a new frame", due);
    plain.frames.push_back(fresh)?;
    Ok(())
}

/// A random call: mostly an offer, or a word that acknowledges some of what is out.
fn random_call(dice: &mut Dice, next: u32, nn: u8, out: u8) -> Call {
    let report = match dice.roll(64) {
        0 => dice.byte(),
        _ => nn.wrapping_add(u8::try_from(dice.roll(u32::from(out).saturating_add(1))).unwrap_or(
            0,
        )),
    };
    match dice.roll(40) {
        0..=4 => Call::Report(report),
        5 | 6 => Call::Again(report),
        7 => Call::Wait(report),
        8 => Call::AgainWait(report),
        9 | 10 => Call::Ticks(1),
        11 => match dice.roll(20) {
            0 => Call::Lockout(report),
            1 => Call::Invalid,
            2 => Call::Direct(Directive::Terminate),
            _ => Call::Ticks(1),
        },
        _ => Call::Offer(next),
    }
}

/// The service begins again where it stopped, at any number.
fn starts<G: OnGround>(rt: &impl Abort, fop: &mut G, dice: &mut Dice) -> Result<(), Refusal> {
    let first = dice.byte();
    done(rt, fop, Call::Direct(Directive::SetVs(first)))?;
    done(rt, fop, Call::Direct(Directive::InitiateNone))?;
    Ok(())
}

/// One random call, and what it puts out beside the plain queue.
fn turns<G: OnGround>(
    rt: &impl Abort,
    fop: &mut G,
    dice: &mut Dice,
    plain: &mut Plain,
) -> Result<(), Fail> {
    if fop.variables().state == FopState::Initial {
        starts(rt, fop, dice)?;
    }
    let before = fop.variables();
    let call = random_call(dice, plain.next, before.nn, before.sent);
    let due = if before.waiting == 0 {
        plain.next
    } else {
        plain.next.saturating_sub(1)
    };
    if let Ok(out) = done(rt, fop, call) {
        follows_output(rt, plain, &out, before.vs, due)?;
        if matches!(call, Call::Offer(_)) {
            plain.next = plain.next.saturating_add(1);
        }
    }
    let out = usize::from(fop.variables().sent);
    check(rt, out == plain.frames.len(), "as many are out");
    Ok(())
}

/// So many random calls with this window: requests are confirmed, in doubt and sent again.
fn compares<G: OnGround>(
    rt: &impl Abort,
    alloc: Global,
    fop: &mut G,
    seed: u64,
    calls: u32,
) -> Result<(), Fail> {
    let mut dice = Dice { state: seed };
    let mut plain = Plain {
        frames: VecDeque::new(alloc),
        next: 1,
        confirmed: 0,
        doubted: 0,
        again: 0,
    };
    for _ in 0..calls {
        turns(rt, fop, &mut dice, &mut plain)?;
    }
    check_at(rt, plain.confirmed > 9, "confirmed", plain.confirmed);
    check_at(rt, plain.doubted > 9, "in doubt", plain.doubted);
    check_at(rt, plain.again > 9, "sent again", plain.again);
    Ok(())
}

#[test]
fn is_a_plain_queue_over_random_calls(rt: HostRuntime) -> Result<(), Fail> {
    for (seed, k) in [(1, 1), (2, 2), (3, 3), (4, 100), (5, 255)] {
        let mut fop = fop(rt.alloc(), k, 5, 20)?;
        compares(&rt, rt.alloc(), &mut fop, seed, 15_000)?;
    }
    Ok(())
}
