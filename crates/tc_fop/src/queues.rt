//! The Sent_Queue: what is done with many requests at once.
ghost use Rattle.std.specs.Prelude.{◌≡◌, ◌+◌, ◌<◌, ◌≤◌, [], length, map, take, drop};
ghost use Rattle.tc_fop.specs.Machine.{joined};

use crate::outputs::OutputDraft;
use crate::signals::Indication;
use crate::slots::SentSlots;
use std::alloc::Allocator;
use tc_types::{Frame, Payload, RequestNumber};

/// A request that waits for its first transmission.
#[derive(Clone, Copy, Debug, PartialEq, Eq)]
pub struct Offer {
    /// Its number.
    pub request: RequestNumber,
    /// The part that flies.
    pub body: Payload,
}

/// A request that was transmitted and is not acknowledged.
#[derive(Clone, Copy, Debug, PartialEq, Eq)]
pub struct Outstanding {
    /// The number of its frame, which stays when the frame is sent again.
    pub ns: u8,
    /// Its number.
    pub request: RequestNumber,
    /// The part that flies.
    pub body: Payload,
}

/// Takes this many requests from the front: they are confirmed.
pub(crate) fn confirm_front<A: Allocator + Copy + Drop>(
    sent: &mut SentSlots<A>,
    count: u8,
    out: &mut OutputDraft<A>,
)
    requires there { count ≤ length sent.old }
    requires room { length out.old.indications + count ≤ 257 }
    ensures sent { sent.new ≡ drop count sent.old }
    ensures out { out.new ≡ joined out.old (record { frames = []; indications = map (λ held. Indication.Confirmed held.request) (take count sent.old) }) }
{
    for _ in 0..count {
        let Some(first) = sent.pop_front() else {
            unreachable!() // there are `count` of them
        };
        out.indicate(Indication::Confirmed(first.request));
    }
}

/// Sends the frame of each request again, from the front, under the number that it had.
pub(crate) fn send_again<A: Allocator + Copy + Drop>(sent: &SentSlots<A>, out: &mut OutputDraft<A>)
    requires room { length out.old.frames + length sent.now ≤ 256 }
    ensures out { out.new ≡ joined out.old (record { frames = map (λ held. Frame.Ad held.ns held.request held.body) sent.now; indications = [] }) }
{
    for place in 0..sent.len() {
        let Some(held) = sent.get(place) else {
            unreachable!() // there are so many
        };
        out.send(Frame::Ad {
            ns: held.ns,
            request: held.request,
            body: held.body,
        });
    }
}

/// Indicates of each request, from the front, that it is in doubt.
pub(crate) fn doubt_all<A: Allocator + Copy + Drop>(sent: &SentSlots<A>, out: &mut OutputDraft<A>)
    requires room { length out.old.indications + length sent.now ≤ 257 }
    ensures out { out.new ≡ joined out.old (record { frames = []; indications = map (λ held. Indication.InDoubt held.request) sent.now }) }
{
    for position in 0..sent.len() {
        let Some(held) = sent.get(position) else {
            unreachable!() // there are so many
        };
        out.indicate(Indication::InDoubt(held.request));
    }
}
