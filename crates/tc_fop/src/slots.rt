//! The Sent_Queue: a slot for each number that a frame may have.
ghost use Rattle.std.specs.Prelude.{◌≡◌, ◌+◌, ◌%◌, ◌<◌, ◌↔◌, [], ◌∷◌, ◌++◌, length, drop, slice_get, Some, IfOk, IsTrue};
ghost use Rattle.tc_fop.specs.declared.queues.Outstanding.{Outstanding};

use crate::queues::{Offer, Outstanding};
use std::alloc::{AllocError, Allocator};
use std::marker::Model;

/// How many numbers there are.
const SLOTS: usize = 256;

/// The requests that were transmitted and are not acknowledged, each in the slot of its frame's number. A contract sees
/// them from the front. There are exactly 256 slots at all times, which `new` makes.
#[derive(Drop)]
pub(crate) struct SentSlots<A: Allocator + Copy + Drop> {
    slots: Vec<Option<Offer>, A>,
    first: u8,
    count: u8,
}

impl<A: Allocator + Copy + Drop> Model for SentSlots<A> {
    ghost use Rattle.std.specs.Prelude.{◌≡◌, ◌<◌, ◌≤◌, List, length};
    ghost use Rattle.tc_fop.specs.declared.queues.Outstanding.{Outstanding};
    ghost use Rattle.tc_fop.specs.Slots.{queued, AreFilled};

    ghost Value = { List Outstanding };

    ghost view = { λ s. queued s.slots.items s.first s.count };

    ghost invariant = { λ s. (length s.slots.items ≡ 256) × (s.first < 256) × (s.count ≤ 255) × AreFilled s.slots.items s.first s.count };
}

impl<A: Allocator + Copy + Drop> SentSlots<A> {
    /// No request in any slot.
    pub(crate) fn new(alloc: A) -> Result<Self, AllocError>
        ensures { IfOk result (λ sent. sent ≡ []) }
    {
        let mut slots = Vec::with_capacity(alloc, SLOTS)?;
        for _ in 0..SLOTS {
            slots.push_reserved(None);
        }
        Ok(SentSlots {
            slots,
            first: 0,
            count: 0,
        })
    }

    /// How many requests are out.
    pub(crate) fn len(&self) -> u8
        ensures { result ≡ length self.now }
    {
        self.count
    }

    /// Whether none is out.
    pub(crate) fn is_empty(&self) -> bool
        ensures { IsTrue result ↔ (self.now ≡ []) }
    {
        self.count == 0
    }

    /// The request at this place, from 0 for the front.
    pub(crate) fn get(&self, place: u8) -> Option<Outstanding>
        ensures { result ≡ slice_get self.now place }
    {
        if place >= self.count {
            return None;
        }
        let ns = self.first.wrapping_add(place);
        match self.slots[ns as usize] {
            Some(offer) => Some(Outstanding {
                ns,
                request: offer.request,
                body: offer.body,
            }),
            None => unreachable!(), // the slots from the front on are filled
        }
    }

    /// One more behind the others, in the slot of its number, which is the next one.
    pub(crate) fn push(&mut self, sent: &Outstanding)
        requires room { length self.old < 255 }
        requires next { (front : Outstanding) → slice_get self.old 0 ≡ Some front → sent.now.ns ≡ (front.ns + length self.old) % 256 }
        ensures { self.new ≡ self.old ++ sent.now ∷ [] }
    {
        self.first = sent.ns.wrapping_sub(self.count); // as it was, where some are out
        self.slots[sent.ns as usize] = Some(Offer {
            request: sent.request,
            body: sent.body,
        });
        self.count += 1;
    }

    /// The one at the front leaves, if there is one, and its slot is empty.
    pub(crate) fn pop_front(&mut self) -> Option<Outstanding>
        ensures value { result ≡ slice_get self.old 0 }
        ensures left { self.new ≡ drop 1 self.old }
    {
        let front = self.get(0)?;
        self.slots[self.first as usize] = None;
        self.first = self.first.wrapping_add(1);
        self.count -= 1;
        Some(front)
    }

    /// All leave.
    pub(crate) fn clear(&mut self)
        ensures { self.new ≡ [] }
    {
        self.count = 0;
    }
}
