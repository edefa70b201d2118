//! A link that is a list or a ring, as it was made.
ghost use Rattle.std.specs.Prelude.{◌≡◌, ◌≢◌, ◌↔◌, Err, IfOk, ◌+◌, ◌-◌, ◌^◌, ◌<◌, ◌≤◌, ℕ, Bool, List, [], ◌∷◌, ◌++◌, length, OnOk, IsOk, IsNone, IfNone, IfSome, IfErr, IsTrue};
ghost use Rattle.tc_types.specs.declared.refusals.Refusal.TheVariants.{BadDirective, Memory};
ghost use Rattle.tc_world.specs.Sublist.{IsSublist};

use crate::carriers::Carrier;
use crate::list_carriers::ListCarrier;
use crate::ring_carriers::RingCarrier;
use std::alloc::{AllocError, Allocator};
use tc_types::Refusal;

/// One of the two links, so that all above holds one type, and which it is is chosen where it is made.
#[derive(Drop)]
pub enum LinkCarrier<T: Drop, A: Allocator> {
    /// It loses only what it is told to lose.
    List(ListCarrier<T, A>),
    /// It drops its oldest item where it is full.
    Ring(RingCarrier<T, A>),
}

impl<T: Drop, A: Allocator> LinkCarrier<T, A> {
    ghost use Rattle.tc_world.specs.EitherLink.{IsMade, IsNoSize, content_of};

    /// A link with nothing in flight: a ring that holds so many items, 1 to 4,096, else `BadDirective`; a list where no
    /// size is given. `Memory` where its memory is refused.
    pub fn new(alloc: A, ring: Option<u32>) -> Result<Self, Refusal>
        ensures made { IfOk result (λ link. IsMade ring link) }
        ensures empty { IfOk result (λ link. content_of link ≡ []) }
        ensures bad { (result ≡ Err BadDirective) ↔ IsNoSize ring }
        ensures memory { IfErr result (λ e. e ≢ BadDirective → e ≡ Memory) }
    {
        match ring {
            None => Ok(LinkCarrier::List(ListCarrier::new(alloc))),
            Some(size) => Ok(LinkCarrier::Ring(RingCarrier::new(alloc, size)?)),
        }
    }
}

impl<T: Drop, A: Allocator> Carrier<T> for LinkCarrier<T, A> {
    ghost use Rattle.tc_world.specs.EitherLink.{either, covered_of, either_room, either_puts, either_takes, either_loses};

    ghost kind = { either };

    ghost covered = { covered_of };

    fn reserve(&mut self, count: usize) -> Result<(), AllocError> {
        match self {
            LinkCarrier::List(list) => list.reserve(count),
            LinkCarrier::Ring(ring) => ring.reserve(count),
        }
    }

    fn put(&mut self, item: T) {
        match self {
            LinkCarrier::List(list) => list.put(item),
            LinkCarrier::Ring(ring) => ring.put(item),
        }
    }

    fn take(&mut self) -> Option<T> {
        match self {
            LinkCarrier::List(list) => list.take(),
            LinkCarrier::Ring(ring) => ring.take(),
        }
    }

    fn lose(&mut self, place: usize) -> bool {
        match self {
            LinkCarrier::List(list) => list.lose(place),
            LinkCarrier::Ring(ring) => ring.lose(place),
        }
    }

    fn len(&self) -> usize {
        match self {
            LinkCarrier::List(list) => list.len(),
            LinkCarrier::Ring(ring) => ring.len(),
        }
    }

    fn is_empty(&self) -> bool {
        match self {
            LinkCarrier::List(list) => list.is_empty(),
            LinkCarrier::Ring(ring) => ring.is_empty(),
        }
    }

    ghost room_holds_nothing = { either_room };

    ghost put_only_loses = { either_puts };

    ghost take_is_in_order = { either_takes };

    ghost lose_only_loses = { either_loses };
}
