//! A link of a fixed size, which drops its oldest item where one more is put than it holds.
ghost use Rattle.std.specs.Prelude.{◌≡◌, ◌≢◌, ◌↔◌, ◌⊎◌, ◌+◌, ◌<◌, ◌≤◌, ℕ, Bool, List, [], ◌∷◌, ◌++◌, length, take, drop, remove, nat_lt, Err, IfOk, IfErr};
ghost use Rattle.tc_types.specs.declared.refusals.Refusal.TheVariants.{BadDirective, Memory};
ghost use Rattle.tc_world.specs.declared.configs.TheConstants.{GREATEST_RING};
ghost use Rattle.tc_world.specs.Sublist.{IsSublist};

use crate::carriers::Carrier;
use crate::configs::GREATEST_RING;
use circular_buffer::HeapCircularBuffer;
use std::alloc::{AllocError, Allocator};
use std::marker::Model;
use tc_types::Refusal;

/// A link that holds so many items and no more: a put into a full one drops the oldest. All its memory is taken by `new`.
/// A contract sees what is in flight, and the size.
#[derive(Drop)]
pub struct RingCarrier<T: Drop, A: Allocator> {
    items: HeapCircularBuffer<T, A>,
}

impl<T: Drop, A: Allocator> Model for RingCarrier<T, A> {
    ghost use Rattle.std.specs.Prelude.{◌≤◌, length};
    ghost use Rattle.tc_world.specs.declared.configs.TheConstants.{GREATEST_RING};
    ghost use Rattle.tc_world.specs.Rings.{Ringed};

    ghost Value = { Ringed T };

    ghost view = { λ c. record { content = c.items.items; size = c.items.capacity } };

    ghost invariant = { λ c. (1 ≤ c.items.capacity) × (c.items.capacity ≤ GREATEST_RING) × (length c.items.items ≤ c.items.capacity) };
}

impl<T: Drop, A: Allocator> RingCarrier<T, A> {
    /// A ring with nothing in flight, for 1 to 4,096 items, else `BadDirective`. `Memory` where its memory is refused.
    pub fn new(alloc: A, size: u32) -> Result<Self, Refusal>
        ensures ring { IfOk result (λ ring. (ring.content ≡ []) × (ring.size ≡ size)) }
        ensures bad { (result ≡ Err BadDirective) ↔ ((size ≡ 0) ⊎ (GREATEST_RING < size)) }
        ensures memory { IfErr result (λ e. e ≢ BadDirective → e ≡ Memory) }
    {
        if size == 0 || size > GREATEST_RING {
            return Err(Refusal::BadDirective);
        }
        let items = HeapCircularBuffer::with_capacity(alloc, size as usize)?;
        Ok(RingCarrier { items })
    }
}

/// Moves so many items from the front to the back, one after the other.
fn turn<T: Drop, A: Allocator>(ring: &mut HeapCircularBuffer<T, A>, count: usize)
    requires { count ≤ length ring.old.items }
    ensures items { ring.new.items ≡ drop count ring.old.items ++ take count ring.old.items }
    ensures capacity { ring.new.capacity ≡ ring.old.capacity }
{
    let _within = ring.len(); // read for what it tells the prover alone
    for _ in 0..count {
        if let Some(item) = ring.pop_front() {
            ring.push_back(item);
        }
    }
}

/// Removes the item at a place, from 0 for the front, where there is one, and says whether there was.
fn remove_at<T: Drop, A: Allocator>(ring: &mut HeapCircularBuffer<T, A>, place: usize) -> bool
    ensures there { result ≡ nat_lt place (length ring.old.items) }
    ensures items { ring.new.items ≡ remove ring.old.items place }
    ensures capacity { ring.new.capacity ≡ ring.old.capacity }
{
    let count = ring.len();
    if place >= count {
        return false;
    }
    turn(ring, place);
    ring.pop_front();
    turn(ring, count - 1 - place);
    true
}

impl<T: Drop, A: Allocator> Carrier<T> for RingCarrier<T, A> {
    ghost use Rattle.std.specs.Prelude.{◌≡◌, ◌-◌, ◌^◌, ℕ, Bool, List, [], ◌∷◌, ◌++◌, length, remove, nat_lt};
    ghost use Rattle.std.proofs.Common.{refl};
    ghost use Rattle.tc_world.specs.Rings.{ringed, ringed_puts, ringed_takes, ringed_loses};

    ghost kind = { ringed };

    // a put always has its room
    ghost covered = { λ c. 2 ^ 64 - 1 };

    fn reserve(&mut self, _count: usize) -> Result<(), AllocError> {
        Ok(())
    }

    fn put(&mut self, item: T) {
        self.items.push_back(item);
    }

    fn take(&mut self) -> Option<T> {
        self.items.pop_front()
    }

    fn lose(&mut self, place: usize) -> bool {
        remove_at(&mut self.items, place)
    }

    fn len(&self) -> usize {
        self.items.len()
    }

    fn is_empty(&self) -> bool {
        self.items.is_empty()
    }

    ghost room_holds_nothing = { λ link. refl };

    ghost put_only_loses = { ringed_puts };

    ghost take_is_in_order = { ringed_takes };

    ghost lose_only_loses = { ringed_loses };
}
