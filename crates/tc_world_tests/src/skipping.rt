//! A link that loses one item where two or more stand at a take. Up to `put` it is written as `ListCarrier` of tc_world is, since
//! a link of the tests stands on none that is tested.
ghost use Rattle.std.specs.Prelude.{◌≡◌, ◌+◌, ◌-◌, ◌≤◌, []};

use std::alloc::{AllocError, Allocator};
use std::collections::VecDeque;
use std::marker::Model;
use tc_world::Carrier;

/// A link that skips: where two or more items are in flight, a take drops the oldest and gives the one behind it. A
/// contract sees what is in flight, and the room there is.
#[derive(Drop)]
pub struct SkippingCarrier<T: Drop, A: Allocator> {
    items: VecDeque<T, A>,
}

impl<T: Drop, A: Allocator> Model for SkippingCarrier<T, A> {
    ghost use Rattle.std.specs.Prelude.{◌-◌};
    ghost use Rattle.std.specs.VecDeque.{deque_len, deque_capacity};
    ghost use Rattle.tc_world.specs.InFlight.{InFlight};

    ghost Value = { InFlight T };

    ghost view = { λ c. record { content = c.items.items; covered = deque_capacity c.items - deque_len c.items } };
}

impl<T: Drop, A: Allocator> SkippingCarrier<T, A> {
    /// A link with nothing in flight.
    pub fn new(alloc: A) -> Self
        ensures { result.content ≡ [] }
    {
        SkippingCarrier {
            items: VecDeque::new(alloc),
        }
    }
}

impl<T: Drop, A: Allocator> Carrier<T> for SkippingCarrier<T, A> {
    ghost use Rattle.std.proofs.Common.{refl, subst, sym};
    ghost use Rattle.std.specs.Prelude.{◌≡◌, ℕ, Bool, List, [], ◌∷◌, ◌++◌, length, remove, nat_lt};
    ghost use Rattle.tc_world.specs.Sublist.{IsSublist, IsSublist-same, IsSublist-remove};
    ghost use Rattle.tc_world.specs.Links.{Kind};
    ghost use Rattle.tc_world_tests.specs.Skips.{Skips, skips-in_order};

    // a put is behind the others, and all stay; a take skips the oldest where another stands behind it; that one item is
    // lost, and past the end nothing is, and the answer is false
    ghost kind = { record {
      content = λ c. c.content;
      without_room = λ c. record c { covered = 0 };
      puts = λ old item new. new.content ≡ old.content ++ item ∷ [];
      takes = λ old item new. Skips old.content item new.content;
      loses = λ old place answer new. (answer ≡ nat_lt place (length old.content)) × (new.content ≡ remove old.content place);
    } };

    ghost covered = { λ c. c.covered };

    fn reserve(&mut self, count: usize) -> Result<(), AllocError> {
        self.items.reserve(count)
    }

    fn put(&mut self, item: T) {
        self.items.push_back_reserved(item);
    }

    fn take(&mut self) -> Option<T> {
        let oldest = self.items.pop_front();
        match self.items.pop_front() {
            Some(second) => Some(second),
            None => oldest,
        }
    }

    fn lose(&mut self, place: usize) -> bool {
        self.items.remove(place).is_some()
    }

    fn len(&self) -> usize {
        self.items.len()
    }

    fn is_empty(&self) -> bool {
        self.items.is_empty()
    }

    ghost room_holds_nothing = { λ link. refl };

    ghost put_only_loses = { λ old new item e. subst (λ xs. IsSublist xs (old.content ++ item ∷ [])) (sym e) (IsSublist-same (old.content ++ item ∷ [])) };

    ghost take_is_in_order = { λ old new item e. skips-in_order old.content item new.content e };

    ghost lose_only_loses = { λ old new place answer e. subst (λ xs. IsSublist xs old.content) (sym e.1) (IsSublist-remove old.content place) };
}
