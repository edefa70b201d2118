//! A link that loses only what it is told to lose.
ghost use Rattle.std.specs.Prelude.{◌≡◌, ◌↔◌, ◌+◌, ◌-◌, ◌<◌, ◌≤◌, ℕ, Bool, List, [], ◌∷◌, ◌++◌, length, remove, nat_lt, OnOk, IsOk, IsNone, IfNone, IfSome, IsTrue};
ghost use Rattle.tc_world.specs.Sublist.{IsSublist};

use crate::carriers::Carrier;
use std::alloc::{AllocError, Allocator};
use std::collections::VecDeque;
use std::marker::Model;

/// A link that loses only by `lose`, and only that one item. A contract sees what is in flight, and the room there is.
#[derive(Drop)]
pub struct ListCarrier<T: Drop, A: Allocator> {
    items: VecDeque<T, A>,
}

impl<T: Drop, A: Allocator> Model for ListCarrier<T, A> {
    ghost use Rattle.std.specs.Prelude.{◌-◌};
    ghost use Rattle.std.specs.VecDeque.{deque_len, deque_capacity};
    ghost use Rattle.tc_world.specs.InFlight.{InFlight};

    ghost Value = { InFlight T };

    ghost view = { λ c. record { content = c.items.items; covered = deque_capacity c.items - deque_len c.items } };
}

impl<T: Drop, A: Allocator> ListCarrier<T, A> {
    /// A link with nothing in flight.
    pub fn new(alloc: A) -> Self
        ensures { result.content ≡ [] }
    {
        ListCarrier {
            items: VecDeque::new(alloc),
        }
    }
}

impl<T: Drop, A: Allocator> Carrier<T> for ListCarrier<T, A> {
    ghost use Rattle.std.proofs.Common.{refl};
    ghost use Rattle.std.specs.Prelude.{◌≡◌, ℕ, Bool, List, [], ◌∷◌, ◌++◌, length, remove, nat_lt};
    ghost use Rattle.tc_world.specs.InFlight.{listed, listed_puts, listed_takes, listed_loses};

    ghost kind = { listed };

    ghost covered = { λ c. c.covered };

    fn reserve(&mut self, count: usize) -> Result<(), AllocError> {
        self.items.reserve(count)
    }

    fn put(&mut self, item: T) {
        self.items.push_back_reserved(item);
    }

    fn take(&mut self) -> Option<T> {
        self.items.pop_front()
    }

    fn lose(&mut self, place: usize) -> bool {
        self.items.remove(place).is_some()
    }

    fn len(&self) -> usize {
        self.items.len()
    }

    fn is_empty(&self) -> bool {
        self.items.is_empty()
    }

    ghost room_holds_nothing = { λ link. refl };

    ghost put_only_loses = { listed_puts };

    ghost take_is_in_order = { listed_takes };

    ghost lose_only_loses = { listed_loses };
}
