//! What the link tells of one event.
ghost use Rattle.std.specs.Prelude.{◌≡◌, ◌≤◌, [], ◌∷◌, length};
ghost use Rattle.tc_world.specs.World.{told_of_loss};

use crate::events::LinkIndication;
use std::alloc::Allocator;
use std::marker::Model;

/// What the link tells of one event, in order. Nothing and one indication alone want no memory, so that a loss is never
/// refused for what it tells. A contract sees the list.
#[derive(Drop)]
pub struct Indications<A: Allocator + Copy + Drop> {
    listed: Listed<A>,
}

/// One indication, or a list of them.
#[derive(Drop)]
enum Listed<A: Allocator + Copy + Drop> {
    Lone([LinkIndication; 1]),
    Many(Vec<LinkIndication, A>),
}

impl<A: Allocator + Copy + Drop> Model for Indications<A> {
    ghost use Rattle.std.specs.Prelude.{List};
    ghost use Rattle.tc_world.specs.declared.events.LinkIndication.{LinkIndication};
    ghost use Rattle.tc_world.specs.Told.{listed_in};

    ghost Value = { List LinkIndication };

    ghost view = { λ i. listed_in i.listed };
}

impl<A: Allocator + Copy + Drop> Indications<A> {
    /// Nothing is told. It takes no memory.
    pub fn none(alloc: A) -> Indications<A>
        ensures { result ≡ [] }
    {
        Indications {
            listed: Listed::Many(Vec::new(alloc)),
        }
    }

    /// This alone is told. It takes no memory.
    pub(crate) fn lone(indication: LinkIndication) -> Indications<A>
        ensures { result ≡ indication ∷ [] }
    {
        Indications {
            listed: Listed::Lone([indication]),
        }
    }

    /// What is told of a loss: that something was lost, where it was. It takes no memory.
    pub(crate) fn of_loss(alloc: A, found: bool) -> Indications<A>
        ensures value { result ≡ told_of_loss found }
        ensures most { length result ≤ 1 }
    {
        if found {
            return Indications::lone(LinkIndication::Lost);
        }
        Indications::none(alloc)
    }

    /// These are told, in order.
    pub(crate) fn many(all: Vec<LinkIndication, A>) -> Indications<A>
        ensures { result ≡ all.items }
    {
        Indications {
            listed: Listed::Many(all),
        }
    }

    /// What is told, in order.
    pub fn as_slice(&self) -> &[LinkIndication]
        ensures { result.now ≡ self.now }
    {
        match &self.listed {
            Listed::Lone(one) => one.as_slice(),
            Listed::Many(all) => all.as_slice(),
        }
    }
}
