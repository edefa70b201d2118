//! The activities that a person names with one insert (ECSS-E-ST-70-41C, 8.11.2.4). A contract sees `Rides` as their list.
ghost use Rattle.std.specs.Prelude.{◌≡◌, ◌↔◌, ◌∷◌, IsSome, IfSome, length, drop};
ghost use Rattle.std.specs.List.{AllByRecursion};
ghost use Rattle.tc_types.specs.Grammar.{IsRide, AreRides};
ghost use Rattle.tc_types.specs.Inserts.{IsInsert};

use crate::link::inserts::MOST_INSERTED;
use crate::numbers::Moment;
use std::marker::Model;

/// One of the activities that an insert names: a request, and when it is released on board.
#[derive(Clone, Copy, Debug, PartialEq, Eq)]
pub struct Ride {
    /// The request; in a stack, the line of it.
    pub target: u32,
    /// When it is released.
    pub time: Moment,
}

/// The 1 to 8 activities that an insert names, in its order.
///
/// The places behind the last hold the first once more, so that equal lists are equal values.
#[derive(Clone, Copy, Debug, PartialEq, Eq)]
pub struct Rides {
    places: [Ride; 8],
    count: u8,
}

impl Model for Rides {
    ghost use Rattle.std.specs.Prelude.{◌≡◌, ◌≤◌, List, length, take};
    ghost use Rattle.tc_types.specs.declared.rides.Ride.{Ride};
    ghost use Rattle.tc_types.specs.Inserts.{most_inserted, IsInsert, padded};

    ghost Value = { List Ride };

    ghost view = { λ r. take r.count r.places };

    ghost invariant = { λ r. (r.count ≤ most_inserted) × IsInsert (take r.count r.places) × (r.places ≡ padded (take r.count r.places)) × (length r.places ≡ 8) };

    ghost inverse = { λ rides. record { places = padded rides; count = length rides } };
}

/// The numbers of an activity are in their ranges.
fn keeps_ranges(ride: &Ride)
    ensures { IsRide ride.now }
{
    // read for the proof alone
    let Ride { target, time } = ride;
    let _numbers = (*target, time.get());
}

/// The same of each of these.
fn keep_ranges(rides: &[Ride])
    ensures { AllByRecursion IsRide rides.now }
{
    for ride in rides {
        keeps_ranges(ride);
    }
}

impl Rides {
    /// The list of these; `None` unless they are 1 to 8.
    pub fn of(rides: &[Ride]) -> Option<Rides>
        ensures found { IsSome result ↔ IsInsert rides.now }
        ensures value { IfSome result (λ r. r ≡ rides.now) }
    {
        let first = *rides.first()?;
        if rides.len() > MOST_INSERTED {
            return None;
        }
        let mut places = [first; MOST_INSERTED];
        places[..rides.len()].copy_from_slice(rides);
        Some(Rides {
            places,
            count: rides.len() as u8,
        })
    }

    /// Them, in order.
    pub fn as_slice(&self) -> &[Ride]
        ensures rides { result.now ≡ self.now }
        ensures few { IsInsert self.now }
    {
        &self.places[..usize::from(self.count)]
    }

    /// How many they are: 1 to 8.
    pub fn len(&self) -> usize
        ensures count { result ≡ length self.now }
        ensures few { IsInsert self.now }
    {
        usize::from(self.count)
    }

    /// Their numbers are in their ranges: their types keep them. This does nothing; its clause is the law.
    pub fn keep_ranges(&self)
        ensures { AreRides self.now }
    {
        keep_ranges(self.as_slice());
    }

    /// The first of them.
    pub fn first(&self) -> Ride
        ensures { self.now ≡ result ∷ drop 1 self.now }
    {
        self.places[0]
    }
}
