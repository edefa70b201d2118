//! The activities that one insert carries (ECSS-E-ST-70-41C, 8.11.2.4). A contract sees `Activities` as their list.
ghost use Rattle.std.specs.Prelude.{◌≡◌, ◌↔◌, IsSome, IfSome};
ghost use Rattle.tc_types.specs.Inserts.{IsInsert};

use crate::link::activities::Activity;
use std::marker::Model;

/// How many activities an insert carries at most (this desk's own).
pub const MOST_INSERTED: usize = 8;

/// The 1 to 8 activities that an insert carries, in its order.
///
/// The places behind the last hold the first once more, so that equal lists are equal values.
#[derive(Clone, Copy, Debug, PartialEq, Eq)]
pub struct Activities {
    places: [Activity; 8],
    count: u8,
}

impl Model for Activities {
    ghost use Rattle.std.specs.Prelude.{◌≡◌, ◌≤◌, List, length, take};
    ghost use Rattle.tc_types.specs.declared.link.activities.Activity.{Activity};
    ghost use Rattle.tc_types.specs.Inserts.{most_inserted, IsInsert, padded};

    ghost Value = { List Activity };

    ghost view = { λ a. take a.count a.places };

    ghost invariant = { λ a. (a.count ≤ most_inserted) × IsInsert (take a.count a.places) × (a.places ≡ padded (take a.count a.places)) × (length a.places ≡ 8) };

    ghost inverse = { λ activities. record { places = padded activities; count = length activities } };
}

impl Activities {
    /// The list of these; `None` unless they are 1 to 8.
    pub fn of(activities: &[Activity]) -> Option<Activities>
        ensures found { IsSome result ↔ IsInsert activities.now }
        ensures value { IfSome result (λ a. a ≡ activities.now) }
    {
        let first = *activities.first()?;
        if activities.len() > MOST_INSERTED {
            return None;
        }
        let mut places = [first; MOST_INSERTED];
        places[..activities.len()].copy_from_slice(activities);
        Some(Activities {
            places,
            count: activities.len() as u8,
        })
    }

    /// Them, in order.
    pub fn as_slice(&self) -> &[Activity]
        ensures activities { result.now ≡ self.now }
        ensures few { IsInsert self.now }
    {
        &self.places[..usize::from(self.count)]
    }
}
