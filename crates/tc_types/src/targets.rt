//! The requests that a command of the on-board schedule names. A contract sees `Targets` as their list.
ghost use Rattle.std.specs.Prelude.{◌≡◌, ◌≤◌, ◌==◌, ◌↔◌, [], ◌∷◌, length, map, IsSome, IfSome};
ghost use Rattle.std.specs.List.{list_any};
ghost use Rattle.tc_types.specs.Schedule.{targets_of, is_insert, inserted, ridden, has_twice};
ghost use Rattle.tc_types.specs.Inserts.{most_inserted};

use crate::link::inserts::MOST_INSERTED;
use crate::requests::Command;
use crate::rides::Ride;
use std::marker::Model;

/// The numbers of the requests that a command names, in its order; in a stack, their lines. None to eight.
#[derive(Drop)]
pub struct Targets {
    places: [u32; 8],
    count: u8,
}

impl Model for Targets {
    ghost use Rattle.std.specs.Prelude.{◌≡◌, ◌≤◌, ℕ, List, length, take};
    ghost use Rattle.tc_types.specs.Inserts.{most_inserted};

    ghost Value = { List ℕ };

    ghost view = { λ t. take t.count t.places };

    ghost invariant = { λ t. (t.count ≤ most_inserted) × (length t.places ≡ 8) };
}

/// The requests that these activities are.
fn ridden(rides: &[Ride]) -> Targets
    requires { length rides.now ≤ most_inserted }
    ensures { result ≡ map ridden rides.now }
{
    let mut places = [0; MOST_INSERTED];
    for (at, ride) in rides.iter().enumerate() {
        places[at] = ride.target;
    }
    Targets {
        places,
        count: rides.len() as u8,
    }
}

impl Targets {
    /// These numbers; `None` where they are more than eight.
    pub fn of(numbers: &[u32]) -> Option<Targets>
        ensures found { IsSome result ↔ (length numbers.now ≤ most_inserted) }
        ensures value { IfSome result (λ t. t ≡ numbers.now) }
    {
        if numbers.len() > MOST_INSERTED {
            return None;
        }
        let mut places = [0; MOST_INSERTED];
        places[..numbers.len()].copy_from_slice(numbers);
        Some(Targets {
            places,
            count: numbers.len() as u8,
        })
    }

    /// No number.
    fn none() -> Targets
        ensures { result ≡ [] }
    {
        Targets {
            places: [0; MOST_INSERTED],
            count: 0,
        }
    }

    /// This number alone.
    fn one(number: u32) -> Targets
        ensures { result ≡ number ∷ [] }
    {
        Targets {
            places: [number; MOST_INSERTED],
            count: 1,
        }
    }

    /// Them, in order.
    pub fn as_slice(&self) -> &[u32]
        ensures targets { result.now ≡ self.now }
        ensures few { length self.now ≤ most_inserted }
    {
        &self.places[..usize::from(self.count)]
    }

    /// Whether one of them stands there twice.
    pub fn has_twice(&self) -> bool
        ensures { result ≡ has_twice self.now }
    {
        has_twice(self.as_slice())
    }
}

/// Whether a number is among these.
fn has(numbers: &[u32], n: u32) -> bool
    ensures { result ≡ list_any (λ m. m == n) numbers.now }
{
    numbers.iter().any(|m| *m == n)
}

/// Whether a number stands twice among these.
fn has_twice(numbers: &[u32]) -> bool
    ensures { result ≡ has_twice numbers.now }
{
    for index in 0..numbers.len() {
        if has(&numbers[index + 1..], numbers[index]) {
            return true;
        }
    }
    false
}

impl Command {
    /// Whether it inserts activities.
    pub fn is_insert(&self) -> bool
        ensures { result ≡ is_insert self.now }
    {
        matches!(self, Command::InsertActivities(_))
    }

    /// The requests that it names, in its order; in a stack, their lines.
    pub fn targets(&self) -> Targets
        ensures { result ≡ targets_of self.now }
    {
        match self {
            Command::InsertActivities(rides) => ridden(rides.as_slice()),
            Command::DeleteActivity { target } | Command::ShiftActivity { target, .. } => {
                Targets::one(*target)
            }
            Command::Plain { .. }
            | Command::EnableSchedule
            | Command::DisableSchedule
            | Command::ResetSchedule
            | Command::ShiftAll { .. }
            | Command::SummarizeAll => Targets::none(),
        }
    }

    /// The requests that it puts into the schedule, in its order.
    pub fn inserted(&self) -> Targets
        ensures { result ≡ inserted self.now }
    {
        if self.is_insert() {
            self.targets()
        } else {
            Targets::none()
        }
    }
}
