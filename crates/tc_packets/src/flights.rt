//! Requests as they fly: what a telecommand packet carries.
ghost use Rattle.std.specs.Prelude.{◌≡◌, ◌↔◌, IsSome, IfSome, IsTrue};
ghost use Rattle.std.specs.List.{AllByRecursion};
ghost use Rattle.tc_types.specs.Inserts.{IsInsert};
ghost use Rattle.tc_packets.specs.Flights.{Fits, FitsActivity, FitsOutcome, FitsPlain, FitsTask};

use crate::application_data::ApplicationData;
use crate::identities::flies;
use crate::times::{fits_offset, has_time};
use std::marker::Model;
use tc_octets::Profile;
use tc_types::{Ack, Identity, MOST_INSERTED, Moment, Offset, Outcome, Service, Subtype};

/// The message of a plain request, of any service but 11 (ECSS-E-ST-70-41C, 5.3.3).
#[derive(Clone, Copy, Debug, PartialEq, Eq)]
pub struct Plain {
    /// The service type.
    pub service: Service,
    /// The message subtype.
    pub subtype: Subtype,
    /// The application data.
    pub application: ApplicationData,
    /// How the rehearsal spacecraft will behave; `None` for a real one.
    pub outcome: Option<Outcome>,
}

/// An activity of an insert: a plain request, and when the schedule releases it (ECSS-E-ST-70-41C, 8.11.2.4).
#[derive(Clone, Copy, Debug, PartialEq, Eq)]
pub struct FlightActivity {
    /// Its release time.
    pub time: Moment,
    /// Its name on board.
    pub identity: Identity,
    /// The reports of success that it asks for.
    pub ack: Ack,
    /// Its message.
    pub plain: Plain,
}

/// The 1 to 8 activities of an insert, in its order.
///
/// The places after the last hold the first once more, so that equal lists are equal values.
#[derive(Clone, Copy, Debug, PartialEq, Eq)]
pub struct FlightActivities {
    places: [FlightActivity; 8],
    count: u8,
}

impl Model for FlightActivities {
    ghost use Rattle.std.specs.Prelude.{◌≡◌, ◌≤◌, List, length, take};
    ghost use Rattle.tc_packets.specs.declared.flights.FlightActivity.{FlightActivity};
    ghost use Rattle.tc_types.specs.Inserts.{most_inserted, IsInsert, padded};

    ghost Value = { List FlightActivity };

    ghost view = { λ a. take a.count a.places };

    ghost invariant = { λ a. (a.count ≤ most_inserted) × IsInsert (take a.count a.places) × (a.places ≡ padded (take a.count a.places))
        × (length a.places ≡ 8) };

    ghost inverse = { λ activities. record { places = padded activities; count = length activities } };
}

/// The task of a request. The schedule's are those of ECSS-E-ST-70-41C, service 11; activities are named as on board.
#[derive(Clone, Copy, Debug, PartialEq, Eq)]
pub enum FlightTask {
    /// Any service but 11.
    Plain(Plain),
    /// TC[11,1] enable the schedule.
    EnableSchedule,
    /// TC[11,2] disable the schedule.
    DisableSchedule,
    /// TC[11,3] reset the schedule.
    ResetSchedule,
    /// TC[11,4] insert these activities.
    InsertActivities(FlightActivities),
    /// TC[11,5] delete the activity `target`.
    DeleteActivity { target: Identity },
    /// TC[11,7] shift the activity `target` in time.
    ShiftActivity { target: Identity, offset: Offset },
    /// TC[11,15] shift all activities in time.
    ShiftAll { offset: Offset },
    /// TC[11,17] report a summary of all activities.
    SummarizeAll,
}

/// A request as it flies.
#[derive(Clone, Copy, Debug, PartialEq, Eq)]
pub struct Flight {
    /// Its name on board.
    pub identity: Identity,
    /// The reports of success that it asks for.
    pub ack: Ack,
    /// Its task.
    pub task: FlightTask,
}

impl FlightActivities {
    /// Returns the list of these; `None` unless they are 1 to 8.
    pub fn of(activities: &[FlightActivity]) -> Option<FlightActivities>
        ensures found { IsSome result ↔ IsInsert activities.now }
        ensures value { IfSome result (λ a. a ≡ activities.now) }
    {
        let first = *activities.first()?;
        if activities.len() > MOST_INSERTED {
            return None;
        }
        let mut places = [first; MOST_INSERTED];
        places[..activities.len()].copy_from_slice(activities);
        Some(FlightActivities {
            places,
            count: activities.len() as u8,
        })
    }

    /// Returns them, in order.
    pub fn as_slice(&self) -> &[FlightActivity]
        ensures activities { result.now ≡ self.now }
        ensures few { IsInsert self.now }
    {
        &self.places[..usize::from(self.count)]
    }
}

/// Returns whether an outcome flies just if the spacecraft is a rehearsal's.
fn fits_outcome(rehearsal: bool, outcome: &Option<Outcome>) -> bool
    ensures { IsTrue result ↔ FitsOutcome rehearsal outcome.now }
{
    match outcome {
        Some(outcome) => {
            outcome.keeps_ranges();
            rehearsal
        }
        None => !rehearsal,
    }
}

/// Returns whether a plain request has octets.
fn fits_plain(profile: &Profile, plain: &Plain) -> bool
    ensures { IsTrue result ↔ FitsPlain profile.now plain.now }
{
    // read for the proof alone
    let _numbers = (plain.service.get(), plain.subtype.get());
    let _octets = plain.application.as_slice().len();
    fits_outcome(profile.rehearsal, &plain.outcome)
}

/// Returns whether an activity has octets.
fn fits_activity(profile: &Profile, activity: &FlightActivity) -> bool
    ensures { IsTrue result ↔ FitsActivity profile.now activity.now }
{
    has_time(profile, activity.time)
        && flies(activity.identity)
        && fits_plain(profile, &activity.plain)
}

/// Returns whether each of these activities has octets.
#[tactic(auto, using(crate::proofs::ListLemmas::each_more, crate::proofs::ListLemmas::each_here, crate::proofs::ListLemmas::each_all))]
fn fit_activities(profile: &Profile, activities: &[FlightActivity]) -> bool
    ensures { IsTrue result ↔ AllByRecursion (FitsActivity profile.now) activities.now }
{
    for at in 0..activities.len() {
        if !fits_activity(profile, &activities[at]) {
            return false;
        }
    }
    true
}

/// Returns whether a task has octets.
fn fits_task(profile: &Profile, task: &FlightTask) -> bool
    ensures { IsTrue result ↔ FitsTask profile.now task.now }
{
    match task {
        FlightTask::Plain(plain) => fits_plain(profile, plain),
        FlightTask::InsertActivities(activities) => fit_activities(profile, activities.as_slice()),
        FlightTask::DeleteActivity { target } => flies(*target),
        FlightTask::ShiftActivity { target, offset } => flies(*target) && fits_offset(*offset),
        FlightTask::ShiftAll { offset } => fits_offset(*offset),
        FlightTask::EnableSchedule
        | FlightTask::DisableSchedule
        | FlightTask::ResetSchedule
        | FlightTask::SummarizeAll => true,
    }
}

/// Returns whether a request can fly under this profile: its numbers have octets, and plain requests have an outcome exactly if outcomes fly.
pub fn fits(profile: &Profile, flight: &Flight) -> bool
    ensures { IsTrue result ↔ Fits profile.now flight.now }
{
    flies(flight.identity) && fits_task(profile, &flight.task)
}
