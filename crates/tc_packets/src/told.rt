//! The contents of telemetry reports.
ghost use Rattle.std.specs.Prelude.{◌≡◌, ◌<◌, ◌≤◌, ◌↔◌, [], ◌∷◌, ◌++◌, IsTrue, length};
ghost use Rattle.tc_types.specs.Limits.{most_activities};

use std::marker::Model;
use tc_types::{Apid, Identity, MOST_ACTIVITIES, Moment, SequenceCount, Verification};

/// An activity of the on-board schedule, as a summary lists it.
#[derive(Clone, Copy, Debug, PartialEq, Eq)]
pub struct ScheduledActivity {
    /// Its release time.
    pub time: Moment,
    /// The name of its request on board.
    pub identity: Identity,
}

/// The activities of a summary, 0 to 64, in its order. A contract sees their list.
#[derive(Debug, Drop)]
pub struct ScheduledActivities {
    places: [ScheduledActivity; 64],
    count: u8,
}

impl Model for ScheduledActivities {
    ghost use Rattle.std.specs.Prelude.{◌≡◌, ◌≤◌, List, length, take};
    ghost use Rattle.tc_packets.specs.declared.told.ScheduledActivity.{ScheduledActivity};
    ghost use Rattle.tc_types.specs.Limits.{most_activities};

    ghost Value = { List ScheduledActivity };

    ghost view = { λ a. take a.count a.places };

    ghost invariant = { λ a. (a.count ≤ most_activities) × (length a.places ≡ most_activities) };
}

impl ScheduledActivities {
    /// Returns an empty list.
    pub fn new() -> ScheduledActivities
        ensures { result ≡ [] }
    {
        let nobody = Identity {
            apid: Apid::new(0).unwrap(),
            count: SequenceCount::new(0).unwrap(),
        };
        let nothing = ScheduledActivity {
            time: Moment::new(0).unwrap(),
            identity: nobody,
        };
        ScheduledActivities {
            places: [nothing; MOST_ACTIVITIES],
            count: 0,
        }
    }

    /// Returns whether the list has fewer than 64 activities.
    pub fn has_room(&self) -> bool
        ensures { IsTrue result ↔ (length self.now < most_activities) }
    {
        usize::from(self.count) < MOST_ACTIVITIES
    }

    /// Appends an activity to a list of fewer than 64 (`has_room`).
    pub fn push(&mut self, activity: ScheduledActivity)
        requires { length self.old < most_activities }
        ensures { self.new ≡ self.old ++ activity ∷ [] }
    {
        self.places[usize::from(self.count)] = activity;
        self.count += 1;
    }

    /// Returns the activities, in order.
    pub fn as_slice(&self) -> &[ScheduledActivity]
        ensures activities { result.now ≡ self.now }
        ensures few { length self.now ≤ most_activities }
    {
        &self.places[..usize::from(self.count)]
    }
}

/// The summary of the on-board schedule.
#[derive(Debug, Drop)]
pub struct ScheduleSummary {
    /// Whether the schedule is enabled; `None` if the spacecraft does not report it.
    pub enabled: Option<bool>,
    /// The activities.
    pub activities: ScheduledActivities,
}

/// The content of a telemetry report.
#[derive(Debug, Drop)]
pub enum Told {
    /// TM[1,1] to TM[1,8]: how a request fares (ECSS-E-ST-70-41C, 8.1.2).
    Verification {
        /// The stage, whether it failed, the step and the code.
        verification: Verification,
        /// The request.
        request: Identity,
    },
    /// TM[11,13]: the summary of the on-board schedule (ECSS-E-ST-70-41C, 8.11.2).
    Summary(ScheduleSummary),
}

/// A report as it was read.
#[derive(Debug, Drop)]
pub struct HeardReport {
    /// The application process that reports, and the sequence count of its packet.
    pub origin: Identity,
    /// Its content.
    pub told: Told,
    /// How many activities of other sources were passed over, 0 to 64.
    pub passed: u8,
}

/// A telemetry packet as it was read.
#[derive(Debug, Drop)]
pub enum Heard {
    /// A report for the desk.
    Report(HeardReport),
    /// An idle packet.
    Idle,
    /// A sound packet that is not for the desk: another destination, or another service and subtype.
    Other {
        /// The service type.
        service: u8,
        /// The message subtype.
        subtype: u8,
    },
}

/// Why octets are no telemetry packet that the desk reads.
#[derive(Clone, Copy, Debug, PartialEq, Eq)]
pub enum ReportFault {
    /// Fewer octets than a packet has, or another number than its length field gives, or too few for a report's headers.
    Length,
    /// The packet version is not 000.
    Version,
    /// A telecommand, no secondary header, a segmented packet, or another PUS version than 2.
    Header,
    /// The CRC-16 of the whole is not 0.
    Check,
    /// Source data of another form than the report's type has.
    Data,
}
