//! The reader of telemetry packets.
ghost use Rattle.std.specs.Prelude.{◌≡◌, ◌+◌, ◌++◌, ◌∷◌, ◌<◌, ◌≤◌, ◌↔◌, [], IsTrue, length, Option, Some, Bool};
ghost use Rattle.std.specs.List.{filter_map};
ghost use Rattle.std.specs.Option.{MatchOption};
ghost use Rattle.tc_types.specs.Limits.{most_activities};
ghost use Rattle.tc_octets.specs.declared.profiles.Profile.{Profile as SomeProfile};
ghost use Rattle.tc_octets.specs.CrcLaws.{IsDamaged};
ghost use Rattle.tc_packets.specs.ReportLaws.{IsNoReport, ReportReadsBack};
ghost use Rattle.tc_packets.specs.Reports.{status_of};
ghost use Rattle.tc_packets.specs.ReportReaders.{Entry as SomeEntry, HasNoEntries, HasRoom, IsEntry, IsKnown, IsOurs, IsReportHeader};
ghost use Rattle.tc_packets.specs.ReportReaders.{IsSound, Judges, Lists, ReadsDetails, ReadsField, ReadsReport, ReadsSource, entry_length};
ghost use Rattle.tc_packets.specs.ReportReaders.{our_activity, source_data_in};

use crate::identities::{ActivityName, NAME, REQUEST_ID, read_name, read_request_id};
use crate::octet_fields::pair_in;
use crate::reports::{CRC, SCHEDULE, SECONDARY, SUMMARY, VERIFICATION};
use crate::space_packets::{
    IDLE_APID, PacketHeader, PacketType, SequenceFlags, SpaceFault, SpacePacket, read_space_packet,
};
use crate::times::{read_time, time_octets};
use crate::told::{
    Heard, HeardReport, ReportFault, ScheduleSummary, ScheduledActivities, ScheduledActivity, Told,
};
use tc_octets::{Profile, crc};
use tc_types::{Identity, MOST_ACTIVITIES, Moment, Verification};

/// The PUS version of ECSS-E-ST-70-41C.
const PUS_VERSION: u8 = 2;

/// Reads what follows the request id of a verification report of this subtype.
fn details_in(subtype: u8, octets: &[u8]) -> Option<Verification>
    ensures { ReadsDetails subtype octets.now result }
{
    match (subtype, octets) {
        (1, []) => Some(Verification::Accepted),
        (2, [code, ..]) => Some(Verification::AcceptanceFailed { code: *code }),
        (3, []) => Some(Verification::Started),
        (4, [code, ..]) => Some(Verification::StartFailed { code: *code }),
        (5, [step]) => Some(Verification::StepDone { step: *step }),
        (6, [step, code, ..]) => Some(Verification::StepFailed {
            step: *step,
            code: *code,
        }),
        (7, []) => Some(Verification::Completed),
        (8, [code, ..]) => Some(Verification::CompletionFailed { code: *code }),
        _ => None,
    }
}

/// Reads the source data of a verification report (ECSS-E-ST-70-41C, 8.1.2) of this subtype.
fn verification_in(origin: Identity, subtype: u8, octets: &[u8]) -> Option<HeardReport>
    ensures { (profile : SomeProfile) → ReadsSource profile origin 1 subtype octets.now result }
{
    if octets.len() < REQUEST_ID {
        return None;
    }
    let (id, details) = octets.split_at(REQUEST_ID);
    let request = read_request_id(id)?;
    let verification = details_in(subtype, details)?;
    Some(HeardReport {
        origin,
        told: Told::Verification {
            verification,
            request,
        },
        passed: 0,
    })
}

/// An activity as a summary lists it, of whatever source.
#[derive(Drop)]
struct Entry {
    /// Its release time.
    time: Moment,
    /// Its name.
    name: ActivityName,
}

/// The activities that were read so far.
#[derive(Drop)]
struct Listing {
    /// Those of our source.
    activities: ScheduledActivities,
    /// How many of other sources were passed over.
    passed: u8,
}

/// Reads an activity of a summary.
fn read_entry(profile: &Profile, octets: &[u8]) -> Option<Entry>
    requires { length octets.now ≡ entry_length profile.now }
    ensures { MatchOption result ((entry : SomeEntry) → ¬ IsEntry profile.now octets.now entry)
        (λ entry. IsEntry profile.now octets.now (record { time = entry.time; name = entry.name })) }
{
    let (time, name) = octets.split_at(time_octets(profile));
    Some(Entry {
        time: read_time(profile, time)?,
        name: read_name(name)?,
    })
}

/// Appends an activity of our source, and counts one of another.
fn add_entry(listing: &mut Listing, source: u16, entry: &Entry)
    requires { length listing.old.activities + listing.old.passed < most_activities }
    ensures ours { let it : SomeEntry = record { time = entry.now.time; name = entry.now.name } in
        listing.new.activities ≡ listing.old.activities ++ filter_map (our_activity source) (it ∷ []) }
    ensures all { length listing.new.activities + listing.new.passed ≡ length listing.old.activities + listing.old.passed + 1 }
{
    if entry.name.source == source {
        listing.activities.push(ScheduledActivity {
            time: entry.time,
            identity: entry.name.identity,
        });
    } else {
        listing.passed += 1;
    }
}

/// Reads so many activities into an empty list, and returns the octets after them.
fn entries_in<'a>(
    profile: &Profile,
    number: u8,
    octets: &'a [u8],
    listing: &mut Listing,
) -> Option<&'a [u8]>
    requires few { number ≤ most_activities }
    requires none { listing.old.activities ≡ [] }
    requires passed { listing.old.passed ≡ 0 }
    ensures { MatchOption result (HasNoEntries profile.now number octets.now)
        (λ rest. Lists profile.now number octets.now rest.now listing.new.activities listing.new.passed) }
{
    let each = time_octets(profile) + NAME;
    let mut left = octets;
    for _ in 0..number {
        if left.len() < each {
            return None;
        }
        let (entry, rest) = left.split_at(each);
        let entry = read_entry(profile, entry)?;
        add_entry(listing, profile.source, &entry);
        left = rest;
    }
    Some(left)
}

/// Reads the status of the schedule, which may be missing.
fn status_in(octets: &[u8]) -> Option<Option<bool>>
    ensures { MatchOption result ((enabled : Option Bool) → ¬ (octets.now ≡ status_of enabled)) (λ enabled. octets.now ≡ status_of enabled) }
{
    match octets {
        [] => Some(None),
        [0] => Some(Some(false)),
        [1] => Some(Some(true)),
        _ => None,
    }
}

/// Reads the source data of a summary (ECSS-E-ST-70-41C, 8.11.2).
fn summary_in(profile: &Profile, origin: Identity, octets: &[u8]) -> Option<HeardReport>
    ensures { ReadsSource profile.now origin 11 13 octets.now result }
{
    let (number, octets) = octets.split_first()?;
    if usize::from(*number) > MOST_ACTIVITIES {
        return None;
    }
    let mut listing = Listing {
        activities: ScheduledActivities::new(),
        passed: 0,
    };
    let rest = entries_in(profile, *number, octets, &mut listing)?;
    let enabled = status_in(rest)?;
    let Listing { activities, passed } = listing;
    Some(HeardReport {
        origin,
        told: Told::Summary(ScheduleSummary {
            enabled,
            activities,
        }),
        passed,
    })
}

/// Returns whether a report of this type is read.
fn is_known(service: u8, subtype: u8) -> bool
    ensures { IsTrue result ↔ IsKnown service subtype }
{
    (service == VERIFICATION && 1 <= subtype && subtype <= 8)
        || (service == SCHEDULE && subtype == SUMMARY)
}

/// Returns whether a data field is of a report for the desk.
fn is_ours(profile: &Profile, field: &[u8]) -> bool
    requires { HasRoom profile.now field.now }
    ensures { IsTrue result ↔ IsOurs profile.now field.now }
{
    pair_in(field, 5) == profile.source && is_known(field[1], field[2])
}

/// Returns the source data in a data field.
fn source_data_in<'a>(profile: &Profile, field: &'a [u8]) -> &'a [u8]
    requires { HasRoom profile.now field.now }
    ensures { result.now ≡ source_data_in profile.now field.now }
{
    &field[SECONDARY + time_octets(profile)..field.len() - CRC]
}

/// Reads the report in a data field.
fn report_in(profile: &Profile, origin: Identity, field: &[u8]) -> Option<HeardReport>
    requires room { HasRoom profile.now field.now }
    requires ours { IsOurs profile.now field.now }
    ensures { ReadsField profile.now origin field.now result }
{
    let octets = source_data_in(profile, field);
    if field[1] == SCHEDULE {
        return summary_in(profile, origin, octets);
    }
    verification_in(origin, field[2], octets)
}

/// Returns whether a header is a report's.
fn is_report_header(header: &PacketHeader) -> bool
    ensures { IsTrue result ↔ IsReportHeader header.now }
{
    header.kind == PacketType::Telemetry
        && header.secondary
        && header.sequence == SequenceFlags::Unsegmented
}

/// Returns what a sound packet tells.
fn heard_in(profile: &Profile, octets: &[u8], packet: &SpacePacket) -> Result<Heard, ReportFault>
    requires { IsSound profile.now octets.now packet.now.header packet.now.field.now }
    ensures { Judges profile.now octets.now packet.now.header packet.now.field.now result }
{
    let field = packet.field;
    if !is_ours(profile, field) {
        return Ok(Heard::Other {
            service: field[1],
            subtype: field[2],
        });
    }
    match report_in(profile, packet.header.identity, field) {
        Some(report) => Ok(Heard::Report(report)),
        None => Err(ReportFault::Data),
    }
}

/// Judges a space packet, by steps.
fn judge(profile: &Profile, octets: &[u8], packet: &SpacePacket) -> Result<Heard, ReportFault>
    ensures { Judges profile.now octets.now packet.now.header packet.now.field.now result }
{
    let identity = packet.header.identity;
    if identity.apid.get() == IDLE_APID {
        return Ok(Heard::Idle);
    }
    if !is_report_header(&packet.header) {
        return Err(ReportFault::Header);
    }
    if packet.field.len() < SECONDARY + time_octets(profile) + CRC {
        return Err(ReportFault::Length);
    }
    if crc(octets) != 0 {
        return Err(ReportFault::Check);
    }
    if packet.field[0] / 0x10 != PUS_VERSION {
        return Err(ReportFault::Header);
    }
    heard_in(profile, octets, packet)
}

/// Reads a telemetry packet, or names the first fault.
fn answer_of(profile: &Profile, octets: &[u8]) -> Result<Heard, ReportFault>
    ensures { ReadsReport profile.now octets.now result }
{
    match read_space_packet(octets) {
        Ok(packet) => judge(profile, octets, &packet),
        Err(SpaceFault::Length) => Err(ReportFault::Length),
        Err(SpaceFault::Version) => Err(ReportFault::Version),
    }
}

/// Reads a telemetry packet (ECSS-E-ST-70-41C, 7.4.3): a report for the desk, an idle packet, or a packet that is not for the desk. Takes no memory.
///
/// Activities of other sources in a summary are passed over and counted. Octets after the code of a failure report are ignored.
///
/// # Errors
///
/// The first of these that applies: `Length`, `Version`, `Header`, `Length` (too few octets for a report's headers), `Check`,
/// `Header` (another PUS version), `Data`. An idle packet is told after `Version`, and a packet that is not for the desk before `Data`.
#[tactic(auto, using(crate::proofs::ReportOneLemmas::reads_back, crate::proofs::ReportOneLemmas::damaged_refused))]
pub fn read_report(profile: &Profile, octets: &[u8]) -> Result<Heard, ReportFault>
    ensures value { ReadsReport profile.now octets.now result }
    ensures back { ReportReadsBack profile.now octets.now result }
    ensures damaged { IsDamaged octets.now → IsNoReport result }
{
    answer_of(profile, octets)
}
