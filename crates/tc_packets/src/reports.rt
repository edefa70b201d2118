//! Telemetry reports as they are written.
ghost use Rattle.std.specs.Prelude.{◌≡◌, ◌++◌, ◌≤◌, ◌↔◌, All, IfOk, IsTrue, OnOk, length, true};
ghost use Rattle.std.specs.List.{flat_map};
ghost use Rattle.tc_types.specs.Limits.{most_activities};
ghost use Rattle.tc_octets.specs.TcFrames.{closed};
ghost use Rattle.tc_packets.specs.Times.{HasTime};
ghost use Rattle.tc_packets.specs.Reports.{IsListed, IsReportable, activity_octets, details_of, report_header, report_of};
ghost use Rattle.tc_packets.specs.Reports.{secondary_header, service_of, source_data, status_of, subtype_of, summary_data};

use crate::identities::{ActivityName, flies, put_name, put_request_id};
use crate::octet_fields::put_pair;
use crate::space_packets::{PacketHeader, PacketType, SequenceFlags, put_header};
use crate::times::{has_time, put_time, time_octets};
use crate::told::{ScheduleSummary, ScheduledActivity, Told};
use std::alloc::{AllocError, Allocator};
use tc_octets::{Profile, crc};
use tc_types::{Apid, Identity, Moment, SequenceCount, Verification};

/// The service type of request verification.
pub(crate) const VERIFICATION: u8 = 1;

/// The service type of the schedule on board.
pub(crate) const SCHEDULE: u8 = 11;

/// The subtype of the schedule's summary report.
pub(crate) const SUMMARY: u8 = 13;

/// PUS version 2, time reference status 0.
const PUS: u8 = 0x20;

/// The octets of a secondary header before its time.
pub(crate) const SECONDARY: usize = 7;

/// The octets of a CRC.
pub(crate) const CRC: usize = 2;

/// Returns whether a summary can list an activity.
fn is_listed(profile: &Profile, activity: &ScheduledActivity) -> bool
    ensures { IsTrue result ↔ IsListed profile.now activity.now }
{
    has_time(profile, activity.time) && flies(activity.identity)
}

/// Returns whether a summary can list all these activities.
fn are_listed(profile: &Profile, activities: &[ScheduledActivity]) -> bool
    ensures { IsTrue result ↔ All (IsListed profile.now) activities.now }
{
    activities
        .iter()
        .all(|activity| is_listed(profile, activity))
}

/// Returns whether a report can tell this: the requests fly (`flies`), and the release times have octets (`has_time`).
pub fn is_reportable(profile: &Profile, told: &Told) -> bool
    ensures { IsTrue result ↔ IsReportable profile.now told.now }
{
    match told {
        Told::Verification { request, .. } => flies(*request),
        Told::Summary(summary) => are_listed(profile, summary.activities.as_slice()),
    }
}

/// Appends the CRC-16 of the octets before it.
fn put_crc<A: Allocator + Copy>(out: &mut Vec<u8, A>) -> Result<(), AllocError>
    ensures { OnOk result (out.new.items ≡ closed true out.old.items) }
{
    let check = crc(out);
    put_pair(out, check)
}

/// Returns the service type of a report.
fn service_of(told: &Told) -> u8
    ensures { result ≡ service_of told.now }
{
    match told {
        Told::Verification { .. } => VERIFICATION,
        Told::Summary(_) => SCHEDULE,
    }
}

/// Returns the subtype of a report.
fn subtype_of(told: &Told) -> u8
    ensures { result ≡ subtype_of told.now }
{
    match told {
        Told::Verification { verification, .. } => verification.subtype(),
        Told::Summary(_) => SUMMARY,
    }
}

/// Appends what follows the request id of a verification report.
fn put_details<A: Allocator + Copy>(
    out: &mut Vec<u8, A>,
    verification: &Verification,
) -> Result<(), AllocError>
    ensures { OnOk result (out.new.items ≡ out.old.items ++ details_of verification.now) }
{
    match verification {
        Verification::Accepted | Verification::Started | Verification::Completed => {}
        Verification::AcceptanceFailed { code }
        | Verification::StartFailed { code }
        | Verification::CompletionFailed { code } => out.push(*code)?,
        Verification::StepDone { step } => out.push(*step)?,
        Verification::StepFailed { step, code } => {
            out.push(*step)?;
            out.push(*code)?;
        }
    }
    Ok(())
}

/// Returns how many octets follow the request id of a verification report.
fn details_octets(verification: &Verification) -> usize
    ensures octets { result ≡ length (details_of verification.now) }
    ensures few { result ≤ 2 }
{
    match verification {
        Verification::Accepted | Verification::Started | Verification::Completed => 0,
        Verification::AcceptanceFailed { .. }
        | Verification::StartFailed { .. }
        | Verification::StepDone { .. }
        | Verification::CompletionFailed { .. } => 1,
        Verification::StepFailed { .. } => 2,
    }
}

/// Appends an activity of our source.
fn put_activity<A: Allocator + Copy>(
    out: &mut Vec<u8, A>,
    profile: &Profile,
    activity: &ScheduledActivity,
) -> Result<(), AllocError>
    requires { IsListed profile.now activity.now }
    ensures { OnOk result (out.new.items ≡ out.old.items ++ activity_octets profile.now activity.now) }
{
    put_time(out, profile, activity.time)?;
    let name = ActivityName {
        source: profile.source,
        identity: activity.identity,
    };
    put_name(out, &name)
}

/// Appends activities of our source, one after another.
fn put_activities<A: Allocator + Copy>(
    out: &mut Vec<u8, A>,
    profile: &Profile,
    activities: &[ScheduledActivity],
) -> Result<(), AllocError>
    requires { All (IsListed profile.now) activities.now }
    ensures { OnOk result (out.new.items ≡ out.old.items ++ flat_map (activity_octets profile.now) activities.now) }
{
    for activity in activities {
        put_activity(out, profile, activity)?;
    }
    Ok(())
}

/// Returns how many octets so many activities of our source have.
fn activities_octets(profile: &Profile, activities: &[ScheduledActivity]) -> usize
    requires { length activities.now ≤ most_activities }
    ensures octets { result ≡ length (flat_map (activity_octets profile.now) activities.now) }
    ensures few { result ≤ 768 }
{
    if profile.fine {
        activities.len() * 12
    } else {
        activities.len() * 10
    }
}

/// Appends the status of the schedule, if it is told.
fn put_status<A: Allocator + Copy>(
    out: &mut Vec<u8, A>,
    enabled: Option<bool>,
) -> Result<(), AllocError>
    ensures { OnOk result (out.new.items ≡ out.old.items ++ status_of enabled) }
{
    match enabled {
        None => {}
        Some(enabled) => out.push(u8::from(enabled))?,
    }
    Ok(())
}

/// Returns how many octets the status of the schedule has.
fn status_octets(enabled: Option<bool>) -> usize
    ensures octets { result ≡ length (status_of enabled) }
    ensures few { result ≤ 1 }
{
    match enabled {
        None => 0,
        Some(_) => 1,
    }
}

/// Appends the source data of a summary.
fn put_summary<A: Allocator + Copy>(
    out: &mut Vec<u8, A>,
    profile: &Profile,
    summary: &ScheduleSummary,
) -> Result<(), AllocError>
    requires listed { All (IsListed profile.now) summary.now.activities }
    requires few { length summary.now.activities ≤ most_activities }
    ensures { OnOk result (out.new.items ≡ out.old.items ++ summary_data profile.now summary.now) }
{
    let activities = summary.activities.as_slice();
    out.push(activities.len() as u8)?;
    put_activities(out, profile, activities)?;
    put_status(out, summary.enabled)
}

/// Appends the source data of a report.
fn put_source_data<A: Allocator + Copy>(
    out: &mut Vec<u8, A>,
    profile: &Profile,
    told: &Told,
) -> Result<(), AllocError>
    requires { IsReportable profile.now told.now }
    ensures { OnOk result (out.new.items ≡ out.old.items ++ source_data profile.now told.now) }
{
    match told {
        Told::Verification {
            verification,
            request,
        } => {
            put_request_id(out, *request)?;
            put_details(out, verification)
        }
        Told::Summary(summary) => put_summary(out, profile, summary),
    }
}

/// Returns how many octets the source data of a report have, at most 770.
fn source_octets(profile: &Profile, told: &Told) -> usize
    requires { IsReportable profile.now told.now }
    ensures octets { result ≡ length (source_data profile.now told.now) }
    ensures few { result ≤ 770 }
{
    match told {
        Told::Verification { verification, .. } => 4 + details_octets(verification),
        Told::Summary(summary) => {
            1 + activities_octets(profile, summary.activities.as_slice())
                + status_octets(summary.enabled)
        }
    }
}

/// Appends the secondary header of a report (ECSS-E-ST-70-41C, 7.4.3). Messages are not counted.
fn put_secondary_header<A: Allocator + Copy>(
    out: &mut Vec<u8, A>,
    profile: &Profile,
    now: Moment,
    told: &Told,
) -> Result<(), AllocError>
    requires { HasTime profile.now.epoch now }
    ensures { OnOk result (out.new.items ≡ out.old.items ++ secondary_header profile.now now told.now) }
{
    let front = [PUS, service_of(told), subtype_of(told), 0, 0];
    out.extend_from_slice(&front)?;
    put_pair(out, profile.source)?;
    put_time(out, profile, now)
}

/// Returns the primary header of a report.
fn report_header(profile: &Profile, count: SequenceCount) -> PacketHeader
    ensures { result ≡ report_header profile.now count }
{
    PacketHeader {
        kind: PacketType::Telemetry,
        secondary: true,
        identity: Identity {
            apid: Apid::new(profile.apid).unwrap(),
            count,
        },
        sequence: SequenceFlags::Unsegmented,
    }
}

/// Returns the octets of a telemetry report (ECSS-E-ST-70-41C, 7.4.3, 8.1.2, 8.11.2).
///
/// `count` is the sequence count of its packet, and `now` the time on board.
/// The time has to have octets (`has_time`), and the contents to be reportable (`is_reportable`).
///
/// # Errors
///
/// Fails if memory is refused.
pub fn report<A: Allocator + Copy>(
    alloc: A,
    profile: &Profile,
    count: SequenceCount,
    now: Moment,
    told: &Told,
) -> Result<Vec<u8, A>, AllocError>
    requires timely { HasTime profile.now.epoch now }
    requires reported { IsReportable profile.now told.now }
    ensures { IfOk result (λ octets. octets.items ≡ report_of profile.now count now told.now) }
{
    let mut octets = Vec::new(alloc);
    let field = SECONDARY + time_octets(profile) + source_octets(profile, told) + CRC;
    put_header(&mut octets, &report_header(profile, count), field)?;
    put_secondary_header(&mut octets, profile, now, told)?;
    put_source_data(&mut octets, profile, told)?;
    put_crc(&mut octets)?;
    Ok(octets)
}
