//! Telecommand packets.
ghost use Rattle.std.specs.Prelude.{◌≡◌, ◌+◌, ◌++◌, ◌<◌, ◌≤◌, ◌^◌, IfOk, OnOk, flat_map, length};
ghost use Rattle.std.specs.List.{AllByRecursion};
ghost use Rattle.tc_packets.specs.Flights.{Fits, FitsActivity, FitsTask};
ghost use Rattle.tc_packets.specs.Identities.{request_header};
ghost use Rattle.tc_packets.specs.SpacePackets.{header_of};
ghost use Rattle.tc_packets.specs.Telecommands.{ack_bits, activity_of, activity_packet_of, data_of, outcome_part, packet_of, plain_data_of};
ghost use Rattle.tc_packets.specs.Telecommands.{secondary_header_of, service_of, subtype_of, target_of, telecommand_of};

use crate::flights::{Flight, FlightActivity, FlightTask, Plain};
use crate::identities::{ActivityName, put_name};
use crate::octet_fields::put_pair;
use crate::outcomes::put_outcome;
use crate::space_packets::{PacketHeader, PacketType, SequenceFlags, put_header};
use crate::times::{put_offset, put_time};
use std::alloc::{AllocError, Allocator};
use tc_octets::{Profile, crc};
use tc_types::{Ack, Identity, Outcome};

/// The most octets of a telecommand packet: those of an insert of eight activities.
pub const MOST_TELECOMMAND: usize = 958;

/// The octets of a packet's secondary header and its check.
const AROUND_DATA: usize = 7;

/// PUS version 2, before the acknowledgement flags.
const PUS_VERSION: u8 = 0x20;

/// The service of the schedule on board.
pub(crate) const SCHEDULE: u8 = 11;

/// Returns the acknowledgement flags of a request (ECSS-E-ST-70-41C, 7.4.4.1): acceptance is the lowest bit.
fn ack_bits(ack: Ack) -> u8
    ensures value { result ≡ ack_bits ack }
    ensures small { result < 2 ^ 4 }
{
    u8::from(ack.completion) * 8
        + u8::from(ack.progress) * 4
        + u8::from(ack.start) * 2
        + u8::from(ack.acceptance)
}

/// Returns the service type and the message subtype of what a request asks for.
fn message_type(task: &FlightTask) -> (u8, u8)
    ensures { result ≡ (service_of task.now, subtype_of task.now) }
{
    match task {
        FlightTask::Plain(plain) => (plain.service.get(), plain.subtype.get()),
        FlightTask::EnableSchedule => (SCHEDULE, 1),
        FlightTask::DisableSchedule => (SCHEDULE, 2),
        FlightTask::ResetSchedule => (SCHEDULE, 3),
        FlightTask::InsertActivities(_) => (SCHEDULE, 4),
        FlightTask::DeleteActivity { .. } => (SCHEDULE, 5),
        FlightTask::ShiftActivity { .. } => (SCHEDULE, 7),
        FlightTask::ShiftAll { .. } => (SCHEDULE, 15),
        FlightTask::SummarizeAll => (SCHEDULE, 17),
    }
}

/// Adds the five octets of a secondary header (ECSS-E-ST-70-41C, 7.4.4.1).
fn put_secondary_header<A: Allocator + Copy>(
    out: &mut Vec<u8, A>,
    profile: &Profile,
    ack: Ack,
    message_type: (u8, u8),
) -> Result<(), AllocError>
    ensures { OnOk result (out.new.items ≡ out.old.items ++ secondary_header_of profile.now ack message_type.0 message_type.1) }
{
    let (service, subtype) = message_type;
    out.push(PUS_VERSION + ack_bits(ack))?;
    out.push(service)?;
    out.push(subtype)?;
    put_pair(out, profile.source)
}

/// Adds the headers before so many octets of application data.
fn put_headers<A: Allocator + Copy>(
    out: &mut Vec<u8, A>,
    profile: &Profile,
    request: (Identity, Ack),
    message_type: (u8, u8),
    octets: usize,
) -> Result<(), AllocError>
    requires { octets ≤ 1000 }
    ensures { OnOk result (out.new.items ≡ out.old.items
        ++ (header_of (request_header request.0) (7 + octets) ++ secondary_header_of profile.now request.1 message_type.0 message_type.1)) }
{
    let (identity, ack) = request;
    let header = PacketHeader {
        kind: PacketType::Telecommand,
        secondary: true,
        identity,
        sequence: SequenceFlags::Unsegmented,
    };
    put_header(out, &header, AROUND_DATA + octets)?;
    put_secondary_header(out, profile, ack, message_type)
}

/// Returns a packet with such application data, closed by its check.
fn packet<A: Allocator + Copy>(
    alloc: A,
    profile: &Profile,
    request: (Identity, Ack),
    message_type: (u8, u8),
    application: &[u8],
) -> Result<Vec<u8, A>, AllocError>
    requires { length application.now ≤ 1000 }
    ensures { IfOk result (λ octets. octets.items ≡ packet_of profile.now request.0 request.1 message_type.0 message_type.1 application.now) }
{
    let mut octets = Vec::new(alloc);
    put_headers(
        &mut octets,
        profile,
        request,
        message_type,
        application.len(),
    )?;
    octets.extend_from_slice(application)?;
    let check = crc(&octets);
    put_pair(&mut octets, check)?;
    Ok(octets)
}

/// Adds an outcome, if it flies.
fn put_outcome_part<A: Allocator + Copy>(
    out: &mut Vec<u8, A>,
    outcome: Option<Outcome>,
) -> Result<(), AllocError>
    ensures { OnOk result (out.new.items ≡ out.old.items ++ outcome_part outcome) }
{
    match outcome {
        None => Ok(()),
        Some(outcome) => put_outcome(out, outcome),
    }
}

/// Adds the application data of a plain request: its own, and its outcome, if that flies.
fn put_plain<A: Allocator + Copy>(out: &mut Vec<u8, A>, plain: &Plain) -> Result<(), AllocError>
    ensures { OnOk result (out.new.items ≡ out.old.items ++ plain_data_of plain.now) }
{
    out.extend_from_slice(plain.application.as_slice())?;
    put_outcome_part(out, plain.outcome)
}

/// Returns the packet of an activity's request, with a check of its own.
#[tactic(auto, using(crate::proofs::SizeLemmas::plain_small))]
fn activity_packet<A: Allocator + Copy>(
    alloc: A,
    profile: &Profile,
    activity: &FlightActivity,
) -> Result<Vec<u8, A>, AllocError>
    requires { FitsActivity profile.now activity.now }
    ensures { IfOk result (λ octets. octets.items ≡ activity_packet_of profile.now activity.now) }
{
    let plain = &activity.plain;
    let mut application = Vec::new(alloc);
    put_plain(&mut application, plain)?;
    let message_type = (plain.service.get(), plain.subtype.get());
    packet(
        alloc,
        profile,
        (activity.identity, activity.ack),
        message_type,
        &application,
    )
}

/// Adds an activity: its release time, and its packet (ECSS-E-ST-70-41C, 8.11.2.4).
fn put_activity<A: Allocator + Copy>(
    alloc: A,
    out: &mut Vec<u8, A>,
    profile: &Profile,
    activity: &FlightActivity,
) -> Result<(), AllocError>
    requires { FitsActivity profile.now activity.now }
    ensures { OnOk result (out.new.items ≡ out.old.items ++ activity_of profile.now activity.now) }
{
    put_time(out, profile, activity.time)?;
    let octets = activity_packet(alloc, profile, activity)?;
    out.extend_from_slice(&octets)
}

/// Adds activities, one after the other.
#[tactic(auto, using(crate::proofs::ListLemmas::each_here, crate::proofs::ListLemmas::flat_all))]
fn put_activities<A: Allocator + Copy>(
    alloc: A,
    out: &mut Vec<u8, A>,
    profile: &Profile,
    activities: &[FlightActivity],
) -> Result<(), AllocError>
    requires { AllByRecursion (FitsActivity profile.now) activities.now }
    ensures { OnOk result (out.new.items ≡ out.old.items ++ flat_map (activity_of profile.now) activities.now) }
{
    for activity in activities {
        put_activity(alloc, out, profile, activity)?;
    }
    Ok(())
}

/// Adds the name of one activity: how many, which is 1, and the name.
fn put_target<A: Allocator + Copy>(
    out: &mut Vec<u8, A>,
    profile: &Profile,
    target: Identity,
) -> Result<(), AllocError>
    ensures { OnOk result (out.new.items ≡ out.old.items ++ target_of profile.now target) }
{
    out.push(1)?;
    let name = ActivityName {
        source: profile.source,
        identity: target,
    };
    put_name(out, &name)
}

/// Adds the application data of what a request asks for (ECSS-E-ST-70-41C, 8.11.2).
fn put_data<A: Allocator + Copy>(
    alloc: A,
    out: &mut Vec<u8, A>,
    profile: &Profile,
    task: &FlightTask,
) -> Result<(), AllocError>
    requires { FitsTask profile.now task.now }
    ensures { OnOk result (out.new.items ≡ out.old.items ++ data_of profile.now task.now) }
{
    match task {
        FlightTask::Plain(plain) => put_plain(out, plain),
        FlightTask::InsertActivities(activities) => {
            let activities = activities.as_slice();
            out.push(activities.len() as u8)?;
            put_activities(alloc, out, profile, activities)
        }
        FlightTask::DeleteActivity { target } => put_target(out, profile, *target),
        FlightTask::ShiftActivity { target, offset } => {
            put_offset(out, profile, *offset)?;
            put_target(out, profile, *target)
        }
        FlightTask::ShiftAll { offset } => put_offset(out, profile, *offset),
        FlightTask::EnableSchedule
        | FlightTask::DisableSchedule
        | FlightTask::ResetSchedule
        | FlightTask::SummarizeAll => Ok(()),
    }
}

/// Returns the packet of a request.
#[tactic(auto, using(crate::proofs::SizeLemmas::data_small))]
fn request_packet<A: Allocator + Copy>(
    alloc: A,
    profile: &Profile,
    flight: &Flight,
) -> Result<Vec<u8, A>, AllocError>
    requires { Fits profile.now flight.now }
    ensures { IfOk result (λ octets. octets.items ≡ telecommand_of profile.now flight.now) }
{
    let mut application = Vec::new(alloc);
    put_data(alloc, &mut application, profile, &flight.task)?;
    packet(
        alloc,
        profile,
        (flight.identity, flight.ack),
        message_type(&flight.task),
        &application,
    )
}

/// Returns the telecommand packet of a request that fits (ECSS-E-ST-70-41C, 7.4.4), at most 958 octets. Fails if memory is refused.
#[tactic(auto, using(crate::proofs::SizeLemmas::telecommand_short))]
pub fn telecommand<A: Allocator + Copy>(
    alloc: A,
    profile: &Profile,
    flight: &Flight,
) -> Result<Vec<u8, A>, AllocError>
    requires { Fits profile.now flight.now }
    ensures value { IfOk result (λ octets. octets.items ≡ telecommand_of profile.now flight.now) }
    ensures short { IfOk result (λ octets. length octets.items ≤ 958) }
{
    let octets = request_packet(alloc, profile, flight)?;
    Ok(octets)
}
