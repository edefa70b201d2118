//! The readers of application data of telecommand packets.
ghost use Rattle.std.specs.Prelude.{◌≡◌, ◌≤◌, ◌↔◌, IfSome, IsSome, drop, false, length, take, true};
ghost use Rattle.tc_types.specs.Inserts.{IsInsert};
ghost use Rattle.std.specs.Option.{MatchOption};
ghost use Rattle.tc_packets.specs.Times.{time_length};
ghost use Rattle.tc_packets.specs.TelecommandReaders.{BeginsWithNone, BeginsWithPacket, IsBare, Passes, ReadsActivities, ReadsActivity, ReadsParts};
ghost use Rattle.tc_packets.specs.TelecommandReaders.{ReadsPlain, ReadsRequest, ReadsTarget, ReadsTask};

use crate::application_data::ApplicationData;
use crate::flights::{FlightActivities, FlightActivity, FlightTask, Plain};
use crate::identities::{NAME, read_name};
use crate::octet_fields::{octets_before, octets_from};
use crate::outcomes::{OUTCOME, read_outcome};
use crate::space_packets::{HEADER, whole_length};
use crate::telecommand_readers::{ack_in, data_in, header_fault, identity_in};
use crate::telecommands::SCHEDULE;
use crate::times::{read_offset, read_time, time_octets};
use tc_octets::Profile;
use tc_types::{Ack, Identity, MOST_INSERTED, Outcome, Service, Subtype};

/// Returns the application data of a plain request for a real spacecraft: all of these octets.
#[tactic(auto, using(crate::proofs::TaskLemmas::real_none))]
fn real_parts(octets: &[u8]) -> Option<(ApplicationData, Option<Outcome>)>
    ensures { ReadsParts false octets.now result }
{
    Some((ApplicationData::of(octets)?, None))
}

/// Returns the application data of a plain request for a rehearsal spacecraft, and its outcome, which stands last.
#[tactic(auto, using(crate::proofs::TaskLemmas::rehearsal_short, crate::proofs::TaskLemmas::rehearsal_long, crate::proofs::TaskLemmas::rehearsal_none, crate::proofs::TaskLemmas::rehearsal_some))]
fn rehearsal_parts(octets: &[u8]) -> Option<(ApplicationData, Option<Outcome>)>
    ensures { ReadsParts true octets.now result }
{
    if octets.len() < OUTCOME {
        return None;
    }
    let end = octets.len() - OUTCOME;
    let application = ApplicationData::of(octets_before(octets, end))?;
    let outcome = read_outcome(octets_from(octets, end))?;
    Some((application, Some(outcome)))
}

/// Returns the application data of a plain request, and its outcome, if outcomes fly.
#[tactic(auto, using(crate::proofs::TaskLemmas::parts_chosen))]
fn parts_in(rehearsal: bool, octets: &[u8]) -> Option<(ApplicationData, Option<Outcome>)>
    ensures { ReadsParts rehearsal octets.now result }
{
    if rehearsal {
        rehearsal_parts(octets)
    } else {
        real_parts(octets)
    }
}

/// Reads the message of a plain request of this service and subtype.
#[tactic(auto, using(crate::proofs::TaskLemmas::no_service, crate::proofs::TaskLemmas::no_subtype, crate::proofs::TaskLemmas::no_parts))]
fn plain_in(profile: &Profile, service: u8, subtype: u8, octets: &[u8]) -> Option<Plain>
    ensures { ReadsPlain profile.now service subtype octets.now result }
{
    let service = Service::new(service)?;
    let subtype = Subtype::new(subtype)?;
    let (application, outcome) = parts_in(profile.rehearsal, octets)?;
    Some(Plain {
        service,
        subtype,
        application,
        outcome,
    })
}

/// Returns the activity of our source that these octets name, alone.
#[tactic(auto, using(crate::proofs::TaskLemmas::target_unnamed, crate::proofs::TaskLemmas::target_other))]
fn target_in(profile: &Profile, octets: &[u8]) -> Option<Identity>
    ensures { ReadsTarget profile.now octets.now result }
{
    if octets.len() != 1 + NAME || octets[0] != 1 {
        return None;
    }
    match read_name(octets_from(octets, 1)) {
        Some(name) if name.source == profile.source => Some(name.identity),
        _ => None,
    }
}

/// The plain request in a packet whose headers nothing is said against.

fn plain_request_in(profile: &Profile, octets: &[u8]) -> Option<(Identity, Ack, Plain)>
    requires { Passes profile.now octets.now }
    ensures { ReadsRequest profile.now octets.now result }
{
    let plain = plain_in(profile, octets[7], octets[8], data_in(octets))?;
    Some((identity_in(octets), ack_in(octets), plain))
}

/// Returns the plain request whose packet these octets are: its identity, the reports that it asks for, and what it asks for.
#[tactic(auto, using(crate::proofs::ActivityLemmas::request_headless))]
fn request_in(profile: &Profile, octets: &[u8]) -> Option<(Identity, Ack, Plain)>
    ensures { ReadsRequest profile.now octets.now result }
{
    match header_fault(profile, octets) {
        Some(_) => None,
        None => plain_request_in(profile, octets),
    }
}

/// Returns the octets of a time at the front.
fn time_before<'a>(profile: &Profile, octets: &'a [u8]) -> &'a [u8]
    requires { time_length profile.now ≤ length octets.now }
    ensures { result.now ≡ take (time_length profile.now) octets.now }
{
    octets_before(octets, time_octets(profile))
}

/// Returns the octets after a time at the front.
fn after_time<'a>(profile: &Profile, octets: &'a [u8]) -> &'a [u8]
    requires { time_length profile.now ≤ length octets.now }
    ensures { result.now ≡ drop (time_length profile.now) octets.now }
{
    octets_from(octets, time_octets(profile))
}

/// Returns the packet after the time at the front of octets, as long as it says that it is.
#[tactic(auto, using(crate::proofs::ActivityLemmas::begins_short, crate::proofs::ActivityLemmas::begins_cut))]
fn packet_in<'a>(profile: &Profile, octets: &'a [u8]) -> Option<&'a [u8]>
    ensures { MatchOption result (BeginsWithNone profile.now octets.now) (λ packet. BeginsWithPacket profile.now octets.now packet.now) }
{
    if octets.len() < time_octets(profile) + HEADER {
        return None;
    }
    let after = after_time(profile, octets);
    let length = whole_length(after);
    if after.len() < length {
        return None;
    }
    Some(octets_before(after, length))
}

/// Returns the activity that octets begin with, and how many octets it takes.
#[tactic(auto, using(crate::proofs::ActivityLemmas::activity_no_packet, crate::proofs::ActivityLemmas::activity_no_time))]
fn activity_in(profile: &Profile, octets: &[u8]) -> Option<(FlightActivity, usize)>
    ensures { ReadsActivity profile.now octets.now result }
{
    let packet = packet_in(profile, octets)?;
    let time = read_time(profile, time_before(profile, octets))?;
    let (identity, ack, plain) = request_in(profile, packet)?;
    let activity = FlightActivity {
        time,
        identity,
        ack,
        plain,
    };
    Some((activity, time_octets(profile) + packet.len()))
}

/// Returns the list of the first `number` of these places.
fn gathered(places: &[FlightActivity], number: usize) -> Option<FlightActivities>
    requires { number ≤ length places.now }
    ensures found { IsSome result ↔ IsInsert (take number places.now) }
    ensures value { IfSome result (λ a. a ≡ take number places.now) }
{
    FlightActivities::of(&places[..number])
}

/// Reads octets as so many activities and no more.
#[tactic(auto, using(crate::proofs::ActivityLemmas::read_first, crate::proofs::ActivityLemmas::first_none, crate::proofs::ActivityLemmas::left_none))]
fn activities_in(profile: &Profile, number: usize, octets: &[u8]) -> Option<FlightActivities>
    requires least { 1 ≤ number }
    requires most { number ≤ 8 }
    ensures { ReadsActivities profile.now number octets.now result }
{
    let (first, length) = activity_in(profile, octets)?;
    let mut places = [first; MOST_INSERTED];
    let mut left = octets_from(octets, length);
    for at in 1..number {
        match activity_in(profile, left) {
            Some((activity, length)) => {
                places[at] = activity;
                left = octets_from(left, length);
            }
            None => return None,
        }
    }
    if !left.is_empty() {
        return None;
    }
    gathered(&places, number)
}

/// Reads the application data of an insert.
#[tactic(auto, using(crate::proofs::TaskLemmas::insert_none))]
fn insert_in(profile: &Profile, octets: &[u8]) -> Option<FlightTask>
    ensures { ReadsTask profile.now 11 4 octets.now result }
{
    let (number, others) = octets.split_first()?;
    if *number == 0 || usize::from(*number) > MOST_INSERTED {
        return None;
    }
    let activities = activities_in(profile, usize::from(*number), others)?;
    Some(FlightTask::InsertActivities(activities))
}

/// Reads the application data of a shift of one activity.
#[tactic(auto, using(crate::proofs::TaskLemmas::shift_none, crate::proofs::TaskLemmas::shift_short))]
fn shift_in(profile: &Profile, octets: &[u8]) -> Option<FlightTask>
    ensures { ReadsTask profile.now 11 7 octets.now result }
{
    if octets.len() < time_octets(profile) {
        return None;
    }
    let offset = read_offset(profile, time_before(profile, octets))?;
    let target = target_in(profile, after_time(profile, octets))?;
    Some(FlightTask::ShiftActivity { target, offset })
}

/// Reads the application data of a shift of all activities.
#[tactic(auto, using(crate::proofs::TaskLemmas::shift_all_none))]
fn shift_all_in(profile: &Profile, octets: &[u8]) -> Option<FlightTask>
    ensures { ReadsTask profile.now 11 15 octets.now result }
{
    if octets.len() != time_octets(profile) {
        return None;
    }
    let offset = read_offset(profile, octets)?;
    Some(FlightTask::ShiftAll { offset })
}

/// Reads the application data of a deletion.
#[tactic(auto, using(crate::proofs::TaskLemmas::delete_none))]
fn delete_in(profile: &Profile, octets: &[u8]) -> Option<FlightTask>
    ensures { ReadsTask profile.now 11 5 octets.now result }
{
    let target = target_in(profile, octets)?;
    Some(FlightTask::DeleteActivity { target })
}

/// Reads a command of the schedule without application data.
#[tactic(auto, using(crate::proofs::TaskLemmas::bare_more, crate::proofs::TaskLemmas::bare_other))]
fn bare_in(profile: &Profile, subtype: u8, octets: &[u8]) -> Option<FlightTask>
    requires { IsBare subtype }
    ensures { ReadsTask profile.now 11 subtype octets.now result }
{
    if !octets.is_empty() {
        return None;
    }
    match subtype {
        1 => Some(FlightTask::EnableSchedule),
        2 => Some(FlightTask::DisableSchedule),
        3 => Some(FlightTask::ResetSchedule),
        17 => Some(FlightTask::SummarizeAll),
        _ => None,
    }
}

/// Reads the application data of this service and subtype.
#[tactic(auto, using(crate::proofs::TaskLemmas::plain_none))]
pub(crate) fn task_in(
    profile: &Profile,
    service: u8,
    subtype: u8,
    octets: &[u8],
) -> Option<FlightTask>
    ensures { ReadsTask profile.now service subtype octets.now result }
{
    if service != SCHEDULE {
        let plain = plain_in(profile, service, subtype, octets)?;
        return Some(FlightTask::Plain(plain));
    }
    match subtype {
        4 => insert_in(profile, octets),
        5 => delete_in(profile, octets),
        7 => shift_in(profile, octets),
        15 => shift_all_in(profile, octets),
        _ => bare_in(profile, subtype, octets),
    }
}
