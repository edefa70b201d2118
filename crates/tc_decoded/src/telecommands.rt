//! The lines of telecommand packets.
ghost use Rattle.std.specs.Prelude.{◌≡◌, ◌+◌, ◌++◌, ◌≤◌, OnOk, length};
ghost use Rattle.tc_decoded.specs.Telecommands.{Judged, closing_rows, data_length, data_row, data_rows, headers, needed, outcome_rows, plain_rows, rehearsal_rows};
ghost use Rattle.tc_decoded.specs.Telecommands.{schedule_fields, schedule_rows, secondary_header, shift_rows, subtype_fit, target_rows};

use crate::names::Name;
use crate::rows::{Fit, Row, Shown, Source, Span, Word, octet_at};
use crate::tables::{name_rows, packet_check, primary_header, put_offset, put_refused};
use std::alloc::{AllocError, Allocator};
use tc_octets::Profile;
use tc_packets::{PacketFault, read_telecommand, time_octets};

/// The octets before the application data.
const HEADERS: u32 = 11;

/// The octets of a packet without application data.
const FEWEST: usize = 13;

/// The octets of an outcome.
const OUTCOME: usize = 3;

/// The service of the schedule on board.
pub(crate) const SCHEDULE: u64 = 11;

/// Returns the word by which the reader refuses a telecommand packet, if it does.
pub(crate) fn telecommand_word(profile: &Profile, octets: &[u8]) -> Option<Word>
    ensures { Judged profile.now octets.now result }
{
    match read_telecommand(profile, octets) {
        Ok(_) => None,
        Err(PacketFault::Length) => Some(Word::Length),
        Err(PacketFault::Check) => Some(Word::Check),
        Err(PacketFault::Header) => Some(Word::Header),
        Err(PacketFault::Subtype) => Some(Word::Subtype),
        Err(PacketFault::Data) => Some(Word::Data),
    }
}

/// Returns what the subtype must be of messages of this service.
fn subtype_fit(service: u64) -> Fit
    ensures { result ≡ subtype_fit service }
{
    if service == SCHEDULE {
        Fit::Scheduled
    } else {
        Fit::Between(1, 255)
    }
}

/// Returns the secondary header of a request (ECSS-E-ST-70-41C, 7.4.4.1).
fn secondary_header(profile: &Profile, octets: &[u8]) -> [Row; 8]
    ensures { result ≡ secondary_header profile.now octets.now }
{
    let subtype = subtype_fit(octet_at(octets, 7));
    let source = Fit::Is(u64::from(profile.source));
    [
        row!(PusVersion, 6, 0, 4, Number, Word::Header, Fit::Is(2)),
        row!(Completion, 6, 4, 1, Flag),
        row!(Progress, 6, 5, 1, Flag),
        row!(Start, 6, 6, 1, Flag),
        row!(Acceptance, 6, 7, 1, Flag),
        row!(
            ServiceType,
            7,
            0,
            8,
            Number,
            Word::Subtype,
            Fit::Between(1, 255)
        ),
        row!(MessageSubtype, 8, 0, 8, Number, Word::Subtype, subtype),
        row!(SourceId, 9, 0, 16, Number, Word::Header, source),
    ]
}

/// Adds the headers of a request.
pub(crate) fn put_headers<A: Allocator + Copy>(
    rows: &mut Vec<Row, A>,
    profile: &Profile,
    octets: &[u8],
) -> Result<(), AllocError>
    requires { length octets.now ≤ 65542 }
    ensures { OnOk result (rows.new.items ≡ rows.old.items ++ headers profile.now octets.now) }
{
    let apids = Fit::Between(0, 2046);
    rows.extend_from_slice(&primary_header(octets, 13, Word::Header, 1, apids))?;
    rows.extend_from_slice(&secondary_header(profile, octets))
}

/// Returns the row of so many octets of application data.
fn data_row(number: usize, fit: Fit) -> Row
    ensures { result ≡ data_row number fit }
{
    count!(ApplicationData, HEADERS, number as u64, Word::Data, fit)
}

/// Returns how many octets of application data a packet has.
fn data_length(octets: &[u8]) -> usize
    ensures { result ≡ data_length octets.now }
{
    octets.len().saturating_sub(FEWEST)
}

/// Returns an outcome of this kind.
fn outcome_rows(kind: u64, at: u32) -> [Row; 3]
    requires { at ≤ 131000 }
    ensures { result ≡ outcome_rows kind at }
{
    let steps = if kind == 1 || kind == 4 {
        Fit::Between(1, 9)
    } else {
        Fit::Is(0)
    };
    let code = if kind <= 1 {
        Fit::Is(0)
    } else {
        Fit::Between(16, 255)
    };
    [
        row!(Outcome, at, 0, 8, Outcome, Word::Data, Fit::Between(0, 5)),
        row!(Steps, at + 1, 0, 8, Number, Word::Data, steps),
        row!(FailureCode, at + 2, 0, 8, Number, Word::Data, code),
    ]
}

/// Adds the application data of a plain request for a rehearsal spacecraft.
fn put_rehearsal<A: Allocator + Copy>(
    rows: &mut Vec<Row, A>,
    octets: &[u8],
) -> Result<(), AllocError>
    requires { length octets.now ≤ 65542 }
    ensures { OnOk result (rows.new.items ≡ rows.old.items ++ rehearsal_rows octets.now) }
{
    let number = data_length(octets);
    if number < OUTCOME {
        let short = Fit::Least(3);
        rows.push(count!(Outcome, HEADERS, number as u64, Word::Data, short))?;
        return Ok(());
    }
    let at = octets.len().saturating_sub(5) as u32;
    rows.push(data_row(number - OUTCOME, Fit::Most(96)))?;
    rows.extend_from_slice(&outcome_rows(octet_at(octets, at as usize), at))
}

/// Adds the application data of a plain request.
pub(crate) fn put_plain<A: Allocator + Copy>(
    rows: &mut Vec<Row, A>,
    profile: &Profile,
    octets: &[u8],
) -> Result<(), AllocError>
    requires { length octets.now ≤ 65542 }
    ensures { OnOk result (rows.new.items ≡ rows.old.items ++ plain_rows profile.now octets.now) }
{
    if profile.rehearsal {
        return put_rehearsal(rows, octets);
    }
    rows.push(data_row(data_length(octets), Fit::Most(96)))?;
    Ok(())
}

/// Adds one name of an activity of our source, and how many there are.
fn put_target<A: Allocator + Copy>(
    rows: &mut Vec<Row, A>,
    profile: &Profile,
    at: u32,
) -> Result<(), AllocError>
    requires { at ≤ 130000 }
    ensures { OnOk result (rows.new.items ≡ rows.old.items ++ target_rows profile.now at) }
{
    rows.push(row!(NumberOfNames, at, 0, 8, Number, Word::Data, Fit::Is(1)))?;
    let source = Fit::Is(u64::from(profile.source));
    rows.extend_from_slice(&name_rows(source, at + 1))
}

/// Adds a shift of one activity.
fn put_shift<A: Allocator + Copy>(
    rows: &mut Vec<Row, A>,
    profile: &Profile,
) -> Result<(), AllocError>
    ensures { OnOk result (rows.new.items ≡ rows.old.items ++ shift_rows profile.now) }
{
    put_offset(rows, profile.fine, HEADERS)?;
    put_target(rows, profile, HEADERS + time_octets(profile) as u32)
}

/// Returns how many octets of application data a message of the schedule's service has.
fn needed(profile: &Profile, subtype: u64) -> Fit
    ensures { result ≡ needed profile.now subtype }
{
    let time = time_octets(profile) as u64;
    match subtype {
        4 => Fit::Least(1),
        5 => Fit::Is(7),
        7 => Fit::Is(time + 7),
        15 => Fit::Is(time),
        _ => Fit::Is(0),
    }
}

/// Adds the fields of a message of the schedule's service.
fn put_schedule_fields<A: Allocator + Copy>(
    rows: &mut Vec<Row, A>,
    profile: &Profile,
    subtype: u64,
) -> Result<(), AllocError>
    ensures { OnOk result (rows.new.items ≡ rows.old.items ++ schedule_fields profile.now subtype) }
{
    match subtype {
        4 => {
            let few = Fit::Between(1, 8);
            rows.push(row!(NumberOfActivities, HEADERS, 0, 8, Number, Word::Data, few))?;
            Ok(())
        }
        5 => put_target(rows, profile, HEADERS),
        7 => put_shift(rows, profile),
        15 => put_offset(rows, profile.fine, HEADERS),
        _ => Ok(()),
    }
}

/// Adds the application data of a message of the schedule's service.
fn put_schedule<A: Allocator + Copy>(
    rows: &mut Vec<Row, A>,
    profile: &Profile,
    number: usize,
    subtype: u64,
) -> Result<(), AllocError>
    ensures { OnOk result (rows.new.items ≡ rows.old.items ++ schedule_rows profile.now number subtype) }
{
    rows.push(data_row(number, needed(profile, subtype)))?;
    put_schedule_fields(rows, profile, subtype)
}

/// Adds the application data of a request.
pub(crate) fn put_data<A: Allocator + Copy>(
    rows: &mut Vec<Row, A>,
    profile: &Profile,
    octets: &[u8],
) -> Result<(), AllocError>
    requires { length octets.now ≤ 65542 }
    ensures { OnOk result (rows.new.items ≡ rows.old.items ++ data_rows profile.now octets.now) }
{
    if octet_at(octets, 7) == SCHEDULE {
        return put_schedule(rows, profile, data_length(octets), octet_at(octets, 8));
    }
    put_plain(rows, profile, octets)
}

/// Adds the error control of a packet, and the row that ends it if the reader refuses it.
pub(crate) fn put_closing<A: Allocator + Copy>(
    rows: &mut Vec<Row, A>,
    word: Option<Word>,
    octets: &[u8],
) -> Result<(), AllocError>
    requires { length octets.now ≤ 65542 }
    ensures { OnOk result (rows.new.items ≡ rows.old.items ++ closing_rows word octets.now) }
{
    rows.push(packet_check(octets))?;
    let number = data_length(octets) as u64;
    put_refused(rows, word, Name::ApplicationData, HEADERS, number)
}
