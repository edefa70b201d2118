//! The headers of telemetry packets, and the source data of verification reports.
ghost use Rattle.std.specs.Prelude.{◌≡◌, ◌++◌, ◌≤◌, OnOk, length};
ghost use Rattle.tc_decoded.specs.ReportLines.{details_rows, fewest_octets, has_code, has_step, is_idle, primary_rows, request_id_rows};
ghost use Rattle.tc_decoded.specs.ReportLines.{secondary_rows, source_at, source_length, source_row, step_length, verification_fit, verification_rows};

use crate::names::Name;
use crate::rows::{Fit, Row, Shown, Source, Span, Word, bits_in};
use crate::tables::{primary_header, put_board_time};
use std::alloc::{AllocError, Allocator};
use tc_octets::Profile;
use tc_packets::{IDLE_APID, time_octets};

/// The octets of a report besides its time and its source data.
const AROUND: usize = 15;

/// Returns whether a packet is an idle one.
pub(crate) fn is_idle(octets: &[u8]) -> bool
    ensures { result ≡ is_idle octets.now }
{
    bits_in(octets, 0, Span { bit: 5, bits: 11 }) == u64::from(IDLE_APID)
}

/// Returns the place of the source data.
pub(crate) fn source_at(profile: &Profile) -> u32
    ensures value { result ≡ source_at profile.now }
    ensures small { result ≤ 19 }
{
    13 + time_octets(profile) as u32
}

/// Returns how many octets of source data there are.
pub(crate) fn source_length(profile: &Profile, octets: &[u8]) -> u64
    ensures { result ≡ source_length profile.now octets.now }
{
    let others = octets.len().saturating_sub(AROUND);
    others.saturating_sub(time_octets(profile)) as u64
}

/// Returns the fewest octets that a packet may have: more if it is not idle.
fn fewest_octets(profile: &Profile, octets: &[u8]) -> u64
    ensures { result ≡ fewest_octets profile.now octets.now }
{
    if is_idle(octets) {
        7
    } else {
        AROUND as u64 + time_octets(profile) as u64
    }
}

/// Adds the primary header.
pub(crate) fn put_primary<A: Allocator + Copy>(
    rows: &mut Vec<Row, A>,
    profile: &Profile,
    octets: &[u8],
) -> Result<(), AllocError>
    requires { length octets.now ≤ 65542 }
    ensures { OnOk result (rows.new.items ≡ rows.old.items ++ primary_rows profile.now octets.now) }
{
    let fewest = fewest_octets(profile, octets);
    rows.extend_from_slice(&primary_header(octets, fewest, Word::Version, 0, Fit::Any))
}

/// Adds the secondary header of a report (ECSS-E-ST-70-41C, 7.4.3.1).
pub(crate) fn put_secondary<A: Allocator + Copy>(
    rows: &mut Vec<Row, A>,
    profile: &Profile,
) -> Result<(), AllocError>
    ensures { OnOk result (rows.new.items ≡ rows.old.items ++ secondary_rows profile.now) }
{
    rows.extend_from_slice(&[
        row!(PusVersion, 6, 0, 4, Number, Word::Header, Fit::Is(2)),
        row!(TimeReferenceStatus, 6, 4, 4, Number),
        row!(ServiceType, 7, 0, 8, Number),
        row!(MessageSubtype, 8, 0, 8, Number),
        row!(MessageTypeCounter, 9, 0, 16, Number),
        row!(DestinationId, 11, 0, 16, Number),
    ])?;
    put_board_time(rows, profile.fine, 13)
}

/// Returns the row of the source data as a whole.
pub(crate) fn source_row(profile: &Profile, octets: &[u8], fit: Fit) -> Row
    ensures { result ≡ source_row profile.now octets.now fit }
{
    count!(
        SourceData,
        source_at(profile),
        source_length(profile, octets),
        Word::Data,
        fit
    )
}

/// Returns whether a verification report of this subtype has a step.
fn has_step(subtype: u64) -> bool
    ensures { result ≡ has_step subtype }
{
    subtype == 5 || subtype == 6
}

/// Returns whether a verification report of this subtype has a code.
fn has_code(subtype: u64) -> bool
    ensures { result ≡ has_code subtype }
{
    subtype == 2 || subtype == 4 || subtype == 6 || subtype == 8
}

/// Returns how many octets the step of a verification report has.
fn step_length(subtype: u64) -> u32
    ensures value { result ≡ step_length subtype }
    ensures small { result ≤ 1 }
{
    if has_step(subtype) { 1 } else { 0 }
}

/// Returns how many octets of source data a verification report has.
fn verification_fit(subtype: u64) -> Fit
    ensures { result ≡ verification_fit subtype }
{
    let step = u64::from(step_length(subtype));
    if has_code(subtype) {
        Fit::Least(5 + step)
    } else {
        Fit::Is(4 + step)
    }
}

/// Returns the fields of a request id (ECSS-E-ST-70-41C, 8.1.2.1).
fn request_id_rows(at: u32) -> [Row; 6]
    requires { at ≤ 65542 }
    ensures { result ≡ request_id_rows at }
{
    [
        row!(PacketVersion, at, 0, 3, Number, Word::Data, Fit::Is(0)),
        row!(PacketType, at, 3, 1, Kind, Word::Data, Fit::Is(1)),
        row!(SecondaryHeaderFlag, at, 4, 1, Flag, Word::Data, Fit::Is(1)),
        row!(Apid, at, 5, 11, Number, Word::Data, Fit::Between(0, 2046)),
        row!(
            SequenceFlags,
            at + 2,
            0,
            2,
            Sequence,
            Word::Data,
            Fit::Is(3)
        ),
        row!(SequenceCount, at + 2, 2, 14, Number),
    ]
}

/// Adds the step and the code of a verification report.
fn put_details<A: Allocator + Copy>(
    rows: &mut Vec<Row, A>,
    subtype: u64,
    at: u32,
) -> Result<(), AllocError>
    requires { at ≤ 65542 }
    ensures { OnOk result (rows.new.items ≡ rows.old.items ++ details_rows subtype at) }
{
    if has_step(subtype) {
        rows.push(row!(Step, at, 0, 8, Number))?;
    }
    if has_code(subtype) {
        let at = at + step_length(subtype);
        rows.push(row!(FailureCode, at, 0, 8, Number))?;
    }
    Ok(())
}

/// Adds the source data of a verification report (ECSS-E-ST-70-41C, 8.1.2).
pub(crate) fn put_verification<A: Allocator + Copy>(
    rows: &mut Vec<Row, A>,
    profile: &Profile,
    octets: &[u8],
    subtype: u64,
) -> Result<(), AllocError>
    ensures { OnOk result (rows.new.items ≡ rows.old.items ++ verification_rows profile.now octets.now subtype) }
{
    let at = source_at(profile);
    rows.push(source_row(profile, octets, verification_fit(subtype)))?;
    rows.extend_from_slice(&request_id_rows(at))?;
    put_details(rows, subtype, at + 4)
}
