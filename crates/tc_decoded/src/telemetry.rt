//! The lines of telemetry packets, and of any packet.
ghost use Rattle.std.specs.Prelude.{◌≡◌, ◌++◌, ◌≤◌, OnOk, length};
ghost use Rattle.tc_decoded.specs.Added.{Added};
ghost use Rattle.tc_decoded.specs.ReportLines.{Judged, PacketTold, TelemetryTold, idle_rows, is_ours, is_request, is_summary, is_verification};
ghost use Rattle.tc_decoded.specs.ReportLines.{report_rows, source_rows, telemetry_rows};

use crate::inserts::tell_telecommand;
use crate::lines::Line;
use crate::names::Name;
use crate::places::Place;
use crate::reports::{
    is_idle, put_primary, put_secondary, put_verification, source_at, source_length, source_row,
};
use crate::rows::{Fit, Row, Shown, Source, Span, Word, bits_in, octet_at, pair_at};
use crate::summaries::put_summary;
use crate::tables::{packet_check, put_refused};
use crate::telling::tell;
use std::alloc::{AllocError, Allocator};
use tc_octets::Profile;
use tc_packets::{ReportFault, read_report};

/// Returns the word by which the reader refuses a telemetry packet, if it does.
fn report_word(profile: &Profile, octets: &[u8]) -> Option<Word>
    ensures { Judged profile.now octets.now result }
{
    match read_report(profile, octets) {
        Ok(_) => None,
        Err(ReportFault::Length) => Some(Word::Length),
        Err(ReportFault::Version) => Some(Word::Version),
        Err(ReportFault::Header) => Some(Word::Header),
        Err(ReportFault::Check) => Some(Word::Check),
        Err(ReportFault::Data) => Some(Word::Data),
    }
}

/// Returns whether a report is for the desk's source.
fn is_ours(profile: &Profile, octets: &[u8]) -> bool
    ensures { result ≡ is_ours profile.now octets.now }
{
    pair_at(octets, 11) == profile.source
}

/// Returns whether a report is a verification report.
fn is_verification(octets: &[u8]) -> bool
    ensures { result ≡ is_verification octets.now }
{
    let subtype = octet_at(octets, 8);
    octet_at(octets, 7) == 1 && 1 <= subtype && subtype <= 8
}

/// Returns whether a report is a summary of the schedule.
fn is_summary(octets: &[u8]) -> bool
    ensures { result ≡ is_summary octets.now }
{
    octet_at(octets, 7) == 11 && octet_at(octets, 8) == 13
}

/// Adds the source data of a report.
fn put_source<A: Allocator + Copy>(
    rows: &mut Vec<Row, A>,
    profile: &Profile,
    octets: &[u8],
) -> Result<(), AllocError>
    ensures { OnOk result (rows.new.items ≡ rows.old.items ++ source_rows profile.now octets.now) }
{
    let ours = is_ours(profile, octets);
    if ours && is_verification(octets) {
        return put_verification(rows, profile, octets, octet_at(octets, 8));
    }
    if ours && is_summary(octets) {
        return put_summary(rows, profile, octets);
    }
    rows.push(source_row(profile, octets, Fit::Any))?;
    Ok(())
}

/// Adds the fields of a report after its primary header.
fn put_report<A: Allocator + Copy>(
    rows: &mut Vec<Row, A>,
    profile: &Profile,
    word: Option<Word>,
    octets: &[u8],
) -> Result<(), AllocError>
    requires { length octets.now ≤ 65542 }
    ensures { OnOk result (rows.new.items ≡ rows.old.items ++ report_rows profile.now word octets.now) }
{
    put_secondary(rows, profile)?;
    put_source(rows, profile, octets)?;
    rows.push(packet_check(octets))?;
    let at = source_at(profile);
    let number = source_length(profile, octets);
    put_refused(rows, word, Name::SourceData, at, number)
}

/// Adds what follows the primary header of an idle packet.
fn put_idle<A: Allocator + Copy>(
    rows: &mut Vec<Row, A>,
    word: Option<Word>,
    octets: &[u8],
) -> Result<(), AllocError>
    ensures { OnOk result (rows.new.items ≡ rows.old.items ++ idle_rows word octets.now) }
{
    let number = octets.len() as u64;
    let data = number.saturating_sub(6);
    rows.push(count!(IdleData, 6, data, Word::Length, Fit::Any))?;
    put_refused(rows, word, Name::Packet, 0, number)
}

/// Adds the fields of a telemetry packet.
fn put_telemetry<A: Allocator + Copy>(
    rows: &mut Vec<Row, A>,
    profile: &Profile,
    word: Option<Word>,
    octets: &[u8],
) -> Result<(), AllocError>
    requires { length octets.now ≤ 65542 }
    ensures { OnOk result (rows.new.items ≡ rows.old.items ++ telemetry_rows profile.now word octets.now) }
{
    put_primary(rows, profile, octets)?;
    if is_idle(octets) {
        return put_idle(rows, word, octets);
    }
    put_report(rows, profile, word, octets)
}

/// Adds the lines of a telemetry packet: its fields, up to the one for which the reader refuses it.
fn tell_telemetry<A: Allocator + Copy>(
    alloc: A,
    out: &mut Vec<Line, A>,
    place: &Place,
    profile: &Profile,
    octets: &[u8],
) -> Result<(), AllocError>
    requires { length octets.now ≤ 65542 }
    ensures { OnOk result (Added (TelemetryTold place.now profile.now octets.now) out.old.items out.new.items) }
{
    let word = report_word(profile, octets);
    let mut rows = Vec::new(alloc);
    put_telemetry(&mut rows, profile, word, octets)?;
    tell(out, place, word, octets, &rows)
}

/// Returns whether a packet is of type 1.
fn is_request(octets: &[u8]) -> bool
    ensures { result ≡ is_request octets.now }
{
    bits_in(octets, 0, Span { bit: 3, bits: 1 }) == 1
}

/// Adds the lines of a packet: of a telecommand by its type, or of telemetry.
pub(crate) fn tell_packet<A: Allocator + Copy>(
    alloc: A,
    out: &mut Vec<Line, A>,
    place: &Place,
    profile: &Profile,
    octets: &[u8],
) -> Result<(), AllocError>
    requires few { length octets.now ≤ 65542 }
    requires near { place.now.skipped ≤ 131072 }
    ensures { OnOk result (Added (PacketTold place.now profile.now octets.now) out.old.items out.new.items) }
{
    if is_request(octets) {
        return tell_telecommand(alloc, out, place, profile, octets);
    }
    tell_telemetry(alloc, out, place, profile, octets)
}
