//! Tables of fields that several layers have.
ghost use Rattle.std.specs.Prelude.{◌≡◌, ◌++◌, ◌≤◌, OnOk, length};
ghost use Rattle.tc_packets.specs.Times.{first_on_board, last_on_board, seconds_since};
ghost use Rattle.tc_decoded.specs.Tables.{board_time_rows, check_of, fraction_rows, frame_check, name_rows, offset_rows, packet_check, primary_header, refused, time_rows};

use crate::names::Name;
use crate::rows::{Fit, Row, Shown, Source, Span, Word};
use std::alloc::{AllocError, Allocator};
use tc_octets::{Profile, crc};
use tc_packets::{first_on_board, last_on_board};

/// Returns the primary header of a packet (CCSDS 133.0-B, 4.1.3), with what its reader looks at: the fewest octets, the word for another version,
/// the type, and the APIDs.
pub(crate) fn primary_header(
    octets: &[u8],
    fewest: u64,
    version: Word,
    kind: u64,
    apid: Fit,
) -> [Row; 8]
    requires { length octets.now ≤ 65542 }
    ensures { result ≡ primary_header octets.now fewest version kind apid }
{
    let octets = octets.len() as u64;
    let value = octets.saturating_sub(7);
    let given = Fit::Given { octets, value };
    [
        count!(Packet, 0, octets, Word::Length, Fit::Least(fewest)),
        row!(PacketVersion, 0, 0, 3, Number, version, Fit::Is(0)),
        row!(PacketType, 0, 3, 1, Kind, Word::Header, Fit::Is(kind)),
        row!(SecondaryHeaderFlag, 0, 4, 1, Flag, Word::Header, Fit::Is(1)),
        row!(Apid, 0, 5, 11, Number, Word::Header, apid),
        row!(SequenceFlags, 2, 0, 2, Sequence, Word::Header, Fit::Is(3)),
        row!(SequenceCount, 2, 2, 14, Number),
        row!(PacketDataLength, 4, 0, 16, Number, Word::Length, given),
    ]
}

/// Adds the fraction of a second, if times have one.
fn put_fraction<A: Allocator + Copy>(
    rows: &mut Vec<Row, A>,
    fine: bool,
    at: u32,
) -> Result<(), AllocError>
    requires { at ≤ 131072 }
    ensures { OnOk result (rows.new.items ≡ rows.old.items ++ fraction_rows fine at) }
{
    if fine {
        rows.push(row!(Fraction, at, 0, 16, Hexadecimal))?;
    }
    Ok(())
}

/// Returns the seconds since the epoch of the first moment that the desk has.
fn first_seconds(profile: &Profile) -> u64
    ensures { result ≡ seconds_since profile.now.epoch (first_on_board profile.now.epoch) }
{
    let first = i64::from(first_on_board(profile).get());
    (first - profile.epoch) as u64
}

/// Returns the seconds since the epoch of the last moment that has octets.
fn last_seconds(profile: &Profile) -> u64
    ensures { result ≡ seconds_since profile.now.epoch (last_on_board profile.now.epoch) }
{
    let last = i64::from(last_on_board(profile).get());
    (last - profile.epoch) as u64
}

/// Adds a release time.
pub(crate) fn put_time<A: Allocator + Copy>(
    rows: &mut Vec<Row, A>,
    profile: &Profile,
    at: u32,
) -> Result<(), AllocError>
    requires { at ≤ 131000 }
    ensures { OnOk result (rows.new.items ≡ rows.old.items ++ time_rows profile.now at) }
{
    let moments = Fit::Between(first_seconds(profile), last_seconds(profile));
    rows.push(row!(ReleaseTime, at, 0, 32, Number, Word::Data, moments))?;
    put_fraction(rows, profile.fine, at + 4)
}

/// Adds a time on board, which may be any.
pub(crate) fn put_board_time<A: Allocator + Copy>(
    rows: &mut Vec<Row, A>,
    fine: bool,
    at: u32,
) -> Result<(), AllocError>
    requires { at ≤ 131000 }
    ensures { OnOk result (rows.new.items ≡ rows.old.items ++ board_time_rows fine at) }
{
    rows.push(row!(Time, at, 0, 32, Number))?;
    put_fraction(rows, fine, at + 4)
}

/// Adds a time offset.
pub(crate) fn put_offset<A: Allocator + Copy>(
    rows: &mut Vec<Row, A>,
    fine: bool,
    at: u32,
) -> Result<(), AllocError>
    requires { at ≤ 131000 }
    ensures { OnOk result (rows.new.items ≡ rows.old.items ++ offset_rows fine at) }
{
    rows.push(row!(TimeOffset, at, 0, 32, Offset))?;
    put_fraction(rows, fine, at + 4)
}

/// Returns the name of an activity, of such a source.
pub(crate) fn name_rows(source: Fit, at: u32) -> [Row; 3]
    requires { at ≤ 131000 }
    ensures { result ≡ name_rows source at }
{
    [
        row!(SourceId, at, 0, 16, Number, Word::Data, source),
        row!(
            Apid,
            at + 2,
            0,
            16,
            Number,
            Word::Data,
            Fit::Between(0, 2046)
        ),
        row!(
            SequenceCount,
            at + 4,
            0,
            16,
            Number,
            Word::Data,
            Fit::Between(0, 16383)
        ),
    ]
}

/// Returns the CRC-16 of the octets before the last two.
fn check_of(octets: &[u8]) -> u64
    ensures { result ≡ check_of octets.now }
{
    let end = octets.len().saturating_sub(2);
    u64::from(crc(&octets[..end]))
}

/// Returns the error control of a packet.
pub(crate) fn packet_check(octets: &[u8]) -> Row
    requires { length octets.now ≤ 65542 }
    ensures { result ≡ packet_check octets.now }
{
    let at = octets.len().saturating_sub(2) as u32;
    let check = Fit::Is(check_of(octets));
    row!(
        PacketErrorControl,
        at,
        0,
        16,
        Hexadecimal,
        Word::Check,
        check
    )
}

/// Adds the error control of a frame, if frames have it.
pub(crate) fn put_frame_check<A: Allocator + Copy>(
    rows: &mut Vec<Row, A>,
    fecf: bool,
    octets: &[u8],
) -> Result<(), AllocError>
    requires { length octets.now ≤ 65542 }
    ensures { OnOk result (rows.new.items ≡ rows.old.items ++ frame_check fecf octets.now) }
{
    if fecf {
        let at = octets.len().saturating_sub(2) as u32;
        let check = Fit::Is(check_of(octets));
        rows.push(row!(
            FrameErrorControl,
            at,
            0,
            16,
            Hexadecimal,
            Word::Check,
            check
        ))?;
    }
    Ok(())
}

/// Adds the row that ends a layer which its reader refuses.
pub(crate) fn put_refused<A: Allocator + Copy>(
    rows: &mut Vec<Row, A>,
    word: Option<Word>,
    name: Name,
    at: u32,
    octets: u64,
) -> Result<(), AllocError>
    requires { at ≤ 131072 }
    ensures { OnOk result (rows.new.items ≡ rows.old.items ++ refused word name at octets) }
{
    if let Some(word) = word {
        rows.push(Row {
            name,
            octet: at,
            source: Source::Count(octets),
            shown: Shown::Octets,
            fit: Fit::Refused,
            word,
        })?;
    }
    Ok(())
}
