//! The lines of telecommand transfer frames.
ghost use Rattle.std.specs.Prelude.{◌≡◌, ◌++◌, ◌≤◌, IfOk, OnOk, length, true};
ghost use Rattle.tc_octets.specs.TcFrames.{check_length};
ghost use Rattle.tc_decoded.specs.Added.{Added};
ghost use Rattle.tc_decoded.specs.TcFrameLines.{FieldsTold, Judged, TcFrameTold, carries, closing_rows, control_rows, field_length, flag_in};
ghost use Rattle.tc_decoded.specs.TcFrameLines.{front_rows, header_rows, is_command, is_control, is_set_vr, packet_at, packet_length};
ghost use Rattle.tc_decoded.specs.TcFrameLines.{packet_rows, segment_rows, sequence_fit};
ghost use Rattle.tc_decoded.specs.Rows.{told};

use crate::inserts::tell_telecommand;
use crate::lines::Line;
use crate::names::Name;
use crate::places::Place;
use crate::rows::{Fit, Row, Shown, Source, Span, Word, bits_in, octet_at, octets_within};
use crate::tables::{put_frame_check, put_refused};
use crate::telling::tell;
use std::alloc::{AllocError, Allocator};
use tc_octets::{MOST_TC_FRAME, Map, Profile, TcFault, read_tc_frame};

/// The octets of a header.
const HEADER: usize = 5;

/// The first octet of Set V(R).
const SET_VR: u64 = 0x82;

/// Returns the word by which the reader refuses a frame, if it does.
fn frame_word(profile: &Profile, octets: &[u8]) -> Option<Word>
    ensures { Judged profile.now octets.now result }
{
    match read_tc_frame(profile, octets) {
        Ok(_) => None,
        Err(TcFault::Length) => Some(Word::Length),
        Err(TcFault::Check) => Some(Word::Check),
        Err(TcFault::Version) => Some(Word::Version),
        Err(TcFault::Spacecraft) => Some(Word::Spacecraft),
        Err(TcFault::Channel) => Some(Word::Channel),
        Err(TcFault::Kind) => Some(Word::Kind),
        Err(TcFault::Content) => Some(Word::Content),
    }
}

/// Returns a bit of the first octet.
fn flag_in(octets: &[u8], bit: u8) -> u64
    ensures { result ≡ flag_in octets.now bit }
{
    bits_in(octets, 0, Span { bit, bits: 1 })
}

/// Returns whether a frame has a control command, and no packet.
fn is_control(octets: &[u8]) -> bool
    ensures { result ≡ is_control octets.now }
{
    flag_in(octets, 3) == 1
}

/// Returns how many octets error control has.
fn check_octets(profile: &Profile) -> usize
    ensures { result ≡ check_length profile.now.tc.fecf }
{
    if profile.tc.fecf { 2 } else { 0 }
}

/// Returns the header of a frame.
fn header_rows(profile: &Profile, octets: &[u8]) -> [Row; 9]
    ensures { result ≡ header_rows profile.now octets.now }
{
    let number = octets.len() as u64;
    let sizes = Fit::Between(6 + check_octets(profile) as u64, MOST_TC_FRAME as u64);
    let bypass = Fit::Is(flag_in(octets, 2));
    let scid = Fit::Is(u64::from(profile.scid));
    let vcid = Fit::Is(u64::from(profile.tc.vcid));
    let given = Fit::Given {
        octets: number,
        value: number.saturating_sub(1),
    };
    let ns = sequence_fit(octets);
    [
        count!(TransferFrame, 0, number, Word::Length, sizes),
        row!(Version, 0, 0, 2, Number, Word::Version, Fit::Is(0)),
        row!(BypassFlag, 0, 2, 1, Flag),
        row!(ControlCommandFlag, 0, 3, 1, Flag, Word::Kind, bypass),
        row!(Spare, 0, 4, 2, Number, Word::Version, Fit::Is(0)),
        row!(SpacecraftId, 0, 6, 10, Number, Word::Spacecraft, scid),
        row!(VirtualChannel, 2, 0, 6, Number, Word::Channel, vcid),
        row!(FrameLength, 2, 6, 10, Number, Word::Length, given),
        row!(FrameSequenceNumber, 4, 0, 8, Number, Word::Content, ns),
    ]
}

/// Returns what the frame sequence number must be: 0 of a control command.
fn sequence_fit(octets: &[u8]) -> Fit
    ensures { result ≡ sequence_fit octets.now }
{
    if is_control(octets) {
        Fit::Is(0)
    } else {
        Fit::Any
    }
}

/// Returns how many octets the data field has.
fn field_length(profile: &Profile, octets: &[u8]) -> usize
    ensures { result ≡ field_length profile.now octets.now }
{
    octets
        .len()
        .saturating_sub(HEADER)
        .saturating_sub(check_octets(profile))
}

/// Returns whether the data field begins as Set V(R), and has as many octets.
fn is_set_vr(profile: &Profile, octets: &[u8]) -> bool
    ensures { result ≡ is_set_vr profile.now octets.now }
{
    octet_at(octets, HEADER) == SET_VR && field_length(profile, octets) == 3
}

/// Returns whether the data field is a control command.
fn is_command(profile: &Profile, octets: &[u8]) -> bool
    ensures { result ≡ is_command profile.now octets.now }
{
    let unlock = octet_at(octets, HEADER) == 0 && field_length(profile, octets) == 1;
    unlock || is_set_vr(profile, octets) && octet_at(octets, HEADER + 1) == 0
}

/// Adds the fields of a control command.
fn put_control<A: Allocator + Copy>(
    rows: &mut Vec<Row, A>,
    profile: &Profile,
    octets: &[u8],
) -> Result<(), AllocError>
    ensures { OnOk result (rows.new.items ≡ rows.old.items ++ control_rows profile.now octets.now) }
{
    let command = Fit::Command(is_command(profile, octets));
    rows.push(row!(ControlCommand, 5, 0, 8, Command, Word::Content, command))?;
    if is_set_vr(profile, octets) {
        rows.push(row!(Vr, 7, 0, 8, Number))?;
    }
    Ok(())
}

/// Adds the segment header of an unsegmented packet, if frames have one.
fn put_segment<A: Allocator + Copy>(
    rows: &mut Vec<Row, A>,
    map: Option<Map>,
) -> Result<(), AllocError>
    ensures { OnOk result (rows.new.items ≡ rows.old.items ++ segment_rows map) }
{
    if let Some(map) = map {
        let id = Fit::Is(u64::from(map.id));
        rows.push(row!(
            SegmentSequenceFlags,
            5,
            0,
            2,
            Sequence,
            Word::Content,
            Fit::Is(3)
        ))?;
        rows.push(row!(Map, 5, 2, 6, Number, Word::Content, id))?;
    }
    Ok(())
}

/// Returns the place of a frame's packet.
fn packet_at(profile: &Profile) -> usize
    ensures value { result ≡ packet_at profile.now }
    ensures small { result ≤ 6 }
{
    match profile.tc.map {
        None => HEADER,
        Some(_) => HEADER + 1,
    }
}

/// Returns how many octets the packet of a frame has.
fn packet_length(profile: &Profile, octets: &[u8]) -> usize
    ensures { result ≡ packet_length profile.now octets.now }
{
    octets
        .len()
        .saturating_sub(packet_at(profile))
        .saturating_sub(check_octets(profile))
}

/// Returns the fields of a frame, up to its packet.
fn front_rows<A: Allocator + Copy>(
    alloc: A,
    profile: &Profile,
    octets: &[u8],
) -> Result<Vec<Row, A>, AllocError>
    ensures { IfOk result (λ rows. rows.items ≡ front_rows profile.now octets.now) }
{
    let mut rows = Vec::from_slice(alloc, &header_rows(profile, octets))?;
    if is_control(octets) {
        put_control(&mut rows, profile, octets)?;
    } else {
        put_segment(&mut rows, profile.tc.map)?;
    }
    Ok(rows)
}

/// Adds the packet of a frame that its reader refuses.
fn put_packet<A: Allocator + Copy>(
    rows: &mut Vec<Row, A>,
    profile: &Profile,
    octets: &[u8],
) -> Result<(), AllocError>
    ensures { OnOk result (rows.new.items ≡ rows.old.items ++ packet_rows profile.now octets.now) }
{
    if is_control(octets) {
        return Ok(());
    }
    let at = packet_at(profile) as u32;
    let number = packet_length(profile, octets) as u64;
    rows.push(count!(Packet, at, number, Word::Content, Fit::Least(1)))?;
    Ok(())
}

/// Adds error control, and the row that ends a frame which its reader refuses.
fn put_closing<A: Allocator + Copy>(
    rows: &mut Vec<Row, A>,
    profile: &Profile,
    word: Option<Word>,
    octets: &[u8],
) -> Result<(), AllocError>
    requires { length octets.now ≤ 65542 }
    ensures { OnOk result (rows.new.items ≡ rows.old.items ++ closing_rows profile.now word octets.now) }
{
    put_frame_check(rows, profile.tc.fecf, octets)?;
    put_refused(rows, word, Name::TransferFrame, 0, octets.len() as u64)
}

/// Adds the lines of a frame whose packet's lines are not told.
fn tell_fields<A: Allocator + Copy>(
    alloc: A,
    out: &mut Vec<Line, A>,
    place: &Place,
    word: Option<Word>,
    profile: &Profile,
    octets: &[u8],
) -> Result<(), AllocError>
    requires { length octets.now ≤ 65542 }
    ensures { OnOk result (out.new.items ≡ out.old.items ++ told place.now word octets.now
        (front_rows profile.now octets.now ++ packet_rows profile.now octets.now ++ closing_rows profile.now word octets.now)) }
{
    let mut rows = front_rows(alloc, profile, octets)?;
    put_packet(&mut rows, profile, octets)?;
    put_closing(&mut rows, profile, word, octets)?;
    tell(out, place, word, octets, &rows)
}

/// Adds the lines of a frame with a packet, and those of the packet.
fn tell_carrier<A: Allocator + Copy>(
    alloc: A,
    out: &mut Vec<Line, A>,
    place: &Place,
    profile: &Profile,
    octets: &[u8],
) -> Result<(), AllocError>
    requires few { length octets.now ≤ 65542 }
    requires near { place.now.skipped ≤ 65542 }
    ensures { OnOk result (Added (FieldsTold true place.now None profile.now octets.now) out.old.items out.new.items) }
{
    let rows = front_rows(alloc, profile, octets)?;
    tell(out, place, None, octets, &rows)?;
    let begin = packet_at(profile);
    let packet = octets_within(octets, begin, packet_length(profile, octets));
    tell_telecommand(alloc, out, &place.later(begin as u32), profile, packet)?;
    let mut rows = Vec::new(alloc);
    put_closing(&mut rows, profile, None, octets)?;
    tell(out, place, None, octets, &rows)
}

/// Returns whether a frame that is refused by this word, or taken, has a packet whose lines are told.
fn carries(word: Option<Word>, octets: &[u8]) -> bool
    ensures { result ≡ carries word octets.now }
{
    word.is_none() && !is_control(octets)
}

/// Adds the lines of a telecommand transfer frame: its fields, up to the one for which the reader refuses it, and those of its packet.
pub(crate) fn tell_tc_frame<A: Allocator + Copy>(
    alloc: A,
    out: &mut Vec<Line, A>,
    place: &Place,
    profile: &Profile,
    octets: &[u8],
) -> Result<(), AllocError>
    requires few { length octets.now ≤ 65542 }
    requires near { place.now.skipped ≤ 65542 }
    ensures { OnOk result (Added (TcFrameTold place.now profile.now octets.now) out.old.items out.new.items) }
{
    let word = frame_word(profile, octets);
    if carries(word, octets) {
        return tell_carrier(alloc, out, place, profile, octets);
    }
    tell_fields(alloc, out, place, word, profile, octets)
}
