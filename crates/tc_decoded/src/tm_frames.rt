//! The lines of telemetry transfer frames.
ghost use Rattle.std.specs.Prelude.{◌≡◌, ◌+◌, ◌==◌, ◌++◌, ◌≤◌, OnOk, length, map, true};
ghost use Rattle.tc_octets.specs.TmFrames.{tm_parts};
ghost use Rattle.tc_packets.specs.Receivers.{given_of};
ghost use Rattle.tc_decoded.specs.Added.{Added};
ghost use Rattle.tc_decoded.specs.Places.{the_whole};
ghost use Rattle.tc_decoded.specs.Rows.{told};
ghost use Rattle.tc_decoded.specs.TmFrameLines.{DataTold, FieldsTold, GivenTold, OneTold, TmFrameTold, control_word_rows, given_length, has_packets};
ghost use Rattle.tc_decoded.specs.TmFrameLines.{in_progress, left_rows, skips, tm_header_rows, tm_word, word_rows};

use crate::lines::Line;
use crate::names::Name;
use crate::places::Place;
use crate::rows::{Fit, Row, Shown, Source, Span, Word, octet_at, octets_within};
use crate::tables::{put_frame_check, put_refused};
use crate::telemetry::tell_packet;
use crate::telling::tell;
use std::alloc::{AllocError, Allocator};
use tc_octets::{Profile, TmFault, TmFrame, read_tm_frame};
use tc_packets::{Item, PacketReader};

/// The octets of a header.
const HEADER: u32 = 6;

/// The first header pointer of a frame that has idle data alone.
const IDLE_DATA: usize = 2046;

/// Returns the word of a fault.
fn tm_word(fault: TmFault) -> Word
    ensures { result ≡ tm_word fault }
{
    match fault {
        TmFault::Length => Word::Length,
        TmFault::Check => Word::Check,
        TmFault::Version => Word::Version,
        TmFault::Spacecraft => Word::Spacecraft,
    }
}

/// Returns the header of a frame.
fn header_rows(profile: &Profile, octets: &[u8]) -> [Row; 12]
    ensures { result ≡ tm_header_rows profile.now octets.now }
{
    let number = octets.len() as u64;
    let size = Fit::Is(u64::from(profile.tm.length));
    let scid = Fit::Is(u64::from(profile.scid));
    [
        count!(TransferFrame, 0, number, Word::Length, size),
        row!(Version, 0, 0, 2, Number, Word::Version, Fit::Is(0)),
        row!(SpacecraftId, 0, 2, 10, Number, Word::Spacecraft, scid),
        row!(VirtualChannel, 1, 4, 3, Number),
        row!(ControlFieldFlag, 1, 7, 1, Flag),
        row!(MasterChannelFrameCount, 2, 0, 8, Number),
        row!(VirtualChannelFrameCount, 3, 0, 8, Number),
        row!(SecondaryHeaderFlag, 4, 0, 1, Flag),
        row!(SynchronizationFlag, 4, 1, 1, Flag),
        row!(PacketOrderFlag, 4, 2, 1, Flag),
        row!(SegmentLengthId, 4, 3, 2, Number),
        row!(FirstHeaderPointer, 4, 5, 11, Number),
    ]
}

/// Returns the fields of a control word (CCSDS 232.0-B, 4.2).
fn control_word_rows(at: u32) -> [Row; 14]
    requires { at ≤ 131072 }
    ensures { result ≡ control_word_rows at }
{
    [
        row!(ControlWordType, at, 0, 1, Number),
        row!(ControlWordVersion, at, 1, 2, Number),
        row!(StatusField, at, 3, 3, Number),
        row!(CopInEffect, at, 6, 2, Number),
        row!(VirtualChannel, at + 1, 0, 6, Number),
        row!(Spare, at + 1, 6, 2, Number),
        row!(NoRfAvailable, at + 2, 0, 1, Flag),
        row!(NoBitLock, at + 2, 1, 1, Flag),
        row!(Lockout, at + 2, 2, 1, Flag),
        row!(Wait, at + 2, 3, 1, Flag),
        row!(Retransmit, at + 2, 4, 1, Flag),
        row!(FarmBCounter, at + 2, 5, 2, Number),
        row!(Spare, at + 2, 7, 1, Number),
        row!(ReportValue, at + 3, 0, 8, Number),
    ]
}

/// Adds the fields of the control word, if a frame has one.
fn put_word<A: Allocator + Copy>(
    rows: &mut Vec<Row, A>,
    word: Option<u32>,
    at: u32,
) -> Result<(), AllocError>
    requires { at ≤ 131072 }
    ensures { OnOk result (rows.new.items ≡ rows.old.items ++ word_rows word at) }
{
    match word {
        None => Ok(()),
        Some(_) => rows.extend_from_slice(&control_word_rows(at)),
    }
}

/// Returns whether the receiver of packets skips a frame with this status, whose data field has so many octets.
fn is_skipped(status: u16, size: usize) -> bool
    ensures { result ≡ skips status size }
{
    let pointer = usize::from(status % 0x800);
    status / 0x800 != 3 || size <= pointer && pointer < IDLE_DATA
}

/// Returns whether packets are read from a frame.
fn has_packets(profile: &Profile, frame: &TmFrame) -> bool
    ensures { result ≡ has_packets profile.now (tm_parts frame.now) }
{
    frame.vcid == profile.tm.vcid
        && !is_skipped(frame.status, frame.data.len())
        && usize::from(frame.status % 0x800) != IDLE_DATA
}

/// Adds octets of a packet whose other octets are in other frames, if there are any.
fn put_in_progress<A: Allocator + Copy>(
    rows: &mut Vec<Row, A>,
    at: u32,
    number: u64,
) -> Result<(), AllocError>
    ensures { OnOk result (rows.new.items ≡ rows.old.items ++ in_progress at number) }
{
    if number != 0 {
        rows.push(count!(PacketInProgress, at, number, Word::Length, Fit::Any))?;
    }
    Ok(())
}

/// Adds the octets after the last packet, if there are any.
fn put_left<A: Allocator + Copy>(
    rows: &mut Vec<Row, A>,
    at: usize,
    content: &[u8],
) -> Result<(), AllocError>
    requires { at ≤ 65542 }
    ensures { OnOk result (rows.new.items ≡ rows.old.items ++ left_rows at content.now) }
{
    let number = content.len().saturating_sub(at) as u64;
    if octet_at(content, at) < 0x20 {
        return put_in_progress(rows, at as u32, number);
    }
    if number != 0 {
        rows.push(count!(BetweenPackets, at as u32, number, Word::Length, Fit::Any))?;
    }
    Ok(())
}

/// Returns how many octets a packet that the receiver gives has; 0 of a mark.
fn given_length<A: Allocator + Copy + Drop>(item: &Item<A>) -> usize
    ensures { result ≡ given_length (given_of item.now) }
{
    match item {
        Item::Packet(octets) => octets.len(),
        Item::Gap | Item::Cut | Item::Skipped => 0,
    }
}

/// Adds the lines of a packet, if there is one.
fn tell_one<A: Allocator + Copy>(
    alloc: A,
    out: &mut Vec<Line, A>,
    place: &Place,
    profile: &Profile,
    octets: &[u8],
    number: usize,
) -> Result<(), AllocError>
    requires few { length octets.now ≤ 65542 }
    requires near { place.now.skipped ≤ 131072 }
    ensures { OnOk result (Added (OneTold (number == 0) place.now profile.now octets.now) out.old.items out.new.items) }
{
    if number == 0 {
        return Ok(());
    }
    tell_packet(alloc, out, place, profile, octets)
}

/// Adds the lines of the octets after the last packet.
fn tell_left<A: Allocator + Copy>(
    alloc: A,
    out: &mut Vec<Line, A>,
    place: &Place,
    content: &[u8],
    at: usize,
) -> Result<(), AllocError>
    requires { at ≤ 65542 }
    ensures { OnOk result (out.new.items ≡ out.old.items ++ told place.now None content.now (left_rows at content.now)) }
{
    let mut rows = Vec::new(alloc);
    put_left(&mut rows, at, content)?;
    tell(out, place, None, content, &rows)
}

/// Adds the lines of what the receiver gives from an octet on.
fn tell_given<A: Allocator + Copy + Drop>(
    alloc: A,
    out: &mut Vec<Line, A>,
    place: &Place,
    profile: &Profile,
    content: &[u8],
    at: usize,
    items: &[Item<A>],
) -> Result<(), AllocError>
    requires few { length content.now ≤ 65542 }
    requires near { place.now.skipped ≤ 6 }
    requires within { at ≤ length content.now }
    ensures { OnOk result (Added (GivenTold place.now profile.now content.now at (map given_of items.now)) out.old.items out.new.items) }
{
    match items.split_first() {
        None => tell_left(alloc, out, place, content, at),
        Some((item, others)) => {
            let number = given_length(item);
            let packet = octets_within(content, at, number);
            tell_one(alloc, out, &place.later(at as u32), profile, packet, number)?;
            let next = at.saturating_add(number).min(content.len());
            tell_given(alloc, out, place, profile, content, next, others)
        }
    }
}

/// Adds the lines of the packets in a data field.
fn tell_packets<A: Allocator + Copy + Drop>(
    alloc: A,
    out: &mut Vec<Line, A>,
    place: &Place,
    profile: &Profile,
    frame: &TmFrame,
) -> Result<(), AllocError>
    requires few { length frame.now.«data».now ≤ 65542 }
    requires near { place.now.skipped ≤ 6 }
    ensures { OnOk result (Added (DataTold true place.now profile.now (tm_parts frame.now)) out.old.items out.new.items) }
{
    let mut items = Vec::new(alloc);
    let mut reader = PacketReader::new(alloc);
    reader.frame(frame, &mut items)?;
    let content = frame.data;
    let at = usize::from(frame.status % 0x800).min(content.len());
    let mut rows = Vec::new(alloc);
    put_in_progress(&mut rows, 0, at as u64)?;
    tell(out, place, None, content, &rows)?;
    tell_given(alloc, out, place, profile, content, at, &items)
}

/// Adds the lines of a data field.
fn tell_content<A: Allocator + Copy + Drop>(
    alloc: A,
    out: &mut Vec<Line, A>,
    place: &Place,
    profile: &Profile,
    frame: &TmFrame,
) -> Result<(), AllocError>
    requires few { length frame.now.«data».now ≤ 65542 }
    requires near { place.now.skipped ≤ 6 }
    ensures { OnOk result
        (Added (DataTold (has_packets profile.now (tm_parts frame.now)) place.now profile.now (tm_parts frame.now)) out.old.items out.new.items) }
{
    if has_packets(profile, frame) {
        return tell_packets(alloc, out, place, profile, frame);
    }
    let number = frame.data.len() as u64;
    let row = count!(DataField, 0, number, Word::Length, Fit::Any);
    tell(out, place, None, frame.data, &[row])
}

/// Adds the lines of a frame that the reader takes.
fn tell_taken<A: Allocator + Copy + Drop>(
    alloc: A,
    out: &mut Vec<Line, A>,
    profile: &Profile,
    octets: &[u8],
    frame: &TmFrame,
) -> Result<(), AllocError>
    requires few { length octets.now ≤ 65542 }
    requires within { length frame.now.«data».now ≤ length octets.now }
    ensures { OnOk result (Added (FieldsTold the_whole profile.now octets.now (Ok frame.now)) out.old.items out.new.items) }
{
    let whole = Place::whole();
    tell(out, &whole, None, octets, &header_rows(profile, octets))?;
    tell_content(alloc, out, &whole.later(HEADER), profile, frame)?;
    let mut rows = Vec::new(alloc);
    put_word(&mut rows, frame.word, HEADER + frame.data.len() as u32)?;
    put_frame_check(&mut rows, profile.tm.fecf, octets)?;
    tell(out, &whole, None, octets, &rows)
}

/// Adds the lines of a frame that the reader refuses.
fn tell_refused<A: Allocator + Copy>(
    alloc: A,
    out: &mut Vec<Line, A>,
    profile: &Profile,
    octets: &[u8],
    fault: TmFault,
) -> Result<(), AllocError>
    requires { length octets.now ≤ 65542 }
    ensures { OnOk result (Added (FieldsTold the_whole profile.now octets.now (Err fault)) out.old.items out.new.items) }
{
    let word = Some(tm_word(fault));
    let mut rows = Vec::from_slice(alloc, &header_rows(profile, octets))?;
    put_frame_check(&mut rows, profile.tm.fecf, octets)?;
    put_refused(&mut rows, word, Name::TransferFrame, 0, octets.len() as u64)?;
    tell(out, &Place::whole(), word, octets, &rows)
}

/// Adds the lines of a telemetry frame: its fields, up to the one for which the reader refuses it, and those of its packets.
pub(crate) fn tell_tm_frame<A: Allocator + Copy + Drop>(
    alloc: A,
    out: &mut Vec<Line, A>,
    profile: &Profile,
    octets: &[u8],
) -> Result<(), AllocError>
    requires { length octets.now ≤ 65542 }
    ensures { OnOk result (Added (TmFrameTold the_whole profile.now octets.now) out.old.items out.new.items) }
{
    match read_tm_frame(profile, octets) {
        Ok(frame) => tell_taken(alloc, out, profile, octets, &frame),
        Err(fault) => tell_refused(alloc, out, profile, octets, fault),
    }
}
