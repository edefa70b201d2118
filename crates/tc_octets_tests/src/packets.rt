//! Packets, and packets over telemetry frames, written again.

use std::alloc::{AllocError, Global};
use tc_octets::{Profile, TmFrame, read_tm_frame};
use tc_packets::{
    Heard, HeardReport, IDLE_APID, Item, PacketReader, TmSender, fits, has_time, is_reportable,
    read_report, read_space_packet, read_telecommand, read_time, report, space_packet, telecommand,
    time_octets,
};
use tc_types::Moment;

/// The octets of a report before its time: the primary header, and seven of the secondary header.
const BEFORE_TIME: usize = 13;

/// Writes a space packet again.
pub(crate) fn space_again(alloc: Global, octets: &[u8]) -> Result<Option<Vec<u8>>, AllocError> {
    match read_space_packet(octets) {
        Ok(packet) => Ok(Some(space_packet(alloc, &packet)?)),
        Err(_) => Ok(None),
    }
}

/// Writes a telecommand packet again.
pub(crate) fn telecommand_again(
    alloc: Global,
    profile: &Profile,
    octets: &[u8],
) -> Result<Option<Vec<u8>>, AllocError> {
    let Ok(flight) = read_telecommand(profile, octets) else {
        return Ok(None);
    };
    if !fits(profile, &flight) {
        return Ok(None);
    }
    Ok(Some(telecommand(alloc, profile, &flight)?))
}

/// Returns the time in a report.
fn time_in(profile: &Profile, octets: &[u8]) -> Option<Moment> {
    let end = BEFORE_TIME + time_octets(profile);
    if octets.len() < end {
        return None;
    }
    read_time(profile, &octets[BEFORE_TIME..end])
}

/// Writes a report with this time, if it has octets.
fn report_at(
    alloc: Global,
    profile: &Profile,
    heard: &HeardReport,
    now: Moment,
) -> Result<Option<Vec<u8>>, AllocError> {
    if !has_time(profile, now) || !is_reportable(profile, &heard.told) {
        return Ok(None);
    }
    Ok(Some(report(alloc, profile, heard.origin.count, now, &heard.told)?))
}

/// Writes a report again.
pub(crate) fn report_again(
    alloc: Global,
    profile: &Profile,
    octets: &[u8],
) -> Result<Option<Vec<u8>>, AllocError> {
    let Some(now) = time_in(profile, octets) else {
        return Ok(None);
    };
    match read_report(profile, octets) {
        Ok(Heard::Report(heard)) => report_at(alloc, profile, &heard, now),
        _ => Ok(None),
    }
}

/// Whether octets are a packet that is not idle.
fn is_sent(octets: &[u8]) -> bool {
    match read_space_packet(octets) {
        Ok(packet) => packet.header.identity.apid.get() != IDLE_APID,
        Err(_) => false,
    }
}

/// Returns the packets among these items that are not idle, in order.
fn sent_packets(alloc: Global, items: &[Item<Global>]) -> Result<Vec<Vec<u8>>, AllocError> {
    let mut packets = Vec::new(alloc);
    for item in items {
        if let Item::Packet(octets) = item {
            if is_sent(octets) {
                packets.push(octets.clone()?)?;
            }
        }
    }
    Ok(packets)
}

/// Returns frames one after the other.
fn joined(alloc: Global, frames: &[Vec<u8>]) -> Result<Vec<u8>, AllocError> {
    let mut out = Vec::new(alloc);
    for frame in frames {
        out.extend_from_slice(frame)?;
    }
    Ok(out)
}

/// Returns what the frames of a stream bring, each of the link's length. `None` if one of them is refused.
fn items_in(
    alloc: Global,
    profile: &Profile,
    octets: &[u8],
) -> Result<Option<Vec<Item<Global>>>, AllocError> {
    let mut reader = PacketReader::new(alloc);
    let mut items = Vec::new(alloc);
    for octets in octets.chunks(usize::from(profile.tm.length)) {
        let Ok(frame) = read_tm_frame(profile, octets) else {
            return Ok(None);
        };
        reader.frame(&frame, &mut items)?;
    }
    Ok(Some(items))
}

/// Returns packets over frames that go on from this one: its counts, and its control word.
fn carriers_from(
    alloc: Global,
    profile: &Profile,
    first: &TmFrame,
    items: &[Item<Global>],
) -> Result<Vec<u8>, AllocError> {
    let mut sender = TmSender {
        master_count: first.master_count,
        channel_count: first.channel_count,
    };
    let packets = sent_packets(alloc, items)?;
    let frames = sender.send(alloc, profile, first.word.unwrap_or(0), &packets)?;
    joined(alloc, &frames)
}

/// Writes packets over frames again, with the counts and the control word of the first frame.
pub(crate) fn carriers_again(
    alloc: Global,
    profile: &Profile,
    octets: &[u8],
) -> Result<Option<Vec<u8>>, AllocError> {
    let length = usize::from(profile.tm.length);
    if octets.len() < length {
        return Ok(None);
    }
    let Ok(first) = read_tm_frame(profile, &octets[..length]) else {
        return Ok(None);
    };
    match items_in(alloc, profile, octets)? {
        Some(items) => Ok(Some(carriers_from(alloc, profile, &first, &items)?)),
        None => Ok(None),
    }
}
