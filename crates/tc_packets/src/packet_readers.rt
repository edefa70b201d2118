//! The receiver of packets over telemetry frames of one virtual channel.
ghost use Rattle.std.specs.Prelude.{◌≡◌, ◌++◌, ◌∷◌, [], ◌<◌, ◌≤◌, nat_lt, OnErr, OnOk, IfOk, length, map};
ghost use Rattle.tc_octets.specs.TmFrames.{tm_parts};
ghost use Rattle.tc_packets.specs.Receivers.{Appends, IsShortPart, begun, carried, continued, dropped, ended, fresh, given_of, is_next, is_skipped};
ghost use Rattle.tc_packets.specs.Receivers.{looked_at, packet, received, received_to};
ghost use Rattle.tc_packets.specs.SpacePackets.{whole_length_in};

use crate::space_packets::{HEADER, whole_length};
use std::alloc::{AllocError, Allocator};
use std::marker::Model;
use tc_octets::TmFrame;

/// The first header pointer of a frame that has idle data alone (CCSDS 132.0-B, 4.1.2.7.6).
const IDLE_DATA: usize = 2046;

/// The first header pointer of a frame in which no packet starts.
const NO_START: usize = 2047;

/// An item of a receiver's output: a packet or a mark.
#[derive(Drop)]
pub enum Item<A: Allocator + Copy + Drop> {
    /// The octets of a packet.
    Packet(Vec<u8, A>),
    /// A frame's count is not the one expected, so frames are missing.
    Gap,
    /// A packet in progress is dropped, or octets that begin no packet are passed over up to the frame's end.
    Cut,
    /// A frame is skipped, since its data field is no sequence of packets.
    Skipped,
}

/// Returns whether these octets are less than the packet that they begin.
fn is_short(octets: &[u8]) -> bool
    ensures { result ≡ nat_lt (length octets.now) (whole_length_in octets.now) }
{
    octets.len() < HEADER || octets.len() < whole_length(octets)
}

/// Adds a mark for the packet in progress, if there is one to drop. None is in progress then.
fn drop_part<A: Allocator + Copy + Drop>(
    alloc: A,
    part: &[u8],
    out: &mut Vec<Item<A>, A>,
) -> Result<Vec<u8, A>, AllocError>
    ensures { IfOk result (λ left. Appends (dropped part.now) out.old out.new left) }
{
    if !part.is_empty() {
        out.push(Item::Cut)?;
    }
    Ok(Vec::new(alloc))
}

/// Adds a packet.
fn put_packet<A: Allocator + Copy + Drop>(
    alloc: A,
    octets: &[u8],
    out: &mut Vec<Item<A>, A>,
) -> Result<(), AllocError>
    ensures { OnOk result (map given_of out.new.items ≡ map given_of out.old.items ++ packet octets.now ∷ []) }
{
    let packet = Vec::from_slice(alloc, octets)?;
    out.push(Item::Packet(packet))?;
    Ok(())
}

/// Judges the packet in progress with the octets that it has now.
fn end_part<A: Allocator + Copy + Drop>(
    alloc: A,
    part: Vec<u8, A>,
    may_go_on: bool,
    out: &mut Vec<Item<A>, A>,
) -> Result<Vec<u8, A>, AllocError>
    requires { 0 < length part.items }
    ensures { IfOk result (λ left. Appends (ended may_go_on part.items) out.old out.new left) }
{
    if is_short(&part) {
        if may_go_on {
            return Ok(part);
        }
        return drop_part(alloc, &part, out);
    }
    if part.len() != whole_length(&part) {
        return drop_part(alloc, &part, out);
    }
    out.push(Item::Packet(part))?;
    Ok(Vec::new(alloc))
}

/// Goes on with the packet in progress, if there is one.
#[tactic(auto, unfolding(crate::specs::Receivers::continued))]
fn go_on<A: Allocator + Copy + Drop>(
    alloc: A,
    part: &[u8],
    octets: &[u8],
    may_go_on: bool,
    out: &mut Vec<Item<A>, A>,
) -> Result<Vec<u8, A>, AllocError>
    ensures { IfOk result (λ left. Appends (continued may_go_on part.now octets.now) out.old out.new left) }
{
    if part.is_empty() {
        return Ok(Vec::new(alloc));
    }
    let mut joined = Vec::from_slice(alloc, part)?;
    joined.extend_from_slice(octets)?;
    end_part(alloc, joined, may_go_on, out)
}

/// Takes packets one after the other from octets that begin with one.
fn begin<A: Allocator + Copy + Drop>(
    alloc: A,
    octets: &[u8],
    out: &mut Vec<Item<A>, A>,
) -> Result<Vec<u8, A>, AllocError>
    ensures { IfOk result (λ left. Appends (begun 0 octets.now) out.old out.new left) }
{
    let mut at = 0;
    while at < octets.len() {
        let rest = &octets[at..];
        if rest[0] >= 0x20 {
            out.push(Item::Cut)?;
            return Ok(Vec::new(alloc));
        }
        if is_short(rest) {
            let left = Vec::from_slice(alloc, rest)?;
            return Ok(left);
        }
        let size = whole_length(rest);
        put_packet(alloc, &rest[..size], out)?;
        at += size;
    }
    Ok(Vec::new(alloc))
}

/// Takes a data field by its first header pointer.
#[tactic(auto, unfolding(crate::specs::Receivers::carried))]
fn carry<A: Allocator + Copy + Drop>(
    alloc: A,
    pointer: usize,
    content: &[u8],
    part: &[u8],
    out: &mut Vec<Item<A>, A>,
) -> Result<Vec<u8, A>, AllocError>
    requires bound { pointer ≤ 2047 }
    requires inside { pointer < 2046 → pointer ≤ length content.now }
    ensures { IfOk result (λ left. Appends (carried pointer content.now part.now) out.old out.new left) }
{
    if pointer == IDLE_DATA {
        return Vec::from_slice(alloc, part);
    }
    if pointer == NO_START {
        return go_on(alloc, part, content, true, out);
    }
    go_on(alloc, part, &content[..pointer], false, out)?;
    begin(alloc, &content[pointer..], out)
}

/// Returns whether a frame with this data field status is skipped.
#[tactic(auto, unfolding(crate::specs::Receivers::is_skipped))]
fn is_skipped(status: u16, size: usize) -> bool
    ensures { result ≡ is_skipped status size }
{
    let pointer = usize::from(status % 0x800);
    status / 0x800 != 3 || size <= pointer && pointer < IDLE_DATA
}

/// Takes a frame that came next.
#[tactic(auto, unfolding(crate::specs::Receivers::looked_at))]
fn look_at<A: Allocator + Copy + Drop>(
    alloc: A,
    status: u16,
    content: &[u8],
    part: &[u8],
    out: &mut Vec<Item<A>, A>,
) -> Result<Vec<u8, A>, AllocError>
    ensures { IfOk result (λ left. Appends (looked_at status content.now part.now) out.old out.new left) }
{
    if is_skipped(status, content.len()) {
        out.push(Item::Skipped)?;
        return drop_part(alloc, part, out);
    }
    carry(alloc, usize::from(status % 0x800), content, part, out)
}

/// Returns whether a frame with this count comes next.
fn is_next(expected: Option<u8>, count: u8) -> bool
    ensures { result ≡ is_next expected count }
{
    match expected {
        None => true,
        Some(expected) => count == expected,
    }
}

/// Takes a frame.
#[tactic(auto, unfolding(crate::specs::Receivers::received, crate::specs::Receivers::counted))]
fn receive<A: Allocator + Copy + Drop>(
    alloc: A,
    part: &[u8],
    expected: Option<u8>,
    frame: &TmFrame,
    out: &mut Vec<Item<A>, A>,
) -> Result<Vec<u8, A>, AllocError>
    ensures { IfOk result (λ left. Appends (received (record { part = part.now; expected = expected }) (tm_parts frame.now)) out.old out.new left) }
{
    if is_next(expected, frame.channel_count) {
        return look_at(alloc, frame.status, frame.data, part, out);
    }
    out.push(Item::Gap)?;
    drop_part(alloc, part, out)?;
    look_at(alloc, frame.status, frame.data, &[], out)
}

/// The receiver of packets over the frames of one virtual channel (CCSDS 132.0-B, 4.1). It keeps the octets of the packet in progress, 65,541 at
/// most, and the frame count that it expects. A contract sees both.
#[derive(Drop)]
pub struct PacketReader<A: Allocator + Copy + Drop> {
    alloc: A,
    part: Vec<u8, A>,
    expected: Option<u8>,
}

impl<A: Allocator + Copy + Drop> Model for PacketReader<A> {
    ghost use Rattle.std.specs.Prelude.{◌<◌, length};
    ghost use Rattle.tc_packets.specs.Receivers.{IsPart, Receiver};

    ghost Value = { Receiver };

    ghost view = { λ reader. record { part = reader.part.items; expected = reader.expected } };

    ghost invariant = { λ reader. IsPart reader.part.items };
}

impl<A: Allocator + Copy + Drop> PacketReader<A> {
    /// Returns a receiver that has seen no frame: no packet is in progress, and any count is taken. It takes no memory.
    pub fn new(alloc: A) -> PacketReader<A>
        ensures { result ≡ fresh }
    {
        PacketReader {
            alloc,
            part: Vec::new(alloc),
            expected: None,
        }
    }

    /// Takes the next frame of the channel, and adds what it brings: packets and marks, in order. Fails if memory is refused; nothing is added then,
    /// and the receiver is as it was, so the frame can be given again.
    #[tactic(auto, using(crate::proofs::ReceiverLemmas::short_part))]
    pub fn frame(&mut self, frame: &TmFrame, out: &mut Vec<Item<A>, A>) -> Result<(), AllocError>
        ensures given { OnOk result (map given_of out.new.items ≡ map given_of out.old.items ++ (received self.old (tm_parts frame.now)).given) }
        ensures after { OnOk result (self.new ≡ received_to self.old (tm_parts frame.now)) }
        ensures refused { OnErr result ((self.new ≡ self.old) × (out.new.items ≡ out.old.items)) }
        ensures short { IsShortPart self.new.part }
    {
        let mut given = Vec::new(self.alloc);
        let part = receive(self.alloc, &self.part, self.expected, frame, &mut given)?;
        out.append(&mut given)?;
        self.part = part;
        self.expected = Some(frame.channel_count.wrapping_add(1));
        Ok(())
    }
}
