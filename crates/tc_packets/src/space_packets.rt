//! Space packets.
ghost use Rattle.std.specs.Prelude.{◌≡◌, ◌++◌, ◌+◌, ◌≤◌, ◌^◌, IfOk, OnOk, length, replicate};
ghost use Rattle.tc_packets.specs.SpacePackets.{IsField, IsHeader, ReadsPacket, header_of, identification, idle_packet_of, sequence_bits};
ghost use Rattle.tc_packets.specs.SpacePackets.{sequence_control};
ghost use Rattle.tc_packets.specs.SpacePackets.{space_packet_of, type_bit, version_in, whole_length_in};
ghost use Rattle.tc_octets.specs.Bits.{pair_at};

use crate::octet_fields::{pair_in, put_pair};
use std::alloc::{AllocError, Allocator};
use tc_types::{Apid, Identity, SequenceCount};

/// The octets of a primary header.
pub const HEADER: usize = 6;

/// The fewest octets of a packet.
pub const FEWEST_PACKET: usize = 7;

/// The most octets of a packet.
pub const MOST_PACKET: usize = 65_542;

/// The APID of idle packets (CCSDS 133.0-B, 4.1.3.3.4.4).
pub const IDLE_APID: u16 = 2047;

/// The octet that an idle packet repeats.
const IDLE: u8 = 0x55;

/// What a packet is for (CCSDS 133.0-B, 4.1.3.3.2).
#[derive(Clone, Copy, Debug, PartialEq, Eq)]
pub enum PacketType {
    /// A report.
    Telemetry,
    /// A request.
    Telecommand,
}

/// Which part of a group of packets this one is (CCSDS 133.0-B, 4.1.3.4.2).
#[derive(Clone, Copy, Debug, PartialEq, Eq)]
pub enum SequenceFlags {
    /// Neither the first nor the last part.
    Continuation,
    /// The first part.
    First,
    /// The last part.
    Last,
    /// A whole.
    Unsegmented,
}

/// The primary header of a space packet without its length (CCSDS 133.0-B, 4.1.3).
#[derive(Clone, Copy, Debug, PartialEq, Eq)]
pub struct PacketHeader {
    /// Telemetry or telecommand.
    pub kind: PacketType,
    /// Whether the data field begins with a secondary header.
    pub secondary: bool,
    /// The application process, and its sequence count.
    pub identity: Identity,
    /// Which part of a group it is.
    pub sequence: SequenceFlags,
}

/// A space packet: its header, and its data field of 1 to 65,536 octets.
#[derive(Clone, Copy, Debug)]
pub struct SpacePacket<'a> {
    /// The header.
    pub header: PacketHeader,
    /// What follows the header.
    pub field: &'a [u8],
}

/// Why octets are no space packet. If both apply, it is the first.
#[derive(Clone, Copy, Debug, PartialEq, Eq)]
pub enum SpaceFault {
    /// Fewer octets than a packet has, or another number than the packet data length says.
    Length,
    /// The packet version is not 000.
    Version,
}

/// Returns the bit of a packet's type.
fn type_bit(kind: PacketType) -> u16
    ensures { result ≡ type_bit kind }
{
    match kind {
        PacketType::Telemetry => 0,
        PacketType::Telecommand => 1,
    }
}

/// Returns the two bits of sequence flags.
fn sequence_bits(sequence: SequenceFlags) -> u16
    ensures { result ≡ sequence_bits sequence }
{
    match sequence {
        SequenceFlags::Continuation => 0,
        SequenceFlags::First => 1,
        SequenceFlags::Last => 2,
        SequenceFlags::Unsegmented => 3,
    }
}

/// Adds the six octets of a header (CCSDS 133.0-B, 4.1.3) before a data field of so many octets, 1 to 65,536.
pub fn put_header<A: Allocator + Copy>(
    out: &mut Vec<u8, A>,
    header: &PacketHeader,
    octets: usize,
) -> Result<(), AllocError>
    requires least { 1 ≤ octets }
    requires most { octets ≤ 2 ^ 16 }
    ensures { OnOk result (out.new.items ≡ out.old.items ++ header_of header.now octets) }
{
    let PacketHeader {
        kind,
        secondary,
        identity,
        sequence,
    } = *header;
    put_pair(
        out,
        type_bit(kind) * 0x1000 + u16::from(secondary) * 0x800 + identity.apid.get(),
    )?;
    put_pair(out, sequence_bits(sequence) * 0x4000 + identity.count.get())?;
    put_pair(out, (octets - 1) as u16)
}

/// Returns the octets of a packet (CCSDS 133.0-B, 4.1). Fails if memory is refused.
pub fn space_packet<A: Allocator + Copy>(
    alloc: A,
    packet: &SpacePacket,
) -> Result<Vec<u8, A>, AllocError>
    requires { IsField packet.now.field.now }
    ensures { IfOk result (λ octets. octets.items ≡ space_packet_of packet.now.header packet.now.field.now) }
{
    let mut octets = Vec::new(alloc);
    put_header(&mut octets, &packet.header, packet.field.len())?;
    octets.extend_from_slice(packet.field)?;
    Ok(octets)
}

/// Adds so many octets 55.
fn put_idle<A: Allocator + Copy>(out: &mut Vec<u8, A>, octets: usize) -> Result<(), AllocError>
    ensures { OnOk result (out.new.items ≡ out.old.items ++ replicate octets 0x55) }
{
    for _ in 0..octets {
        out.push(IDLE)?;
    }
    Ok(())
}

/// Adds an idle packet of so many octets, 7 to 65,542.
pub fn put_idle_packet<A: Allocator + Copy>(
    out: &mut Vec<u8, A>,
    octets: usize,
) -> Result<(), AllocError>
    requires least { 7 ≤ octets }
    requires most { octets ≤ 65542 }
    ensures { OnOk result (out.new.items ≡ out.old.items ++ idle_packet_of octets) }
{
    let header = PacketHeader {
        kind: PacketType::Telemetry,
        secondary: false,
        identity: Identity {
            apid: Apid::new(IDLE_APID).unwrap(),
            count: SequenceCount::new(0).unwrap(),
        },
        sequence: SequenceFlags::Unsegmented,
    };
    put_header(out, &header, octets - HEADER)?;
    put_idle(out, octets - HEADER)
}

/// Returns how many octets the packet has that begins with these, by its header; at least six octets are there.
pub fn whole_length(octets: &[u8]) -> usize
    requires { 6 ≤ length octets.now }
    ensures { result ≡ whole_length_in octets.now }
{
    usize::from(pair_in(octets, 4)) + FEWEST_PACKET
}

/// Returns the type that a bit is.
fn type_in(bit: u16) -> PacketType
    requires { bit ≤ 1 }
    ensures { type_bit result ≡ bit }
{
    if bit == 0 {
        PacketType::Telemetry
    } else {
        PacketType::Telecommand
    }
}

/// Returns the sequence flags that two bits are.
fn sequence_in(bits: u16) -> SequenceFlags
    requires { bits ≤ 3 }
    ensures { sequence_bits result ≡ bits }
{
    match bits {
        0 => SequenceFlags::Continuation,
        1 => SequenceFlags::First,
        2 => SequenceFlags::Last,
        _ => SequenceFlags::Unsegmented,
    }
}

/// Returns the header that these octets begin with, of version 000.
fn header_in(octets: &[u8]) -> PacketHeader
    requires long { 6 ≤ length octets.now }
    requires version { version_in octets.now ≡ 0 }
    ensures identification { identification result ≡ pair_at octets.now 0 }
    ensures sequence_control { sequence_control result ≡ pair_at octets.now 2 }
    ensures ranged { IsHeader result }
{
    let first = pair_in(octets, 0);
    let second = pair_in(octets, 2);
    PacketHeader {
        kind: type_in(first / 0x1000),
        secondary: first / 0x800 % 2 == 1,
        identity: Identity {
            apid: Apid::new(first % 0x800).unwrap(),
            count: SequenceCount::new(second % 0x4000).unwrap(),
        },
        sequence: sequence_in(second / 0x4000),
    }
}

/// Returns the packet that these octets are (CCSDS 133.0-B, 4.1): all of them, no more and no fewer. Else the first fault that applies. Takes no
/// memory.
pub fn read_space_packet<'a>(octets: &'a [u8]) -> Result<SpacePacket<'a>, SpaceFault>
    ensures { ReadsPacket octets.now result }
{
    if octets.len() < FEWEST_PACKET || whole_length(octets) != octets.len() {
        return Err(SpaceFault::Length);
    }
    if pair_in(octets, 0) / 0x2000 != 0 {
        return Err(SpaceFault::Version);
    }
    Ok(SpacePacket {
        header: header_in(octets),
        field: &octets[HEADER..],
    })
}
