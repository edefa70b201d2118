//! Telecommand transfer frames.
ghost use Rattle.std.specs.Prelude.{◌≡◌, ◌++◌, ◌+◌, ◌<◌, ◌≤◌, IfOk, OnOk, length};
ghost use Rattle.tc_octets.specs.Bits.{pair, pair_at};
ghost use Rattle.tc_octets.specs.Cltus.{IsFrameIn, filled_of, turned_by};
ghost use Rattle.tc_octets.specs.TcFrames.{IsCarried, carried_of, check_length, closed, data_field, header_of, segment_header, tc_frame_of};

use crate::crcs::crc;
use crate::profiles::{Profile, TcChannel};
use std::alloc::{AllocError, Allocator};

/// The most octets of a telecommand transfer frame.
pub const MOST_TC_FRAME: usize = 1024;

/// The octets of a frame's header.
const HEADER: usize = 5;

/// The segment header of an unsegmented packet on MAP 0.
pub(crate) const UNSEGMENTED: u8 = 0xc0;

/// The first octet of the control command Set V(R).
const SET_VR: u8 = 0x82;

/// A telecommand transfer frame (CCSDS 232.0-B, 4.1), as the octets of a link have it.
#[derive(Clone, Copy, Debug)]
pub enum TcFrame<'a> {
    /// Type AD: one packet, in sequence.
    Ad {
        /// The frame sequence number N(S).
        ns: u8,
        /// The packet, of at least one octet.
        packet: &'a [u8],
    },
    /// Type BC: the control command Unlock.
    Unlock,
    /// Type BC: the control command Set V(R).
    SetVr {
        /// The new V(R).
        vr: u8,
    },
}

/// Why octets are no telecommand transfer frame of this link. If several apply, it is the first of these.
#[derive(Clone, Copy, Debug, PartialEq, Eq)]
pub enum TcFault {
    /// Fewer octets than a frame has, or more, or the frame length field is not their number less 1.
    Length,
    /// The frame error control field is not the CRC-16 of the octets before it.
    Check,
    /// The version or the spare is not 0.
    Version,
    /// Another spacecraft.
    Spacecraft,
    /// Another virtual channel.
    Channel,
    /// Type BD, or the reserved type.
    Kind,
    /// Another segment header, no octet after it, a type-BC frame with N(S), or another control command.
    Content,
}

/// Returns the octets of the frame error control field.
pub(crate) fn check_octets(fecf: bool) -> usize
    ensures { result ≡ check_length fecf }
{
    if fecf { 2 } else { 0 }
}

/// Adds a number as two octets.
pub(crate) fn put_pair<A: Allocator + Copy>(
    out: &mut Vec<u8, A>,
    number: u16,
) -> Result<(), AllocError>
    ensures { OnOk result (out.new.items ≡ out.old.items ++ pair number) }
{
    out.push((number / 256) as u8)?;
    out.push((number % 256) as u8)?;
    Ok(())
}

/// Returns the number that two octets are.
pub(crate) fn pair_in(octets: &[u8], at: usize) -> u16
    requires { at + 1 < length octets.now }
    ensures { result ≡ pair_at octets.now at }
{
    u16::from(octets[at]) * 256 + u16::from(octets[at + 1])
}

/// Adds the segment header of an unsegmented packet, if frames have one.
fn put_segment_header<A: Allocator + Copy>(
    out: &mut Vec<u8, A>,
    channel: &TcChannel,
) -> Result<(), AllocError>
    ensures { OnOk result (out.new.items ≡ out.old.items ++ segment_header channel.now.map) }
{
    match channel.map {
        None => Ok(()),
        Some(map) => {
            out.push(UNSEGMENTED + map.id)?;
            Ok(())
        }
    }
}

/// Adds a frame's data field.
fn put_data<A: Allocator + Copy>(
    out: &mut Vec<u8, A>,
    channel: &TcChannel,
    frame: &TcFrame,
) -> Result<(), AllocError>
    ensures { OnOk result (out.new.items ≡ out.old.items ++ data_field channel.now (carried_of frame.now)) }
{
    match frame {
        TcFrame::Ad { packet, .. } => {
            put_segment_header(out, channel)?;
            out.extend_from_slice(packet)
        }
        TcFrame::Unlock => {
            out.push(0)?;
            Ok(())
        }
        TcFrame::SetVr { vr } => {
            out.push(SET_VR)?;
            out.push(0)?;
            out.push(*vr)?;
            Ok(())
        }
    }
}

/// Returns how many octets a frame's data field has.
fn data_octets(channel: &TcChannel, frame: &TcFrame) -> usize
    requires { IsCarried channel.now (carried_of frame.now) }
    ensures { result ≡ length (data_field channel.now (carried_of frame.now)) }
{
    match frame {
        TcFrame::Ad { packet, .. } => match channel.map {
            None => packet.len(),
            Some(_) => packet.len() + 1,
        },
        TcFrame::Unlock => 1,
        TcFrame::SetVr { .. } => 3,
    }
}

/// Adds a frame's header.
fn put_header<A: Allocator + Copy>(
    out: &mut Vec<u8, A>,
    profile: &Profile,
    frame: &TcFrame,
) -> Result<(), AllocError>
    requires { IsCarried profile.now.tc (carried_of frame.now) }
    ensures { OnOk result (out.new.items ≡ out.old.items ++ header_of profile.now (carried_of frame.now)) }
{
    let (flags, ns) = match frame {
        TcFrame::Ad { ns, .. } => (0, *ns),
        TcFrame::Unlock | TcFrame::SetVr { .. } => (3, 0),
    };
    let data = data_octets(&profile.tc, frame);
    let last = HEADER - 1 + data + check_octets(profile.tc.fecf);
    put_pair(out, flags * 0x1000 + profile.scid)?;
    put_pair(out, u16::from(profile.tc.vcid) * 0x400 + last as u16)?;
    out.push(ns)?;
    Ok(())
}

/// Adds the frame error control field of the octets before it, if frames have one.
pub(crate) fn put_check<A: Allocator + Copy>(
    out: &mut Vec<u8, A>,
    fecf: bool,
) -> Result<(), AllocError>
    ensures { OnOk result (out.new.items ≡ closed fecf out.old.items) }
{
    if !fecf {
        return Ok(());
    }
    let check = crc(out);
    put_pair(out, check)
}

/// Returns the octets of a frame.
fn frame_octets<A: Allocator + Copy>(
    alloc: A,
    profile: &Profile,
    frame: &TcFrame,
) -> Result<Vec<u8, A>, AllocError>
    requires { IsCarried profile.now.tc (carried_of frame.now) }
    ensures { IfOk result (λ octets. octets.items ≡ tc_frame_of profile.now (carried_of frame.now)) }
{
    let mut octets = Vec::new(alloc);
    put_header(&mut octets, profile, frame)?;
    put_data(&mut octets, &profile.tc, frame)?;
    put_check(&mut octets, profile.tc.fecf)?;
    Ok(octets)
}

/// Returns the octets of a frame (CCSDS 232.0-B, 4.1), at most 1,024. A packet has at least one octet. Fails if memory is refused.
///
/// The frame stands at the front of the information that its CLTU brings, once the randomizer is undone: the clause `front`.
#[tactic(auto, using(crate::proofs::BringLemmas::short_there))]
pub fn tc_frame<A: Allocator + Copy>(
    alloc: A,
    profile: &Profile,
    frame: &TcFrame,
) -> Result<Vec<u8, A>, AllocError>
    requires { IsCarried profile.now.tc (carried_of frame.now) }
    ensures value { IfOk result (λ octets. octets.items ≡ tc_frame_of profile.now (carried_of frame.now)) }
    ensures short { IfOk result (λ octets. length octets.items ≤ 1024) }
    ensures front { IfOk result (λ octets. IsFrameIn (turned_by profile.now.tc.randomizer (filled_of profile.now.tc.randomizer octets.items))
        octets.items) }
{
    let octets = frame_octets(alloc, profile, frame)?;
    Ok(octets)
}
