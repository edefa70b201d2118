//! Requests through all layers of the way up: a packet in a transfer frame in a CLTU.
ghost use Rattle.std.specs.Prelude.{◌≡◌, IfOk};
ghost use Rattle.tc_packets.specs.Flights.{Fits};
ghost use Rattle.tc_packets.specs.Uplinks.{ComesUp, ReadsInformation, ReadsPacketOf, ReadsUpward, request_cltu_of, request_frame_of};

use crate::flights::Flight;
use crate::telecommand_readers::{PacketFault, read_telecommand};
use crate::telecommands::telecommand;
use std::alloc::{AllocError, Allocator};
use tc_octets::{Candidate, Profile, TcFault, TcFrame, cltu, read_tc_frame, tc_frame};

/// The content of a CLTU.
#[derive(Clone, Copy, Debug)]
pub enum Upward {
    /// A request, in a frame of type AD.
    Request {
        /// The frame sequence number N(S).
        ns: u8,
        /// The request.
        flight: Flight,
    },
    /// The control command Unlock.
    Unlock,
    /// The control command Set V(R).
    SetVr {
        /// The new V(R).
        vr: u8,
    },
}

/// Which layer refuses what came in a CLTU, and why.
#[derive(Clone, Copy, Debug, PartialEq, Eq)]
pub enum UpwardFault {
    /// No frame stands at the front of the information.
    NoFrame,
    /// The frame is none of this link.
    Frame(TcFault),
    /// The packet in the frame is none of this link.
    Packet(PacketFault),
}

/// Returns the transfer frame of type AD of a request that fits, with this N(S) (CCSDS 232.0-B, 4.1), at most 966 octets. Fails if memory is refused.
#[tactic(auto, using(crate::proofs::UplinkLemmas::may_carry))]
pub fn request_frame<A: Allocator + Copy>(
    alloc: A,
    profile: &Profile,
    ns: u8,
    flight: &Flight,
) -> Result<Vec<u8, A>, AllocError>
    requires { Fits profile.now flight.now }
    ensures { IfOk result (λ octets. octets.items ≡ request_frame_of profile.now ns flight.now) }
{
    let packet = telecommand(alloc, profile, flight)?;
    let frame = TcFrame::Ad {
        ns,
        packet: &packet,
    };
    tc_frame(alloc, profile, &frame)
}

/// Returns the CLTU of a request that fits, in a frame of type AD with this N(S) (CCSDS 232.0-B, 231.0-B). Fails if memory is refused.
///
/// A receiver of the octets that undoes the layers has the request again: the clause `law`.
#[tactic(auto, using(crate::proofs::UplinkLemmas::comes_up))]
pub fn request_cltu<A: Allocator + Copy>(
    alloc: A,
    profile: &Profile,
    ns: u8,
    flight: &Flight,
) -> Result<Vec<u8, A>, AllocError>
    requires { Fits profile.now flight.now }
    ensures value { IfOk result (λ octets. octets.items ≡ request_cltu_of profile.now ns flight.now) }
    ensures law { IfOk result (λ octets. ComesUp profile.now ns flight.now octets.items) }
{
    let frame = request_frame(alloc, profile, ns, flight)?;
    let octets = cltu(alloc, profile.tc.randomizer, &frame)?;
    Ok(octets)
}

/// Reads the packet in a frame of type AD with this N(S).
fn request_in(profile: &Profile, ns: u8, packet: &[u8]) -> Result<Upward, UpwardFault>
    ensures { ReadsPacketOf profile.now ns packet.now result }
{
    match read_telecommand(profile, packet) {
        Ok(flight) => Ok(Upward::Request { ns, flight }),
        Err(fault) => Err(UpwardFault::Packet(fault)),
    }
}

/// Reads the octets of a frame, down to the request in it. Takes no memory.
#[tactic(auto, using(crate::proofs::UplinkLemmas::from_packet))]
pub fn read_upward(profile: &Profile, octets: &[u8]) -> Result<Upward, UpwardFault>
    ensures { ReadsUpward profile.now octets.now result }
{
    match read_tc_frame(profile, octets) {
        Ok(TcFrame::Ad { ns, packet }) => request_in(profile, ns, packet),
        Ok(TcFrame::Unlock) => Ok(Upward::Unlock),
        Ok(TcFrame::SetVr { vr }) => Ok(Upward::SetVr { vr }),
        Err(fault) => Err(UpwardFault::Frame(fault)),
    }
}

/// Reads the information of a CLTU, down to the request in it. Takes no memory.
#[tactic(auto, using(crate::proofs::UplinkLemmas::from_frame))]
pub fn read_information(profile: &Profile, information: &Candidate) -> Result<Upward, UpwardFault>
    ensures { ReadsInformation profile.now information.now result }
{
    let plain = information.derandomized(profile.tc.randomizer);
    match plain.frame() {
        Some(frame) => read_upward(profile, frame),
        None => Err(UpwardFault::NoFrame),
    }
}
