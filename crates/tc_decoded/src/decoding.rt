//! The meaning of a layer's octets.
ghost use Rattle.std.specs.Prelude.{◌≡◌, ◌≤◌, IfOk, length};
ghost use Rattle.std.specs.List.{list_any};
ghost use Rattle.tc_decoded.specs.Decoded.{Decodes, is_fault};
ghost use Rattle.tc_decoded.specs.Faults.{FaultsTold};
ghost use Rattle.tc_decoded.specs.Places.{the_whole};
ghost use Rattle.tc_decoded.specs.ReportLines.{PacketTold};
ghost use Rattle.tc_decoded.specs.TcFrameLines.{TcFrameTold};
ghost use Rattle.tc_decoded.specs.TmFrameLines.{TmFrameTold};

use crate::cltus::cltu_lines;
use crate::lines::Line;
use crate::places::Place;
use crate::tc_frames::tell_tc_frame;
use crate::telemetry::tell_packet;
use crate::tm_frames::tell_tm_frame;
use std::alloc::{AllocError, Allocator};
use tc_octets::Profile;

/// The most octets that are told of: those of the longest packet.
pub const MOST_OCTETS: usize = 65_542;

/// A layer of the link.
#[derive(Clone, Copy, Debug, PartialEq, Eq)]
pub enum Layer {
    /// A telecommand transfer frame (CCSDS 232.0-B).
    Frame,
    /// CLTUs (CCSDS 231.0-B).
    Cltu,
    /// A packet (CCSDS 133.0-B, ECSS-E-ST-70-41C).
    Packet,
    /// A telemetry transfer frame (CCSDS 132.0-B).
    Tm,
}

/// Returns the lines of a telecommand transfer frame.
fn frame_lines<A: Allocator + Copy>(
    alloc: A,
    profile: &Profile,
    octets: &[u8],
) -> Result<Vec<Line, A>, AllocError>
    requires { length octets.now ≤ 65542 }
    ensures { IfOk result (λ lines. TcFrameTold the_whole profile.now octets.now lines.items) }
{
    let mut out = Vec::new(alloc);
    tell_tc_frame(alloc, &mut out, &Place::whole(), profile, octets)?;
    Ok(out)
}

/// Returns the lines of a packet.
fn packet_lines<A: Allocator + Copy>(
    alloc: A,
    profile: &Profile,
    octets: &[u8],
) -> Result<Vec<Line, A>, AllocError>
    requires { length octets.now ≤ 65542 }
    ensures { IfOk result (λ lines. PacketTold the_whole profile.now octets.now lines.items) }
{
    let mut out = Vec::new(alloc);
    tell_packet(alloc, &mut out, &Place::whole(), profile, octets)?;
    Ok(out)
}

/// Returns the lines of a telemetry transfer frame.
fn tm_lines<A: Allocator + Copy + Drop>(
    alloc: A,
    profile: &Profile,
    octets: &[u8],
) -> Result<Vec<Line, A>, AllocError>
    requires { length octets.now ≤ 65542 }
    ensures { IfOk result (λ lines. TmFrameTold the_whole profile.now octets.now lines.items) }
{
    let mut out = Vec::new(alloc);
    tell_tm_frame(alloc, &mut out, profile, octets)?;
    Ok(out)
}

/// Returns what the octets of a layer mean, field by field, or what is wrong with them and where. Fails if memory is refused.
///
/// The layers inside come after the fields before them, with their places in the whole. A layer that its reader refuses ends with the field for
/// which the reader refuses it: the clause `faults`.
pub fn decoded<A: Allocator + Copy + Drop>(
    alloc: A,
    profile: &Profile,
    layer: Layer,
    octets: &[u8],
) -> Result<Vec<Line, A>, AllocError>
    requires { length octets.now ≤ MOST_OCTETS }
    ensures value { IfOk result (λ lines. Decodes profile.now layer octets.now lines.items) }
    ensures faults { IfOk result (λ lines. FaultsTold profile.now layer octets.now lines.items) }
{
    match layer {
        Layer::Frame => frame_lines(alloc, profile, octets),
        Layer::Cltu => cltu_lines(alloc, profile, octets),
        Layer::Packet => packet_lines(alloc, profile, octets),
        Layer::Tm => tm_lines(alloc, profile, octets),
    }
}

/// Returns whether a line says what is wrong.
pub fn has_fault(lines: &[Line]) -> bool
    ensures { result ≡ list_any is_fault lines.now }
{
    lines.iter().any(|line| line.is_fault())
}
