//! The reader of telecommand transfer frames.
ghost use Rattle.std.specs.Prelude.{◌≡◌, ◌≤◌, ◌+◌, ◌-◌, ◌++◌, ◌↔◌, ℕ, List, IsErr, IsTrue, length, slice_range, true};
ghost use Rattle.std.specs.Option.{MatchOption};
ghost use Rattle.tc_octets.specs.CrcLaws.{IsDamaged};
ghost use Rattle.tc_octets.specs.TcFrames.{segment_header, IsLong, IsChecked, Passes, check_length, HeaderSays, ReadsBack, ReadsField, Reads};
ghost use Rattle.tc_octets.specs.declared.profiles.TcChannel.{TcChannel as SomeChannel};

use crate::crcs::crc;
use crate::profiles::{Profile, TcChannel};
use crate::tc_frames::{MOST_TC_FRAME, TcFault, TcFrame, UNSEGMENTED, check_octets, pair_in};

/// Returns whether there are as many octets as a frame may have, and as its length field says.
fn is_long(profile: &Profile, octets: &[u8]) -> bool
    ensures { IsTrue result ↔ IsLong profile.now octets.now }
{
    octets.len() >= 6 + check_octets(profile.tc.fecf)
        && octets.len() <= MOST_TC_FRAME
        && usize::from(pair_in(octets, 2) % 0x400) + 1 == octets.len()
}

/// Returns whether the frame error control field is right.
fn is_checked(profile: &Profile, octets: &[u8]) -> bool
    requires { 6 + check_length profile.now.tc.fecf ≤ length octets.now }
    ensures { IsTrue result ↔ IsChecked profile.now octets.now }
{
    if !profile.tc.fecf {
        return true;
    }
    let end = octets.len() - 2;
    pair_in(octets, end) == crc(&octets[..end])
}

/// Returns the first fault of a frame's header.
fn header_fault(profile: &Profile, octets: &[u8]) -> Option<TcFault>
    ensures { HeaderSays profile.now octets.now result }
{
    if !is_long(profile, octets) {
        return Some(TcFault::Length);
    }
    if !is_checked(profile, octets) {
        return Some(TcFault::Check);
    }
    let first = pair_in(octets, 0);
    if first / 0x4000 != 0 || first / 0x400 % 4 != 0 {
        return Some(TcFault::Version);
    }
    if first % 0x400 != profile.scid {
        return Some(TcFault::Spacecraft);
    }
    if pair_in(octets, 2) / 0x400 != u16::from(profile.tc.vcid) {
        return Some(TcFault::Channel);
    }
    None
}

/// Returns the packet in the data field of a type-AD frame: all after the segment header, if there is one.
fn packet_in<'a>(channel: &TcChannel, field: &'a [u8]) -> Option<&'a [u8]>
    ensures { MatchOption result ((packet : List ℕ) → ¬ (field.now ≡ segment_header channel.now.map ++ packet))
        (λ packet. field.now ≡ segment_header channel.now.map ++ packet.now) }
{
    match channel.map {
        None => Some(field),
        Some(map) => match field.split_first() {
            Some((header, rest)) if *header == UNSEGMENTED + map.id => Some(rest),
            _ => None,
        },
    }
}

/// Reads the data field of a type-AD frame.
#[tactic(auto, using(crate::proofs::TcFrameLemmas::ad_without, crate::proofs::TcFrameLemmas::ad_empty))]
fn ad_in<'a>(channel: &TcChannel, ns: u8, field: &'a [u8]) -> Result<TcFrame<'a>, TcFault>
    ensures { ReadsField channel.now 0 ns field.now result }
{
    match packet_in(channel, field) {
        Some(packet) => {
            if packet.is_empty() {
                return Err(TcFault::Content);
            }
            Ok(TcFrame::Ad { ns, packet })
        }
        None => Err(TcFault::Content),
    }
}

/// Reads the data field of a type-BC frame.
#[tactic(auto, using(crate::proofs::TcFrameLemmas::control_numbered, crate::proofs::TcFrameLemmas::control_without))]
fn control_in<'a>(ns: u8, field: &'a [u8]) -> Result<TcFrame<'a>, TcFault>
    ensures { (channel : SomeChannel) → ReadsField channel 3 ns field.now result }
{
    if ns != 0 {
        return Err(TcFault::Content);
    }
    match field {
        [0] => Ok(TcFrame::Unlock),
        [0x82, 0, vr] => Ok(TcFrame::SetVr { vr: *vr }),
        _ => Err(TcFault::Content),
    }
}

/// Returns the transfer frame data field.
fn field_in<'a>(profile: &Profile, octets: &'a [u8]) -> &'a [u8]
    requires { 6 + check_length profile.now.tc.fecf ≤ length octets.now }
    ensures { result.now ≡ slice_range octets.now 5 (length octets.now - check_length profile.now.tc.fecf) }
{
    let end = octets.len() - check_octets(profile.tc.fecf);
    &octets[5..end]
}

/// Reads a frame whose header passes.
fn carried_in<'a>(profile: &Profile, octets: &'a [u8]) -> Result<TcFrame<'a>, TcFault>
    requires { Passes profile.now octets.now }
    ensures { Reads profile.now octets.now result }
{
    let ns = octets[4];
    let field = field_in(profile, octets);
    let flags = pair_in(octets, 0) / 0x1000 % 4;
    if flags == 0 {
        return ad_in(&profile.tc, ns, field);
    }
    if flags == 3 {
        return control_in(ns, field);
    }
    Err(TcFault::Kind)
}

/// Reads the frame that these octets are (CCSDS 232.0-B, 4.1): all of them, no more and no fewer. Else returns the first fault that applies. Takes no
/// memory.
#[tactic(auto, using(crate::proofs::TcFrameLaws::reads_back, crate::proofs::TcFrameLaws::damaged_refused))]
pub fn read_tc_frame<'a>(profile: &Profile, octets: &'a [u8]) -> Result<TcFrame<'a>, TcFault>
    ensures value { Reads profile.now octets.now result }
    ensures back { ReadsBack profile.now octets.now result }
    ensures damaged { profile.now.tc.fecf ≡ true → IsDamaged octets.now → IsErr result }
{
    match header_fault(profile, octets) {
        Some(fault) => Err(fault),
        None => carried_in(profile, octets),
    }
}
