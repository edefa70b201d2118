//! Telemetry transfer frames.
ghost use Rattle.std.specs.Prelude.{◌≡◌, ◌++◌, ◌+◌, ◌*◌, ◌^◌, ◌<◌, ◌≤◌, ◌↔◌, IfOk, OnOk, IsErr, IsTrue, length, true};
ghost use Rattle.tc_octets.specs.CrcLaws.{IsDamaged};
ghost use Rattle.tc_octets.specs.Markers.{IsHeard};
ghost use Rattle.tc_octets.specs.TmFrames.{IsTmChecked, IsTmFrame, TmPartsIn, TmReads, TmSays, four, our_word, tm_frame_of, tm_header_of, tm_parts};
ghost use Rattle.tc_octets.specs.TmFrames.{TmReadsBack, word_at, word_flag, word_octets};

use crate::crcs::crc;
use crate::profiles::Profile;
use crate::tc_frames::{check_octets, pair_in, put_check, put_pair};
use std::alloc::{AllocError, Allocator};

/// The octets of a frame's header.
const HEADER: usize = 6;

/// The octets of an operational control field.
const WORD: usize = 4;

/// A telemetry transfer frame (CCSDS 132.0-B, 4.1).
#[derive(Clone, Copy, Debug)]
pub struct TmFrame<'a> {
    /// The virtual channel, 0 to 7.
    pub vcid: u8,
    /// The master channel frame count.
    pub master_count: u8,
    /// The virtual channel frame count.
    pub channel_count: u8,
    /// The transfer frame data field status: three flags, the segment length identifier and the first header pointer.
    pub status: u16,
    /// The transfer frame data field.
    pub data: &'a [u8],
    /// The operational control field, if the frame has one.
    pub word: Option<u32>,
}

/// Why octets are no telemetry transfer frame of this spacecraft. If several apply, it is the first of these.
#[derive(Clone, Copy, Debug, PartialEq, Eq)]
pub enum TmFault {
    /// Another number of octets than each frame of this link has.
    Length,
    /// The frame error control field is not the CRC-16 of the octets before it.
    Check,
    /// The version is not 0.
    Version,
    /// Another spacecraft.
    Spacecraft,
}

/// Adds a number as four octets.
fn put_four<A: Allocator + Copy>(out: &mut Vec<u8, A>, number: u32) -> Result<(), AllocError>
    ensures { OnOk result (out.new.items ≡ out.old.items ++ four number) }
{
    put_pair(out, (number / 0x10000) as u16)?;
    put_pair(out, (number % 0x10000) as u16)?;
    Ok(())
}

/// Adds a frame's header.
fn put_header<A: Allocator + Copy>(
    out: &mut Vec<u8, A>,
    profile: &Profile,
    frame: &TmFrame,
) -> Result<(), AllocError>
    requires { frame.now.vcid < 2 ^ 3 }
    ensures { OnOk result (out.new.items ≡ out.old.items ++ tm_header_of profile.now (tm_parts frame.now)) }
{
    let flag = flag_of(frame.word);
    let first = profile.scid * 16 + u16::from(frame.vcid) * 2 + flag;
    put_pair(out, first)?;
    out.push(frame.master_count)?;
    out.push(frame.channel_count)?;
    put_pair(out, frame.status)
}

/// Returns the operational control field flag.
fn flag_of(word: Option<u32>) -> u16
    ensures { result ≡ word_flag word }
{
    match word {
        None => 0,
        Some(_) => 1,
    }
}

/// Adds the operational control field, if the frame has one.
fn put_word<A: Allocator + Copy>(out: &mut Vec<u8, A>, word: Option<u32>) -> Result<(), AllocError>
    ensures { OnOk result (out.new.items ≡ out.old.items ++ word_octets word) }
{
    match word {
        None => Ok(()),
        Some(word) => put_four(out, word),
    }
}

/// Returns the octets of a frame.
fn frame_octets<A: Allocator + Copy>(
    alloc: A,
    profile: &Profile,
    frame: &TmFrame,
) -> Result<Vec<u8, A>, AllocError>
    requires { IsTmFrame profile.now (tm_parts frame.now) }
    ensures { IfOk result (λ octets. octets.items ≡ tm_frame_of profile.now (tm_parts frame.now)) }
{
    let mut octets = Vec::new(alloc);
    put_header(&mut octets, profile, frame)?;
    octets.extend_from_slice(frame.data)?;
    put_word(&mut octets, frame.word)?;
    put_check(&mut octets, profile.tm.fecf)?;
    Ok(octets)
}

/// Returns the octets of a frame (CCSDS 132.0-B, 4.1), as many as each frame of this link has: the data field fills it. Fails if memory is refused.
///
/// After a marker in a stream the frame is heard first, whatever comes after it: the clause `heard`.
pub fn tm_frame<A: Allocator + Copy>(
    alloc: A,
    profile: &Profile,
    frame: &TmFrame,
) -> Result<Vec<u8, A>, AllocError>
    requires { IsTmFrame profile.now (tm_parts frame.now) }
    ensures value { IfOk result (λ octets. octets.items ≡ tm_frame_of profile.now (tm_parts frame.now)) }
    ensures heard { IfOk result (λ octets. IsHeard profile.now octets.items) }
{
    let octets = frame_octets(alloc, profile, frame)?;
    Ok(octets)
}

/// Returns whether the frame error control field is right.
fn is_checked(profile: &Profile, octets: &[u8]) -> bool
    requires { 2 ≤ length octets.now }
    ensures { IsTrue result ↔ IsTmChecked profile.now octets.now }
{
    if !profile.tm.fecf {
        return true;
    }
    let end = octets.len() - 2;
    pair_in(octets, end) == crc(&octets[..end])
}

/// Returns the first fault of a frame.
fn fault(profile: &Profile, octets: &[u8]) -> Option<TmFault>
    ensures { TmSays profile.now octets.now result }
{
    if octets.len() != usize::from(profile.tm.length) {
        return Some(TmFault::Length);
    }
    if !is_checked(profile, octets) {
        return Some(TmFault::Check);
    }
    let first = pair_in(octets, 0);
    if first / 0x4000 != 0 {
        return Some(TmFault::Version);
    }
    if first / 16 % 0x400 != profile.scid {
        return Some(TmFault::Spacecraft);
    }
    None
}

/// Returns the operational control field at this place, if the flag is not 0.
fn word_in(octets: &[u8], flag: u16, at: usize) -> Option<u32>
    requires { at + flag * 4 ≤ length octets.now }
    ensures { result ≡ word_at octets.now flag at }
{
    if flag == 0 {
        return None;
    }
    let first = u32::from(pair_in(octets, at));
    let second = u32::from(pair_in(octets, at + 2));
    Some(first * 0x1_0000 + second)
}

/// Returns the parts of a frame that passes.
fn parts_in<'a>(profile: &Profile, octets: &'a [u8]) -> TmFrame<'a>
    requires { 32 ≤ length octets.now }
    ensures { TmPartsIn profile.now octets.now (tm_parts result) }
{
    let first = pair_in(octets, 0);
    let flag = first % 2;
    let end = octets.len() - check_octets(profile.tm.fecf) - usize::from(flag) * WORD;
    TmFrame {
        vcid: (first / 2 % 8) as u8,
        master_count: octets[2],
        channel_count: octets[3],
        status: pair_in(octets, 4),
        data: &octets[HEADER..end],
        word: word_in(octets, flag, end),
    }
}

/// Reads the frame that these octets are (CCSDS 132.0-B, 4.1): all of them, no more and no fewer. Else returns the first fault that applies. Takes no
/// memory.
#[tactic(auto, using(crate::proofs::TmFrameLaws::reads_back, crate::proofs::TmFrameLaws::damaged_refused))]
pub fn read_tm_frame<'a>(profile: &Profile, octets: &'a [u8]) -> Result<TmFrame<'a>, TmFault>
    ensures value { TmReads profile.now octets.now result }
    ensures back { TmReadsBack profile.now octets.now result }
    ensures damaged { profile.now.tm.fecf ≡ true → IsDamaged octets.now → IsErr result }
{
    match fault(profile, octets) {
        Some(fault) => Err(fault),
        None => Ok(parts_in(profile, octets)),
    }
}

/// Returns the control word of our telecommand channel that a frame has (CCSDS 232.0-B, 4.2), of whatever virtual channel the frame is. `None` if the
/// frame has none, or the word is of another type or another virtual channel: such a word is passed over.
pub fn word_of(profile: &Profile, frame: &TmFrame) -> Option<u32>
    ensures { result ≡ our_word profile.now frame.now.word }
{
    let word = frame.word?;
    if word / 0x8000_0000 != 0 || word / 0x4_0000 % 64 != u32::from(profile.tc.vcid) {
        return None;
    }
    Some(word)
}
