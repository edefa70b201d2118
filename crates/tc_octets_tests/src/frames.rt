//! Transfer frames and CLTUs, written again.

use std::alloc::{AllocError, Global};
use tc_octets::{
    Candidate, CltuReader, Mode, Profile, cltu, read_tc_frame, read_tm_frame, tc_frame, tm_frame,
};
use tc_packets::{Upward, fits, read_information, request_cltu};

/// Writes a telecommand transfer frame again.
pub(crate) fn frame_again(
    alloc: Global,
    profile: &Profile,
    octets: &[u8],
) -> Result<Option<Vec<u8>>, AllocError> {
    match read_tc_frame(profile, octets) {
        Ok(frame) => Ok(Some(tc_frame(alloc, profile, &frame)?)),
        Err(_) => Ok(None),
    }
}

/// Writes a telemetry transfer frame again.
pub(crate) fn tm_again(
    alloc: Global,
    profile: &Profile,
    octets: &[u8],
) -> Result<Option<Vec<u8>>, AllocError> {
    match read_tm_frame(profile, octets) {
        Ok(frame) => Ok(Some(tm_frame(alloc, profile, &frame)?)),
        Err(_) => Ok(None),
    }
}

/// Returns how the decoder of a link reads codeblocks.
fn mode_of(profile: &Profile) -> Mode {
    if profile.tc.correct {
        Mode::Correcting
    } else {
        Mode::Detecting
    }
}

/// Adds the CLTU of the frame in the information of one, if there is a frame.
fn put_cltu(
    alloc: Global,
    out: &mut Vec<u8>,
    profile: &Profile,
    information: &Candidate,
) -> Result<(), AllocError> {
    let plain = information.derandomized(profile.tc.randomizer);
    if let Some(frame) = plain.frame() {
        let octets = cltu(alloc, profile.tc.randomizer, frame)?;
        out.extend_from_slice(&octets)?;
    }
    Ok(())
}

/// Writes the CLTUs of a stream again, one after the other.
pub(crate) fn cltu_again(
    alloc: Global,
    profile: &Profile,
    octets: &[u8],
) -> Result<Option<Vec<u8>>, AllocError> {
    let mut reader = CltuReader::new(mode_of(profile));
    let mut out = Vec::new(alloc);
    for octet in octets {
        reader.octet(*octet);
        if let Some(information) = reader.information() {
            put_cltu(alloc, &mut out, profile, information)?;
        }
    }
    Ok(Some(out))
}

/// Adds the CLTU of the request in the information of one, through all layers, if there is a request.
fn put_request(
    alloc: Global,
    out: &mut Vec<u8>,
    profile: &Profile,
    information: &Candidate,
) -> Result<(), AllocError> {
    let Ok(Upward::Request { ns, flight }) = read_information(profile, information) else {
        return Ok(());
    };
    if fits(profile, &flight) {
        let octets = request_cltu(alloc, profile, ns, &flight)?;
        out.extend_from_slice(&octets)?;
    }
    Ok(())
}

/// Writes the CLTUs of requests again, one after the other.
pub(crate) fn request_again(
    alloc: Global,
    profile: &Profile,
    octets: &[u8],
) -> Result<Option<Vec<u8>>, AllocError> {
    let mut reader = CltuReader::new(mode_of(profile));
    let mut out = Vec::new(alloc);
    for octet in octets {
        reader.octet(*octet);
        if let Some(information) = reader.information() {
            put_request(alloc, &mut out, profile, information)?;
        }
    }
    Ok(Some(out))
}
