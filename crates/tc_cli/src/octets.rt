//! The command that says what octets of the link mean.

use crate::faults::{cannot_read, cannot_use, no_profile};
use std::io::{self, BufReader};
use tc_closed::{PathFault, Paths};
use tc_decoded::Layer as DecodedLayer;
use tc_hex::{AnswerFault, write_answer, write_answers};
use tc_host::HostPaths;
use tc_octets::{LONGEST_PROFILE, Profile, read_profile};
use tc_words::Layer;

/// The layer that a word of the command line names.
fn decoded_layer(layer: Layer) -> DecodedLayer {
    match layer {
        Layer::Frame => DecodedLayer::Frame,
        Layer::Cltu => DecodedLayer::Cltu,
        Layer::Packet => DecodedLayer::Packet,
        Layer::Tm => DecodedLayer::Tm,
    }
}

/// The exit status of octets that were answered, or not to their end.
fn answered_status(rt: &HostRuntime, answered: Result<u8, AnswerFault>) -> u8 {
    match answered {
        Ok(status) => status,
        Err(AnswerFault::Input) => cannot_use(rt, "standard input"),
        Err(AnswerFault::Output) => cannot_use(rt, "output"),
        Err(AnswerFault::Memory) => cannot_use(rt, "memory"),
    }
}

/// Answers the lines of the standard input.
fn answer_lines(rt: &HostRuntime, profile: &Profile, layer: Layer) -> Result<u8, AnswerFault> {
    let Ok(mut reader) = BufReader::new(rt.alloc(), rt.reader()) else {
        return Err(AnswerFault::Memory);
    };
    let mut writer = io::writer(rt);
    write_answers(
        rt.alloc(),
        profile,
        decoded_layer(layer),
        &mut reader,
        &mut writer,
    )
}

/// Says what octets mean on a link with this profile, or what the lines of the standard input do if they are `-`. Gives the exit status.
fn say_with(rt: &HostRuntime, profile: &Profile, layer: Layer, octets: &str) -> u8 {
    if octets == "-" {
        return answered_status(rt, answer_lines(rt, profile, layer));
    }
    let mut writer = io::writer(rt);
    let answered = write_answer(
        rt.alloc(),
        profile,
        decoded_layer(layer),
        octets.as_bytes(),
        &mut writer,
    );
    answered_status(rt, answered)
}

/// Says what octets mean on a link with the profile of a file, or with the standard one. Gives the exit status.
pub(crate) fn say_octets(
    rt: &HostRuntime,
    profile: Option<&str>,
    layer: Layer,
    octets: &str,
) -> u8 {
    let Some(file) = profile else {
        return say_with(rt, &Profile::standard(), layer, octets);
    };
    let alloc = rt.alloc();
    let text = match HostPaths::new(alloc, rt).load(alloc, file, LONGEST_PROFILE + 1) {
        Ok(text) => text,
        Err(PathFault::Memory) => return cannot_use(rt, "memory"),
        Err(PathFault::Unreadable) => return cannot_read(rt, file),
    };
    match read_profile(&text) {
        Ok(profile) => say_with(rt, &profile, layer, octets),
        Err(fault) => no_profile(rt, file, fault),
    }
}
