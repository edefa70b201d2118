//! A program that reads octets of each layer of the link, and writes them again from what was read.
//!
//! A line of the standard input is `LAYER HEX`. It is answered by `LAYER` and the octets that the writers give for what the readers found in HEX, or
//! by `LAYER refused`; a line that has no LAYER or no HEX by `refused`. So the answer of sound octets is their own line. A line `profile HEX`, with a
//! profile's text in HEX, sets the profile of those after it.
#![tactic(auto)]

mod frames;
mod packets;

use frames::{cltu_again, frame_again, request_again, tm_again};
use packets::{carriers_again, report_again, space_again, telecommand_again};
use std::alloc::{AllocError, Global};
use std::io::{self, BufRead, BufReader, BufWriter, Write};
use tc_octets::{Profile, read_profile};

/// Returns the octets of a layer, written again. `None` if the reader refuses them.
fn again(
    alloc: Global,
    profile: &Profile,
    layer: &str,
    octets: &[u8],
) -> Result<Option<Vec<u8>>, AllocError> {
    match layer {
        "frame" => frame_again(alloc, profile, octets),
        "cltu" => cltu_again(alloc, profile, octets),
        "request" => request_again(alloc, profile, octets),
        "space" => space_again(alloc, octets),
        "telecommand" => telecommand_again(alloc, profile, octets),
        "report" => report_again(alloc, profile, octets),
        "tm" => tm_again(alloc, profile, octets),
        "carriers" => carriers_again(alloc, profile, octets),
        _ => Ok(None),
    }
}

/// Returns the answer of a line of a layer.
fn answer(
    alloc: Global,
    profile: &Profile,
    layer: &str,
    octets: &[u8],
) -> Result<String, AllocError> {
    match again(alloc, profile, layer, octets)? {
        Some(octets) => hex::encode(alloc, octets.as_slice()),
        None => String::from_str(alloc, "refused"),
    }
}

/// Sets the profile, and returns its text as it is printed. The profile stays if the text is none.
fn set_profile(alloc: Global, profile: &mut Profile, text: &[u8]) -> Result<String, AllocError> {
    match read_profile(text) {
        Ok(read) => {
            *profile = read;
            let printed = format!(in alloc; "{read}")?;
            hex::encode(alloc, printed.as_bytes())
        }
        Err(_) => String::from_str(alloc, "refused"),
    }
}

/// Returns the answer of a line.
fn answer_line(alloc: Global, profile: &mut Profile, line: &str) -> Result<String, AllocError> {
    let Some((layer, text)) = line.split_once(' ') else {
        return String::from_str(alloc, "refused\n");
    };
    let Ok(octets) = hex::decode(alloc, text) else {
        return String::from_str(alloc, "refused\n");
    };
    let told = if layer == "profile" {
        set_profile(alloc, profile, &octets)?
    } else {
        answer(alloc, profile, layer, &octets)?
    };
    format!(in alloc; "{layer} {told}\n")
}

fn main(rt: HostRuntime) -> io::Result<()> {
    let alloc = rt.alloc();
    let mut writer = BufWriter::new(alloc, io::writer(&rt))?;
    let mut profile = Profile::standard();
    for line in BufReader::new(alloc, rt.reader())?.lines(alloc) {
        let told = answer_line(alloc, &mut profile, line?.as_str())?;
        writer.write_all(told.as_bytes())?;
    }
    writer.flush()
}
