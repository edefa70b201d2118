//! CLTUs as they are sent.
ghost use Rattle.std.specs.Prelude.{◌≡◌, ◌++◌, ◌≤◌, ◌*◌, ◌/◌, ◌%◌, IfOk, OnOk, length};
ghost use Rattle.tc_octets.specs.CltuRuns.{Brings};
ghost use Rattle.tc_octets.specs.Cltus.{cltu_of, codeblocks_of, filled_of, filled_to};

use crate::codeblocks::{INFORMATION, error_control};
use crate::randomizers::randomize;
use std::alloc::{AllocError, Allocator};

/// The start sequence of a CLTU (CCSDS 231.0-B).
const START: [u8; 2] = [0xeb, 0x90];

/// The tail sequence of a CLTU: no codeblock, in both modes of a decoder.
const TAIL: [u8; 8] = [0xc5, 0xc5, 0xc5, 0xc5, 0xc5, 0xc5, 0xc5, 0x79];

/// The octet that the last codeblock is filled up with.
const FILL: u8 = 0x55;

/// Adds octets of fill up to a whole number of sevens.
fn put_fill<A: Allocator + Copy>(out: &mut Vec<u8, A>) -> Result<(), AllocError>
    ensures { OnOk result (out.new.items ≡ filled_to out.old.items) }
{
    let left = (INFORMATION - out.len() % INFORMATION) % INFORMATION;
    for _ in 0..left {
        out.push(FILL)?;
    }
    Ok(())
}

/// Returns the octets of a frame for a CLTU: randomized if that is asked for, and filled up.
fn filled<A: Allocator + Copy>(
    alloc: A,
    randomizer: bool,
    frame: &[u8],
) -> Result<Vec<u8, A>, AllocError>
    ensures { IfOk result (λ octets. octets.items ≡ filled_of randomizer frame.now) }
{
    let mut octets = Vec::from_slice(alloc, frame)?;
    if randomizer {
        randomize(&mut octets);
    }
    put_fill(&mut octets)?;
    Ok(octets)
}

/// Adds the codeblocks of octets.
fn put_codeblocks<A: Allocator + Copy>(
    out: &mut Vec<u8, A>,
    octets: &[u8],
) -> Result<(), AllocError>
    ensures { OnOk result (out.new.items ≡ out.old.items ++ codeblocks_of (length octets.now / 7) octets.now) }
{
    for block in 0..octets.len() / INFORMATION {
        let information = &octets[INFORMATION * block..INFORMATION * block + INFORMATION];
        out.extend_from_slice(information)?;
        out.push(error_control(information))?;
    }
    Ok(())
}

/// Returns the CLTU of a frame (CCSDS 231.0-B): the start sequence, the codeblocks of the frame and its fill, and the tail sequence. Of a frame of up
/// to 1,024 octets it has up to 1,186. Fails if memory is refused.
#[tactic(auto, using(crate::proofs::BringLemmas::cltu_brings))]
pub fn cltu<A: Allocator + Copy>(
    alloc: A,
    randomizer: bool,
    frame: &[u8],
) -> Result<Vec<u8, A>, AllocError>
    ensures value { IfOk result (λ octets. octets.items ≡ cltu_of randomizer frame.now) }
    ensures law { IfOk result (λ octets. length frame.now ≤ 1024 → Brings octets.items (filled_of randomizer frame.now)) }
{
    let information = filled(alloc, randomizer, frame)?;
    let mut octets = Vec::from_slice(alloc, &START)?;
    put_codeblocks(&mut octets, &information)?;
    octets.extend_from_slice(&TAIL)?;
    Ok(octets)
}
