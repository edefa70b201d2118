//! The lines of CLTUs.
ghost use Rattle.std.specs.Prelude.{◌≡◌, ◌+◌, ◌++◌, ◌≤◌, ◌<◌, OnOk, IfOk, length, false};
ghost use Rattle.tc_octets.specs.Cltus.{after, received, searching};
ghost use Rattle.tc_decoded.specs.Added.{Added};
ghost use Rattle.tc_decoded.specs.CltuLines.{CltuTold, CltusTold, EndedTold, InformationTold, StreamTold, cltu_rows, codeblocks_row, end_name, end_row, is_tail};
ghost use Rattle.tc_decoded.specs.CltuLines.{mode_of, no_frame_rows, start_of};
ghost use Rattle.tc_decoded.specs.Rows.{told};

use crate::lines::Line;
use crate::names::Name;
use crate::places::Place;
use crate::rows::{Fit, Row, Shown, Source, Span, Word, pair_at};
use crate::tables::put_refused;
use crate::tc_frames::tell_tc_frame;
use crate::telling::tell;
use std::alloc::{AllocError, Allocator};
use tc_octets::{CODEBLOCK, Candidate, CltuReader, INFORMATION, Mode, Profile};

/// The octets of a start sequence.
const START: usize = 2;

/// Returns how the spacecraft's decoder reads codeblocks.
fn mode_of(profile: &Profile) -> Mode
    ensures { result ≡ mode_of profile.now }
{
    if profile.tc.correct {
        Mode::Correcting
    } else {
        Mode::Detecting
    }
}

/// Returns the place of the start sequence of a CLTU that ended before an octet.
fn start_of(end: usize, information: usize) -> usize
    requires { information ≤ 1029 }
    ensures value { result ≡ start_of end information }
    ensures small { result ≤ end }
{
    end.saturating_sub(START + CODEBLOCK)
        .saturating_sub(information / INFORMATION * CODEBLOCK)
}

/// Returns whether eight octets are the tail sequence.
fn is_tail(octets: &[u8], at: usize) -> bool
    requires { at ≤ 65542 }
    ensures { result ≡ is_tail octets.now at }
{
    pair_at(octets, at) == 0xc5c5
        && pair_at(octets, at + 2) == 0xc5c5
        && pair_at(octets, at + 4) == 0xc5c5
        && pair_at(octets, at + 6) == 0xc579
}

/// Returns the name of the block that ends a CLTU.
fn end_name(tail: bool) -> Name
    ensures { result ≡ end_name tail }
{
    if tail {
        Name::TailSequence
    } else {
        Name::EndingBlock
    }
}

/// Returns the row of so many codeblocks.
fn codeblocks_row(at: u32, number: u64) -> Row
    ensures { result ≡ codeblocks_row at number }
{
    Row {
        name: Name::Codeblocks,
        octet: at,
        source: Source::Count(number),
        shown: Shown::Number,
        fit: Fit::Any,
        word: Word::Length,
    }
}

/// Returns the row of the block that ends a CLTU.
fn end_row(octets: &[u8], at: usize) -> Row
    requires { at ≤ 65542 }
    ensures { result ≡ end_row octets.now at }
{
    Row {
        name: end_name(is_tail(octets, at)),
        octet: at as u32,
        source: Source::Count(8),
        shown: Shown::Octets,
        fit: Fit::Any,
        word: Word::Length,
    }
}

/// Returns the start sequence, the codeblocks and the end of a CLTU with so many octets of information.
fn cltu_rows(octets: &[u8], end: usize, information: usize) -> [Row; 3]
    requires few { information ≤ 1029 }
    requires near { end ≤ 65542 }
    ensures { result ≡ cltu_rows octets.now end information }
{
    let start = start_of(end, information) as u32;
    let number = (information / INFORMATION) as u64;
    [
        row!(StartSequence, start, 0, 16, Hexadecimal),
        codeblocks_row(start + 2, number),
        end_row(octets, end.saturating_sub(CODEBLOCK)),
    ]
}

/// Adds the lines of information at whose front no frame stands.
fn tell_no_frame<A: Allocator + Copy>(
    alloc: A,
    out: &mut Vec<Line, A>,
    place: &Place,
    octets: &[u8],
) -> Result<(), AllocError>
    ensures { OnOk result (out.new.items ≡ out.old.items ++ told place.now (Some Word.Length) octets.now (no_frame_rows octets.now)) }
{
    let number = octets.len() as u64;
    let value = number.saturating_sub(1);
    let given = Fit::Given {
        octets: number,
        value,
    };
    let word = Some(Word::Length);
    let mut rows = Vec::new(alloc);
    rows.push(count!(TransferFrame, 0, number, Word::Length, Fit::Least(5)))?;
    rows.push(row!(FrameLength, 2, 6, 10, Number, Word::Length, given))?;
    put_refused(&mut rows, word, Name::TransferFrame, 0, number)?;
    tell(out, place, word, octets, &rows)
}

/// Adds the lines of the information of a CLTU whose codeblocks begin at an octet.
fn tell_information<A: Allocator + Copy>(
    alloc: A,
    out: &mut Vec<Line, A>,
    at: u32,
    profile: &Profile,
    information: &Candidate,
) -> Result<(), AllocError>
    ensures { OnOk result (Added (InformationTold at profile.now information.now) out.old.items out.new.items) }
{
    let plain = information.derandomized(profile.tc.randomizer);
    let place = Place::coded(at);
    match plain.frame() {
        Some(frame) => tell_tc_frame(alloc, out, &place, profile, frame),
        None => tell_no_frame(alloc, out, &place, plain.octets()),
    }
}

/// Adds the lines of a CLTU that ended before an octet.
fn tell_cltu<A: Allocator + Copy>(
    alloc: A,
    out: &mut Vec<Line, A>,
    profile: &Profile,
    octets: &[u8],
    end: usize,
    information: &Candidate,
) -> Result<(), AllocError>
    requires { end ≤ 65542 }
    ensures { OnOk result (Added (CltuTold profile.now octets.now end information.now) out.old.items out.new.items) }
{
    let number = information.len();
    let rows = cltu_rows(octets, end, number);
    tell(out, &Place::whole(), None, octets, &rows)?;
    let at = (start_of(end, number) + START) as u32;
    tell_information(alloc, out, at, profile, information)
}

/// Gives a receiver the next octet, before which so many came with it, and adds the lines of the CLTU that ends with it.
fn take<A: Allocator + Copy>(
    alloc: A,
    out: &mut Vec<Line, A>,
    reader: &mut CltuReader,
    profile: &Profile,
    octets: &[u8],
    end: usize,
    octet: u8,
) -> Result<(), AllocError>
    requires { end ≤ 65542 }
    ensures lines { OnOk result (Added (EndedTold profile.now octets.now end (received reader.old.mode reader.old.last.place octet).ended)
        out.old.items out.new.items) }
    ensures taken { reader.new ≡ after reader.old octet }
{
    reader.octet(octet);
    match reader.information() {
        Some(information) => tell_cltu(alloc, out, profile, octets, end, information),
        None => Ok(()),
    }
}

/// Adds the lines of all CLTUs that a receiver finds in octets.
fn tell_stream<A: Allocator + Copy>(
    alloc: A,
    out: &mut Vec<Line, A>,
    profile: &Profile,
    octets: &[u8],
) -> Result<(), AllocError>
    requires { length octets.now ≤ 65542 }
    ensures { OnOk result (Added (StreamTold profile.now octets.now 0 (searching false) octets.now) out.old.items out.new.items) }
{
    let mut reader = CltuReader::new(mode_of(profile));
    for at in 0..octets.len() {
        take(alloc, out, &mut reader, profile, octets, at + 1, octets[at])?;
    }
    Ok(())
}

/// Returns the lines of octets in which CLTUs are found.
pub(crate) fn cltu_lines<A: Allocator + Copy>(
    alloc: A,
    profile: &Profile,
    octets: &[u8],
) -> Result<Vec<Line, A>, AllocError>
    requires { length octets.now ≤ 65542 }
    ensures { IfOk result (λ lines. CltusTold profile.now octets.now lines.items) }
{
    let mut out = Vec::new(alloc);
    tell_stream(alloc, &mut out, profile, octets)?;
    if !out.is_empty() {
        return Ok(out);
    }
    let number = octets.len() as u64;
    let row = count!(Octets, 0, number, Word::Length, Fit::Ended);
    tell(
        &mut out,
        &Place::whole(),
        Some(Word::Length),
        octets,
        &[row],
    )?;
    Ok(out)
}
