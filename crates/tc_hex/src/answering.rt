//! The answers of lines that are read one after the other.
ghost use Rattle.std.specs.Prelude.{◌≡◌, ◌≢◌, ◌<◌, ◌&&◌, ◌++◌, Bool, [], ℕ, List, Option, Some, if◌then◌else◌, IfErr, IfOk, IfSome, OnOk, length, true, false};
ghost use Rattle.std.specs.Io.BufRead.{drop_through, take_through};
ghost use Rattle.std.specs.Io.KnownBytes.{Appends};
ghost use Rattle.tc_hex.specs.Answers.{AnsweredFrom, Answers, separator, without_end};
ghost use Rattle.tc_hex.specs.declared.answering.AnswerFault.TheVariants.{Input as UnreadInput, Output as UnwrittenOutput};

use crate::answers::answer_text;
use std::alloc::{AllocError, Global};
use std::io::{self, BufRead, Write};
use tc_decoded::Layer;
use tc_octets::Profile;

/// Why lines were not answered to their end.
#[derive(Clone, Copy, Debug, PartialEq, Eq)]
pub enum AnswerFault {
    /// A line could not be read. All lines before it were answered.
    Input,
    /// An answer could not be written.
    Output,
    /// There was no memory to go on.
    Memory,
}

impl From<AllocError> for AnswerFault {
    ghost use Rattle.std.specs.Prelude.{◌≡◌};
    ghost use Rattle.tc_hex.specs.declared.answering.AnswerFault.TheVariants.{Memory};

    ghost from_gives = { λ _ fault. fault ≡ Memory };

    fn from(_error: AllocError) -> AnswerFault {
        AnswerFault::Memory
    }
}

/// Returns the exit status of answers: 0 if the octets of each text were read whole, else 1.
fn status_of(are_whole: bool) -> u8
    ensures { result ≡ (if are_whole then 0 else 1) }
{
    if are_whole { 0 } else { 1 }
}

/// Returns why a line was not read.
fn unread(error: io::Error) -> AnswerFault {
    if error.kind() == io::ErrorKind::OutOfMemory {
        AnswerFault::Memory
    } else {
        AnswerFault::Input
    }
}

/// Reads a line with its LF. Returns whether there was one.
fn read_line<R: BufRead>(reader: &mut R, line: &mut Vec<u8>) -> Result<bool, AnswerFault>
    ensures line { IfOk result (λ is. is ≡ true → IfSome (R.remaining reader.old) (λ input.
        (0 < length input) × (line.new.items ≡ take_through 10 input) × (R.remaining reader.new ≡ Some (drop_through 10 input)))) }
    ensures end { IfOk result (λ is. is ≡ false → IfSome (R.remaining reader.old) (λ input. (input ≡ []) × (R.remaining reader.new ≡ Some []))) }
{
    line.clear();
    match reader.read_until(b'\n', line) {
        Ok(count) => Ok(count > 0),
        Err(error) => Err(unread(error)),
    }
}

/// Returns a line without its LF, and without a CR before that.
fn without_end(line: &[u8]) -> &[u8]
    ensures { result.now ≡ without_end line.now }
{
    match line.strip_suffix(b"\n") {
        Some(text) => text.strip_suffix(b"\r").unwrap_or(text),
        None => line,
    }
}

/// Writes all of a text.
fn put<W: Write>(writer: &mut W, text: &[u8]) -> Result<(), AnswerFault>
    ensures text { OnOk result (Appends (W.contents writer.old) (W.contents writer.new) text.now) }
    ensures fault { IfErr result (λ fault. fault ≡ UnwrittenOutput) }
{
    match writer.write_all(text) {
        Ok(()) => Ok(()),
        Err(_) => Err(AnswerFault::Output),
    }
}

/// Writes the answer of a text. Returns whether its octets were read whole.
fn put_answer<W: Write>(
    alloc: Global,
    profile: &Profile,
    layer: Layer,
    text: &[u8],
    writer: &mut W,
) -> Result<bool, AnswerFault>
    ensures answer { IfOk result (λ is_whole. (answer : List ℕ) × Answers profile.now layer text.now answer is_whole
        × Appends (W.contents writer.old) (W.contents writer.new) answer) }
    ensures fault { IfErr result (λ fault. fault ≢ UnreadInput) }
{
    let answer = answer_text(alloc, profile, layer, text)?;
    put(writer, answer.text.as_bytes())?;
    Ok(answer.is_whole)
}

/// Returns what stands before an answer.
fn separator(is_later: bool) -> &'static str
    ensures { result.now ≡ separator is_later }
{
    if is_later { "\n" } else { "" }
}

/// Returns whether both answers are whole.
fn both(one: bool, other: bool) -> bool
    ensures { result ≡ (one && other) }
{
    one && other
}

/// Writes the answer of a line, after an empty line if another answer stands before it. Returns whether its octets were read whole.
fn put_next<W: Write>(
    alloc: Global,
    profile: &Profile,
    layer: Layer,
    is_later: bool,
    line: &[u8],
    writer: &mut W,
) -> Result<bool, AnswerFault>
    ensures answer { IfOk result (λ is_whole. (answer : List ℕ) × Answers profile.now layer (without_end line.now) answer is_whole
        × Appends (W.contents writer.old) (W.contents writer.new) (separator is_later ++ answer)) }
    ensures fault { IfErr result (λ fault. fault ≢ UnreadInput) }
{
    put(writer, separator(is_later).as_bytes())?;
    put_answer(alloc, profile, layer, without_end(line), writer)
}

/// Writes the answer of a text. Gives the exit status: 0 if its octets were read whole, else 1. Fails with `Output` or `Memory`.
pub fn write_answer<W: Write>(
    alloc: Global,
    profile: &Profile,
    layer: Layer,
    text: &[u8],
    writer: &mut W,
) -> Result<u8, AnswerFault>
    ensures answer { IfOk result (λ status. (answer : List ℕ) × (is_whole : Bool) × Answers profile.now layer text.now answer is_whole
        × Appends (W.contents writer.old) (W.contents writer.new) answer × (status ≡ (if is_whole then 0 else 1))) }
    ensures fault { IfErr result (λ fault. fault ≢ UnreadInput) }
{
    let is_whole = put_answer(alloc, profile, layer, text, writer)?;
    Ok(status_of(is_whole))
}

/// Writes the answers of all lines of an input in turn, with an empty line between two. Gives the exit status: 0 if the octets of each were read whole,
/// else 1. Fails with `Input` only if the answers of all lines that were read stand whole in the output.
pub fn write_answers<R: BufRead, W: Write>(
    alloc: Global,
    profile: &Profile,
    layer: Layer,
    reader: &mut R,
    writer: &mut W,
) -> Result<u8, AnswerFault>
    ensures answers { IfOk result (λ status. (count : ℕ) × (are_whole : Bool) × IfSome (R.remaining reader.old) (λ _. R.remaining reader.new ≡ Some [])
        × AnsweredFrom profile.now layer (R.remaining reader.old) (R.remaining reader.new) (W.contents writer.old) (W.contents writer.new) count are_whole
        × (status ≡ (if are_whole then 0 else 1))) }
    ensures fault { IfErr result (λ fault. fault ≡ UnreadInput → (left : Option (List ℕ)) × (count : ℕ) × (are_whole : Bool)
        × AnsweredFrom profile.now layer (R.remaining reader.old) left (W.contents writer.old) (W.contents writer.new) count are_whole) }
{
    let mut line = Vec::new(alloc);
    let mut are_whole = true;
    for place in 0..u64::MAX {
        if !read_line(reader, &mut line)? {
            return Ok(status_of(are_whole));
        }
        let is_whole = put_next(alloc, profile, layer, place > 0, &line, writer)?;
        are_whole = both(are_whole, is_whole);
    }
    Err(AnswerFault::Input)
}
