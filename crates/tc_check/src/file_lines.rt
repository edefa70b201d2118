//! The lines of a file at which its records begin.
ghost use Rattle.std.specs.Prelude.{◌≡◌, ◌==◌, ◌+◌, if◌then◌else◌, IfOk};
ghost use Rattle.csv.specs.Machine.{in_field, start_field, start_record, step};
ghost use Rattle.csv.specs.Reading.{default_config, strip_bom};
ghost use Rattle.csv.specs.declared.parser.Terminator.TheVariants as term;
ghost use Rattle.tc_check.specs.FileLines.{begins, begins_at, ends_quoted, is_quoted, record_lines, state_of};

use crate::looks::has_mark;
use std::alloc::{AllocError, Global};

/// Where the reading of a text stands.
#[derive(Clone, Copy, Debug, PartialEq, Eq)]
enum Within {
    /// Between two records.
    Between,
    /// Behind the CR that ended a record.
    AfterCr,
    /// At the begin of a field.
    FieldStart,
    /// In a field.
    Field,
    /// In a field between quotes.
    Quoted,
    /// Behind a quote in such a field.
    AfterQuote,
}

/// Where it stands behind a byte of a field.
fn in_field(byte: u8) -> Within
    ensures { state_of result ≡ (in_field default_config byte).0 }
{
    match byte {
        b',' => Within::FieldStart,
        b'\r' => Within::AfterCr,
        b'\n' => Within::Between,
        _ => Within::Field,
    }
}

/// Where it stands behind the first byte of a field.
fn start_field(byte: u8) -> Within
    ensures { state_of result ≡ (start_field default_config byte).0 }
{
    if byte == b'"' {
        Within::Quoted
    } else {
        in_field(byte)
    }
}

/// Where it stands behind the first byte of a record, or a line end before it.
fn start_record(byte: u8) -> Within
    ensures { state_of result ≡ (start_record default_config byte).0 }
{
    if byte == b'\r' || byte == b'\n' {
        Within::Between
    } else {
        start_field(byte)
    }
}

/// Where it stands behind a byte.
fn after(within: Within, byte: u8) -> Within
    ensures { state_of result ≡ (step default_config (state_of within) byte).0 }
{
    match within {
        Within::Between => start_record(byte),
        Within::FieldStart => start_field(byte),
        Within::Field => in_field(byte),
        Within::Quoted if byte == b'"' => Within::AfterQuote,
        Within::Quoted => Within::Quoted,
        Within::AfterQuote if byte == b'"' => Within::Quoted,
        Within::AfterQuote => in_field(byte),
        Within::AfterCr if byte == b'\n' => Within::Between,
        Within::AfterCr => start_record(byte),
    }
}

/// Whether a record begins with this byte.
fn begins(within: Within, byte: u8) -> bool
    ensures { result ≡ begins (state_of within) byte }
{
    matches!(within, Within::Between | Within::AfterCr) && byte != b'\r' && byte != b'\n'
}

/// A text without the mark that may stand at its front.
fn without_mark(text: &[u8]) -> &[u8]
    ensures { result.now ≡ strip_bom text.now }
{
    if has_mark(text) { &text[3..] } else { text }
}

/// The lines of the file at which the records of a text begin.
pub(crate) fn record_lines(alloc: Global, text: &[u8]) -> Result<Vec<usize>, AllocError>
    ensures { IfOk result (λ lines. lines.items ≡ record_lines text.now) }
{
    let mut lines = Vec::new(alloc);
    let mut within = Within::Between;
    let mut line = 1;
    let bytes = without_mark(text);
    for byte in bytes {
        if begins(within, *byte) {
            lines.push(line)?;
        }
        if *byte == b'\n' {
            line += 1;
        }
        within = after(within, *byte);
    }
    Ok(lines)
}

/// Whether it stands between quotes.
fn is_quoted(within: Within) -> bool
    ensures { result ≡ is_quoted (state_of within) }
{
    matches!(within, Within::Quoted)
}

/// Whether a quote of a text stays open to its end.
pub(crate) fn ends_quoted(text: &[u8]) -> bool
    ensures { result ≡ ends_quoted text.now }
{
    let mut within = Within::Between;
    let bytes = without_mark(text);
    for byte in bytes {
        within = after(within, *byte);
    }
    is_quoted(within)
}
