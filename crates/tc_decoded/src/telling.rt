//! The lines of a table of fields.
ghost use Rattle.std.specs.Prelude.{◌≡◌, ◌++◌, ◌≤◌, OnOk};
ghost use Rattle.tc_decoded.specs.Rows.{fails, filled, line_of, told};

use crate::lines::Line;
use crate::places::Place;
use crate::rows::{Row, Source, Word, is_fit, value_of, word_code};
use std::alloc::{AllocError, Allocator};

/// Returns which octet is the first that a field fills, of those in which it lies.
fn filled(source: &Source) -> u64
    ensures value { result ≡ filled source.now }
    ensures small { result ≤ 1 }
{
    match source {
        Source::Field(span) => {
            if span.bit == 0 || u32::from(span.bit) + u32::from(span.bits) < 16 {
                0
            } else {
                1
            }
        }
        Source::Count(_) => 0,
    }
}

/// Returns whether a row is at fault, if the reader refuses the layer by this word.
fn fails(word: Option<Word>, octets: &[u8], row: &Row) -> bool
    ensures { result ≡ fails word octets.now row.now }
{
    match word {
        None => false,
        Some(word) => {
            word_code(word) == word_code(row.word) && !is_fit(&row.fit, value_of(octets, row))
        }
    }
}

/// Returns the line of a row.
fn line_of(place: &Place, word: Option<Word>, octets: &[u8], row: &Row) -> Line
    ensures { result ≡ line_of place.now word octets.now row.now }
{
    let fault = if fails(word, octets, row) {
        Some(row.fit)
    } else {
        None
    };
    Line {
        at: place.octet(u64::from(row.octet) + filled(&row.source)),
        name: row.name,
        value: value_of(octets, row),
        shown: row.shown,
        fault,
    }
}

/// Adds the lines of rows, up to the first that is at fault. Fails if memory is refused.
pub(crate) fn tell<A: Allocator + Copy>(
    out: &mut Vec<Line, A>,
    place: &Place,
    word: Option<Word>,
    octets: &[u8],
    rows: &[Row],
) -> Result<(), AllocError>
    ensures { OnOk result (out.new.items ≡ out.old.items ++ told place.now word octets.now rows.now) }
{
    for row in rows {
        out.push(line_of(place, word, octets, row))?;
        if fails(word, octets, row) {
            return Ok(());
        }
    }
    Ok(())
}
