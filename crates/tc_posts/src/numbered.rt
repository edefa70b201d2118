//! The lines of a script that are sent over HTTP, and their numbers.
ghost use Rattle.std.specs.Prelude.{◌≡◌, IfOk, map};
ghost use Rattle.tc_posts.specs.Numbered.{numbered, shown};
ghost use Rattle.tc_check.specs.Scripts.{script_lines};

use bstr::ByteSlice;
use std::alloc::{AllocError, Global};
use tc_check::is_skipped;

/// A line that is sent, the number of its call, and that of the line in its script, from 1.
#[derive(Clone, Copy)]
pub struct NumberedLine<'a> {
    pub line: &'a [u8],
    pub number: u64,
    pub place: usize,
}

/// The lines of a script that are sent: the first has this number, and each behind it the next. A line that is skipped is not sent, and takes
/// none.
pub fn numbered_lines<'a>(
    alloc: Global,
    text: &'a [u8],
    first: u32,
) -> Result<Vec<NumberedLine<'a>>, AllocError>
    ensures { IfOk result (λ lines. map shown lines.items ≡ numbered first 1 (script_lines text.entry.now)) }
{
    let mut lines = Vec::new(alloc);
    let mut place = 1;
    for line in text.lines() {
        if !is_skipped(line) {
            let number = u64::from(first) + lines.len() as u64;
            lines.push(NumberedLine {
                line,
                number,
                place,
            })?;
        }
        place += 1;
    }
    Ok(lines)
}
