//! When a row of a stack may be released (this desk's own rule).
ghost use Rattle.std.specs.Prelude.{◌≡◌};
ghost use Rattle.tc_stack.specs.Stacks.{at_line, is_free, may_release};

use crate::stacks::{Stack, row_at};
use tc_types::Place;

/// The place of a line, if there is such a line.
fn place_at(places: &[Place], line: u32) -> Option<Place>
    ensures { result ≡ at_line places.now line }
{
    if line == 0 {
        return None;
    }
    places.get(line as usize - 1).copied()
}

/// Whether the line that has to be completed before, if there is one, is at Completed.
fn is_free(after: Option<u32>, places: &[Place]) -> bool
    ensures { result ≡ is_free after places.now }
{
    match after {
        None => true,
        Some(line) => matches!(place_at(places, line), Some(Place::Completed)),
    }
}

/// Whether a line of a stack may be released, where its lines stand at these places, in order: the line that it names as the one
/// before it, if it names one, is at Completed. A line that the stack has not may not. It takes no memory.
pub fn may_release(stack: &Stack, line: u32, places: &[Place]) -> bool
    ensures { result ≡ may_release (at_line stack.now line) places.now }
{
    match row_at(stack.rows(), line) {
        Some(row) => is_free(row.after, places),
        None => false,
    }
}
