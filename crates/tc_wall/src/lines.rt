//! The lines of the axis.
ghost use Rattle.std.specs.Prelude.{◌≡◌, ◌+◌, ◌++◌, nat_le, reverse, IfOk, OnOk};
ghost use Rattle.tc_wall.specs.Axis.{lines_before, lines_of};

use crate::axes::{APART, Mark};
use std::alloc::{AllocError, Allocator};

/// Whether a mark lies far enough before a line.
fn is_apart(mark: &Mark, x: u32) -> bool
    ensures { result ≡ nat_le (mark.now.x + APART) x }
{
    x >= APART && mark.x <= x - APART
}

/// Adds a line for each of these marks, the last first, that lies far enough before the line added last; the first of those lies at `x`.
fn add_lines<A: Allocator + Copy>(
    lines: &mut Vec<Mark, A>,
    x: u32,
    marks: &[Mark],
) -> Result<(), AllocError>
    ensures { OnOk result (lines.new.items ≡ lines.old.items ++ lines_before x (reverse marks.now)) }
{
    let mut x = x;
    let mut rest = marks;
    while let Some((mark, others)) = rest.split_last() {
        if is_apart(mark, x) {
            lines.push(*mark)?;
            x = mark.x;
        }
        rest = others;
    }
    Ok(())
}

/// The lines of the axis, from the last moment back.
#[tactic(auto, unfolding(crate::specs::Axis::lines_of))]
pub(crate) fn lines_of<A: Allocator + Copy>(
    alloc: A,
    axis: &[Mark],
) -> Result<Vec<Mark, A>, AllocError>
    ensures { IfOk result (λ lines. lines.items ≡ lines_of axis.now) }
{
    let mut lines = Vec::new(alloc);
    let Some((last, others)) = axis.split_last() else {
        return Ok(lines);
    };
    lines.push(*last)?;
    add_lines(&mut lines, last.x, others)?;
    Ok(lines)
}
