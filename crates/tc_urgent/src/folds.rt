//! Lines that are folded into one.
ghost use Rattle.std.specs.Prelude.{◌≡◌, ◌++◌, true, IfOk, OnOk};
ghost use Rattle.tc_urgent.specs.Folds.{both, folded, is_same_stack, joined, takes_in, with_next};

use crate::lines::UrgentLine;
use std::alloc::{AllocError, Allocator};
use tc_types::{Name, is_same_name};

/// How many further lines one line stands for at most.
pub const MOST_FOLDED: u64 = 65_535;

/// Whether two requests came with one stack; with none, whether lines of their kind are folded.
fn is_same_stack(alone: bool, a: &Option<Name>, b: &Option<Name>) -> bool
    ensures { result ≡ is_same_stack alone a.now b.now }
{
    match (a, b) {
        (None, None) => alone,
        (Some(a), Some(b)) => is_same_name(a, b),
        (None, Some(_)) | (Some(_), None) => false,
    }
}

/// Whether a line takes the next one in.
fn takes_in(line: &UrgentLine, next: &UrgentLine) -> bool
    ensures { result ≡ takes_in line.now next.now }
{
    line.kind.is_folded()
        && line.kind.is_same(&next.kind)
        && is_same_stack(line.kind.is_folded_alone(), &line.stack, &next.stack)
        && u64::from(line.same) + u64::from(next.same) < MOST_FOLDED
}

/// One line for both, which counts them.
fn both(line: &UrgentLine, next: &UrgentLine) -> UrgentLine
    requires { takes_in line.now next.now ≡ true }
    ensures { result ≡ both line.now next.now }
{
    UrgentLine {
        kind: line.kind,
        number: line.number,
        on_board: line.on_board,
        stack: line.stack,
        since: line.since,
        waited: line.waited,
        same: line.same + 1 + next.same,
    }
}

/// Appends two lines, or one for both. Fails if memory is refused.
fn add_joined<A: Allocator>(
    lines: &mut Vec<UrgentLine, A>,
    line: &UrgentLine,
    next: &UrgentLine,
) -> Result<(), AllocError>
    ensures { OnOk result (lines.new.items ≡ lines.old.items ++ joined line.now next.now) }
{
    if takes_in(line, next) {
        lines.push(both(line, next))?;
        return Ok(());
    }
    lines.push(*line)?;
    lines.push(*next)?;
    Ok(())
}

/// Adds a line, which the last one takes in if it may. Fails if memory is refused.
fn add_next<A: Allocator>(
    lines: &mut Vec<UrgentLine, A>,
    next: &UrgentLine,
) -> Result<(), AllocError>
    ensures { OnOk result (lines.new.items ≡ with_next lines.old.items next.now) }
{
    match lines.pop() {
        Some(line) => add_joined(lines, &line, next),
        None => {
            lines.push(*next)?;
            Ok(())
        }
    }
}

/// Returns the lines in their order, with rows of one stack or of one kind folded into one line,
/// which counts them. Fails if memory is refused.
pub fn folded<A: Allocator + Copy>(
    alloc: A,
    lines: &[UrgentLine],
) -> Result<Vec<UrgentLine, A>, AllocError>
    ensures { IfOk result (λ shown. shown.items ≡ folded lines.now) }
{
    let mut shown = Vec::new(alloc);
    for line in lines {
        add_next(&mut shown, line)?;
    }
    Ok(shown)
}
