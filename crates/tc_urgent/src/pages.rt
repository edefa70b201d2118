//! Pages of lines, and how many lines of a kind there are.
ghost use Rattle.std.specs.Prelude.{◌≡◌, ◌-◌, ◌==◌, count_by, drop, take};
ghost use Rattle.tc_urgent.specs.Kinds.{urgency as urgency_of};
ghost use Rattle.tc_urgent.specs.Lines.{page_of};
ghost use Rattle.tc_urgent.specs.Pages.{has_more as has_more_behind};

use crate::lines::UrgentLine;

/// How many lines a page has at most.
pub const PAGE: usize = 50;

/// The lines from this one on, counted from 1.
fn lines_from(lines: &[UrgentLine], from: usize) -> &[UrgentLine]
    ensures { result.now ≡ drop (from - 1) lines.now }
{
    let start = from.saturating_sub(1).min(lines.len());
    &lines[start..]
}

/// The first `most` of these lines.
fn first_of(lines: &[UrgentLine], most: usize) -> &[UrgentLine]
    ensures { result.now ≡ take most lines.now }
{
    &lines[..most.min(lines.len())]
}

/// Returns the page that begins with line `from`, counted from 1.
pub fn page(lines: &[UrgentLine], from: usize) -> &[UrgentLine]
    ensures { result.now ≡ page_of from lines.now }
{
    first_of(lines_from(lines, from), PAGE)
}

/// Returns whether lines come behind the page that begins with line `from`.
pub fn has_more(lines: &[UrgentLine], from: usize) -> bool
    ensures { result ≡ has_more_behind from lines.now }
{
    lines_from(lines, from).len() > PAGE
}

/// Counts the lines of this rank, as of those that a page leaves out.
pub fn count_of(lines: &[UrgentLine], urgency: u8) -> usize
    ensures { result ≡ count_by (λ line. urgency_of line.kind == urgency) lines.now }
{
    lines
        .iter()
        .filter(|line| line.kind.urgency() == urgency)
        .count()
}
