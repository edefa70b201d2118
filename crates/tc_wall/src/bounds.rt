//! Fixed texts, and what is said where a list has nothing to show, or more than is shown.
ghost use Rattle.std.specs.Prelude.{◌≡◌, ◌≤◌, length, take, OnOk};
ghost use Rattle.std.specs.String.{string_bytes};
ghost use Rattle.tc_wall.specs.Parts.{Adds, fixed};
ghost use Rattle.tc_wall.specs.Bounds.{last_of, left_out_parts, none_parts};

use std::alloc::{AllocError, Allocator};
use std::fmt::Write;

/// The first of these, at most so many.
pub(crate) fn first_of<T>(items: &[T], most: usize) -> &[T]
    ensures items { result.now ≡ take most items.now }
    ensures few { length result.now ≤ most }
{
    &items[..most.min(items.len())]
}

/// The last of these, at most so many.
pub(crate) fn last_of<T>(items: &[T], most: usize) -> &[T]
    ensures { result.now ≡ last_of most items.now }
{
    &items[items.len().saturating_sub(most)..]
}

/// Adds a fixed text to a page.
#[tactic(auto, unfolding(crate::specs::Parts::fixed))]
pub(crate) fn add_fixed<A: Allocator + Copy>(
    page: &mut String<A>,
    text: &str,
) -> Result<(), AllocError>
    ensures { OnOk result (Adds (fixed text.now) (string_bytes page.old) (string_bytes page.new)) }
{
    page.push_str(text)
}

/// Adds how many of so many are not shown, where some are.
#[tactic(auto, unfolding(crate::specs::Bounds::left_out_parts))]
pub(crate) fn add_left_out<A: Allocator + Copy>(
    page: &mut String<A>,
    count: usize,
    most: usize,
) -> Result<(), AllocError>
    ensures { OnOk result (Adds (left_out_parts count most) (string_bytes page.old) (string_bytes page.new)) }
{
    if most >= count {
        return Ok(());
    }
    let more = count - most;
    write!(page, "<p class=\"more\">and {more} more</p>\n")
}

/// Adds what is said where there are none.
#[tactic(auto, unfolding(crate::specs::Bounds::none_parts))]
pub(crate) fn add_none<A: Allocator + Copy>(
    page: &mut String<A>,
    count: usize,
    said: &str,
) -> Result<(), AllocError>
    ensures { OnOk result (Adds (none_parts count said.now) (string_bytes page.old) (string_bytes page.new)) }
{
    if count > 0 {
        return Ok(());
    }
    write!(page, "<p class=\"none\">{said}</p>\n")
}
