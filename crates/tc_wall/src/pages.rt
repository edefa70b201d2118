//! The page.
ghost use Rattle.std.specs.Prelude.{◌≡◌, ◌≤◌, IfOk, OnOk};
ghost use Rattle.std.specs.String.{string_bytes, string_len};
ghost use Rattle.tc_wall.specs.Parts.{Adds};
ghost use Rattle.tc_wall.specs.Page.{laid_in, size_word, live_script_parts, script_parts, head_parts, live_parts, page, wall_page};

use crate::bounds::add_fixed;
use crate::fixed::{FOOT, HEAD, LIVE, POLICY, SCRIPT, STRICT, STYLE};
use crate::headings::add_heading;
use crate::link_rows::{add_closed_link, add_link};
use crate::move_rows::add_moves;
use crate::ranges::keep_wall;
use crate::schedules::{add_closed_schedule, add_known_schedule};
use crate::tiles::add_tiles;
use crate::urgent_rows::add_urgents;
use crate::walls::{Live, Wall};
use crate::ways::add_ways;
use std::alloc::{AllocError, Allocator};

/// With so many rows at most the letters are large.
pub(crate) const MOST_FEW: usize = 20;

/// The most bytes that a page has.
pub const MOST_BYTES: usize = 450_000;

/// How many activities the on-board schedule has; that of a closed file tells of none.
fn laid_in(live: &Option<Live>) -> usize
    ensures { result ≡ laid_in live.now }
{
    match live {
        None => 0,
        Some(live) => live.schedule.laid_in,
    }
}

/// Whether there are few rows, or many.
#[tactic(auto, unfolding(crate::specs::Page::size_word))]
fn size_word(wall: &Wall) -> &'static str
    ensures { result.now ≡ size_word wall.now }
{
    let laid_in = laid_in(&wall.live);
    if wall.opened <= MOST_FEW && wall.lines <= MOST_FEW && laid_in <= MOST_FEW - wall.lines {
        "few"
    } else {
        "many"
    }
}

/// Adds the policy of an open desk's page, and the one script that it allows.
#[tactic(auto, using(crate::proofs::PartLemmas::then_adds), unfolding(crate::specs::Page::live_script_parts))]
fn add_live_script<A: Allocator + Copy>(page: &mut String<A>) -> Result<(), AllocError>
    ensures { OnOk result (Adds live_script_parts (string_bytes page.old) (string_bytes page.new)) }
{
    add_fixed(
        page,
        "<meta http-equiv=\"Content-Security-Policy\" content=\"",
    )?;
    add_fixed(page, POLICY)?;
    add_fixed(page, LIVE)?;
    add_fixed(page, SCRIPT)?;
    add_fixed(page, "</script>\n")
}

/// Adds what may run on the page: one script if the desk is open, else none.
fn add_script<A: Allocator + Copy>(
    page: &mut String<A>,
    live: &Option<Live>,
) -> Result<(), AllocError>
    ensures { OnOk result (Adds (script_parts live.now) (string_bytes page.old) (string_bytes page.new)) }
{
    match live {
        None => add_fixed(page, STRICT),
        Some(_) => add_live_script(page),
    }
}

/// Adds the head of the page, up to where its body begins.
#[tactic(auto, using(crate::proofs::PartLemmas::then_adds), unfolding(crate::specs::Page::head_parts))]
fn add_head<A: Allocator + Copy>(page: &mut String<A>, wall: &Wall) -> Result<(), AllocError>
    ensures { OnOk result (Adds (head_parts wall.now) (string_bytes page.old) (string_bytes page.new)) }
{
    add_fixed(page, HEAD)?;
    add_fixed(page, STYLE)?;
    add_fixed(page, "</style>\n")?;
    add_script(page, &wall.live)?;
    add_fixed(page, "</head>\n<body class=\"")?;
    add_fixed(page, size_word(wall))?;
    add_fixed(page, "\">\n")
}

/// Adds the link, and the on-board schedule.
#[tactic(auto, using(crate::proofs::PartLemmas::then_adds), unfolding(crate::specs::Page::live_parts))]
fn add_live<A: Allocator + Copy>(
    page: &mut String<A>,
    live: &Option<Live>,
) -> Result<(), AllocError>
    ensures { OnOk result (Adds (live_parts live.now) (string_bytes page.old) (string_bytes page.new)) }
{
    match live {
        None => {
            add_closed_link(page)?;
            add_closed_schedule(page)
        }
        Some(live) => {
            add_link(page, &live.link)?;
            add_known_schedule(page, &live.schedule)
        }
    }
}

/// Adds all parts of the page.
#[tactic(auto, using(crate::proofs::PartLemmas::then_adds), unfolding(crate::specs::Page::page))]
fn add_page<A: Allocator + Copy>(
    alloc: A,
    text: &mut String<A>,
    wall: &Wall,
) -> Result<(), AllocError>
    ensures { OnOk result (Adds (page wall.now) (string_bytes text.old) (string_bytes text.new)) }
{
    add_head(text, wall)?;
    add_heading(text, wall)?;
    add_tiles(text, wall.counts, wall.failed)?;
    add_urgents(text, wall)?;
    add_live(text, &wall.live)?;
    add_ways(alloc, text, wall)?;
    add_moves(text, wall)?;
    add_fixed(text, FOOT)
}

/// The wall as a page of HTML. Fails where memory is refused.
#[tactic(auto, using(crate::proofs::PageSizeLemmas::page_size), unfolding(crate::specs::Page::wall_page))]
pub fn wall_text<A: Allocator + Copy>(alloc: A, wall: &Wall) -> Result<String<A>, AllocError>
    ensures page { IfOk result (λ t. string_bytes t ≡ wall_page wall.now) }
    ensures few { IfOk result (λ t. string_len t ≤ MOST_BYTES) }
{
    keep_wall(wall);
    let mut text = String::new(alloc);
    add_page(alloc, &mut text, wall)?;
    Ok(text)
}
