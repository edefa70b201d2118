//! The tiles: how many requests stand where.
ghost use Rattle.std.specs.Prelude.{◌≡◌, ◌≤◌, length, OnOk};
ghost use Rattle.std.specs.List.{flat_map};
ghost use Rattle.std.specs.String.{string_bytes};
ghost use Rattle.tc_wall.specs.Parts.{Adds};
ghost use Rattle.tc_wall.specs.Tiles.{count_at, sum_at, zero_word, tile_begins, tile_label, tile_head_parts, count_parts, next_parts, counts_parts, tile_parts, place_tile_parts, under_way_parts, open_tiles_parts, ended_parts, failed_word, final_tiles_parts, tiles_parts};

use crate::bounds::add_fixed;
use crate::fixed::TILES;
use crate::signs::sign;
use std::alloc::{AllocError, Allocator};
use std::fmt::Write;
use tc_types::{PLACES, Place};

/// How many stand at a place.
fn count_at(counts: &[u32; PLACES], place: Place) -> u32
    ensures { result ≡ count_at counts.now place }
{
    counts[usize::from(place.number()) - 1]
}

/// How many stand at these places.
#[tactic(auto, unfolding(crate::specs::Tiles::sum_at))]
fn sum_at(counts: &[u32; PLACES], places: &[Place]) -> u64
    requires { length places.now ≤ PLACES }
    ensures { result ≡ sum_at counts.now places.now }
{
    places
        .iter()
        .map(|place| u64::from(count_at(counts, *place)))
        .sum()
}

/// The class `zero` where none stand there.
#[tactic(auto, unfolding(crate::specs::Tiles::zero_word))]
fn zero_word(count: u64) -> &'static str
    ensures { result.now ≡ zero_word count }
{
    if count == 0 { " zero" } else { "" }
}

/// Adds a tile's class, and its sign: that of its first place.
#[tactic(auto, unfolding(crate::specs::Tiles::tile_begins))]
fn begin_tile<A: Allocator + Copy>(
    page: &mut String<A>,
    kind: &str,
    first: Place,
    count: u64,
) -> Result<(), AllocError>
    ensures { OnOk result (Adds (tile_begins kind.now first count) (string_bytes page.old) (string_bytes page.new)) }
{
    let zero = zero_word(count);
    let sign = sign(first);
    write!(page, "<div class=\"tile {kind}{zero}\"><i>{sign}</i>")
}

/// Adds its sum and its label.
#[tactic(auto, unfolding(crate::specs::Tiles::tile_label))]
fn add_label<A: Allocator + Copy>(
    page: &mut String<A>,
    count: u64,
    label: &str,
) -> Result<(), AllocError>
    ensures { OnOk result (Adds (tile_label count label.now) (string_bytes page.old) (string_bytes page.new)) }
{
    write!(page, "<b>{count}</b><p>{label}</p><small>")
}

/// Adds the head of a tile.
#[tactic(auto, using(crate::proofs::PartLemmas::then_adds), unfolding(crate::specs::Tiles::tile_head_parts))]
fn add_tile_head<A: Allocator + Copy>(
    page: &mut String<A>,
    kind: &str,
    label: &str,
    first: Place,
    count: u64,
) -> Result<(), AllocError>
    ensures { OnOk result (Adds (tile_head_parts kind.now label.now first count) (string_bytes page.old) (string_bytes page.new)) }
{
    begin_tile(page, kind, first, count)?;
    add_label(page, count, label)
}

/// Adds a place with its count.
#[tactic(auto, unfolding(crate::specs::Tiles::count_parts))]
fn add_count<A: Allocator + Copy>(
    page: &mut String<A>,
    counts: &[u32; PLACES],
    place: Place,
) -> Result<(), AllocError>
    ensures { OnOk result (Adds (count_parts counts.now place) (string_bytes page.old) (string_bytes page.new)) }
{
    let name = place.name();
    let count = count_at(counts, place);
    write!(page, "{name} {count}")
}

/// Adds a place with its count behind another.
#[tactic(auto, using(crate::proofs::PartLemmas::then_adds), unfolding(crate::specs::Tiles::next_parts))]
fn add_next_count<A: Allocator + Copy>(
    page: &mut String<A>,
    counts: &[u32; PLACES],
    place: Place,
) -> Result<(), AllocError>
    ensures { OnOk result (Adds (next_parts counts.now place) (string_bytes page.old) (string_bytes page.new)) }
{
    add_fixed(page, ", ")?;
    add_count(page, counts, place)
}

/// Adds these places with their counts behind another.
#[tactic(auto, using(crate::proofs::PartLemmas::none_added, crate::proofs::PartLemmas::one_more_at))]
fn add_next_counts<A: Allocator + Copy>(
    page: &mut String<A>,
    counts: &[u32; PLACES],
    places: &[Place],
) -> Result<(), AllocError>
    ensures { OnOk result (Adds (flat_map (next_parts counts.now) places.now) (string_bytes page.old) (string_bytes page.new)) }
{
    for place in places {
        add_next_count(page, counts, *place)?;
    }
    Ok(())
}

/// Adds these places with their counts, parted by commas.
#[tactic(auto, using(crate::proofs::PartLemmas::none_added, crate::proofs::PartLemmas::then_adds), unfolding(crate::specs::Tiles::counts_parts))]
fn add_counts<A: Allocator + Copy>(
    page: &mut String<A>,
    counts: &[u32; PLACES],
    places: &[Place],
) -> Result<(), AllocError>
    ensures { OnOk result (Adds (counts_parts counts.now places.now) (string_bytes page.old) (string_bytes page.new)) }
{
    let Some((first, others)) = places.split_first() else {
        return Ok(());
    };
    add_count(page, counts, *first)?;
    add_next_counts(page, counts, others)
}

/// Adds a tile of these places, with the sign of the first.
#[tactic(auto, using(crate::proofs::PartLemmas::then_adds), unfolding(crate::specs::Tiles::tile_parts))]
fn add_tile<A: Allocator + Copy>(
    page: &mut String<A>,
    counts: &[u32; PLACES],
    kind: &str,
    label: &str,
    first: Place,
    places: &[Place],
) -> Result<(), AllocError>
    requires { length places.now ≤ PLACES }
    ensures { OnOk result (Adds (tile_parts counts.now kind.now label.now first places.now) (string_bytes page.old) (string_bytes page.new)) }
{
    add_tile_head(page, kind, label, first, sum_at(counts, places))?;
    add_counts(page, counts, places)?;
    add_fixed(page, "</small></div>\n")
}

/// Adds a tile of one place.
fn add_place_tile<A: Allocator + Copy>(
    page: &mut String<A>,
    counts: &[u32; PLACES],
    kind: &str,
    label: &str,
    place: Place,
) -> Result<(), AllocError>
    ensures { OnOk result (Adds (place_tile_parts counts.now kind.now label.now place) (string_bytes page.old) (string_bytes page.new)) }
{
    add_tile(page, counts, kind, label, place, &[place])
}

/// Adds the tile of those that are on the way.
fn add_under_way<A: Allocator + Copy>(
    page: &mut String<A>,
    counts: &[u32; PLACES],
) -> Result<(), AllocError>
    ensures { OnOk result (Adds (under_way_parts counts.now) (string_bytes page.old) (string_bytes page.new)) }
{
    let places = [
        Place::Queued,
        Place::Sent,
        Place::Confirmed,
        Place::Riding,
        Place::Accepted,
        Place::Started,
    ];
    add_tile(page, counts, "way", "on the way", Place::Queued, &places)
}

/// Adds the tiles of those that are open.
#[tactic(auto, using(crate::proofs::PartLemmas::then_adds), unfolding(crate::specs::Tiles::open_tiles_parts))]
fn add_open_tiles<A: Allocator + Copy>(
    page: &mut String<A>,
    counts: &[u32; PLACES],
) -> Result<(), AllocError>
    ensures { OnOk result (Adds (open_tiles_parts counts.now) (string_bytes page.old) (string_bytes page.new)) }
{
    add_place_tile(page, counts, "wait", "wait for approval", Place::Entered)?;
    add_place_tile(page, counts, "ready", "ready or locked", Place::Approved)?;
    add_under_way(page, counts)?;
    add_place_tile(page, counts, "scheduled", "scheduled", Place::Scheduled)?;
    add_place_tile(page, counts, "doubt", "IN DOUBT", Place::Doubtful)
}

/// Adds the tile of those that a person ended.
fn add_ended<A: Allocator + Copy>(
    page: &mut String<A>,
    counts: &[u32; PLACES],
) -> Result<(), AllocError>
    ensures { OnOk result (Adds (ended_parts counts.now) (string_bytes page.old) (string_bytes page.new)) }
{
    let places = [Place::Withdrawn, Place::Deleted, Place::Closed];
    let label = "withdrawn, deleted, closed";
    add_tile(page, counts, "ended", label, Place::Withdrawn, &places)
}

/// The class of the tile of those that failed: it stands out if one failed after the opening.
#[tactic(auto, unfolding(crate::specs::Tiles::failed_word))]
fn failed_word(failed: usize) -> &'static str
    ensures { result.now ≡ failed_word failed }
{
    if failed > 0 { "failed" } else { "past" }
}

/// Adds the tiles of those that have come to an end; so many failed after the opening.
#[tactic(auto, using(crate::proofs::PartLemmas::then_adds), unfolding(crate::specs::Tiles::final_tiles_parts))]
fn add_final_tiles<A: Allocator + Copy>(
    page: &mut String<A>,
    counts: &[u32; PLACES],
    failed: usize,
) -> Result<(), AllocError>
    ensures { OnOk result (Adds (final_tiles_parts counts.now failed) (string_bytes page.old) (string_bytes page.new)) }
{
    add_place_tile(page, counts, failed_word(failed), "FAILED", Place::Failed)?;
    add_place_tile(page, counts, "completed", "completed", Place::Completed)?;
    add_ended(page, counts)
}

/// Adds the tiles; so many failed after the opening.
#[tactic(auto, using(crate::proofs::PartLemmas::then_adds), unfolding(crate::specs::Tiles::tiles_parts))]
pub(crate) fn add_tiles<A: Allocator + Copy>(
    page: &mut String<A>,
    counts: &[u32; PLACES],
    failed: usize,
) -> Result<(), AllocError>
    ensures { OnOk result (Adds (tiles_parts counts.now failed) (string_bytes page.old) (string_bytes page.new)) }
{
    add_fixed(page, TILES)?;
    add_open_tiles(page, counts)?;
    add_final_tiles(page, counts, failed)?;
    add_fixed(page, "</section>\n")
}
