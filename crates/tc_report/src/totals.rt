//! How many requests there are, by the places at which they stand.
ghost use Rattle.std.specs.Prelude.{◌≡◌, ◌≤◌, ◌^◌, MatchOption, sum};

use tc_types::PLACES;

/// How many requests stand at all places together, if that is below 2^32.
pub fn total(places: &[u32; PLACES]) -> Option<u32>
    ensures { MatchOption result (2 ^ 32 ≤ sum places.now) (λ all. all ≡ sum places.now) }
{
    let mut all: u32 = 0;
    for amount in places {
        all = all.checked_add(*amount)?;
    }
    Some(all)
}
