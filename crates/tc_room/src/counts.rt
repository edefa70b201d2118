//! How many requests stand at each place, as the tables say.
ghost use Rattle.std.specs.Prelude.{◌≡◌, ◌≤◌, IfSome, OnSome, IsTrue, map, sum};
ghost use Rattle.sqlite.specs.Held.{state};
ghost use Rattle.sqlite.specs.State.{HasCleanDisk};
ghost use Rattle.tc_types.specs.declared.tables.rows.Tally.{Tally};
ghost use Rattle.tc_store.specs.Ledgers.{Ledger};
ghost use Rattle.tc_store.specs.Schema.{Holds};
ghost use Rattle.tc_room.specs.Crash.{Leaves};
ghost use Rattle.tc_room.specs.Joined.{HasLedger};

use sqlite::Alter;
use tc_report::total;
use tc_store::Tables;
use tc_types::PLACES;

/// How many requests were entered, and how many stand at each place.
#[derive(Clone, Copy, Debug, PartialEq, Eq)]
pub struct PlaceCounts {
    /// How many were entered.
    pub entered: u32,
    /// How many stand at each place, in order of number.
    pub places: [u32; PLACES],
}

/// How many requests were entered and how many stand at each place: the amounts of the tallies. `None` where they cannot be read, or are
/// more together than there are numbers.
pub(crate) fn count_all<S: Alter + Drop>(tables: &mut Tables<S>) -> Option<PlaceCounts>
    ensures places { HasCleanDisk (state S.Store tables.new) → IfSome result (λ found. (ledger : Ledger) → HasLedger S.Store tables.old ledger → found.places ≡ map (λ (t : Tally). t.amount) ledger.image.tallies) }
    ensures entered { IfSome result (λ found. found.entered ≡ sum found.places) }
    ensures same { HasCleanDisk (state S.Store tables.new) → OnSome result ((ledger : Ledger) → HasLedger S.Store tables.old ledger → HasLedger S.Store tables.new ledger) }
    ensures kept { HasCleanDisk (state S.Store tables.new) → IsTrue (state S.Store tables.new).is_open → (ledger : Ledger) → HasLedger S.Store tables.old ledger → Holds (state S.Store tables.new).now ledger }
    ensures left { HasCleanDisk (state S.Store tables.new) → (ledger : Ledger) → HasLedger S.Store tables.old ledger → Leaves S.Store tables.new (λ left. left ≡ ledger) }
    ensures clean { HasCleanDisk (state S.Store tables.new) → HasCleanDisk (state S.Store tables.old) }
{
    let Ok(places) = tables.counts() else {
        return None;
    };
    let entered = total(&places)?;
    Some(PlaceCounts { entered, places })
}
