//! An act that asks something of the link: the room that it takes, and the one event that may be refused.
ghost use Rattle.std.specs.Prelude.{◌≡◌, ◌+◌, ◌-◌, ◌<◌, ◌≤◌, ◌^◌, false, IfOk, OnOk, length};
ghost use Rattle.std.specs.List.{list_any};
ghost use Rattle.tc_types.specs.Limits.{most_requests};
ghost use Rattle.tc_world.specs.World.{may_move, tells_move, puts_down};
ghost use Rattle.tc_board.specs.Mirror.{MirrorState};
ghost use Rattle.tc_book.specs.Book.{Book, has_all_rows};
ghost use Rattle.tc_book.specs.Good.{IsGoodBook};
ghost use Rattle.tc_book.specs.declared.stamps.Stamp.{Stamp};
ghost use Rattle.tc_desk.specs.Asks.{brings_down};
ghost use Rattle.tc_desk.specs.Effects.{riding, heard_all, tells_report, ComesAlone};
ghost use Rattle.tc_desk.specs.Parts.{AsksLink};

use crate::firsts::FirstLine;
use std::alloc::Allocator;
use tc_book::{Draft, First, Needs, Records, make_room};
use tc_types::{Frame, Place, Refusal, Report};
use tc_world::{Carrier, Event, Indications, World};

/// The most indications that one event makes.
pub(crate) const MOST_TOLD: usize = 258;

/// `ok` alone.
pub(crate) const PLAIN: FirstLine = FirstLine::Book(First::Plain);

/// What an act made, with room for its moves and its batch, and none there yet.
#[derive(Drop)]
pub(crate) struct Flight<A: Allocator + Copy + Drop> {
    /// What the first line of the reply says.
    pub(crate) first: FirstLine,
    /// What the link told.
    pub(crate) said: Indications<A>,
    /// How many items it put on the downlink.
    pub(crate) put: usize,
    /// Room for the moves and the batch.
    pub(crate) draft: Draft<A>,
}

/// How many requests ride inside an insert.
fn riding<A: Allocator + Copy + Drop>(records: &Records<A>) -> usize
    ensures riding { result ≡ riding records.now.book }
    ensures few { result ≤ most_requests }
    ensures good { IsGoodBook records.now.book }
{
    // read for the proof alone: the book is good
    let _mark = records.mark();
    let tallies = records.tallies();
    tallies[usize::from(Place::Riding.number()) - 1] as usize
}

/// The most rows that what the link tells of one event makes, where no report comes down: one for each indication, and one for each
/// request that rides inside an insert. A request that the link moves does not ride from then on.
pub(crate) fn most_rows<A: Allocator + Copy + Drop>(records: &Records<A>) -> usize
    ensures rows { result ≡ MOST_TOLD + riding records.now.book }
    ensures few { result ≤ MOST_TOLD + most_requests }
    ensures good { IsGoodBook records.now.book }
{
    MOST_TOLD + riding(records)
}

/// Asks the link for an event, once there is room for so many rows, and for one of the log.
fn fly<U: Carrier<Frame> + Drop, D: Carrier<Report> + Drop, A: Allocator + Copy + Drop>(
    records: &mut Records<A>,
    world: &mut World<U, D, A>,
    alloc: A,
    event: Event,
    rows: usize,
) -> Result<Flight<A>, Refusal>
    requires few { rows ≤ 140000 }
    ensures asks { AsksLink U.kind D.kind event rows records.old records.new world.old world.new result }
    ensures still { may_move event ≡ false → IfOk result (λ flight. list_any tells_move flight.said ≡ false) }
    ensures kept_room { puts_down event ≡ false → D.covered world.old.down ≤ D.covered world.new.down }
    ensures most { IfOk result (λ flight. length flight.said ≤ MOST_TOLD) }
    ensures room { OnOk result (length records.new.book.history + rows ≤ 2 ^ 32 - 65536 → length records.new.book.history + rows ≤ records.new.most_rows) }
{
    let needs = Needs {
        rows,
        log: 1,
        ..Needs::NONE
    };
    let draft = make_room(records, alloc, First::Plain, needs)?;
    let said = world.step(event)?;
    Ok(Flight {
        first: PLAIN,
        said,
        put: 0,
        draft,
    })
}

/// Asks the link for an event, once there is room for so many rows, and for one of the log.
pub(crate) fn ask<U: Carrier<Frame> + Drop, D: Carrier<Report> + Drop, A: Allocator + Copy + Drop>(
    records: &mut Records<A>,
    world: &mut World<U, D, A>,
    alloc: A,
    event: Event,
    rows: usize,
) -> Result<Flight<A>, Refusal>
    requires few { rows ≤ 140000 }
    requires rows { has_all_rows records.old.book ≡ false }
    ensures asks { AsksLink U.kind D.kind event rows records.old records.new world.old world.new result }
    ensures alone { IfOk result (λ flight. ComesAlone flight.said) }
    ensures no_report { brings_down event ≡ false → IfOk result (λ flight. list_any tells_report flight.said ≡ false) }
    ensures most { IfOk result (λ flight. length flight.said ≤ MOST_TOLD) }
    ensures room { OnOk result (length records.new.book.history + rows ≤ records.new.most_rows) }
{
    let flight = fly(records, world, alloc, event, rows)?;
    Ok(flight)
}

/// Asks the link for an event of which the book hears nothing.
pub(crate) fn pass<U: Carrier<Frame> + Drop, D: Carrier<Report> + Drop, A: Allocator + Copy + Drop>(
    records: &mut Records<A>,
    world: &mut World<U, D, A>,
    alloc: A,
    event: Event,
) -> Result<Flight<A>, Refusal>
    requires still { may_move event ≡ false }
    ensures asks { AsksLink U.kind D.kind event 0 records.old records.new world.old world.new result }
    ensures kept_room { puts_down event ≡ false → D.covered world.old.down ≤ D.covered world.new.down }
    ensures heard { IfOk result (λ flight. (stamp : Stamp) (mirror : MirrorState) (book : Book) → heard_all stamp mirror flight.said book ≡ book) }
{
    let flight = fly(records, world, alloc, event, 0)?;
    Ok(flight)
}
