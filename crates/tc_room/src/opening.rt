//! How a room is opened over a database: an empty one becomes the tables of a desk where nothing happened yet, and over the tables that
//! were left in another the desk is opened again.
ghost use Rattle.std.specs.Prelude.{◌≡◌, ◌≢◌, ◌⊎◌, ◌↔◌, false, [], IsTrue, IfErr, IfOk, OnOk};
ghost use Rattle.sqlite.specs.Held.{state};
ghost use Rattle.sqlite.specs.State.{HasCleanDisk};
ghost use Rattle.sqlite.specs.Steps.{over_memory};
ghost use Rattle.tc_sql.specs.Builds.{no_schema};
ghost use Rattle.tc_types.specs.declared.refusals.Refusal.TheVariants.{BadDirective, Memory, Store};
ghost use Rattle.tc_world.specs.Config.{IsConfig};
ghost use Rattle.tc_store.specs.declared.versions.Version.{Version as SomeVersion};
ghost use Rattle.tc_store.specs.Ledgers.{Ledger, empty_ledger};
ghost use Rattle.tc_store.specs.Schema.{IsSchemaOf, HoldsAs};
ghost use Rattle.tc_store.specs.Told.{IsTold};
ghost use Rattle.tc_room.specs.Crash.{HasRows, LeavesOr};
ghost use Rattle.tc_room.specs.Opening.{KeepsTables, LeavesOpening, OpensAs, OpensLeft, OpensTo, ShowsDesk};
ghost use Rattle.tc_room.specs.Room.{IsJustOpened};

use crate::desks::{make_desk, reopen_desk};
use crate::rooms::Room;
use crate::writes::write_rows;
use sqlite::{Alter, Connection, MemStore};
use std::alloc::Global;
use tc_desk::Reopened;
use tc_store::{StoreFault, Tables, Version};
use tc_types::{Moment, Move, Refusal};
use tc_world::{Config, is_fit};

/// A room that was opened.
#[derive(Drop)]
pub struct OpenedRoom<S: Alter + Drop> {
    /// The room.
    pub room: Room<S>,
    /// The moves that the opening made, by the desk itself, in order.
    pub moves: Vec<Move>,
}

/// Opens a room over tables that were left, and writes what that makes of them in one batch, which brings tables of an earlier version to the
/// newest.
fn open_left<S: Alter + Drop>(
    alloc: Global,
    tables: Tables<S>,
    version: Version,
    config: Config,
    moment: Moment,
) -> Result<OpenedRoom<S>, (Refusal, Connection<S>)>
    requires fit { IsConfig config }
    ensures left { IfOk result (λ opened. HasCleanDisk (state S.Store opened.room.tables) → (ledger : Ledger) → IsTold ledger.image → HoldsAs version (state S.Store tables).now ledger → OpensLeft S.Store config moment ledger opened.moves.items opened.room) }
    ensures going { IfOk result (λ opened. opened.room.stopped ≡ false) }
    ensures shown { IfOk result (λ opened. HasCleanDisk (state S.Store opened.room.tables) → IsSchemaOf version (state S.Store tables).now.schema → ShowsDesk version (state S.Store tables).now) }
    ensures kept { IfErr result (λ e. HasCleanDisk (state S.Store e.1) → IsTrue (state S.Store e.1).is_open → (of : SomeVersion) (ledger : Ledger) → HoldsAs of (state S.Store tables).now ledger → HoldsAs of (state S.Store e.1).now ledger) }
    ensures crash { IfErr result (λ e. HasCleanDisk (state S.Store e.1) → (ledger : Ledger) → HoldsAs version (state S.Store tables).now ledger → LeavesOr S.Store tables e.1 (OpensTo config moment ledger)) }
    ensures kind { IfErr result (λ e. (e.0 ≡ Memory) ⊎ (e.0 ≡ Store)) }
    ensures memory { IfErr result (λ e. e.0 ≡ Memory → HasCleanDisk (state S.Store e.1) → IsSchemaOf version (state S.Store tables).now.schema → ShowsDesk version (state S.Store tables).now) }
{
    let mut tables = tables;
    let image = match tables.load(version) {
        Ok(image) => image,
        Err(_) => return Err((Refusal::Store, tables.into_connection())),
    };
    let Reopened { desk, done } = match reopen_desk(alloc, &image, config, moment) {
        Ok(left) => left,
        Err(refusal) => return Err((refusal, tables.into_connection())),
    };
    match write_rows(&mut tables, version, &done.batch) {
        Ok(()) => Ok(OpenedRoom {
            room: Room::over(desk, tables),
            moves: done.moves,
        }),
        Err(_) => Err((Refusal::Store, tables.into_connection())),
    }
}

/// Makes the tables of a desk where nothing happened yet in an empty database, and opens a room over them.
fn open_new<S: Alter + Drop>(
    alloc: Global,
    store: Connection<S>,
    config: Config,
) -> Result<OpenedRoom<S>, (Refusal, Connection<S>)>
    requires fit { IsConfig config }
    ensures made { IfOk result (λ opened. IsJustOpened S.Store config opened.room) }
    ensures none { IfOk result (λ opened. opened.moves.items ≡ []) }
    ensures empty { OnOk result ((state S.Store store).now.schema ≡ no_schema) }
    ensures kept { IfErr result (λ e. HasCleanDisk (state S.Store e.1) → IsTrue (state S.Store e.1).is_open → (state S.Store e.1).now ≡ (state S.Store store).now) }
    ensures crash { IfErr result (λ e. HasCleanDisk (state S.Store e.1) → LeavesOr S.Store store e.1 (λ trees. HasRows trees empty_ledger)) }
    ensures untouched { IfErr result (λ e. (state S.Store store).now.schema ≢ no_schema → e.1 ≡ store) }
    ensures kind { IfErr result (λ e. (e.0 ≡ Memory) ⊎ (e.0 ≡ Store)) }
{
    let desk = match make_desk(alloc, config) {
        Ok(desk) => desk,
        Err(refusal) => return Err((refusal, store)),
    };
    match Tables::create(alloc, store) {
        Ok(tables) => Ok(OpenedRoom {
            room: Room::over(desk, tables),
            moves: Vec::new(alloc),
        }),
        Err((_, store)) => Err((Refusal::Store, store)),
    }
}

impl<S: Alter + Drop> Room<S> {
    /// Opens a room over a database, at a moment. An empty database becomes the tables of a desk where nothing happened yet. Over the tables
    /// that were left in another the desk is opened again: it moves each request that was on its way, which is written in one batch, and
    /// that batch brings tables of an earlier version to the newest.
    /// Refused, and the connection handed back, with `BadDirective` exactly where the window is not even and 2 to 254, the channel is
    /// above 63, or a ring is none of 1 to 4,096 items; with `Memory` where that is refused; and with `Store` where the database fails, or its
    /// tables are no desk's or tell what no desk could have written. Then the tables are as they were, as long as the database is open.
    pub fn open(
        alloc: Global,
        store: Connection<S>,
        config: Config,
        moment: Moment,
    ) -> Result<OpenedRoom<S>, (Refusal, Connection<S>)>
        ensures opened { IfOk result (λ opened. OpensAs S.Store config moment store opened.moves.items opened.room) }
        ensures going { IfOk result (λ opened. opened.room.stopped ≡ false) }
        ensures ours { OnOk result (((state S.Store store).now.schema ≡ no_schema) ⊎ ((version : SomeVersion) × IsSchemaOf version (state S.Store store).now.schema)) }
        // tables that were opened showed rows as a desk writes them, and told their own version
        ensures shown { IfOk result (λ opened. HasCleanDisk (state S.Store opened.room.tables) → (version : SomeVersion) → IsSchemaOf version (state S.Store store).now.schema → ShowsDesk version (state S.Store store).now) }
        ensures config { OnOk result (IsConfig config) }
        ensures refused { IfErr result (λ e. (e.0 ≡ BadDirective) ↔ (¬ IsConfig config)) }
        ensures kind { IfErr result (λ e. (e.0 ≡ BadDirective) ⊎ (e.0 ≡ Memory) ⊎ (e.0 ≡ Store)) }
        // tables that show no rows as a desk writes them are refused with `Store`, and never with `Memory`
        ensures memory { IfErr result (λ e. e.0 ≡ Memory → HasCleanDisk (state S.Store e.1) → (version : SomeVersion) → IsSchemaOf version (state S.Store store).now.schema → ShowsDesk version (state S.Store store).now) }
        ensures kept { IfErr result (λ e. HasCleanDisk (state S.Store e.1) → IsTrue (state S.Store e.1).is_open → KeepsTables (state S.Store store).now (state S.Store e.1).now) }
        // also after a crash they are as they were, or all of the opening is there
        ensures crash { IfErr result (λ e. HasCleanDisk (state S.Store e.1) → LeavesOpening S.Store config moment store e.1) }
        ensures foreign { IfErr result (λ e. (state S.Store store).now.schema ≢ no_schema → ((version : SomeVersion) → ¬ IsSchemaOf version (state S.Store store).now.schema) → e.1 ≡ store) }
    {
        if !is_fit(config) {
            return Err((Refusal::BadDirective, store));
        }
        match Tables::open(alloc, store) {
            Ok((tables, version)) => open_left(alloc, tables, version, config, moment),
            Err((StoreFault::Foreign, store)) => open_new(alloc, store, config),
            Err((_, store)) => Err((Refusal::Store, store)),
        }
    }
}

impl Room<MemStore> {
    /// A room over a new database in memory, where nothing happened yet. Refused with `BadDirective` exactly where the window is not even
    /// and 2 to 254, the channel is above 63, or a ring is none of 1 to 4,096 items; else with `Memory` where that is refused, and with
    /// `Store` where the database could not take the tables.
    pub fn open_in_memory(alloc: Global, config: Config) -> Result<Room<MemStore>, Refusal>
        ensures opened { IfOk result (λ room. IsJustOpened over_memory config room) }
        ensures config { OnOk result (IsConfig config) }
        ensures refused { IfErr result (λ refusal. (refusal ≡ BadDirective) ↔ (¬ IsConfig config)) }
        ensures kind { IfErr result (λ refusal. (refusal ≡ BadDirective) ⊎ (refusal ≡ Memory) ⊎ (refusal ≡ Store)) }
    {
        let desk = make_desk(alloc, config)?;
        let Ok(store) = Connection::open_in_memory(alloc) else {
            return Err(Refusal::Memory);
        };
        match Tables::create(alloc, store) {
            Ok(tables) => Ok(Room::over(desk, tables)),
            Err(_) => Err(Refusal::Store),
        }
    }
}
