//! The table `cargo`.
ghost use Rattle.std.specs.Prelude.{[], ◌∷◌};
ghost use Rattle.tc_types.specs.declared.tables.rows.Row.TheVariants.{Carried};
ghost use Rattle.tc_store.specs.Steps.{Puts};

use crate::steps::run;
use sqlite::{Alter, Error, Transaction, params};
use tc_types::Cargo;

/// The text that makes the table.
pub(crate) const CREATE: &str =
    "CREATE TABLE cargo (request INTEGER NOT NULL, position INTEGER NOT NULL, target INTEGER NOT NULL, at_time INTEGER NOT NULL, PRIMARY KEY (request, position)) STRICT";

/// The text that writes a row.
const PUT: &str = "INSERT INTO cargo (request, position, target, at_time) VALUES (?1, ?2, ?3, ?4)";

/// Writes what an insert names at one position, behind the rows that stand.
pub(crate) fn put_cargo<S: Alter>(tx: &mut Transaction<'_, S>, row: Cargo) -> Result<usize, Error>
    ensures { Puts S.Store (Carried row ∷ []) tx.old.conn tx.new.conn result }
{
    let request = row.request.get();
    let position = u32::from(row.position);
    let target = row.ride.target;
    let time = row.ride.time.get();
    run(tx, PUT, params![request, position, target, time])
}
