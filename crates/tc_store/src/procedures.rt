//! The table `procedure`.
ghost use Rattle.std.specs.Prelude.{[], ◌∷◌};
ghost use Rattle.tc_types.specs.declared.tables.rows.Row.TheVariants.{ProcedureLoaded};
ghost use Rattle.tc_store.specs.Steps.{Puts};

use crate::steps::run;
use sqlite::{Alter, Error, Transaction, params};
use tc_types::LoadedProcedure;

/// The text that makes the table.
pub(crate) const CREATE: &str =
    "CREATE TABLE procedure (name TEXT PRIMARY KEY, author TEXT NOT NULL) STRICT";

/// The text that writes a row.
const PUT: &str = "INSERT INTO procedure (name, author) VALUES (?1, ?2)";

/// Writes one procedure, behind those that stand.
pub(crate) fn put_procedure<S: Alter>(
    tx: &mut Transaction<'_, S>,
    row: LoadedProcedure,
) -> Result<usize, Error>
    ensures { Puts S.Store (ProcedureLoaded row ∷ []) tx.old.conn tx.new.conn result }
{
    run(tx, PUT, params![row.name.as_str(), row.author.as_str()])
}
