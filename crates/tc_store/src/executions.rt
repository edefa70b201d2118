//! The table `execution`.
ghost use Rattle.std.specs.Prelude.{[], ◌∷◌};
ghost use Rattle.tc_types.specs.declared.tables.rows.Row.TheVariants.{Begun};
ghost use Rattle.tc_store.specs.Steps.{Puts};

use crate::steps::run;
use sqlite::{Alter, Error, Transaction, params};
use tc_types::BegunExecution;

/// The text that makes the table.
pub(crate) const CREATE: &str =
    "CREATE TABLE execution (num INTEGER PRIMARY KEY, procedure TEXT NOT NULL, person TEXT NOT NULL, moment INTEGER NOT NULL) STRICT";

/// The text that writes a row.
const PUT: &str = "INSERT INTO execution (num, procedure, person, moment) VALUES (?1, ?2, ?3, ?4)";

/// Writes one execution that was begun.
pub(crate) fn put_execution<S: Alter>(
    tx: &mut Transaction<'_, S>,
    row: BegunExecution,
) -> Result<usize, Error>
    ensures { Puts S.Store (Begun row ∷ []) tx.old.conn tx.new.conn result }
{
    let moment = row.moment.get();
    run(
        tx,
        PUT,
        params![
            row.execution,
            row.procedure.as_str(),
            row.by.as_str(),
            moment
        ],
    )
}
