//! The table `request_approval`.
ghost use Rattle.std.specs.Prelude.{[], ◌∷◌};
ghost use Rattle.tc_types.specs.declared.tables.rows.Row.TheVariants.{Approved};
ghost use Rattle.tc_store.specs.Steps.{Puts};

use crate::steps::run;
use sqlite::{Alter, Error, Transaction, params};
use tc_types::Approval;

/// The text that makes the table.
pub(crate) const CREATE: &str =
    "CREATE TABLE request_approval (request INTEGER NOT NULL, person TEXT NOT NULL, PRIMARY KEY (request, person)) STRICT";

/// The text that writes a row.
const PUT: &str = "INSERT INTO request_approval (request, person) VALUES (?1, ?2)";

/// Writes one approval, behind those that stand.
pub(crate) fn put_approval<S: Alter>(
    tx: &mut Transaction<'_, S>,
    row: Approval,
) -> Result<usize, Error>
    ensures { Puts S.Store (Approved row ∷ []) tx.old.conn tx.new.conn result }
{
    let request = row.request.get();
    run(tx, PUT, params![request, row.person.as_str()])
}
