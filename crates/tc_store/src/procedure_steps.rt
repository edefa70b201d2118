//! The table `step`.
ghost use Rattle.std.specs.Prelude.{◌≡◌, [], ◌∷◌};
ghost use Rattle.tc_types.specs.declared.tables.rows.Row.TheVariants.{StepLoaded};
ghost use Rattle.tc_store.specs.ProcedureSteps.{released_number};
ghost use Rattle.tc_store.specs.Steps.{Puts};

use crate::steps::run;
use sqlite::{Alter, Error, Transaction, params};
use tc_types::{ProcedureStep, RequestNumber};

/// The text that makes the table.
pub(crate) const CREATE: &str =
    "CREATE TABLE step (procedure TEXT NOT NULL, step INTEGER NOT NULL, body TEXT NOT NULL, countersign INTEGER NOT NULL, request INTEGER NOT NULL, PRIMARY KEY (procedure, step)) STRICT";

/// The text that writes a row.
const PUT: &str =
    "INSERT INTO step (procedure, step, body, countersign, request) VALUES (?1, ?2, ?3, ?4, ?5)";

/// The number of the request that a step releases, 0 for none.
fn request_code(request: Option<RequestNumber>) -> u32
    ensures { result ≡ released_number request }
{
    match request {
        Some(request) => request.get(),
        None => 0,
    }
}

/// Writes one step of a procedure, behind those that stand.
pub(crate) fn put_step<S: Alter>(
    tx: &mut Transaction<'_, S>,
    row: ProcedureStep,
) -> Result<usize, Error>
    ensures { Puts S.Store (StepLoaded row ∷ []) tx.old.conn tx.new.conn result }
{
    let request = request_code(row.request);
    run(
        tx,
        PUT,
        params![
            row.procedure.as_str(),
            row.step,
            row.text.as_str(),
            row.is_countersigned,
            request
        ],
    )
}
