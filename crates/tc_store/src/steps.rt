//! One statement inside a transaction.
ghost use Rattle.sqlite.specs.Values.{bound};
ghost use Rattle.tc_store.specs.Steps.{Ran, Does};

use sqlite::types::ValueRef;
use sqlite::{Alter, Error, Transaction};

/// Runs one text, whose effect stays inside the transaction.
pub(crate) fn run<S: Alter>(
    tx: &mut Transaction<'_, S>,
    text: &str,
    params: &[ValueRef<'_>],
) -> Result<usize, Error>
    ensures { Does S.Store (Ran S.Store text.now (bound params.now)) tx.old.conn tx.new.conn result }
{
    tx.execute(text, params)
}
