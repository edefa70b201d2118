//! The tables `stack` and `stack_approval`.
ghost use Rattle.std.specs.Prelude.{[], ◌∷◌};
ghost use Rattle.tc_types.specs.declared.tables.rows.Row.TheVariants.{Loaded, StackApproved};
ghost use Rattle.tc_store.specs.Steps.{Puts};

use crate::steps::run;
use sqlite::{Alter, Error, Transaction, params};
use tc_types::{LoadedStack, StackApproval};

/// The text that makes the table `stack`.
pub(crate) const CREATE_STACK: &str =
    "CREATE TABLE stack (name TEXT PRIMARY KEY, author TEXT NOT NULL, critical INTEGER NOT NULL) STRICT";

/// The text that makes the table `stack_approval`.
pub(crate) const CREATE_APPROVAL: &str =
    "CREATE TABLE stack_approval (stack TEXT NOT NULL, person TEXT NOT NULL, PRIMARY KEY (stack, person)) STRICT";

/// The text that writes a stack.
const PUT_STACK: &str = "INSERT INTO stack (name, author, critical) VALUES (?1, ?2, ?3)";

/// The text that writes an approval.
const PUT_APPROVAL: &str = "INSERT INTO stack_approval (stack, person) VALUES (?1, ?2)";

/// Writes one stack, behind those that stand.
pub(crate) fn put_stack<S: Alter>(
    tx: &mut Transaction<'_, S>,
    row: LoadedStack,
) -> Result<usize, Error>
    ensures { Puts S.Store (Loaded row ∷ []) tx.old.conn tx.new.conn result }
{
    run(
        tx,
        PUT_STACK,
        params![row.name.as_str(), row.author.as_str(), row.critical],
    )
}

/// Writes one approval of a stack, behind those that stand.
pub(crate) fn put_stack_approval<S: Alter>(
    tx: &mut Transaction<'_, S>,
    row: StackApproval,
) -> Result<usize, Error>
    ensures { Puts S.Store (StackApproved row ∷ []) tx.old.conn tx.new.conn result }
{
    run(
        tx,
        PUT_APPROVAL,
        params![row.stack.as_str(), row.person.as_str()],
    )
}
