//! The table `reply`.
ghost use Rattle.std.specs.Prelude.{◌≡◌, ℕ, List, [], Some, None, get_or, map, option_map, string_bytes, IfOk, IfSome};
ghost use Rattle.sqlite_value.specs.declared.value.Value.TheVariants.{Text};
ghost use Rattle.sqlite_value.specs.Order.{column};
ghost use Rattle.sqlite.specs.State.{HasCleanDisk};
ghost use Rattle.sqlite.specs.Held.{state};
ghost use Rattle.std.specs.List.{AllByRecursion};
ghost use Rattle.tc_store.specs.Replies.{body_values};
ghost use Rattle.tc_store.specs.ReadsBack.{OnlyMemory, ReadsBack};
ghost use Rattle.tc_store.specs.Ledgers.{KeptAnswer, IsKeptAnswer, IsKeptText, Ledger, answer_of, kept_in, reply_at};
ghost use Rattle.tc_store.specs.Schema.{Holds};
ghost use Rattle.tc_store.specs.Steps.{Does, Replied};
ghost use Rattle.tc_store.specs.Reads.{Reads};

use crate::batches::{Batch, KeptReply};
use crate::call_numbers::CallNumber;
use crate::cells::kept_text_at;
use crate::faults::ReadFault;
use crate::loads::table_rows::rows_of;
use crate::steps::run;
use sqlite::{Alter, Connection, Error, Row, Transaction, params};
use tc_types::Person;

/// The text that makes the table.
pub(crate) const CREATE: &str =
    "CREATE TABLE reply (person TEXT NOT NULL, number INTEGER NOT NULL, body TEXT NOT NULL, PRIMARY KEY (person, number)) STRICT";

/// The text that writes a row.
const PUT: &str = "INSERT INTO reply (person, number, body) VALUES (?1, ?2, ?3)";

/// The text that reads the reply to one call.
const FIND: &str = "SELECT body FROM reply WHERE person = ?1 AND number = ?2 ORDER BY rowid";

/// Writes one reply, behind those that stand.
fn put_reply<S: Alter>(tx: &mut Transaction<'_, S>, row: &KeptReply<'_>) -> Result<usize, Error>
    ensures { Does S.Store (λ _. Replied S.Store (Some (answer_of row.now))) tx.old.conn tx.new.conn result }
{
    let person = row.person.name();
    let number = row.number.get();
    run(tx, PUT, params![person.as_str(), number, row.body])
}

/// Writes the reply of a batch, where it has one.
pub(crate) fn keep<S: Alter>(tx: &mut Transaction<'_, S>, batch: &Batch<'_>) -> Result<(), Error>
    ensures { Does S.Store (λ _. Replied S.Store (kept_in batch.now)) tx.old.conn tx.new.conn result }
{
    if let Some(row) = &batch.reply {
        put_reply(tx, row)?;
    }
    Ok(())
}

/// What the first of these rows shows.
fn first_text(rows: &[Row]) -> Result<Option<String>, ReadFault>
    ensures none { IfOk result (λ found. found ≡ None → rows.now ≡ []) }
    ensures some { IfOk result (λ found. IfSome found (λ text. column (get_or rows.now 0 []) 0 ≡ Text (string_bytes text))) }
    ensures told { IfOk result (λ found. IfSome found (λ text. IsKeptText (string_bytes text))) }
    ensures back { (kept : List KeptAnswer) → AllByRecursion IsKeptAnswer kept → rows.now ≡ map body_values kept → OnlyMemory result }
{
    match rows.first() {
        Some(row) => Ok(Some(kept_text_at(row, 0)?)),
        None => Ok(None),
    }
}

/// The reply that is kept for a person under a number. The tables stay, also where the read fails.
pub(crate) fn reply_of<S: Alter>(
    conn: &mut Connection<S>,
    person: Person,
    number: CallNumber,
) -> Result<Option<String>, ReadFault>
    ensures reads { Reads S.Store (λ db found. (ledger : Ledger) → Holds db ledger → option_map string_bytes found ≡ reply_at ledger.replies person number) conn.old conn.new result }
    ensures told { IfOk result (λ found. IfSome found (λ text. IsKeptText (string_bytes text))) }
    // over the tables of a desk, no reply that it keeps is called damaged
    ensures back { HasCleanDisk (state S.Store conn.new) → (ledger : Ledger) → Holds (state S.Store conn.old).now ledger → AllByRecursion IsKeptAnswer ledger.replies → ReadsBack result }
{
    let name = person.name();
    let number = number.get();
    let rows = rows_of(conn, FIND, params![name.as_str(), number])?;
    first_text(rows.as_slice())
}
