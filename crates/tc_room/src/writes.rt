//! How rows are written to the tables, in one batch that brings tables of an earlier version to the newest; and how what was done is written with its
//! reply.
ghost use Rattle.std.specs.Prelude.{◌≡◌, None, IfSome, IsTrue, OnErr, OnOk};
ghost use Rattle.std.specs.String.{string_bytes};
ghost use Rattle.sqlite.specs.Held.{state};
ghost use Rattle.sqlite.specs.State.{HasCleanDisk, Survives};
ghost use Rattle.tc_store.specs.Ledgers.{Ledger, from_or, with_image};
ghost use Rattle.tc_store.specs.Schema.{HoldsAs, Holds};
ghost use Rattle.tc_store.specs.Steps.{LeavesOnly};
ghost use Rattle.tc_room.specs.Calls.{reply_to, with_reply};
ghost use Rattle.tc_room.specs.Crash.{HasRows};
ghost use Rattle.tc_room.specs.Replies.{AreLines, ended};

use crate::callers::Caller;
use crate::replies::act_reply;
use sqlite::Alter;
use std::alloc::Global;
use tc_desk::Done;
use tc_store::{Batch, KeptReply, StoreFault, Tables, Version};
use tc_types::Row;

/// The version that tables are brought from; `None` where they are of the newest.
fn earlier(version: Version) -> Option<Version>
    ensures { from_or result ≡ version }
{
    match version {
        Version::First | Version::Second => Some(version),
        Version::Third => None,
    }
}

/// Writes rows to tables of a version, which are of the newest then. The replies stay as they were.
pub(crate) fn write_rows<S: Alter + Drop>(
    tables: &mut Tables<S>,
    from: Version,
    rows: &[Row],
) -> Result<(), StoreFault>
    ensures written { HasCleanDisk (state S.Store tables.new) → OnOk result ((ledger : Ledger) → HoldsAs from (state S.Store tables.old).now ledger → Holds (state S.Store tables.new).now (with_image rows.now ledger)) }
    ensures kept { HasCleanDisk (state S.Store tables.new) → IsTrue (state S.Store tables.new).is_open → OnErr result ((state S.Store tables.new).now ≡ (state S.Store tables.old).now) }
    ensures durable { HasCleanDisk (state S.Store tables.new) → OnOk result (LeavesOnly (state S.Store tables.new) (state S.Store tables.new).now.trees) }
    ensures crash { Survives (state S.Store tables.old) (state S.Store tables.new) (λ trees. (ledger : Ledger) → HoldsAs from (state S.Store tables.old).now ledger → HasRows trees (with_image rows.now ledger)) }
{
    let batch = Batch {
        migrates: earlier(from),
        rows,
        reply: None,
    };
    tables.write(&batch)
}

/// Writes rows to tables of the newest version, and with them the reply to a caller, behind those that are kept.
fn write_reply<S: Alter + Drop>(
    tables: &mut Tables<S>,
    caller: Caller,
    rows: &[Row],
    body: &str,
) -> Result<(), StoreFault>
    ensures written { HasCleanDisk (state S.Store tables.new) → OnOk result ((ledger : Ledger) → Holds (state S.Store tables.old).now ledger → Holds (state S.Store tables.new).now (with_reply caller body.now (with_image rows.now ledger))) }
    ensures kept { HasCleanDisk (state S.Store tables.new) → IsTrue (state S.Store tables.new).is_open → OnErr result ((state S.Store tables.new).now ≡ (state S.Store tables.old).now) }
    ensures durable { HasCleanDisk (state S.Store tables.new) → OnOk result (LeavesOnly (state S.Store tables.new) (state S.Store tables.new).now.trees) }
    ensures crash { Survives (state S.Store tables.old) (state S.Store tables.new) (λ trees. (ledger : Ledger) → Holds (state S.Store tables.old).now ledger → HasRows trees (with_reply caller body.now (with_image rows.now ledger))) }
{
    let reply = KeptReply {
        person: caller.by,
        number: caller.number,
        body,
    };
    let batch = Batch {
        migrates: None,
        rows,
        reply: Some(reply),
    };
    tables.write(&batch)
}

/// The text of the reply to what was done, once it is written with its rows; `None` where there was no memory for it, or the database failed.
pub(crate) fn write_done<S: Alter + Drop>(
    alloc: Global,
    tables: &mut Tables<S>,
    caller: Caller,
    done: &Done<Global>,
) -> Option<String>
    ensures text { IfSome result (λ text. (string_bytes text ≡ ended (reply_to done.now)) × AreLines (reply_to done.now)) }
    ensures written { HasCleanDisk (state S.Store tables.new) → IfSome result (λ text. (ledger : Ledger) → Holds (state S.Store tables.old).now ledger → Holds (state S.Store tables.new).now (with_reply caller (ended (reply_to done.now)) (with_image done.now.batch.items ledger))) }
    ensures durable { HasCleanDisk (state S.Store tables.new) → IfSome result (λ text. LeavesOnly (state S.Store tables.new) (state S.Store tables.new).now.trees) }
    ensures kept { HasCleanDisk (state S.Store tables.new) → IsTrue (state S.Store tables.new).is_open → result ≡ None → (state S.Store tables.new).now ≡ (state S.Store tables.old).now }
    ensures crash { Survives (state S.Store tables.old) (state S.Store tables.new) (λ trees. (ledger : Ledger) → Holds (state S.Store tables.old).now ledger → HasRows trees (with_reply caller (ended (reply_to done.now)) (with_image done.now.batch.items ledger))) }
{
    let text = act_reply(alloc, done.first, done.said.as_slice(), &done.moves).ok()?;
    write_reply(tables, caller, &done.batch, text.as_str()).ok()?;
    Some(text)
}
