//! What the opening of a desk that is kept in a file would be refused for, where nothing is to be written: its port is in use.

use crate::files::open_database;
use crate::looking::found_in;
use crate::reporting::{find, forget_log, log_path, open_kept};
use crate::standing::{Trial, trial_of};
use sqlite::{Alter, Connection};
use sqlite_disk::Wary;
use sqlite_schema::schema::Schema;
use std::alloc::Global;
use std::fs;
use tc_closed::{ScriptFault, records_of};
use tc_store::{StoreFault, Tables, Version};

/// Whether a database holds no table, no index and no view.
fn is_bare(schema: &Schema) -> bool {
    schema.tables.is_empty() && schema.indexes.is_empty() && schema.views.is_empty()
}

/// What the opening of the desk of these tables would be refused for, if it would be.
fn judge_tables<S: Alter + Drop>(
    alloc: Global,
    tables: &mut Tables<S>,
    version: Version,
) -> Result<(), ScriptFault> {
    let image = tables.load(version).map_err(|_| ScriptFault::Tables)?;
    records_of(alloc, &image)?;
    Ok(())
}

/// What the opening of a desk in this database would be refused for, if it would be, and the connection.
fn judge<S: Alter + Drop>(
    alloc: Global,
    store: Connection<S>,
) -> (Result<(), ScriptFault>, Connection<S>) {
    match Tables::open(alloc, store) {
        Ok((mut tables, version)) => {
            let judged = judge_tables(alloc, &mut tables, version);
            (judged, tables.into_connection())
        }
        Err((StoreFault::Foreign, store)) if is_bare(store.schema()) => (Ok(()), store),
        Err((_, store)) => (Err(ScriptFault::Tables), store),
    }
}

/// Takes away the database that this program made at a path, and its log. A link that led there stays.
fn forget_made(rt: &HostRuntime, file: &str) -> Result<(), ScriptFault> {
    let real = fs::canonicalize(rt, file).map_err(|_| ScriptFault::Tables)?;
    let log = log_path(rt.alloc(), real.as_str())?;
    let _ = fs::remove_file(rt, log.as_str());
    fs::remove_file(rt, real.as_str()).map_err(|_| ScriptFault::Tables)
}

/// Fails if no database can be made at a path where no file is. None is left there, unless another program filled it meanwhile.
fn judge_path(rt: &HostRuntime, file: &str) -> Result<(), ScriptFault> {
    let store = open_database(rt, file, Wary)?;
    let forgotten = if is_bare(store.schema()) {
        forget_made(rt, file)
    } else {
        Ok(())
    };
    drop(store);
    forgotten
}

/// Fails as the opening of the desk in a file would. The file stays as it is.
fn judge_file(rt: &HostRuntime, file: &str) -> Result<(), ScriptFault> {
    let kept = find(rt, file)?;
    let store = open_kept(rt, &kept)?;
    let (judged, store) = judge(rt.alloc(), store);
    forget_log(rt, &kept);
    drop(store);
    judged
}

/// Fails as the opening of the desk that a file keeps would. The file stays as it is; if the system does not report on it, that is the fault.
pub fn opening_fault(rt: &HostRuntime, file: &str) -> Result<(), ScriptFault> {
    let looked = match fs::metadata(rt, file) {
        Ok(found) => Ok(found_in(&found)),
        Err(error) => Err(error.kind()),
    };
    match trial_of(looked) {
        Trial::Make => judge_path(rt, file),
        Trial::Leave => Ok(()),
        Trial::Judge => judge_file(rt, file),
        Trial::Fail(fault) => Err(fault),
    }
}
