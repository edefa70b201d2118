//! The shift report and the wall of a desk that is kept in a file: what is done with its two files.

use crate::because::{Because, Unusable};
use crate::copying::CopyFault;
use crate::looking::{why_foreign, why_unwritable, why_unwritten};
use crate::memory::open_in_memory;
use sqlite::{Alter, Connection};
use sqlite_disk::Wary;
use sqlite_std_file::FileFrom;
use sqlite_store::FileStore;
use std::alloc::{AllocError, Global};
use std::rt::Files;
use std::{fs, io};
use tc_closed::{ScriptFault, closed_report, write_wall};
use tc_store::{StoreFault, Tables, Version};
use tc_types::{Counted, Moment};

/// The desk's file, and its log beside it, which is a file that a reader has to make where there is none.
#[derive(Drop)]
pub(crate) struct Kept {
    pub(crate) database: String,
    pub(crate) log: String,
    had_log: bool,
}

/// The path of the log of the database at this path, which has no link in it.
pub(crate) fn log_path(alloc: Global, database: &str) -> Result<String, ScriptFault> {
    Ok(format!(in alloc; "{database}-wal")?)
}

/// The two files at a path, where a database may be. Nothing is made.
pub(crate) fn find(rt: &HostRuntime, file: &str) -> Result<Kept, ScriptFault> {
    let found = fs::metadata(rt, file).map_err(|_| ScriptFault::Tables)?;
    if !found.is_file() || found.len() == 0 {
        return Err(ScriptFault::Tables);
    }
    let real = fs::canonicalize(rt, file).map_err(|_| ScriptFault::Tables)?;
    let log = log_path(rt.alloc(), real.as_str())?;
    let had_log = fs::symlink_metadata(rt, log.as_str()).is_ok();
    Ok(Kept {
        database: String::from_str(rt.alloc(), real.as_str())?,
        log,
        had_log,
    })
}

/// Takes away the log that this program made, while the database is still held so that no other writes to it.
pub(crate) fn forget_log(rt: &HostRuntime, kept: &Kept) {
    if !kept.had_log {
        let _ = fs::remove_file(rt, kept.log.as_str());
    }
}

/// Opens the database, with what the log holds, which writes to neither file but to a log that holds nothing.
pub(crate) fn open_kept(
    rt: &HostRuntime,
    kept: &Kept,
) -> Result<Connection<FileStore<FileFrom<Wary>>>, ScriptFault> {
    match Connection::open_from(rt, kept.database.as_str(), false, Wary) {
        Ok(store) => Ok(store),
        Err((error, left)) => {
            // a database that another program holds has its log
            if left.is_some() {
                forget_log(rt, kept);
            }
            drop(left);
            Err(ScriptFault::from(error))
        }
    }
}

/// The tables of a desk in this database, and which version they are of.
pub(crate) fn tables_in(
    rt: &HostRuntime,
    kept: &Kept,
    store: Connection<FileStore<FileFrom<Wary>>>,
) -> Result<(Tables<FileStore<FileFrom<Wary>>>, Version), ScriptFault> {
    match Tables::open(rt.alloc(), store) {
        Ok(found) => Ok(found),
        Err((fault, store)) => {
            forget_log(rt, kept);
            drop(store);
            match fault {
                StoreFault::Memory => Err(ScriptFault::Memory),
                _ => Err(ScriptFault::Tables),
            }
        }
    }
}

/// The path of the rollback journal of a database.
fn journal_path(alloc: Global, kept: &Kept) -> Result<String, AllocError> {
    let database = kept.database.as_str();
    Ok(format!(in alloc; "{database}-journal")?)
}

/// Whether SQLite left a rollback journal beside a database, without which its file does not stand for the desk.
pub(crate) fn has_journal(rt: &HostRuntime, kept: &Kept) -> Result<bool, AllocError> {
    let path = journal_path(rt.alloc(), kept)?;
    match fs::metadata(rt, path.as_str()) {
        Ok(found) => Ok(found.len() > 0),
        Err(_) => Ok(false),
    }
}

/// Fails where it left one.
pub(crate) fn refuse_journal(rt: &HostRuntime, kept: &Kept) -> Result<(), CopyFault> {
    if has_journal(rt, kept)? {
        return Err(CopyFault::Desk(Some(Because::Journal)));
    }
    Ok(())
}

/// What is told of a desk that is kept in a file.
#[derive(Clone, Copy)]
enum Page {
    Report(Moment, Moment),
    Wall,
}

/// Prints a page of these tables.
fn print_tables<S: Alter + Drop>(
    rt: &HostRuntime,
    tables: &mut Tables<S>,
    version: Version,
    page: Page,
) -> Result<(), ScriptFault> {
    let mut writer = Counted::new(io::writer(rt));
    match page {
        Page::Report(from, to) => {
            closed_report(rt.alloc(), tables, version, from, to, &mut writer)
        }
        Page::Wall => write_wall(rt.alloc(), tables, version, &mut writer),
    }
}

/// Whether this user may not write one of a desk's files, or not make its log.
fn is_denied(rt: &HostRuntime, kept: &Kept) -> bool {
    let why_no_log = if kept.had_log {
        why_unwritten(rt, kept.log.as_str())
    } else {
        why_unwritable(rt, kept.log.as_str())
    };
    why_no_log == Some(Because::Denied)
        || why_unwritten(rt, kept.database.as_str()) == Some(Because::Denied)
}

/// Prints a page of the desk that two files keep which this user may only read: as a copy would have it, in memory.
fn print_read(rt: &HostRuntime, kept: &Kept, page: Page) -> Result<(), Unusable> {
    refuse_journal(rt, kept)?;
    let (mut tables, version) = match Tables::open(rt.alloc(), open_in_memory(rt, kept)?) {
        Ok(found) => found,
        Err((StoreFault::Memory, _)) => return Err(Unusable::from(ScriptFault::Memory)),
        Err((_, mut store)) => return Err(Unusable::of_tables(why_foreign(&mut store))),
    };
    match print_tables(rt, &mut tables, version, page) {
        Err(ScriptFault::Tables) => Err(Unusable::of_tables(Because::Damaged)),
        printed => Ok(printed?),
    }
}

/// Prints a page of the desk that a file keeps.
fn print_page(rt: &HostRuntime, file: &str, page: Page) -> Result<(), Unusable> {
    let kept = find(rt, file)?;
    match open_kept(rt, &kept) {
        Ok(store) => {
            let (mut tables, version) = tables_in(rt, &kept, store)?;
            let printed = print_tables(rt, &mut tables, version, page);
            forget_log(rt, &kept);
            Ok(printed?)
        }
        Err(ScriptFault::Tables) if is_denied(rt, &kept) => print_read(rt, &kept, page),
        Err(fault) => Err(Unusable::from(fault)),
    }
}

/// Prints the shift report of the desk that a file keeps. The file stays as it is, byte for byte, and so does its log where that holds a batch; one
/// that holds none may have other bytes afterwards. Where this user may only read them, both stay as they are.
pub fn print_report(
    rt: &HostRuntime,
    file: &str,
    from: Moment,
    to: Moment,
) -> Result<(), Unusable> {
    print_page(rt, file, Page::Report(from, to))
}

/// Prints the wall of the desk that a file keeps. The files stay as they do for a report.
pub fn print_wall(rt: &HostRuntime, file: &str) -> Result<(), Unusable> {
    print_page(rt, file, Page::Wall)
}
