//! A look at what could not be used, to tell why. Nothing is written but a log that holds nothing, and what was told of it stays. Where no look tells why, no reason is told.

use crate::because::Because;
use crate::reporting::{Kept, find, forget_log, has_journal};
use crate::standing::{Found, Standing, what_stands, why_no_file};
use sqlite::{Alter, Connection};
use sqlite_disk::Wary;
use std::alloc::Global;
use std::fs::OpenOptions;
use std::os::unix::fs::MetadataExt;
use std::{fs, io};
use tc_closed::{LARGEST_SCRIPT, records_of};
use tc_store::{NEWEST, ReadFault, StoreFault, Tables, Version};
use tc_types::Image;

/// The number of the newest schema that this program knows.
fn newest_schema() -> i64 {
    match NEWEST {
        Version::First => 1,
        Version::Second => 2,
        Version::Third => 3,
    }
}

/// Why the file of this name cannot be read.
fn why_unreadable(rt: &HostRuntime, path: &str) -> Option<Because> {
    match fs::metadata(rt, path) {
        Err(error) => Because::of_system(error.kind()),
        Ok(found) if found.is_dir() => Some(Because::Folder),
        Ok(found) if !found.is_file() => None,
        Ok(_) => match fs::open(rt, path) {
            Err(error) => Because::of_system(error.kind()),
            Ok(_) => None,
        },
    }
}

/// Why the file at a path cannot be read, where `-` is the standard input.
pub fn why_unread(rt: &HostRuntime, path: &str) -> Option<Because> {
    if path == "-" {
        None
    } else {
        why_unreadable(rt, path)
    }
}

/// Why the script at a path cannot be read.
pub fn why_no_script(rt: &HostRuntime, path: &str) -> Option<Because> {
    if let Some(because) = why_unread(rt, path) {
        return Some(because);
    }
    match fs::metadata(rt, path) {
        Ok(found) if found.len() > LARGEST_SCRIPT as u64 => Some(Because::TooLong),
        _ => None,
    }
}

/// The folder that a path names a file in.
pub(crate) fn folder_of(path: &str) -> &str {
    match path.rfind('/') {
        Some(0) => "/",
        Some(end) => path.get(..end).unwrap_or("."),
        None => ".",
    }
}

/// Whether the mode of a folder says that this user may make no file in it. Of the root user it says nothing, nor of another's folder where the group may.
fn is_shut(rt: &HostRuntime, folder: &fs::Metadata) -> bool {
    let Ok(own) = fs::metadata(rt, "/proc/self") else {
        return false;
    };
    let may = if own.uid() == folder.uid() {
        0o200
    } else {
        0o022
    };
    own.uid() != 0 && folder.mode() & may == 0
}

/// Why a file of this name cannot be made.
pub fn why_unwritable(rt: &HostRuntime, path: &str) -> Option<Because> {
    if path.is_empty() {
        return Some(Because::NoName);
    }
    match fs::metadata(rt, folder_of(path)) {
        Err(error) if error.kind() == io::ErrorKind::NotFound => Some(Because::NoFolder),
        Err(error) => Because::of_system(error.kind()),
        Ok(found) if !found.is_dir() => Some(Because::NoFolder),
        Ok(found) if is_shut(rt, &found) => Some(Because::Denied),
        Ok(_) => None,
    }
}

/// Why no desk of this name can be made.
fn why_unmade(rt: &HostRuntime, path: &str) -> Option<Because> {
    if path == ":memory:" || path.starts_with("file:") {
        return Some(Because::NoName);
    }
    why_unwritable(rt, path)
}

/// The number of the schema that a database names as a desk's, if it names one.
fn schema_number<S: Alter + Drop>(store: &mut Connection<S>) -> Option<i64> {
    let row = store
        .query_row("SELECT value FROM meta WHERE name = 'schema'", &[])
        .ok()?;
    row.get::<i64>(0).ok()
}

/// Why tables are not taken as a desk's.
pub(crate) fn why_foreign<S: Alter + Drop>(store: &mut Connection<S>) -> Because {
    match schema_number(store) {
        Some(number) if number > newest_schema() => Because::Later,
        _ => Because::Foreign,
    }
}

/// Why no desk opens over these rows.
fn why_unopened(alloc: Global, image: &Image) -> Option<Because> {
    match records_of(alloc, image) {
        Ok(_) => None,
        Err(_) => Some(Because::Damaged),
    }
}

/// Why the rows of these tables cannot be used.
fn why_unloaded<S: Alter + Drop>(
    alloc: Global,
    tables: &mut Tables<S>,
    version: Version,
) -> Option<Because> {
    match tables.load(version) {
        Ok(image) => why_unopened(alloc, &image),
        Err(ReadFault::Sqlite(error)) => Because::of_rows(&error),
        Err(ReadFault::Damaged) => Some(Because::Damaged),
    }
}

/// Why what a database holds cannot be used, and the connection.
fn why_unheld<S: Alter + Drop>(
    alloc: Global,
    store: Connection<S>,
) -> (Option<Because>, Connection<S>) {
    match Tables::open(alloc, store) {
        Ok((mut tables, version)) => {
            let because = why_unloaded(alloc, &mut tables, version);
            (because, tables.into_connection())
        }
        Err((StoreFault::Foreign, mut store)) => (Some(why_foreign(&mut store)), store),
        Err((_, store)) => (None, store),
    }
}

/// Why a file that is there cannot be opened to be written.
pub(crate) fn why_unwritten(rt: &HostRuntime, file: &str) -> Option<Because> {
    match OpenOptions::new().read(true).write(true).open(rt, file) {
        Err(error) => Because::of_system(error.kind()),
        Ok(_) => None,
    }
}

/// Whether the file at this path has a second name.
fn has_names(rt: &HostRuntime, path: &str) -> bool {
    match fs::metadata(rt, path) {
        Ok(found) => found.nlink() > 1,
        Err(_) => false,
    }
}

/// Why two files are not opened, by their names and by what stands beside them.
fn why_not_alone(rt: &HostRuntime, kept: &Kept) -> Option<Because> {
    if has_names(rt, kept.database.as_str()) || has_names(rt, kept.log.as_str()) {
        return Some(Because::Names);
    }
    match has_journal(rt, kept) {
        Ok(true) => Some(Because::Journal),
        _ => why_unwritten(rt, kept.database.as_str()),
    }
}

/// Why the database in a file that is there cannot be used.
fn why_unkept(rt: &HostRuntime, file: &str) -> Option<Because> {
    let kept = find(rt, file).ok()?;
    match Connection::open_from(rt, kept.database.as_str(), false, Wary) {
        Ok(store) => {
            let (because, store) = why_unheld(rt.alloc(), store);
            forget_log(rt, &kept);
            drop(store);
            because
        }
        Err((error, left)) => {
            if left.is_some() {
                forget_log(rt, &kept);
            }
            drop(left);
            Because::of_database(&error).or(why_not_alone(rt, &kept))
        }
    }
}

/// What a look at a path found there, as the system reports it.
pub(crate) fn found_in(found: &fs::Metadata) -> Found {
    Found {
        is_folder: found.is_dir(),
        is_file: found.is_file(),
        bytes: found.len(),
    }
}

/// What stands where this was found.
fn standing_of(found: &fs::Metadata) -> Standing {
    what_stands(found_in(found))
}

/// Why the desk that a file keeps cannot be read.
pub fn why_no_desk(rt: &HostRuntime, file: &str) -> Option<Because> {
    match fs::metadata(rt, file) {
        Err(error) => Because::of_system(error.kind()),
        Ok(found) => match why_no_file(standing_of(&found)) {
            Some(because) => Some(because),
            None => why_unkept(rt, file),
        },
    }
}

/// Why the desk that a file keeps cannot be copied, where a look tells that opens nothing to be written: a program may have the desk open, and work.
pub fn why_uncopied(rt: &HostRuntime, file: &str) -> Option<Because> {
    match fs::metadata(rt, file) {
        Err(error) => Because::of_system(error.kind()),
        Ok(found) => why_no_file(standing_of(&found)).or(why_unreadable(rt, file)),
    }
}

/// Why the desk that a file keeps cannot be opened, or one made there.
pub fn why_no_opening(rt: &HostRuntime, file: &str) -> Option<Because> {
    match fs::metadata(rt, file) {
        Err(error) if error.kind() == io::ErrorKind::NotFound => why_unmade(rt, file),
        Ok(found) if matches!(standing_of(&found), Standing::Empty) => why_unwritten(rt, file),
        _ => why_no_desk(rt, file),
    }
}
