//! A copy of the desk that a file keeps, which may run meanwhile. The copy stands under its name only once it is whole: it is made as `COPY.part`, with its
//! log beside it, opened there as a desk, brought into one file and given its name.

use crate::because::Because;
use crate::copying::{Beside, CopyFault, copy_files, of_copy, of_desk};
use crate::looking::{folder_of, why_foreign};
use crate::marking::stamp_of;
use crate::parts::{Parts, forget};
use crate::reporting::{Kept, find, log_path, refuse_journal};
use jiff::Timestamp;
use sqlite::{Alter, Connection, Error, ErrorCode};
use sqlite_disk::Wary;
use sqlite_std_file::FileFrom;
use sqlite_store::FileStore;
use std::alloc::Global;
use std::fs::{File, OpenOptions, Permissions};
use std::os::fd::AsRawFd;
use std::os::unix::fs::{MetadataExt, OpenOptionsExt, PermissionsExt};
use std::{fs, io};
use tc_closed::{put, records_of};
use tc_copy::is_same_file;
use tc_store::{ReadFault, StoreFault, Tables, Version};
use tc_types::{Counted, Image, Refusal};

/// Fails where a file stands under the name of the copy, or under one of those beside it.
fn refuse_taken(rt: &HostRuntime, copy: &str) -> Result<(), CopyFault> {
    for file in [Beside::Database, Beside::Log, Beside::Journal] {
        let suffix = file.suffix();
        let path = format!(in rt.alloc(); "{copy}{suffix}")?;
        match fs::symlink_metadata(rt, path.as_str()) {
            Ok(_) => return Err(CopyFault::Taken(file)),
            Err(error) if error.kind() == io::ErrorKind::NotFound => {}
            Err(error) => return Err(of_copy(error)),
        }
    }
    Ok(())
}

/// The names that a copy has, or takes while it is made, by what stands behind its own.
const NAMES: [&str; 6] = [
    "",
    "-wal",
    "-journal",
    ".part",
    ".part-wal",
    ".part-journal",
];

/// The path of a copy that is not there yet, with no link in that of its folder.
fn real_path(rt: &HostRuntime, copy: &str) -> Result<String, CopyFault> {
    let folder = fs::canonicalize(rt, folder_of(copy)).map_err(of_copy)?;
    let folder = folder.as_str().trim_end_matches('/');
    let path = match copy.rfind('/') {
        Some(end) => {
            let name = copy.get(end..).unwrap_or(copy);
            format!(in rt.alloc(); "{folder}{name}")
        }
        None => format!(in rt.alloc(); "{folder}/{copy}"),
    };
    Ok(path?)
}

/// Whether two paths are one, or lead to one file.
fn is_one_file(rt: &HostRuntime, one: &str, other: &str) -> bool {
    if one == other {
        return true;
    }
    match (fs::metadata(rt, one), fs::metadata(rt, other)) {
        (Ok(one), Ok(other)) => is_same_file(&stamp_of(&one), &stamp_of(&other)),
        _ => false,
    }
}

/// Whether a path, in which no folder is a link, is that of the desk's file or of what may stand beside it, or leads there.
fn is_own(rt: &HostRuntime, path: &str, kept: &Kept) -> Result<bool, CopyFault> {
    let database = kept.database.as_str();
    let journal = format!(in rt.alloc(); "{database}-journal")?;
    Ok(
        is_one_file(rt, path, database)
            || is_one_file(rt, path, kept.log.as_str())
            || is_one_file(rt, path, journal.as_str()),
    )
}

/// Fails where a name that the copy takes is the desk's own: what is made there, or taken away, would be the desk.
fn refuse_own(rt: &HostRuntime, copy: &str, kept: &Kept) -> Result<(), CopyFault> {
    let real = real_path(rt, copy)?;
    for suffix in NAMES {
        let path = format!(in rt.alloc(); "{real}{suffix}")?;
        if is_own(rt, path.as_str(), kept)? {
            return Err(CopyFault::Copy(None));
        }
    }
    Ok(())
}

/// Whether an open file is the one at this path, has no other name, and is not the desk's own.
fn is_claimed(rt: &HostRuntime, file: &File, path: &str, kept: &Kept) -> Result<bool, CopyFault> {
    let held = file.metadata().map_err(of_copy)?;
    let named = fs::symlink_metadata(rt, path).map_err(of_copy)?;
    let desk = fs::metadata(rt, kept.database.as_str()).map_err(of_desk)?;
    let stamp = stamp_of(&held);
    Ok(
        named.is_file()
            && named.nlink() == 1
            && is_same_file(&stamp, &stamp_of(&named))
            && !is_same_file(&stamp, &stamp_of(&desk)),
    )
}

/// Takes the names under which the copy is made, and what a copy that was killed left there. They stay this program's own, by a lock on the file, as long as it
/// holds that.
fn claim(rt: &HostRuntime, copy: &str, kept: &Kept) -> Result<Parts, CopyFault> {
    let database = format!(in rt.alloc(); "{copy}.part")?;
    let log = log_path(rt.alloc(), database.as_str())?;
    let mut file = OpenOptions::new()
        .read(true)
        .write(true)
        .create(true)
        .mode(0o600)
        .open(rt, database.as_str())
        .map_err(of_copy)?;
    // what is meant for a standard stream that was closed must not land in the copy
    if file.as_raw_fd() <= 2 {
        file = file.try_clone().map_err(of_copy)?;
    }
    if file.try_lock().is_err() {
        return Err(CopyFault::Copy(Some(Because::Busy)));
    }
    if !is_claimed(rt, &file, database.as_str(), kept)? {
        return Err(CopyFault::Copy(None));
    }
    Ok(Parts {
        database,
        log,
        file,
    })
}

/// Why a copy does not open: what was copied is no database, or what it was copied to fails.
fn fault_of(error: Error) -> CopyFault {
    let because = Because::of_rows(&error);
    match (error, because) {
        (Error::SqliteFailure(ErrorCode::OutOfMemory), _) => CopyFault::Memory,
        (_, Some(Because::NoDatabase | Because::Damaged)) => CopyFault::Desk(because),
        _ => CopyFault::Copy(because),
    }
}

/// The database that was copied, with what its log holds.
fn open_copy(
    rt: &HostRuntime,
    parts: &Parts,
) -> Result<Connection<FileStore<FileFrom<Wary>>>, CopyFault> {
    match Connection::open_from(rt, parts.database.as_str(), false, Wary) {
        Ok(store) => Ok(store),
        Err((error, _)) => Err(fault_of(error)),
    }
}

/// Fails where no desk opens over these rows.
fn judge(alloc: Global, image: &Image) -> Result<(), CopyFault> {
    match records_of(alloc, image) {
        Ok(_) => Ok(()),
        Err(Refusal::Memory) => Err(CopyFault::Memory),
        Err(_) => Err(CopyFault::Desk(Some(Because::Damaged))),
    }
}

/// The line that tells of a copy with these rows: how many requests were entered, and which was the last move.
fn line_of(alloc: Global, image: &Image) -> Result<String, CopyFault> {
    let entered = image.requests.len();
    let Some(last) = image.moves.as_slice().last() else {
        return Ok(format!(in alloc; "copied {entered} requests, no move\n")?);
    };
    let (number, seconds) = (last.seq, last.moment.get());
    let line = match Timestamp::from_second(i64::from(seconds)) {
        Ok(instant) => {
            format!(in alloc; "copied {entered} requests, last move {number} at {instant}\n")
        }
        Err(_) => format!(in alloc; "copied {entered} requests, last move {number} at {seconds}\n"),
    };
    Ok(line?)
}

/// The line that tells of a copy with these tables, where a desk opens over them.
fn told_by<S: Alter + Drop>(
    alloc: Global,
    tables: &mut Tables<S>,
    version: Version,
) -> Result<String, CopyFault> {
    let image = match tables.load(version) {
        Ok(image) => image,
        Err(ReadFault::Sqlite(error)) => return Err(fault_of(error)),
        Err(ReadFault::Damaged) => return Err(CopyFault::Desk(Some(Because::Damaged))),
    };
    judge(alloc, &image)?;
    line_of(alloc, &image)
}

/// Opens the copy as a desk is opened, of which nothing is written, and brings its log into its file. Gives the line that tells of it.
fn checked(rt: &HostRuntime, parts: &Parts) -> Result<String, CopyFault> {
    let store = open_copy(rt, parts)?;
    let (mut tables, version) = match Tables::open(rt.alloc(), store) {
        Ok(found) => found,
        Err((StoreFault::Memory, _)) => return Err(CopyFault::Memory),
        Err((_, mut store)) => return Err(CopyFault::Desk(Some(why_foreign(&mut store)))),
    };
    let line = told_by(rt.alloc(), &mut tables, version)?;
    let store = tables.into_connection();
    store.close().map_err(fault_of)?;
    Ok(line)
}

/// The folder of a file that is there, open.
fn open_folder(rt: &HostRuntime, path: &str) -> io::Result<File> {
    let mut folder = fs::canonicalize(rt, path)?;
    folder.pop();
    File::open(rt, folder.as_str())
}

/// Gives a copy that was checked the mode of the desk's file, and its name: by one call, behind which the whole desk stands there.
fn name_copy(rt: &HostRuntime, copy: &str, kept: &Kept, parts: &Parts) -> io::Result<()> {
    let mode = fs::metadata(rt, kept.database.as_str())?.mode();
    parts
        .file
        .set_permissions(Permissions::from_mode(mode & 0o777))?;
    parts.file.sync_all()?;
    let folder = open_folder(rt, parts.database.as_str())?;
    fs::rename(rt, parts.database.as_str(), copy)?;
    folder.sync_all()
}

/// Makes the copy, and gives it its name. Gives the line that tells of it.
fn make(rt: &HostRuntime, copy: &str, kept: &Kept, parts: &mut Parts) -> Result<String, CopyFault> {
    copy_files(rt, kept, parts)?;
    let line = checked(rt, parts)?;
    forget(rt, parts.log.as_str())?;
    refuse_taken(rt, copy)?;
    name_copy(rt, copy, kept, parts).map_err(of_copy)?;
    Ok(line)
}

/// Copies the desk that a file keeps, and says of the copy how many requests were entered and which was its last move. The desk may be open: nothing of it is
/// written or locked. A copy that fails, or is killed, leaves nothing under its name.
pub fn backup(rt: &HostRuntime, file: &str, copy: &str) -> Result<(), CopyFault> {
    let kept = find(rt, file)?;
    refuse_journal(rt, &kept)?;
    refuse_taken(rt, copy)?;
    refuse_own(rt, copy, &kept)?;
    let mut parts = claim(rt, copy, &kept)?;
    match make(rt, copy, &kept, &mut parts) {
        Ok(line) => {
            let mut writer = Counted::new(io::writer(rt));
            Ok(put(&mut writer, line.as_bytes())?)
        }
        Err(fault) => {
            let _ = forget(rt, parts.log.as_str());
            let _ = forget(rt, parts.database.as_str());
            Err(fault)
        }
    }
}
