//! The marks of a desk's two files, and whether two readings of them are of one state.
ghost use Rattle.std.specs.Prelude.{◌≡◌, ◌⊎◌, ◌↔◌, IsTrue};
ghost use Rattle.tc_copy.specs.Copies.{CopiesMoment};
ghost use Rattle.tc_copy.specs.Marks.{IsOneState, IsSameFile, IsSameLog, Stands};

use crate::pairs::why_unpaired;

/// How the head of a log begins that stands. This byte is taken away before a log is emptied, and written last where one is begun.
const FIRST: u8 = 0x37;

/// Which file it is, how many names it has, how long it is, and when it was written last, as the system tells.
#[derive(Clone, Copy, Debug, PartialEq, Eq)]
pub struct FileStamp {
    pub device: u64,
    pub inode: u64,
    pub names: u64,
    pub size: u64,
    pub seconds: i64,
    pub nanoseconds: i64,
}

/// A log that is there: its stamp, whether a program holds it, and its first bytes, with zeros behind its end where it is shorter.
#[derive(Clone, Copy, Debug)]
pub struct LogMark {
    pub stamp: FileStamp,
    pub is_held: bool,
    pub head: [u8; 32],
}

/// What is read of a database file and its log, to tell whether the two belong together and the log was not emptied meanwhile. Held is a file that a
/// program has open as one of a desk's two, or may have, where the system does not tell.
#[derive(Clone, Copy, Debug)]
pub struct Marks {
    pub file: FileStamp,
    pub is_held: bool,
    pub log: Option<LogMark>,
}

/// Whether two stamps are of one file.
pub fn is_same_file(one: &FileStamp, other: &FileStamp) -> bool
    ensures { IsTrue result ↔ IsSameFile one.now other.now }
{
    one.device == other.device && one.inode == other.inode
}

/// Whether the head of a log stands.
fn stands(log: &LogMark) -> bool
    ensures { IsTrue result ↔ Stands log.now }
{
    log.head[0] == FIRST
}

/// Whether two marks are of a log that stands under one head.
fn is_same_log(before: &Marks, after: &Marks) -> bool
    ensures { IsTrue result ↔ IsSameLog before.now.log after.now.log }
{
    match (&before.log, &after.log) {
        (Some(one), Some(other)) => {
            is_same_file(&one.stamp, &other.stamp)
                && is_same_head(&one.head, &other.head)
                && stands(other)
        }
        _ => false,
    }
}

/// Whether two stamps are the same in all that they tell.
fn is_same_stamp(one: &FileStamp, other: &FileStamp) -> bool
    ensures { IsTrue result ↔ (one.now ≡ other.now) }
{
    one == other
}

/// Whether two heads are the same.
fn is_same_head(one: &[u8; 32], other: &[u8; 32]) -> bool
    ensures { IsTrue result ↔ (one.now ≡ other.now) }
{
    one == other
}

/// Whether two marks of logs are the same in all that they tell.
fn are_same_logs(one: &Option<LogMark>, other: &Option<LogMark>) -> bool
    ensures { IsTrue result ↔ (one.now ≡ other.now) }
{
    match (one, other) {
        (Some(one), Some(other)) => {
            is_same_head(&one.head, &other.head)
                && is_same_stamp(&one.stamp, &other.stamp)
                && one.is_held == other.is_held
        }
        (None, None) => true,
        _ => false,
    }
}

/// Whether two marks are the same in all that they tell.
fn are_same(before: &Marks, after: &Marks) -> bool
    ensures { IsTrue result ↔ (before.now ≡ after.now) }
{
    is_same_stamp(&before.file, &after.file)
        && before.is_held == after.is_held
        && are_same_logs(&before.log, &after.log)
}

/// Whether nothing was emptied between two marks.
fn is_unbroken(before: &Marks, after: &Marks) -> bool
    ensures { IsTrue result ↔ ((before.now ≡ after.now) ⊎ (IsSameFile before.now.file after.now.file × IsSameLog before.now.log after.now.log)) }
{
    are_same(before, after)
        || (is_same_file(&before.file, &after.file) && is_same_log(before, after))
}

/// Whether two marks are of one state.
fn are_of_one(before: &Marks, after: &Marks) -> bool
    ensures { IsTrue result ↔ IsOneState before.now after.now }
{
    why_unpaired(after).is_none() && is_unbroken(before, after)
}

/// Whether what was read of both files between two readings of their marks is of one state: the two belong together, and the log stands under one head,
/// or the marks are the same in all that they tell, so that nothing was written.
pub fn is_one_state(before: &Marks, after: &Marks) -> bool
    ensures told { IsTrue result ↔ IsOneState before.now after.now }
    ensures copied { IsTrue result → CopiesMoment before.now after.now }
{
    are_of_one(before, after)
}
