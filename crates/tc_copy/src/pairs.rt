//! Whether a database file and what stands beside it are one desk's two files.
ghost use Rattle.std.specs.Prelude.{◌≡◌, ◌↔◌, true, false, IsTrue, None, Some};
ghost use Rattle.tc_copy.specs.declared.pairs.Unpaired.TheVariants.{Named, Unlogged, Unopened};
ghost use Rattle.tc_copy.specs.Pairs.{HasOneName, HaveOneName, IsPair, is_log_held};

use crate::marks::{LogMark, Marks};

/// Why a database file and what stands beside it are not one desk's two files.
#[derive(Clone, Copy, Debug, PartialEq, Eq)]
pub enum Unpaired {
    /// One of the two has another name too, beside which a log of its own may stand.
    Named,
    /// A program has the database file open, and its log does not stand beside it.
    Unlogged,
    /// A program has the log open, and with it another database file.
    Unopened,
}

/// Whether a log that is there has one name.
fn has_one_name(log: &Option<LogMark>) -> bool
    ensures { IsTrue result ↔ HasOneName log.now }
{
    match log {
        Some(log) => log.stamp.names == 1,
        None => true,
    }
}

/// Whether a log is there and a program holds it.
fn is_log_held(log: &Option<LogMark>) -> bool
    ensures { result ≡ is_log_held log.now }
{
    match log {
        Some(log) => log.is_held,
        None => false,
    }
}

/// Whether each of the two files has one name.
fn have_one_name(marks: &Marks) -> bool
    ensures { IsTrue result ↔ HaveOneName marks.now }
{
    marks.file.names == 1 && has_one_name(&marks.log)
}

/// Why these are not the marks of one desk's two files, if they are not. A second name is told before all else.
pub fn why_unpaired(marks: &Marks) -> Option<Unpaired>
    ensures paired { (result ≡ None) ↔ IsPair marks.now }
    ensures named { (result ≡ Some Named) ↔ ¬ HaveOneName marks.now }
    ensures unlogged { (result ≡ Some Unlogged) ↔ (HaveOneName marks.now × (marks.now.is_held ≡ true) × (is_log_held marks.now.log ≡ false)) }
    ensures unopened { (result ≡ Some Unopened) ↔ (HaveOneName marks.now × (marks.now.is_held ≡ false) × (is_log_held marks.now.log ≡ true)) }
{
    if !have_one_name(marks) {
        return Some(Unpaired::Named);
    }
    match (marks.is_held, is_log_held(&marks.log)) {
        (true, false) => Some(Unpaired::Unlogged),
        (false, true) => Some(Unpaired::Unopened),
        _ => None,
    }
}
