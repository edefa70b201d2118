//! The copying of a desk's two files while the desk may run: again and again, until both were read of one state.
ghost use Rattle.std.specs.Prelude.{◌≡◌, List, [], ◌∷◌, ◌++◌, IfOk, OnOk};
ghost use Rattle.tc_copy.specs.Asked.{Asked, looked, paused, reading_till, took_database, took_log};
ghost use Rattle.tc_copy.specs.Tries.{AreTries, IsTry};

use crate::marks::{Marks, is_one_state};
use crate::pairs::{Unpaired, why_unpaired};

/// How often it is tried to copy a desk.
pub const MOST_COPIES: u32 = 100;

/// A desk's two files, and what they are copied to. What is asked of it stands in a list.
pub trait DeskFiles {
    /// Why something could not be read or written.
    type Fault: Drop;

    /// This was asked between two states, in this order.
    ghost asks: { Self → List Asked → Self → Type 0 };

    /// Reads the marks of both files.
    fn marks(&mut self) -> Result<Marks, Self::Fault>
        ensures { IfOk result (λ marks. asks self.old (looked marks ∷ []) self.new) };

    /// Copies the database file to its end, in place of what was copied of it before.
    fn take_database(&mut self) -> Result<(), Self::Fault>
        ensures { OnOk result (asks self.old (took_database ∷ []) self.new) };

    /// Copies the log from its front to its end, or that there is none, in place of what was copied of it before.
    fn take_log(&mut self) -> Result<(), Self::Fault>
        ensures { OnOk result (asks self.old (took_log ∷ []) self.new) };

    /// Waits for a while.
    fn pause(&mut self)
        ensures { asks self.old (paused ∷ []) self.new };

    ghost nothing: { (files : Self) → asks files [] files };

    ghost joined: { (one two three : Self) (first then : List Asked) → asks one first two → asks two then three → asks one (first ++ then) three };
}

/// What became of one reading of both files.
#[derive(Clone, Copy, Debug, PartialEq, Eq)]
pub enum Reading {
    /// They were read of one state.
    Whole,
    /// The log was emptied meanwhile.
    Torn,
    /// They are not one desk's two files.
    Unpaired(Unpaired),
}

/// What became of a reading of both files between these marks, the first of which are a pair's.
fn judged(before: &Marks, behind: &Marks) -> Reading
    ensures { IsTry result (looked before.now ∷ reading_till behind.now) }
{
    if is_one_state(before, behind) {
        return Reading::Whole;
    }
    match why_unpaired(behind) {
        Some(why) => Reading::Unpaired(why),
        None => Reading::Torn,
    }
}

/// Copies the database file and then its log, and looks whether both were read of one state.
fn copy_once<D: DeskFiles>(files: &mut D) -> Result<Reading, D::Fault>
    ensures { IfOk result (λ reading. (asked : List Asked) × D.asks files.old asked files.new × IsTry reading asked) }
{
    let before = files.marks()?;
    if let Some(why) = why_unpaired(&before) {
        return Ok(Reading::Unpaired(why));
    }
    files.take_database()?;
    files.take_log()?;
    let behind = files.marks()?;
    Ok(judged(&before, &behind))
}

/// Copies the database file and then its log, until both were read of one state. What is copied then is a moment of the desk: it recovers as the
/// desk's own files would, had the desk crashed at some moment between the two looks at the marks. A program that opens the desk holds one file
/// before the other, so that is looked at again, too.
///
/// # Errors
///
/// Those of the files.
pub fn copy_files<D: DeskFiles>(files: &mut D) -> Result<Reading, D::Fault>
    ensures { IfOk result (λ reading. (asked : List Asked) × D.asks files.old asked files.new × AreTries 100 reading asked) }
{
    let mut reading = Reading::Torn;
    for tried in 0..MOST_COPIES {
        reading = copy_once(files)?;
        if reading == Reading::Whole {
            return Ok(reading);
        }
        files.pause();
    }
    Ok(reading)
}
