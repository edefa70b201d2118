//! Who is told, beside the answers, of what a run does.
ghost use Rattle.std.specs.Prelude.{◌≡◌, Bool};

use tc_types::{Moment, Refusal};

/// A line that was answered.
#[derive(Clone, Copy)]
pub struct Answered<'a> {
    /// Its number in the script, from 1.
    pub number: usize,
    pub line: &'a [u8],
    /// What it was refused with, if it was.
    pub refusal: Option<Refusal>,
    /// When the latest of the moves before it was, if there was one.
    pub last: Option<Moment>,
}

/// Who is told of a run. Nothing that is told here changes what the run does.
pub trait Watch {
    /// Whether each line is shown before its answer.
    ghost echoes: { Self → Bool };

    /// Whether each line is shown before its answer.
    fn echoes(&self) -> bool
        ensures { result ≡ echoes self.now };

    /// A desk was opened at a moment; its latest move was then, if there was one.
    fn opened(&self, moment: Moment, latest: Option<Moment>);

    /// A line was answered.
    fn answered(&self, told: &Answered<'_>);
}
