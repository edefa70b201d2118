//! Script lines that load a file.
ghost use Rattle.std.specs.Prelude.{◌≡◌};
ghost use Rattle.tc_types.specs.Loads.{kind_word};

use crate::names::Name;
use crate::numbers::Moment;
use crate::persons::Person;
use crate::verbs::Verb;

/// What a file holds.
#[derive(Clone, Copy, Debug, PartialEq, Eq)]
pub enum LoadKind {
    /// A stack of requests.
    Stack,
    /// A procedure.
    Procedure,
}

impl LoadKind {
    /// Its word in a script line.
    pub fn word(self) -> &'static str
        ensures { result.now ≡ kind_word self }
    {
        match self {
            LoadKind::Stack => Verb::Stack.word(),
            LoadKind::Procedure => Verb::Procedure.word(),
        }
    }
}

/// A script line that loads a stack or a procedure: who loads which file under which name, and when.
#[derive(Clone, Copy, Debug, PartialEq, Eq)]
pub struct Load<'a> {
    /// When, as the line says: no clock is read.
    pub moment: Moment,
    /// Who.
    pub by: Person,
    /// What the file holds.
    pub kind: LoadKind,
    /// The name that the stack or the procedure gets.
    pub name: Name,
    /// Where its text is.
    pub path: &'a str,
}
