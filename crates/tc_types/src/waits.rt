//! What waits for a person.
ghost use Rattle.std.specs.Prelude.{◌≡◌};
ghost use Rattle.tc_types.specs.WaitingLines.{given, wanted};

use crate::names::Name;

/// How far an approval has come that is not complete.
#[derive(Clone, Copy, Debug, PartialEq, Eq)]
pub struct Wanting {
    /// Who entered or loaded what is to be approved, and so may not approve it.
    pub author: Name,
    /// Whether two persons have to approve it, and not one.
    pub critical: bool,
    /// Who approved it so far, if anybody did; one more, and it is approved.
    pub by: Option<Name>,
}

impl Wanting {
    /// How many persons approved so far.
    pub fn given(&self) -> u8
        ensures { result ≡ given self.now }
    {
        if self.by.is_some() { 1 } else { 0 }
    }

    /// How many are wanted.
    pub fn wanted(&self) -> u8
        ensures { result ≡ wanted self.now }
    {
        if self.critical { 2 } else { 1 }
    }
}

/// A line of a stack that has to be completed before a request is released.
#[derive(Clone, Copy, Debug, PartialEq, Eq)]
pub struct Lock {
    /// The stack.
    pub stack: Name,
    /// The line, from 1.
    pub line: u32,
}

/// What waits for a person.
#[derive(Clone, Copy, Debug, PartialEq, Eq)]
pub enum Waiting {
    /// A request that came by itself stands at Entered.
    Request {
        request: u32,
        approval: Wanting,
    },
    /// So many rows of a stack stand at Entered; which request is on its line 1.
    Stack {
        stack: Name,
        approval: Wanting,
        rows: u32,
        first: u32,
    },
    /// A request stands at Approved, and no interlock holds it.
    Free {
        request: u32,
    },
    /// A request stands at Approved, and is not released before this is completed.
    Locked {
        request: u32,
        lock: Lock,
    },
    /// A request stands at Doubtful.
    Doubtful {
        request: u32,
    },
    /// An execution has not ended: the step that comes next, and whether it wants a second person.
    Step {
        execution: u32,
        procedure: Name,
        step: u32,
        is_countersigned: bool,
    },
}
