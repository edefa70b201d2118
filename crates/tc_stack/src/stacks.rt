//! A stack: requests that are entered together, in order.
ghost use Rattle.std.specs.Prelude.{◌≡◌};
ghost use Rattle.tc_stack.specs.Stacks.{IsStack, at_line};

use std::marker::Model;
use tc_types::Entry;

/// A row of a stack. Rows are numbered from 1: a line.
#[derive(Clone, Copy, Debug, PartialEq, Eq)]
pub struct StackRow {
    /// What is entered. Where its command names a request, it is the line of one here.
    pub entry: Entry,
    /// The line that has to be completed before this one may be released, if there is one.
    pub after: Option<u32>,
}

/// A stack: 1 to 200 rows, in order, each of which names earlier lines only. A contract sees it as the list of them.
#[derive(Debug, Drop)]
pub struct Stack {
    rows: Vec<StackRow>,
}

impl Model for Stack {
    ghost use Rattle.std.specs.Prelude.{List};
    ghost use Rattle.tc_stack.specs.declared.stacks.StackRow.{StackRow as SomeRow};
    ghost use Rattle.tc_stack.specs.Stacks.{IsStack};

    ghost Value = { List SomeRow };

    ghost view = { λ s. s.rows.items };

    ghost invariant = { λ s. IsStack s.rows.items };
}

/// The row on a line, if there is such a line.
pub fn row_at(rows: &[StackRow], line: u32) -> Option<StackRow>
    ensures { result ≡ at_line rows.now line }
{
    if line == 0 {
        return None;
    }
    rows.get(line as usize - 1).copied()
}

impl Stack {
    /// A stack with these rows.
    pub fn of(rows: Vec<StackRow>) -> Stack
        requires { IsStack rows.items }
        ensures { result ≡ rows.items }
    {
        Stack { rows }
    }

    /// The rows, in order.
    pub fn rows(&self) -> &[StackRow]
        ensures value { result.now ≡ self.now }
        ensures sound { IsStack result.now }
    {
        self.rows.as_slice()
    }
}
