//! What a path of the desk names.

/// What is posted to the desk, each to a path of its own.
#[derive(Clone, Copy, Debug, PartialEq, Eq)]
pub enum Post {
    /// `/acts`: an act or a question.
    Acts,
    /// `/stacks`: a stack of requests.
    Stacks,
    /// `/procedures`: a procedure.
    Procedures,
}

/// A path that asks a question, with the texts in it, none of which is empty.
#[derive(Clone, Copy, Debug)]
pub enum Question<'a> {
    /// `/places`
    Places,
    /// `/requests/NUMBER`
    Request { number: &'a [u8] },
    /// `/history/REQUEST/AFTER`
    History { request: &'a [u8], after: &'a [u8] },
    /// `/report/FROM/TO`
    Report { from: &'a [u8], to: &'a [u8] },
    /// `/waiting`
    Waiting,
    /// `/urgent/FROM`
    Urgent { from: &'a [u8] },
    /// `/moves/AFTER`
    Moves { after: &'a [u8] },
    /// `/procedures/NAME`
    Procedure { name: &'a [u8] },
}

/// A path that the desk serves.
#[derive(Clone, Copy, Debug)]
pub enum Path<'a> {
    /// Something is posted to it.
    Posts(Post),
    /// It asks a question.
    Asks(Question<'a>),
    /// `/board`: it shows the wall.
    Wall,
    /// `/opening`: it tells how the desk was opened.
    Opening,
}
