//! The first line of a reply.
use tc_types::{Identity, Name, RequestNumber};

/// What the first line of a reply says.
#[derive(Clone, Copy, Debug, PartialEq, Eq)]
pub enum First {
    /// `ok`.
    Plain,
    /// `ok request N APID/COUNT`: a request was entered.
    Entered {
        request: RequestNumber,
        identity: Identity,
    },
    /// `ok stack NAME ROWS FIRSTREQUEST`: a stack was loaded, and its first row became this request.
    Loaded {
        name: Name,
        rows: u32,
        first: RequestNumber,
    },
    /// `ok procedure NAME STEPS`: a procedure was loaded.
    ProcedureLoaded {
        name: Name,
        steps: u32,
    },
    /// `ok execution E`: an execution was begun.
    Begun {
        execution: u32,
    },
    /// `ok approvals I of M`: so many approved, and so many are wanted.
    Approvals {
        given: u8,
        wanted: u8,
    },
}
