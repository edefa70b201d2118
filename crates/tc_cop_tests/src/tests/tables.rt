//! The cases of the table's cells as data.
use super::calls::Call;
use tc_fop::FopView;
use tc_fop::signals::{AlertKind, FopState};
use tc_types::Directive;

/// The state before a call. In S1 to S3 requests 1 and 2 are out under the numbers 0 and 1, and 3 waits.
#[derive(Clone, Copy)]
pub enum Start {
    /// S1, as first transmitted.
    S1,
    /// S2, after Retransmit.
    S2,
    /// S3, after Retransmit and Wait.
    S3,
    /// S4.
    S4,
    /// S5, after Unlock.
    S5,
}

/// S1 to S3.
pub const TAKING: &[Start] = &[Start::S1, Start::S2, Start::S3];

/// An indication by the number of its request.
#[derive(Clone, Copy)]
pub enum Indicated {
    /// Sent for the first time.
    Sent(u32),
    /// Confirmed.
    Confirmed(u32),
    /// Given back.
    Back(u32),
    /// In doubt.
    Doubt(u32),
    /// An alert.
    Alert(AlertKind),
    /// The service began.
    Started,
}

/// A frame by the number of its request.
#[derive(Clone, Copy)]
pub enum Flown {
    /// The frame of a request under a number.
    Ad(u8, u32),
    /// Unlock.
    Unlock,
}

/// Calls and what the last of them gives, from each of these states.
#[derive(Clone, Copy)]
pub struct Case {
    /// The row.
    pub row: &'static str,
    /// The states before the calls.
    pub starts: &'static [Start],
    /// The calls before the last.
    pub then: &'static [Call],
    /// The last call.
    pub call: Call,
    /// The frames that it puts out.
    pub frames: &'static [Flown],
    /// The indications that it puts out.
    pub indicated: &'static [Indicated],
    /// The variables after it.
    pub view: FopView,
}

/// In S1 to S3 before the call, but for the state.
pub const OUT: FopView = FopView {
    state: FopState::Active,
    vs: 2,
    nn: 0,
    sent: 2,
    waiting: 1,
    count: 1,
    timer: 10,
    k: 2,
    t1: 10,
    limit: 3,
};

/// In S2 after Retransmit, where all was sent twice.
const IN_S2: FopView = FopView {
    state: FopState::RetransmitWithoutWait,
    count: 2,
    ..OUT
};

/// In S3 after Retransmit and Wait, where all was sent once.
const IN_S3: FopView = FopView {
    state: FopState::RetransmitWithWait,
    ..OUT
};

/// In S4 before the call, but for the state.
pub const NONE_OUT: FopView = FopView {
    vs: 0,
    sent: 0,
    waiting: 0,
    ..OUT
};

/// After the service stopped in S1 or S3.
pub const STOPPED: FopView = FopView {
    state: FopState::Initial,
    sent: 0,
    waiting: 0,
    timer: 0,
    ..OUT
};

/// After the three requests were sent and confirmed.
const ALL_CONFIRMED: FopView = FopView {
    vs: 3,
    nn: 3,
    sent: 0,
    waiting: 0,
    timer: 0,
    ..OUT
};

/// A case of one call that puts nothing out: the others say where they differ.
const QUIET: Case = Case {
    row: "",
    starts: &[Start::S1],
    then: &[],
    call: Call::Report(0),
    frames: &[],
    indicated: &[],
    view: OUT,
};

/// A word that opens the service.
pub const BEGINS: &[Case] = &[Case {
    row: "P1",
    starts: &[Start::S4, Start::S5],
    call: Call::Report(0),
    indicated: &[Indicated::Started],
    view: FopView {
        timer: 0,
        ..NONE_OUT
    },
    ..QUIET
}];

/// Words that acknowledge what is out, and all of it later, and some of it.
pub const ACKNOWLEDGES: &[Case] = &[
    Case {
        row: "P2",
        starts: TAKING,
        call: Call::Report(2),
        frames: &[Flown::Ad(2, 3)],
        indicated: &[
            Indicated::Confirmed(1),
            Indicated::Confirmed(2),
            Indicated::Sent(3),
        ],
        view: FopView {
            vs: 3,
            nn: 2,
            sent: 1,
            waiting: 0,
            ..OUT
        },
        ..QUIET
    },
    Case {
        row: "P2, later",
        starts: TAKING,
        then: &[Call::Report(2)],
        call: Call::Report(3),
        indicated: &[Indicated::Confirmed(3)],
        view: ALL_CONFIRMED,
        ..QUIET
    },
    Case {
        row: "P6",
        starts: TAKING,
        call: Call::Report(1),
        frames: &[Flown::Ad(2, 3)],
        indicated: &[Indicated::Confirmed(1), Indicated::Sent(3)],
        view: FopView {
            vs: 3,
            nn: 1,
            waiting: 0,
            ..OUT
        },
        ..QUIET
    },
];

/// Words that acknowledge some of what is out, and ask for the rest again.
pub const LEFT: &[Case] = &[
    Case {
        row: "P8",
        starts: TAKING,
        then: &[Call::Direct(Directive::SetLimit(1))],
        call: Call::Again(1),
        indicated: &[
            Indicated::Confirmed(1),
            Indicated::Doubt(2),
            Indicated::Back(3),
            Indicated::Alert(AlertKind::Limit),
        ],
        view: FopView {
            nn: 1,
            limit: 1,
            ..STOPPED
        },
        ..QUIET
    },
    Case {
        row: "P9",
        starts: TAKING,
        call: Call::Again(1),
        frames: &[Flown::Ad(1, 2), Flown::Ad(2, 3)],
        indicated: &[Indicated::Confirmed(1), Indicated::Sent(3)],
        view: FopView {
            vs: 3,
            nn: 1,
            waiting: 0,
            ..IN_S2
        },
        ..QUIET
    },
    Case {
        row: "P10",
        starts: TAKING,
        call: Call::AgainWait(1),
        indicated: &[Indicated::Confirmed(1)],
        view: FopView {
            nn: 1,
            sent: 1,
            ..IN_S3
        },
        ..QUIET
    },
];

/// Words that acknowledge nothing and ask for all again, and the end of the timer.
pub const ALL_AGAIN: &[Case] = &[
    Case {
        row: "P11",
        starts: &[Start::S1, Start::S3],
        call: Call::Again(0),
        frames: &[Flown::Ad(0, 1), Flown::Ad(1, 2)],
        view: IN_S2,
        ..QUIET
    },
    Case {
        row: "P12",
        starts: &[Start::S1],
        call: Call::AgainWait(0),
        view: IN_S3,
        ..QUIET
    },
    Case {
        row: "P12",
        starts: &[Start::S2],
        call: Call::AgainWait(0),
        view: FopView { count: 2, ..IN_S3 },
        ..QUIET
    },
    Case {
        row: "P17",
        starts: &[Start::S1],
        call: Call::Ticks(10),
        frames: &[Flown::Ad(0, 1), Flown::Ad(1, 2)],
        view: FopView { count: 2, ..OUT },
        ..QUIET
    },
    Case {
        row: "P17",
        starts: &[Start::S2],
        call: Call::Ticks(10),
        frames: &[Flown::Ad(0, 1), Flown::Ad(1, 2)],
        view: FopView { count: 3, ..IN_S2 },
        ..QUIET
    },
    Case {
        row: "P17",
        starts: &[Start::S5],
        call: Call::Ticks(10),
        frames: &[Flown::Unlock],
        view: FopView {
            state: FopState::InitialisingWithBc,
            count: 2,
            ..NONE_OUT
        },
        ..QUIET
    },
];

/// Words that ask for all again, where all was sent as often as it may be.
pub const NO_MORE: &[Case] = &[
    Case {
        row: "P13",
        starts: &[Start::S1],
        then: &[Call::Direct(Directive::SetLimit(2)), Call::Ticks(10)],
        call: Call::Again(0),
        view: FopView { limit: 2, ..IN_S2 },
        ..QUIET
    },
    Case {
        row: "P13, after P12",
        starts: &[Start::S1],
        then: &[
            Call::Direct(Directive::SetLimit(2)),
            Call::Ticks(10),
            Call::AgainWait(0),
        ],
        call: Call::Again(0),
        view: FopView { limit: 2, ..IN_S2 },
        ..QUIET
    },
];

/// What is ignored in S1 to S3, where nothing is put out and the state stays.
pub const IGNORED: &[Case] = &[
    Case {
        row: "P1",
        starts: &[Start::S1],
        then: &[Call::Report(2), Call::Report(3)],
        call: Call::Report(3),
        view: ALL_CONFIRMED,
        ..QUIET
    },
    Case {
        row: "P5",
        starts: &[Start::S1],
        call: Call::Report(0),
        view: OUT,
        ..QUIET
    },
    Case {
        row: "P11",
        starts: &[Start::S2],
        call: Call::Again(0),
        view: IN_S2,
        ..QUIET
    },
    Case {
        row: "P12",
        starts: &[Start::S3],
        call: Call::AgainWait(0),
        view: IN_S3,
        ..QUIET
    },
    Case {
        row: "P13",
        starts: &[Start::S2],
        then: &[Call::Direct(Directive::SetLimit(2))],
        call: Call::Again(0),
        view: FopView { limit: 2, ..IN_S2 },
        ..QUIET
    },
    Case {
        row: "P17",
        starts: &[Start::S3],
        call: Call::Ticks(10),
        view: FopView { timer: 0, ..IN_S3 },
        ..QUIET
    },
];
