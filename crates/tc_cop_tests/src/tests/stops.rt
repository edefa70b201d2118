//! What stops the service, and what S5 ignores, as data.
use super::calls::Call;
use super::tables::{Case, Indicated, NONE_OUT, STOPPED, Start, TAKING};
use tc_fop::FopView;
use tc_fop::signals::{AlertKind, FopState};
use tc_types::Directive;

/// In S5 before the call.
pub const IN_S5: FopView = FopView {
    state: FopState::InitialisingWithBc,
    ..NONE_OUT
};

/// What is ignored in S5, where the BC frame is not acknowledged yet: a row and a word of it.
pub const IGNORED_IN_S5: &[(&'static str, Call)] = &[
    ("P3", Call::Wait(0)),
    ("P4", Call::Again(0)),
    ("P14", Call::Report(1)),
    ("P15", Call::Lockout(0)),
];

/// All requests are given back with the alert Clcw.
const CLCW: &[Indicated] = &[
    Indicated::Doubt(1),
    Indicated::Doubt(2),
    Indicated::Back(3),
    Indicated::Alert(AlertKind::Clcw),
];

/// All requests are given back with the alert Synch.
const SYNCH: &[Indicated] = &[
    Indicated::Doubt(1),
    Indicated::Doubt(2),
    Indicated::Back(3),
    Indicated::Alert(AlertKind::Synch),
];

/// All requests are given back with the alert NnR.
const NN_R: &[Indicated] = &[
    Indicated::Doubt(1),
    Indicated::Doubt(2),
    Indicated::Back(3),
    Indicated::Alert(AlertKind::NnR),
];

/// All requests are given back with the alert Lockout.
const LOCKOUT: &[Indicated] = &[
    Indicated::Doubt(1),
    Indicated::Doubt(2),
    Indicated::Back(3),
    Indicated::Alert(AlertKind::Lockout),
];

/// All requests are given back with the alert T1.
const T1: &[Indicated] = &[
    Indicated::Doubt(1),
    Indicated::Doubt(2),
    Indicated::Back(3),
    Indicated::Alert(AlertKind::T1),
];

/// A row, the states before a call, the call, and its indications.
pub type Stop = (&'static str, &'static [Start], Call, &'static [Indicated]);

/// What stops the service in S1 to S3.
pub const STOPS: &[Stop] = &[
    ("P3", TAKING, Call::Wait(2), CLCW),
    ("P4", TAKING, Call::Again(2), SYNCH),
    ("P5", &[Start::S2, Start::S3], Call::Report(0), SYNCH),
    ("P7", TAKING, Call::Wait(1), CLCW),
    ("P14", TAKING, Call::Report(3), NN_R),
    ("P15", TAKING, Call::Lockout(1), LOCKOUT),
    ("P16", TAKING, Call::Invalid, CLCW),
];

/// The end of the timer, where all was sent as often as it may be.
pub const LIMITS: &[Case] = &[
    Case {
        row: "P18",
        starts: &[Start::S1, Start::S3],
        then: &[Call::Direct(Directive::SetLimit(1))],
        call: Call::Ticks(10),
        frames: &[],
        indicated: T1,
        view: FopView {
            limit: 1,
            ..STOPPED
        },
    },
    Case {
        row: "P18",
        starts: &[Start::S2],
        then: &[Call::Direct(Directive::SetLimit(1))],
        call: Call::Ticks(10),
        frames: &[],
        indicated: T1,
        view: FopView {
            count: 2,
            limit: 1,
            ..STOPPED
        },
    },
];
