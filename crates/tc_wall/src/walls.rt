//! What the wall shows.
use crate::links::LinkLines;
use tc_types::{ListedActivity, Moment, Move, PLACES, Place, Request, StepText, Waiting};
use tc_urgent::UrgentLine;

/// The most requests that are shown.
pub const MOST_OPEN: usize = 200;

/// The most lines of what is open that are shown.
pub const MOST_LINES: usize = 150;

/// How many kinds of lines there are.
pub const KINDS: usize = 10;

/// The most activities that are shown.
pub const MOST_SHOWN_ACTIVITIES: usize = 64;

/// The most moves that are shown.
pub const MOST_MOVES: usize = 50;

/// The most moves of a request that its bar shows.
pub const MOST_STAGES: usize = 12;

/// A line of what is open, and what the board says beside it.
#[derive(Clone, Copy, Debug)]
pub struct UrgentRow {
    /// The line.
    pub line: UrgentLine,
    /// Whether it is critical: two persons approve it.
    pub critical: bool,
    /// What it waits for, and by whom; `None` if it waits for no person.
    pub waiting: Option<Waiting>,
    /// The text of the next step of an execution; `None` of all else.
    pub text: Option<StepText>,
}

/// The way of a request that is open.
#[derive(Clone, Copy, Debug)]
pub struct Way<'a> {
    /// What was entered.
    pub request: Request,
    /// Where it stands.
    pub place: Place,
    /// Its moves, the last behind. At most the last `MOST_STAGES` are drawn.
    pub moves: &'a [Move],
    /// How many moves it has.
    pub moved: usize,
}

/// The on-board schedule, as the reports that were read tell it.
#[derive(Clone, Copy, Debug)]
pub struct ShownSchedule<'a> {
    /// Whether it is enabled.
    pub enabled: bool,
    /// Its activities. At most the first `MOST_SHOWN_ACTIVITIES` are shown.
    pub activities: &'a [ListedActivity],
    /// How many there are.
    pub laid_in: usize,
}

/// How a desk was opened.
#[derive(Clone, Copy, Debug)]
pub struct Opening {
    /// When.
    pub since: Moment,
    /// How many moves stood then.
    pub stood: usize,
}

/// What is told of a desk that is open.
#[derive(Clone, Copy, Debug)]
pub struct Live<'a> {
    /// How the link stands.
    pub link: LinkLines,
    /// The on-board schedule.
    pub schedule: ShownSchedule<'a>,
}

/// What the wall shows of a desk.
#[derive(Clone, Copy, Debug)]
pub struct Wall<'a> {
    /// How many requests were entered.
    pub entered: u32,
    /// How many stand at each place.
    pub counts: &'a [u32; PLACES],
    /// What is open, most urgent first. At most the first `MOST_LINES` are shown.
    pub urgent: &'a [UrgentRow],
    /// How many lines there are.
    pub lines: usize,
    /// How many lines of each kind are not shown, by rank.
    pub left: &'a [usize; KINDS],
    /// How many requests failed after the opening.
    pub failed: usize,
    /// How an open desk was opened; `None` of a file that nobody has open.
    pub opening: Option<Opening>,
    /// What is told of an open desk; `None` of a file that nobody has open.
    pub live: Option<Live<'a>>,
    /// The requests that are open, most urgent first. At most the first `MOST_OPEN` are shown.
    pub ways: &'a [Way<'a>],
    /// How many are open.
    pub opened: usize,
    /// The moves of the whole history, the last behind. At most the last `MOST_MOVES` are shown.
    pub moves: &'a [Move],
    /// How many moves there are.
    pub moved: usize,
}
