//! Windows that fit: random events over every width W of the FARM's window, with K from 1 to W / 2, where each start is
//! good. After each event K fitted so far, the FARM is not in Lockout, and no alert came but one that may come.
use super::courses::{Dice, report};
use super::rings::{SIZES, rings};
use super::{UP, check, check_at, flies, lists, offer, skips};
use crate::links::Link;
use std::process::Abort;
use std::test::Fail;
use tc_farm::{FarmState, FarmView};
use tc_fop::FopView;
use tc_fop::signals::{AlertKind, FopState};
use tc_types::{Directive, Refusal};
use tc_world::Event;

/// Half of the widest window.
const WIDEST: u8 = 127;

/// For how many K a window is tried: each of them where it has no more.
const LEGS: u8 = 16;

/// How many events happen for each K, and the starts among them besides.
const EVENTS: u32 = 82;

/// What comes of a hundred events: offers, frames that come up with a buffer and without one, buffers that become free,
/// control words, what comes down, ticks, frames and control words that are lost, and reports.
type Pace = [u32; 10];

/// Steady, with a full window, with losses, with few buffers, and with a timer that ends.
const PACES: [Pace; 5] = [
    [30, 30, 1, 2, 14, 18, 2, 1, 1, 1],
    [68, 6, 1, 1, 9, 11, 2, 1, 0, 1],
    [30, 24, 1, 1, 14, 16, 5, 6, 2, 1],
    [24, 10, 14, 8, 16, 20, 6, 1, 0, 1],
    [22, 12, 1, 2, 8, 10, 36, 6, 2, 1],
];

/// How many alerts of how many states are counted.
const COUNTS: usize = 49;

/// What was seen: the alerts, by their kind and the state before them, the events, how often frames were sent again, how
/// often a window of more than 16 was full, and how many requests were confirmed.
#[derive(Drop)]
struct Tally {
    alerts: [u32; COUNTS],
    events: u32,
    again: u32,
    full: u32,
    confirmed: usize,
}

/// Where a course stands.
#[derive(Drop)]
struct Course {
    dice: Dice,
    /// The next request to be offered.
    next: u32,
    /// Which pace is on.
    pace: usize,
    /// Whether the last start was level.
    level: bool,
    tally: Tally,
}

/// Whether requests are taken in this state: S1 to S3.
fn is_taking(state: FopState) -> bool {
    match state {
        FopState::Active | FopState::RetransmitWithoutWait | FopState::RetransmitWithWait => true,
        FopState::InitialisingWithoutBc | FopState::InitialisingWithBc | FopState::Initial => false,
    }
}

/// Whether an alert of this kind may come in this state, where every start was good and K fitted.
fn may_alert(level: bool, state: FopState, kind: AlertKind) -> bool {
    match kind {
        AlertKind::Limit => is_taking(state),
        AlertKind::T1 | AlertKind::Term => state != FopState::Initial,
        AlertKind::Synch | AlertKind::NnR => !level && state == FopState::InitialisingWithoutBc,
        AlertKind::Lockout | AlertKind::Clcw => false,
    }
}

/// Where the alerts of a state are counted: those of S4 after a start that was not level apart.
fn row(level: bool, state: FopState) -> usize {
    match state {
        FopState::Active => 0,
        FopState::RetransmitWithoutWait => 7,
        FopState::RetransmitWithWait => 14,
        FopState::InitialisingWithoutBc if level => 21,
        FopState::InitialisingWithoutBc => 28,
        FopState::InitialisingWithBc => 35,
        FopState::Initial => 42,
    }
}

/// Where in its row an alert is counted.
fn column(kind: AlertKind) -> usize {
    match kind {
        AlertKind::Limit => 0,
        AlertKind::T1 => 1,
        AlertKind::Lockout => 2,
        AlertKind::Synch => 3,
        AlertKind::NnR => 4,
        AlertKind::Clcw => 5,
        AlertKind::Term => 6,
    }
}

impl Tally {
    /// Counts an alert.
    fn count(&mut self, level: bool, state: FopState, kind: AlertKind) {
        let place = row(level, state).saturating_add(column(kind));
        if let Some(count) = self.alerts.get_mut(place) {
            *count = count.saturating_add(1);
        }
    }

    /// Counts an event that left the FOP so, where it stood so before.
    fn follow(&mut self, before: &FopView, after: &FopView) {
        self.events = self.events.saturating_add(1);
        if is_taking(after.state) && after.count > before.count {
            self.again = self.again.saturating_add(1);
        }
        if after.k > 16 && after.sent >= after.k {
            self.full = self.full.saturating_add(1);
        }
    }

    /// How often it came.
    fn came(&self, level: bool, state: FopState, kind: AlertKind) -> u32 {
        let place = row(level, state).saturating_add(column(kind));
        self.alerts.get(place).copied().unwrap_or(0)
    }
}

impl Course {
    /// A course that begins with this state of its generator.
    fn new(seed: u64) -> Course {
        Course {
            dice: Dice::new(seed),
            next: 1,
            pace: 0,
            level: false,
            tally: Tally {
                alerts: [0; COUNTS],
                events: 0,
                again: 0,
                full: 0,
                confirmed: 0,
            },
        }
    }

    /// A random number of a frame.
    fn byte(&mut self) -> u8 {
        u8::try_from(self.dice.roll(256)).unwrap_or(0)
    }

    /// A random Transmission_Limit, 1 to 6.
    fn limit(&mut self) -> u8 {
        u8::try_from(self.dice.roll(6).saturating_add(1)).unwrap_or(1)
    }

    /// A random T1_Initial, 1 to 8.
    fn t1(&mut self) -> u16 {
        u16::try_from(self.dice.roll(8).saturating_add(1)).unwrap_or(1)
    }

    /// Another pace.
    fn turns_pace(&mut self) {
        self.pace = usize::try_from(self.dice.roll(5)).unwrap_or(0);
    }

    /// What happens next, by the pace that is on.
    fn pick(&mut self) -> usize {
        let mut left = self.dice.roll(100);
        let Some(pace) = PACES.get(self.pace) else {
            return 0;
        };
        for (place, weight) in pace.iter().enumerate() {
            if left < *weight {
                return place;
            }
            left = left.saturating_sub(*weight);
        }
        0
    }
}

/// Checks what stands between two events where K fits.
fn check_standing<L: Link>(rt: &impl Abort, link: &L, level: bool) {
    check(rt, link.is_clean(), "clean");
    check(rt, link.has_fitted(), "fits");
    let is_locked = link.farm().state == FarmState::Lockout;
    check(rt, !is_locked, "no lock-out");
    check(rt, link.is_level() == level, "level, or not");
}

/// Counts what an event told, where the FOP stood so before it: an alert has to be one that may come.
fn counts<L: Link>(
    rt: &impl Abort,
    link: &L,
    course: &mut Course,
    before: &FopView,
    alert: Option<AlertKind>,
) {
    let state = before.state;
    let level = course.level;
    if let Some(kind) = alert {
        let place = row(level, state).saturating_add(column(kind));
        check_at(rt, may_alert(level, state, kind), "an alert", place);
        course.tally.count(level, state, kind);
    }
    course.tally.follow(before, &link.fop());
    check_standing(rt, link, level);
}

/// An event happens, and what is claimed holds after it.
fn goes<L: Link>(
    rt: &impl Abort,
    link: &mut L,
    course: &mut Course,
    event: Event,
) -> Result<(), Fail> {
    let before = link.fop();
    let alert = link.alerts(event)?;
    counts(rt, link, course, &before, alert);
    Ok(())
}

/// A directive is carried out.
fn directs<L: Link>(
    rt: &impl Abort,
    link: &mut L,
    course: &mut Course,
    directive: Directive,
) -> Result<(), Fail> {
    goes(rt, link, course, Event::Directive(directive))
}

/// The next request is offered, and the FOP may refuse it.
fn offers_next<L: Link>(rt: &impl Abort, link: &mut L, course: &mut Course) {
    let before = link.fop();
    let alert = match link.alerts(offer(rt, course.next)) {
        Ok(alert) => {
            course.next = course.next.saturating_add(1);
            alert
        }
        Err(Refusal::WaitQueueFull) => None,
        Err(refusal) => {
            let is_stopped = refusal == Refusal::ServiceNotActive && !is_taking(before.state);
            check(
                rt,
                is_stopped,
                "an offer is refused where the service is on",
            );
            None
        }
    };
    counts(rt, link, course, &before, alert);
}

/// The event of a pick that is no offer.
fn event_at(rt: &impl Abort, dice: &mut Dice, place: usize) -> Event {
    match place {
        2 => Event::Uplink { free_buffer: false },
        3 => Event::Release,
        4 => Event::Clcw,
        5 => Event::Downlink,
        6 => Event::Tick,
        7 => Event::LoseUp(dice.place()),
        8 => Event::LoseDown(dice.place()),
        9 => Event::Put(report(rt)),
        _ => UP,
    }
}

/// All that is in flight arrives, some of it where no buffer is free.
fn drains<L: Link>(rt: &impl Abort, link: &mut L, course: &mut Course) -> Result<(), Fail> {
    let (frames, reports) = link.in_flight();
    for _ in 0..frames {
        let free_buffer = course.dice.roll(16) != 0;
        goes(rt, link, course, Event::Uplink { free_buffer })?;
    }
    for _ in 0..reports {
        goes(rt, link, course, Event::Downlink)?;
    }
    check(rt, flies(link, 0), "all arrived");
    Ok(())
}

/// How the next session starts, and which V(S) is set before: both sides agree where it starts without check.
fn start(farm: &FarmView, course: &mut Course) -> (Directive, u8) {
    let other = course.byte();
    match course.dice.roll(8) {
        0 | 1 if !farm.wait && !farm.retransmit => (Directive::InitiateNone, farm.vr),
        2 => (Directive::InitiateCheck, farm.vr),
        3 | 4 => (Directive::InitiateCheck, other),
        5 => (Directive::InitiateUnlock, farm.vr),
        6 if other < 128 => (Directive::InitiateUnlock, other),
        _ => (Directive::InitiateSetVr(other), farm.vr),
    }
}

/// Whether a start with nothing in flight is level: with check both sides have to agree.
fn is_level_start(farm: &FarmView, directive: &Directive, vs: u8) -> bool {
    let agree = vs == farm.vr && !farm.wait && !farm.retransmit;
    !matches!(directive, Directive::InitiateCheck) || agree
}

/// A good start: the service ends, all that is in flight arrives, and the next begins with another timer and limit.
fn restarts<L: Link>(rt: &impl Abort, link: &mut L, course: &mut Course) -> Result<(), Fail> {
    directs(rt, link, course, Directive::Terminate)?;
    drains(rt, link, course)?;
    let t1 = course.t1();
    directs(rt, link, course, Directive::SetT1(t1))?;
    let limit = course.limit();
    directs(rt, link, course, Directive::SetLimit(limit))?;
    let farm = link.farm();
    let (first, vs) = start(&farm, course);
    directs(rt, link, course, Directive::SetVs(vs))?;
    course.level = is_level_start(&farm, &first, vs);
    course.turns_pace();
    directs(rt, link, course, first)
}

/// One random event, and a start where the FOP stopped, and now and then where it did not.
fn turns<L: Link>(rt: &impl Abort, link: &mut L, course: &mut Course) -> Result<(), Fail> {
    if link.fop().state == FopState::Initial || course.dice.roll(250) == 0 {
        restarts(rt, link, course)?;
    }
    if course.dice.roll(60) == 0 {
        course.turns_pace();
        let limit = course.limit();
        directs(rt, link, course, Directive::SetLimit(limit))?;
    }
    match course.pick() {
        0 => offers_next(rt, link, course),
        place => {
            let event = event_at(rt, &mut course.dice, place);
            goes(rt, link, course, event)?;
        }
    }
    Ok(())
}

/// The K of a leg, from half of the window down to 1.
fn width(half: u8, leg: u8) -> u8 {
    let below = u16::from(half.saturating_sub(1)).saturating_mul(u16::from(leg));
    half.saturating_sub(u8::try_from(below / u16::from(LEGS - 1)).unwrap_or(0))
}

/// Counts the requests that were confirmed in all sessions.
fn counts_confirmed<L: Link>(link: &L, tally: &mut Tally) {
    for place in 0..link.sessions() {
        if let Some(session) = link.written(place) {
            tally.confirmed = tally.confirmed.saturating_add(session.confirmed.len());
        }
    }
}

/// Random events over a new link, whose window is twice this, for K from this down to 1, also within a session.
fn plays<L: Link>(
    rt: &impl Abort,
    link: &mut L,
    course: &mut Course,
    half: u8,
) -> Result<(), Fail> {
    course.next = 1;
    course.level = false;
    check_standing(rt, link, false);
    for leg in 0..LEGS {
        directs(rt, link, course, Directive::SetK(width(half, leg)))?;
        for _ in 0..EVENTS {
            turns(rt, link, course)?;
        }
    }
    counts_confirmed(link, &mut course.tally);
    Ok(())
}

/// What has to come, and how often: of S1, S2, S3, of S4 after a level start and after one that was not, and of S5.
const ENOUGH: [(bool, FopState, AlertKind, u32); 17] = [
    (true, FopState::Active, AlertKind::Limit, 90),
    (true, FopState::Active, AlertKind::T1, 50),
    (true, FopState::Active, AlertKind::Term, 100),
    (true, FopState::RetransmitWithoutWait, AlertKind::Limit, 80),
    (true, FopState::RetransmitWithoutWait, AlertKind::T1, 100),
    (true, FopState::RetransmitWithoutWait, AlertKind::Term, 100),
    (true, FopState::RetransmitWithWait, AlertKind::Limit, 9),
    (true, FopState::RetransmitWithWait, AlertKind::T1, 4),
    (true, FopState::RetransmitWithWait, AlertKind::Term, 8),
    (true, FopState::InitialisingWithoutBc, AlertKind::T1, 15),
    (true, FopState::InitialisingWithoutBc, AlertKind::Term, 3),
    (false, FopState::InitialisingWithoutBc, AlertKind::T1, 100),
    (false, FopState::InitialisingWithoutBc, AlertKind::Synch, 80),
    (false, FopState::InitialisingWithoutBc, AlertKind::NnR, 300),
    (false, FopState::InitialisingWithoutBc, AlertKind::Term, 20),
    (true, FopState::InitialisingWithBc, AlertKind::T1, 100),
    (true, FopState::InitialisingWithBc, AlertKind::Term, 100),
];

/// Checks that there were so many events, and that each alert which may come came.
fn check_enough(rt: &impl Abort, tally: &Tally) {
    for (level, state, kind, least) in ENOUGH {
        let is_enough = tally.came(level, state, kind) >= least;
        let place = row(level, state).saturating_add(column(kind));
        check_at(rt, is_enough, "too few of an alert", place);
    }
    check(rt, tally.events >= 166_667, "events");
    check(rt, tally.again > 1_000, "frames sent again");
    check(rt, tally.full > 9_000, "full windows");
    check_at(rt, tally.confirmed > 800, "confirmed", tally.confirmed);
}

#[test]
fn windows_that_fit_never_lock_over_lists(rt: HostRuntime) -> Result<(), Fail> {
    let mut course = Course::new(1);
    for half in 1..=WIDEST {
        let mut link = lists(rt.alloc(), half, u16::from(half) * 2, 0)?;
        plays(&rt, &mut link, &mut course, half)?;
    }
    check_enough(&rt, &course.tally);
    Ok(())
}

#[test]
fn windows_that_fit_never_lock_over_rings(rt: HostRuntime) -> Result<(), Fail> {
    let mut course = Course::new(2);
    for half in 1..=WIDEST {
        let size = SIZES[usize::from(half) % 5];
        let mut link = rings(rt.alloc(), size, half, u16::from(half) * 2)?;
        plays(&rt, &mut link, &mut course, half)?;
    }
    check_enough(&rt, &course.tally);
    Ok(())
}

#[test]
fn windows_that_fit_never_lock_over_links_that_skip(rt: HostRuntime) -> Result<(), Fail> {
    let mut course = Course::new(3);
    for half in 1..=WIDEST {
        let mut link = skips(rt.alloc(), half, u16::from(half) * 2)?;
        plays(&rt, &mut link, &mut course, half)?;
    }
    check_enough(&rt, &course.tally);
    Ok(())
}
