//! Courses of one lost frame, of the limit, of the timer and of a full buffer, where K fits or not: after each act K has
//! fitted or not, and the last start was level or not.
use super::rings::rings_within;
use super::{Act, CHECK, START, STOP, check, check_at, event, lists};
use crate::links::Link;
use std::alloc::Global;
use std::process::Abort;
use std::test::Fail;
use tc_farm::FarmState;
use tc_fop::signals::{AlertKind, FopState};
use tc_types::Directive;

/// Acts in a row: none but the last tells an alert, and the last tells this one, or none.
type Part = (&'static [Act], Option<AlertKind>);

/// Acts with this K and this W.
#[derive(Clone, Copy)]
struct Course {
    k: u8,
    window: u16,
    parts: &'static [Part],
    /// Whether K fits from the making of the world on.
    fits: bool,
    /// Whether the start is level.
    level: bool,
    /// Whether the FARM is in Lockout at the end, and the state of the FOP.
    end: (bool, FopState),
    /// How many requests are confirmed at the end.
    confirmed: usize,
}

/// A control word is sent, and comes down.
const WORD: &[Act] = &[Act::Clcw, Act::Downlink];

/// After a start without check, two requests are offered.
const TWO: &[Act] = &[START, Act::Offer(1), Act::Offer(2)];

/// The same with four.
const FOUR: &[Act] = &[
    START,
    Act::Offer(1),
    Act::Offer(2),
    Act::Offer(3),
    Act::Offer(4),
];

/// The first of four frames is lost, and all are sent again.
const ONE_LOST: &[Part] = &[
    (FOUR, None),
    (&[Act::LoseUp(0), Act::Up, Act::Up, Act::Up], None),
    (WORD, None),
    (&[Act::Up, Act::Up, Act::Up, Act::Up], None),
    (WORD, None),
];

/// The first of two frames is lost, and none may be sent twice.
const AT_THE_LIMIT: &[Part] = &[
    (&[Act::Directive(Directive::SetLimit(1))], None),
    (TWO, None),
    (&[Act::LoseUp(0), Act::Up], None),
    (WORD, Some(AlertKind::Limit)),
];

/// A frame and its repetition are lost, and the timer ends twice.
const TIMER_ENDS: &[Part] = &[
    (&[Act::Directive(Directive::SetLimit(2))], None),
    (&[Act::Directive(Directive::SetT1(2)), CHECK], None),
    (WORD, None),
    (&[Act::Offer(1), Act::LoseUp(0)], None),
    (&[Act::Tick, Act::Tick, Act::LoseUp(0)], None),
    (&[Act::Tick, Act::Tick], Some(AlertKind::T1)),
];

/// No buffer is free for the first of two frames; one becomes free, and both are sent again.
const FULL_BUFFER: &[Part] = &[
    (TWO, None),
    (&[Act::Blocked, Act::Up], None),
    (WORD, None),
    (&[Act::Release], None),
    (WORD, None),
    (&[Act::Up, Act::Up], None),
    (WORD, None),
];

/// V(S) is not V(R), and the check tells it.
const NOT_LEVEL: &[Part] = &[
    (&[Act::Directive(Directive::SetVs(5)), CHECK], None),
    (WORD, Some(AlertKind::NnR)),
];

/// The service ends, in S1 and in S4.
const ENDS: &[Part] = &[
    (&[START, Act::Offer(1), Act::Up], None),
    (&[STOP], Some(AlertKind::Term)),
    (&[Act::Directive(Directive::SetVs(1)), CHECK], None),
    (&[STOP], Some(AlertKind::Term)),
];

/// Three frames are lost.
const THREE_LOST: &[Act] = &[Act::LoseUp(0), Act::LoseUp(0), Act::LoseUp(0)];

/// Four of five frames are lost: the fifth is past half of a window of eight.
const LOSES_FOUR: &[Part] = &[
    (FOUR, None),
    (&[Act::Offer(5)], None),
    (THREE_LOST, None),
    (&[Act::LoseUp(0), Act::Up], None),
    (WORD, Some(AlertKind::Lockout)),
];

/// The same where K is at most half: the fifth request waits, and no frame comes up.
const LOSES_FOUR_OF_FOUR: &[Part] = &[
    (FOUR, None),
    (&[Act::Offer(5)], None),
    (THREE_LOST, None),
    (&[Act::Up], None),
    (WORD, None),
];

/// A course in which K is half of the window and fits, the start is level, and the service ends with nothing confirmed: the
/// others say where they differ.
const FITS: Course = Course {
    k: 4,
    window: 8,
    parts: ENDS,
    fits: true,
    level: true,
    end: (false, FopState::Initial),
    confirmed: 0,
};

/// All courses.
const COURSES: &[Course] = &[
    Course {
        parts: ONE_LOST,
        end: (false, FopState::Active),
        confirmed: 4,
        ..FITS
    },
    Course {
        parts: AT_THE_LIMIT,
        ..FITS
    },
    Course {
        k: 1,
        window: 2,
        parts: TIMER_ENDS,
        ..FITS
    },
    Course {
        k: 127,
        window: 254,
        parts: FULL_BUFFER,
        end: (false, FopState::Active),
        confirmed: 2,
        ..FITS
    },
    Course {
        k: 10,
        window: 20,
        parts: NOT_LEVEL,
        level: false,
        ..FITS
    },
    FITS,
    Course {
        parts: LOSES_FOUR_OF_FOUR,
        end: (false, FopState::RetransmitWithoutWait),
        ..FITS
    },
    Course {
        k: 5,
        parts: LOSES_FOUR,
        fits: false,
        end: (true, FopState::Initial),
        ..FITS
    },
    Course {
        k: 5,
        parts: ONE_LOST,
        fits: false,
        end: (false, FopState::Active),
        confirmed: 4,
        ..FITS
    },
];

/// Checks what the link says of K and of its starts.
fn check_standing<L: Link>(rt: &impl Abort, link: &L, course: &Course) {
    check(rt, link.is_clean(), "clean");
    check(rt, link.has_fitted() == course.fits, "fits, or not");
    let is_level = course.level && link.sessions() > 0;
    check(rt, link.is_level() == is_level, "level, or not");
}

/// Makes an act happen, and says which alert it tells.
fn happens<L: Link>(
    rt: &impl Abort,
    link: &mut L,
    course: &Course,
    act: &Act,
) -> Result<Option<AlertKind>, Fail> {
    let told = link.alerts(event(rt, act))?;
    check_standing(rt, link, course);
    Ok(told)
}

/// Plays the part of a course at this place.
fn plays_part<L: Link>(
    rt: &impl Abort,
    link: &mut L,
    course: &Course,
    (place, (acts, alert)): (usize, &Part),
) -> Result<(), Fail> {
    let (last, others) = acts.split_last().expect(rt, "an act");
    for act in others {
        let told = happens(rt, link, course, act)?;
        check_at(rt, told.is_none(), "an alert within part", place);
    }
    let told = happens(rt, link, course, last)?;
    check_at(rt, told == *alert, "the alert at the end of part", place);
    Ok(())
}

/// Plays a course.
fn plays<L: Link>(rt: &impl Abort, link: &mut L, course: &Course) -> Result<(), Fail> {
    check_standing(rt, link, course);
    for part in course.parts.iter().enumerate() {
        plays_part(rt, link, course, part)?;
    }
    let is_locked = link.farm().state == FarmState::Lockout;
    let (locked, state) = course.end;
    check(rt, is_locked == locked, "locked, or not");
    check(rt, link.fop().state == state, "the state at the end");
    let session = link.written(0).expect(rt, "a session");
    let confirmed = session.confirmed.len();
    check_at(rt, confirmed == course.confirmed, "confirmed", confirmed);
    Ok(())
}

/// Plays a course over lists.
fn plays_over_lists(rt: &impl Abort, alloc: Global, course: &Course) -> Result<(), Fail> {
    let mut link = lists(alloc, course.k, course.window, 0)?;
    plays(rt, &mut link, course)
}

#[test]
fn says_whether_k_fitted_and_the_start_was_level(rt: HostRuntime) -> Result<(), Fail> {
    for course in COURSES {
        plays_over_lists(&rt, rt.alloc(), course)?;
    }
    Ok(())
}

/// Acts over rings that never fill.
fn plays_over_rings(rt: &impl Abort, alloc: Global, course: &Course) -> Result<(), Fail> {
    let mut link = rings_within(alloc, 4_096, course.k, 3, course.window)?;
    plays(rt, &mut link, course)
}

#[test]
fn says_the_same_over_rings_that_never_fill(rt: HostRuntime) -> Result<(), Fail> {
    for course in COURSES {
        plays_over_rings(&rt, rt.alloc(), course)?;
    }
    Ok(())
}

/// A setting of K, and whether K has fitted after it, in a window of eight.
const SETTINGS: &[(u8, bool)] = &[(4, true), (1, true), (4, true), (5, false), (4, false)];

/// K is set again and again: what did not fit once stays so.
fn sets<L: Link>(rt: &impl Abort, link: &mut L) -> Result<(), Fail> {
    for (k, fits) in SETTINGS {
        link.does(event(rt, &Act::Directive(Directive::SetK(*k))))?;
        check_at(rt, link.has_fitted() == *fits, "after K", usize::from(*k));
    }
    Ok(())
}

#[test]
fn says_whether_k_fitted_at_every_moment(rt: HostRuntime) -> Result<(), Fail> {
    let mut link = lists(rt.alloc(), 2, 8, 0)?;
    sets(&rt, &mut link)
}
