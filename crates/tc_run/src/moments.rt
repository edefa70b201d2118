//! When the moves of a room were made.
use sqlite::Alter;
use tc_room::Room;
use tc_types::Moment;

/// When the last move was that a desk made.
pub fn last_moment<S: Alter + Drop>(room: &Room<S>) -> Option<Moment> {
    let moves = room.moves_past(0).ok()?;
    Some(moves.last()?.moment)
}

/// When the latest move was that a desk made.
pub fn latest_moment<S: Alter + Drop>(room: &Room<S>) -> Option<Moment> {
    let moves = room.moves_past(0).ok()?;
    let mut latest = moves.first()?.moment;
    for row in moves {
        if latest.get() < row.moment.get() {
            latest = row.moment;
        }
    }
    Some(latest)
}

/// Returns the later of two moments, if there is one.
pub fn later(one: Option<Moment>, other: Option<Moment>) -> Option<Moment> {
    match (one, other) {
        (Some(first), Some(second)) if second.get() < first.get() => Some(first),
        (first, None) => first,
        (_, second) => second,
    }
}
