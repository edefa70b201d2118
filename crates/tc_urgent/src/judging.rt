//! Which kind of line a request has.
ghost use Rattle.std.specs.Prelude.{◌≡◌};
ghost use Rattle.tc_urgent.specs.Judging.{is_scheduled, kind_approved, kind_of, open_inserts, silent_places, since};
ghost use Rattle.tc_types.specs.Lawful.{final_places, is_among};

use crate::inserts;
use crate::kinds::UrgentKind;
use crate::locks::{is_locked, is_locked_forever};
use std::alloc::Allocator;
use tc_book::Records;
use tc_types::{Place, Request};

/// Whether a request that stands here has ended.
pub(crate) fn is_final(place: Option<Place>) -> bool
    ensures { result ≡ is_among final_places place }
{
    match place {
        Some(
            Place::Completed | Place::Failed | Place::Withdrawn | Place::Deleted | Place::Closed,
        ) => true,
        _ => false,
    }
}

/// Whether a request that stands here has no line, whenever it came there.
pub(crate) fn is_silent(place: Option<Place>) -> bool
    ensures { result ≡ is_among silent_places place }
{
    match place {
        Some(Place::Completed | Place::Withdrawn | Place::Deleted | Place::Closed) => true,
        _ => false,
    }
}

/// The kind of a request that waits for its release.
fn kind_approved<A: Allocator + Copy + Drop>(
    book: &Records<A>,
    inserts: &[Request],
    request: &Request,
) -> UrgentKind
    requires { inserts.now ≡ open_inserts book.now.book }
    ensures { result ≡ kind_approved book.now.book request.now }
{
    if is_locked_forever(book, request) {
        return UrgentKind::LockedForever;
    }
    match inserts::insert_of(inserts, request.number.get()) {
        Some(insert) => UrgentKind::ActivityOf {
            insert: insert.number.get(),
        },
        None => {
            if is_locked(book, request) {
                UrgentKind::Locked
            } else {
                UrgentKind::Free
            }
        }
    }
}

/// Whether the mirror has this request on board.
fn is_scheduled(scheduled: &[u32], n: u32) -> bool
    ensures { result ≡ is_scheduled scheduled.now n }
{
    scheduled.iter().any(|known| *known == n)
}

/// The kind of line of a request whose last move is `moved`; `None` if the request has ended, unless
/// it failed after the opening.
///
/// `inserts` are the open inserts of the book, `opened` moves stood at the opening, and the mirror
/// has `scheduled` on board.
pub(crate) fn kind_of<A: Allocator + Copy + Drop>(
    book: &Records<A>,
    inserts: &[Request],
    opened: usize,
    scheduled: &[u32],
    moved: u32,
    request: &Request,
) -> Option<UrgentKind>
    requires inserts { inserts.now ≡ open_inserts book.now.book }
    requires moved { moved ≡ since book.now.book.history request.now.number }
    ensures { result ≡ kind_of book.now.book opened scheduled.now request.now }
{
    match book.place_of(request.number.get())? {
        Place::Entered => Some(UrgentKind::Approval),
        Place::Approved => Some(kind_approved(book, inserts, request)),
        Place::Queued | Place::Sent | Place::Riding | Place::Accepted | Place::Started => Some(
            UrgentKind::Flying,
        ),
        Place::Confirmed => Some(UrgentKind::LostReport),
        Place::Scheduled => {
            if is_scheduled(scheduled, request.number.get()) {
                Some(UrgentKind::Flying)
            } else {
                Some(UrgentKind::LostReport)
            }
        }
        Place::Doubtful => Some(UrgentKind::InDoubt),
        Place::Failed => {
            if opened < moved as usize {
                Some(UrgentKind::FailedSince)
            } else {
                None
            }
        }
        Place::Completed | Place::Withdrawn | Place::Deleted | Place::Closed => None,
    }
}
