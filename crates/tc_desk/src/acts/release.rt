//! The act `release`: an approved request leaves the desk.
ghost use Rattle.std.specs.Prelude.{◌≡◌, ◌+◌, ◌≤◌, ◌||◌, true, false, IfErr, IfOk, None, Some, [], ◌∷◌};
ghost use Rattle.std.specs.List.{list_any};
ghost use Rattle.tc_types.specs.Limits.{most_requests};
ghost use Rattle.tc_types.specs.declared.acts.Act.TheVariants as act;
ghost use Rattle.tc_types.specs.declared.acts.LinkAct.TheVariants as link_act;
ghost use Rattle.tc_types.specs.declared.history.places.Place.TheVariants.{Approved};
ghost use Rattle.tc_board.specs.Mirror.{MirrorState, no_mirror};
ghost use Rattle.tc_book.specs.Acts.{first_refusal};
ghost use Rattle.tc_book.specs.Book.{stands, request_at, has_all_rows};
ghost use Rattle.tc_book.specs.Good.{IsGoodBook};
ghost use Rattle.tc_book.specs.Stacks.{is_interlocked};
ghost use Rattle.tc_fop.specs.Calls.{is_taking};
ghost use Rattle.tc_desk.specs.Acts.{link_tests, released};
ghost use Rattle.tc_desk.specs.Asks.{brings_down, offer_at};
ghost use Rattle.tc_desk.specs.Commands.{activities_at, may_not_ride};
ghost use Rattle.tc_desk.specs.Effects.{MayHold, OnlyMoves, riding, heard_all, tells_report};
ghost use Rattle.tc_desk.specs.Parts.{Performs};

use crate::commands::{activities_at, payload_of};
use crate::flights::{Flight, MOST_TOLD, ask, most_rows};
use crate::hearing::hear_all;
use crate::moving::follow;
use crate::parts::Parts;
use std::alloc::Allocator;
use tc_book::{Records, Stamp};
use tc_fop::FopView;
use tc_fop::signals::FopState;
use tc_types::{Cause, Frame, Place, Refusal, Report, RequestNumber, Targets};
use tc_world::{Carrier, Event, LinkIndication};

/// The most rows that a release makes beside those of what the link tells of those that ride already: its own, and two for each of its
/// activities, which may come back at once.
const MOST_RELEASED: usize = 17;

/// A request that may be released.
#[derive(Drop)]
pub(crate) struct Departure {
    /// The request.
    pub(crate) number: RequestNumber,
    /// How it is offered to the FOP.
    pub(crate) event: Event,
    /// The activities that ride with it, where it is an insert.
    pub(crate) activities: Targets,
}

/// The service takes requests in S1, S2 and S3.
fn is_taking(state: FopState) -> bool
    ensures { result ≡ is_taking state }
{
    matches!(
        state,
        FopState::Active | FopState::RetransmitWithoutWait | FopState::RetransmitWithWait
    )
}

/// Whether one of these activities waits for a line of its stack that is not completed.
fn has_locked_activity<A: Allocator + Copy + Drop>(records: &Records<A>, activities: &[u32]) -> bool
    ensures { result ≡ list_any (is_interlocked records.now.book) activities.now }
{
    activities
        .iter()
        .any(|target| records.is_interlocked(*target))
}

/// Whether a request waits so, or one of the activities that ride with it.
fn is_locked<A: Allocator + Copy + Drop>(records: &Records<A>, n: u32, activities: &[u32]) -> bool
    ensures { result ≡ (is_interlocked records.now.book n || list_any (is_interlocked records.now.book) activities.now) }
{
    records.is_interlocked(n) || has_locked_activity(records, activities)
}

/// Whether one of these activities may not ride: it is not approved.
fn has_bad_activity<A: Allocator + Copy + Drop>(records: &Records<A>, activities: &[u32]) -> bool
    ensures { result ≡ list_any (may_not_ride records.now.book) activities.now }
{
    activities
        .iter()
        .any(|target| !records.stands(*target, &[Place::Approved]))
}

/// The departure of request `n`; or why it may not be released, where the FOP stands so.
pub(crate) fn prepare<A: Allocator + Copy + Drop>(
    records: &Records<A>,
    view: FopView,
    n: u32,
) -> Result<Departure, Refusal>
    ensures refused { IfErr result (λ refusal. first_refusal (link_tests records.now.book view 0 0 (link_act.Release n)) ≡ Some refusal) }
    ensures free { IfOk result (λ departure. first_refusal (link_tests records.now.book view 0 0 (link_act.Release n)) ≡ None) }
    ensures number { IfOk result (λ departure. departure.number ≡ n) }
    ensures event { IfOk result (λ departure. offer_at records.now.book n (request_at records.now.book n) ≡ Some departure.event) }
    ensures quiet { IfOk result (λ departure. brings_down departure.event ≡ false) }
    ensures activities { IfOk result (λ departure. departure.activities ≡ activities_at records.now.book n) }
    ensures here { IfOk result (λ departure. stands records.now.book n (Approved ∷ []) ≡ true) }
    ensures rows { IfOk result (λ departure. has_all_rows records.now.book ≡ false) }
{
    let number = records.number_of(n).ok_or(Refusal::UnknownRequest)?;
    let request = records.request(n).ok_or(Refusal::UnknownRequest)?;
    if records.stands(n, &[Place::Entered]) {
        return Err(Refusal::NotApproved);
    }
    if !records.stands(n, &[Place::Approved]) {
        return Err(Refusal::WrongPlace);
    }
    let activities = activities_at(records, n);
    if is_locked(records, n, activities.as_slice()) {
        return Err(Refusal::Interlock);
    }
    if has_bad_activity(records, activities.as_slice()) {
        return Err(Refusal::BadActivity);
    }
    if !is_taking(view.state) {
        return Err(Refusal::ServiceNotActive);
    }
    if view.waiting != 0 {
        return Err(Refusal::WaitQueueFull);
    }
    if records.has_all_rows() {
        return Err(Refusal::DeskFull);
    }
    let event = Event::Offer {
        request: number,
        body: payload_of(records, &request.body),
    };
    Ok(Departure {
        number,
        event,
        activities,
    })
}

/// The most rows that the release of a request makes.
pub(crate) fn most_departing<A: Allocator + Copy + Drop>(records: &Records<A>) -> usize
    ensures rows { result ≡ MOST_RELEASED + MOST_TOLD + riding records.now.book }
    ensures few { result ≤ MOST_RELEASED + MOST_TOLD + most_requests }
    ensures good { IsGoodBook records.now.book }
{
    MOST_RELEASED + most_rows(records)
}

/// A request that was offered leaves the desk: its row, those of the activities that ride with it, and those of what the link told.
pub(crate) fn depart<A: Allocator + Copy + Drop>(
    records: &mut Records<A>,
    stamp: &Stamp,
    number: RequestNumber,
    activities: &[u32],
    said: &[LinkIndication],
)
    requires room { MayHold records.old (heard_all stamp.now no_mirror said.now (released stamp.now (link_act.Release number) records.old.book)) }
    requires no_report { list_any tells_report said.now ≡ false }
    requires here { stands records.old.book number (Approved ∷ []) ≡ true }
    requires ride { activities.now ≡ activities_at records.old.book number }
    ensures book { (mirror : MirrorState) → records.new.book ≡ heard_all stamp.now mirror said.now (released stamp.now (link_act.Release number) records.old.book) }
    ensures only { OnlyMoves records.old records.new }
{
    records.record(*stamp, number, Place::Queued, Cause::Release);
    let from = [Place::Approved];
    let why = Cause::Release;
    follow(records, stamp, activities, &from, Place::Riding, why);
    hear_all(records, stamp, said);
}

impl<U: Carrier<Frame> + Drop, D: Carrier<Report> + Drop, A: Allocator + Copy + Drop> Parts<
    U,
    D,
    A,
> {
    /// Releases a request: it is offered to the FOP.
    pub(crate) fn release(&mut self, stamp: Stamp, n: u32) -> Result<Flight<A>, Refusal>
        ensures { Performs U.kind D.kind self.old stamp (act.Link (link_act.Release n)) self.new result }
    {
        let Departure {
            number,
            event,
            activities,
        } = prepare(&self.records, self.world.fop_view(), n)?;
        let most = most_departing(&self.records);
        let flight = ask(&mut self.records, &mut self.world, self.alloc, event, most)?;
        depart(
            &mut self.records,
            &stamp,
            number,
            activities.as_slice(),
            flight.said.as_slice(),
        );
        Ok(flight)
    }
}
