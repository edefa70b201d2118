//! A link as a test sees it.
use std::alloc::Allocator;
use tc_farm::FarmView;
use tc_fop::signals::AlertKind;
use tc_fop::{FopView, signals};
use tc_types::{Frame, Refusal, Report, RequestNumber};
use tc_world::{Carrier, Event, LinkIndication, RunEnd, World};

/// What is written down of a session.
#[derive(Clone, Copy, PartialEq, Eq)]
pub struct Written<'a> {
    /// The requests that were sent, in order.
    pub sent: &'a [RequestNumber],
    /// The requests that the FARM accepted, in order.
    pub accepted: &'a [RequestNumber],
    /// The requests that the FOP confirmed, in order.
    pub confirmed: &'a [RequestNumber],
}

/// The alert, where the FOP tells one.
fn alert_of(told: &signals::Indication) -> Option<AlertKind> {
    match *told {
        signals::Indication::Alert(kind) => Some(kind),
        signals::Indication::Sent(_)
        | signals::Indication::Confirmed(_)
        | signals::Indication::GivenBack(_)
        | signals::Indication::InDoubt(_)
        | signals::Indication::Started => None,
    }
}

/// The last alert among what is told, where there is one.
fn alert_in(told: &[LinkIndication]) -> Option<AlertKind> {
    let mut last = None;
    for one in told {
        if let LinkIndication::Fop(told) = one {
            last = alert_of(told).or(last);
        }
    }
    last
}

/// A world, of which nothing is promised here: what a test does with it needs no proof but that of its own loops and
/// indexes, whatever the links of the world are.
pub trait Link {
    /// Makes an event happen.
    fn does(&mut self, event: Event) -> Result<(), Refusal>;

    /// Makes an event happen, and says whether the link tells exactly this of it.
    fn tells(&mut self, event: Event, told: &[LinkIndication]) -> Result<bool, Refusal>;

    /// Makes an event happen, and says which alert the link tells of it, where it tells one.
    fn alerts(&mut self, event: Event) -> Result<Option<AlertKind>, Refusal>;

    /// Makes events happen, up to the first that is refused.
    fn does_all(&mut self, events: &[Event]) -> RunEnd;

    /// Takes the room of so many puts on the downlink.
    fn reserves(&mut self, puts: usize) -> Result<(), Refusal>;

    /// Whether each start so far was good.
    fn is_clean(&self) -> bool;

    /// Whether K was at most W / 2 at every moment so far.
    fn has_fitted(&self) -> bool;

    /// Whether the last start was level.
    fn is_level(&self) -> bool;

    /// How many sessions there were.
    fn sessions(&self) -> usize;

    /// What is written down of the session at this place, from 0 for the first.
    fn written(&self, place: usize) -> Option<Written<'_>>;

    /// What a status line prints of the FOP.
    fn fop(&self) -> FopView;

    /// The variables of the FARM.
    fn farm(&self) -> FarmView;

    /// How many frames are in flight, and how many control words and reports.
    fn in_flight(&self) -> (usize, usize);
}

impl<U: Carrier<Frame>, D: Carrier<Report>, A: Allocator + Copy + Drop> Link for World<U, D, A> {
    fn does(&mut self, event: Event) -> Result<(), Refusal> {
        self.step(event)?;
        Ok(())
    }

    fn tells(&mut self, event: Event, told: &[LinkIndication]) -> Result<bool, Refusal> {
        Ok(self.step(event)?.as_slice() == told)
    }

    fn alerts(&mut self, event: Event) -> Result<Option<AlertKind>, Refusal> {
        Ok(alert_in(self.step(event)?.as_slice()))
    }

    fn does_all(&mut self, events: &[Event]) -> RunEnd {
        self.run(events)
    }

    fn reserves(&mut self, puts: usize) -> Result<(), Refusal> {
        Ok(self.reserve(puts)?)
    }

    fn is_clean(&self) -> bool {
        self.clean()
    }

    fn has_fitted(&self) -> bool {
        self.fits()
    }

    fn is_level(&self) -> bool {
        self.level()
    }

    fn sessions(&self) -> usize {
        self.session_count()
    }

    fn written(&self, place: usize) -> Option<Written<'_>> {
        let session = self.session(place)?;
        Some(Written {
            sent: session.sent(),
            accepted: session.accepted(),
            confirmed: session.confirmed(),
        })
    }

    fn fop(&self) -> FopView {
        self.fop_view()
    }

    fn farm(&self) -> FarmView {
        self.farm_view()
    }

    fn in_flight(&self) -> (usize, usize) {
        (self.up_len(), self.down_len())
    }
}
