//! The acts `initiate`, `terminate` and `set`: the FOP gets a directive.
ghost use Rattle.std.specs.Prelude.{◌≡◌, false};
ghost use Rattle.tc_types.specs.declared.acts.Act.TheVariants as act;
ghost use Rattle.tc_types.specs.declared.acts.LinkAct.TheVariants as link_act;
ghost use Rattle.tc_fop.specs.Calls.{is_initial};
ghost use Rattle.tc_world.specs.World.{is_terminate};
ghost use Rattle.tc_desk.specs.Acts.{is_bad_directive};
ghost use Rattle.tc_desk.specs.Parts.{Performs};

use crate::flights::{Flight, ask, most_rows, pass};
use crate::hearing::hear_all;
use crate::parts::Parts;
use std::alloc::Allocator;
use tc_book::Stamp;
use tc_fop::signals::FopState;
use tc_types::{Directive, Frame, Refusal, Report};
use tc_world::{Carrier, Event};

/// S6.
fn is_initial(state: FopState) -> bool
    ensures { result ≡ is_initial state }
{
    matches!(state, FopState::Initial)
}

/// Whether a directive is refused in this state, where this is the widest K that fits.
fn is_bad_directive(state: FopState, widest: u8, given: &Directive) -> bool
    ensures { result ≡ is_bad_directive state widest given.now }
{
    match given {
        Directive::InitiateNone
        | Directive::InitiateCheck
        | Directive::InitiateUnlock
        | Directive::InitiateSetVr(_)
        | Directive::SetVs(_) => !is_initial(state),
        Directive::SetK(k) => *k == 0 || *k > widest,
        Directive::SetT1(t1) => *t1 == 0,
        Directive::SetLimit(limit) => *limit == 0,
        Directive::Terminate => false,
    }
}

impl<U: Carrier<Frame> + Drop, D: Carrier<Report> + Drop, A: Allocator + Copy + Drop> Parts<
    U,
    D,
    A,
> {
    /// The FOP gets a directive.
    pub(crate) fn direct(&mut self, stamp: Stamp, given: Directive) -> Result<Flight<A>, Refusal>
        ensures { Performs U.kind D.kind self.old stamp (act.Link (link_act.Direct given)) self.new result }
    {
        match given {
            Directive::Terminate => self.terminate(stamp),
            _ => self.set(stamp, given),
        }
    }

    /// The FOP ends its service.
    fn terminate(&mut self, stamp: Stamp) -> Result<Flight<A>, Refusal>
        ensures { Performs U.kind D.kind self.old stamp (act.Link (link_act.Direct Directive.Terminate)) self.new result }
    {
        if self.records.has_all_rows() {
            return Err(Refusal::DeskFull);
        }
        let most = most_rows(&self.records);
        let event = Event::Directive(Directive::Terminate);
        let flight = ask(&mut self.records, &mut self.world, self.alloc, event, most)?;
        hear_all(&mut self.records, &stamp, flight.said.as_slice());
        Ok(flight)
    }

    /// The FOP gets a directive at which no request moves: any but the end of the service.
    fn set(&mut self, stamp: Stamp, given: Directive) -> Result<Flight<A>, Refusal>
        requires { is_terminate given ≡ false }
        ensures { Performs U.kind D.kind self.old stamp (act.Link (link_act.Direct given)) self.new result }
    {
        let widest = self.world.farm_view().window / 2;
        if is_bad_directive(self.world.fop_view().state, widest, &given) {
            return Err(Refusal::BadDirective);
        }
        let event = Event::Directive(given);
        let flight = pass(&mut self.records, &mut self.world, self.alloc, event)?;
        Ok(flight)
    }
}
