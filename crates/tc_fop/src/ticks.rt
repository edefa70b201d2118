//! What is done at a tick of the timer (CCSDS 232.1-B, 5.3).
ghost use Rattle.std.specs.Prelude.{◌≡◌, ◌<◌};
ghost use Rattle.tc_fop.specs.Cells.{timer_ended, timer_ended_at_limit};
ghost use Rattle.tc_fop.specs.Calls.{ticked};
ghost use Rattle.tc_fop.specs.Views.{Performs, Carried};

use crate::outputs::{Blank, OutputDraft};
use crate::signals::{AlertKind, FopState};
use crate::variables::Variables;
use std::alloc::Allocator;

impl<A: Allocator + Copy + Drop> Variables<A> {
    /// The timer ended, and once more may be counted: P17.
    fn timer_ended(&mut self, blank: Blank<A>) -> OutputDraft<A>
        requires below { self.old.count < self.old.limit }
        ensures { Performs (timer_ended self.old.state) self.old self.new result }
    {
        let mut out = blank.open();
        match self.state() {
            FopState::Active | FopState::RetransmitWithoutWait => {
                self.retransmit(&mut out);
                self.transmit(&mut out);
            }
            FopState::InitialisingWithoutBc => self.alert(AlertKind::T1, &mut out),
            FopState::InitialisingWithBc => self.repeat_control(&mut out),
            FopState::RetransmitWithWait => {}
            FopState::Initial => {} // this cannot come: in S6 the timer does not run
        }
        out
    }

    /// The timer ended, and nothing more may be counted: P18.
    fn timer_ended_at_limit(&mut self, blank: Blank<A>) -> OutputDraft<A>
        ensures { Performs (timer_ended_at_limit self.old.state) self.old self.new result }
    {
        let mut out = blank.open();
        match self.state() {
            FopState::Initial => {} // this cannot come: in S6 the timer does not run
            FopState::Active
            | FopState::RetransmitWithoutWait
            | FopState::RetransmitWithWait
            | FopState::InitialisingWithoutBc
            | FopState::InitialisingWithBc => self.alert(AlertKind::T1, &mut out),
        }
        out
    }

    /// One tick.
    pub(crate) fn tick(&mut self, blank: Blank<A>) -> OutputDraft<A>
        ensures { Carried (ticked self.old) self.old self.new result }
    {
        let left = self.timer();
        if left == 0 {
            return blank.open();
        }
        let may_repeat = self.is_below_limit();
        self.lower_timer();
        if left != 1 {
            return blank.open();
        }
        if may_repeat {
            self.timer_ended(blank)
        } else {
            self.timer_ended_at_limit(blank)
        }
    }
}
