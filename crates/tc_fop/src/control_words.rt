//! What is done at a control word (CCSDS 232.1-B, 5.3).
ghost use Rattle.std.specs.Prelude.{◌≡◌, ◌≤◌, length, true, IsTrue, ◌↔◌};
ghost use Rattle.tc_fop.specs.Machine.{nothing};
ghost use Rattle.tc_fop.specs.Cells.{cell, is_ignored};
ghost use Rattle.tc_fop.specs.Calls.{is_taking, reported};
ghost use Rattle.tc_fop.specs.Rows.{row_of};
ghost use Rattle.tc_fop.specs.Views.{Performs, Fits, Carried, MayRemove};

use crate::fop_rows::FopRow;
use crate::outputs::{Blank, OutputDraft};
use crate::signals::{AlertKind, FopState};
use crate::variables::Variables;
use std::alloc::Allocator;
use tc_farm::Clcw;

/// Whether the state is S1.
fn is_active(state: FopState) -> bool
    ensures { IsTrue result ↔ (state ≡ FopState.Active) }
{
    matches!(state, FopState::Active)
}

/// Whether nothing is done at a word of this row in this state.
fn does_nothing(row: FopRow, state: FopState) -> bool
    ensures { result ≡ is_ignored row state }
{
    match state {
        FopState::Initial => true,
        FopState::Active => matches!(row, FopRow::P1 | FopRow::P5),
        FopState::RetransmitWithoutWait => matches!(row, FopRow::P11 | FopRow::P13),
        FopState::RetransmitWithWait => matches!(row, FopRow::P12),
        FopState::InitialisingWithoutBc => match row {
            FopRow::P1 | FopRow::P3 | FopRow::P4 | FopRow::P14 | FopRow::P15 | FopRow::P16 => false,
            _ => true,
        },
        FopState::InitialisingWithBc => match row {
            FopRow::P1 | FopRow::P16 => false,
            _ => true,
        },
    }
}

impl<A: Allocator + Copy + Drop> Variables<A> {
    /// Whether nothing is done at this control word.
    pub(crate) fn ignores(&self, word: Option<Clcw>) -> bool
        ensures { result ≡ is_ignored (row_of self.now word) self.now.state }
    {
        does_nothing(self.row(word), self.state())
    }

    /// Removes what is acknowledged, and stops for the limit.
    fn stop_at_limit(&mut self, acknowledged: u8, out: &mut OutputDraft<A>)
        requires there { MayRemove acknowledged self.old }
        requires start { out.old ≡ nothing }
        ensures { Performs (cell (FopRow.P8 acknowledged) self.old.state) self.old self.new out.new }
    {
        let _state = self.state(); // read for what it tells the prover alone
        if acknowledged > 0 {
            self.remove(acknowledged, out);
        }
        self.alert(AlertKind::Limit, out);
    }

    /// A control word in S1, S2 or S3.
    fn sending(&mut self, row: FopRow, blank: Blank<A>) -> OutputDraft<A>
        requires taking { is_taking self.old.state ≡ true }
        requires fits { Fits row self.old }
        ensures { Performs (cell row self.old.state) self.old self.new result }
    {
        let state = self.state();
        let mut out = blank.open();
        match row {
            FopRow::P1 | FopRow::P5 => {
                if !is_active(state) {
                    self.alert(AlertKind::Synch, &mut out);
                }
            }
            FopRow::P2(acknowledged) => {
                self.remove(acknowledged, &mut out);
                self.cancel_timer();
                self.enter(FopState::Active);
                self.look(&mut out);
            }
            FopRow::P6(acknowledged) => {
                self.remove(acknowledged, &mut out);
                self.enter(FopState::Active);
                self.look(&mut out);
            }
            FopRow::P8(acknowledged) => self.stop_at_limit(acknowledged, &mut out),
            FopRow::P9(acknowledged) => {
                self.remove(acknowledged, &mut out);
                self.retransmit(&mut out);
                self.enter(FopState::RetransmitWithoutWait);
                self.transmit(&mut out);
            }
            FopRow::P10(acknowledged) => {
                self.remove(acknowledged, &mut out);
                self.enter(FopState::RetransmitWithWait);
            }
            FopRow::P11 => {
                if !matches!(state, FopState::RetransmitWithoutWait) {
                    self.retransmit(&mut out);
                    self.enter(FopState::RetransmitWithoutWait);
                    self.transmit(&mut out);
                }
            }
            FopRow::P12 => self.enter(FopState::RetransmitWithWait),
            FopRow::P13 => self.enter(FopState::RetransmitWithoutWait),
            FopRow::P4 => self.alert(AlertKind::Synch, &mut out),
            FopRow::P14 => self.alert(AlertKind::NnR, &mut out),
            FopRow::P15 => self.alert(AlertKind::Lockout, &mut out),
            FopRow::P3 | FopRow::P7 | FopRow::P16 => self.alert(AlertKind::Clcw, &mut out),
        }
        out
    }

    /// A control word in S4, where nothing is out and there is no BC frame.
    fn checking(&mut self, row: FopRow, blank: Blank<A>) -> OutputDraft<A>
        requires state { self.old.state ≡ FopState.InitialisingWithoutBc }
        ensures { Performs (cell row self.old.state) self.old self.new result }
    {
        let _state = self.state(); // read for what it tells the prover alone
        let mut out = blank.open();
        match row {
            FopRow::P1 => self.begin(&mut out),
            FopRow::P3 | FopRow::P16 => self.alert(AlertKind::Clcw, &mut out),
            FopRow::P4 => self.alert(AlertKind::Synch, &mut out),
            FopRow::P14 => self.alert(AlertKind::NnR, &mut out),
            FopRow::P15 => self.alert(AlertKind::Lockout, &mut out),
            // these cannot come: V(S) is NN(R), so that nothing is out
            FopRow::P2(_)
            | FopRow::P5
            | FopRow::P6(_)
            | FopRow::P7
            | FopRow::P8(_)
            | FopRow::P9(_)
            | FopRow::P10(_)
            | FopRow::P11
            | FopRow::P12
            | FopRow::P13 => {}
        }
        out
    }

    /// A control word in S5, where the BC frame is not acknowledged yet.
    fn commanding(&mut self, row: FopRow, blank: Blank<A>) -> OutputDraft<A>
        requires state { self.old.state ≡ FopState.InitialisingWithBc }
        ensures { Performs (cell row self.old.state) self.old self.new result }
    {
        let _state = self.state(); // read for what it tells the prover alone
        let mut out = blank.open();
        match row {
            FopRow::P1 => self.begin(&mut out),
            FopRow::P16 => self.alert(AlertKind::Clcw, &mut out),
            FopRow::P3 | FopRow::P4 | FopRow::P14 | FopRow::P15 => {}
            // these cannot come: V(S) is NN(R), so that nothing is out
            FopRow::P2(_)
            | FopRow::P5
            | FopRow::P6(_)
            | FopRow::P7
            | FopRow::P8(_)
            | FopRow::P9(_)
            | FopRow::P10(_)
            | FopRow::P11
            | FopRow::P12
            | FopRow::P13 => {}
        }
        out
    }

    /// A control word, or one that is not valid.
    pub(crate) fn clcw(&mut self, word: Option<Clcw>, blank: Blank<A>) -> OutputDraft<A>
        ensures { Carried (reported self.old word) self.old self.new result }
    {
        let row = self.row(word);
        match self.state() {
            FopState::Active | FopState::RetransmitWithoutWait | FopState::RetransmitWithWait => {
                self.sending(row, blank)
            }
            FopState::InitialisingWithoutBc => self.checking(row, blank),
            FopState::InitialisingWithBc => self.commanding(row, blank),
            FopState::Initial => blank.open(),
        }
    }
}
