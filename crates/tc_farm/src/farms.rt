//! FARM-1.
ghost use Rattle.std.specs.Prelude.{◌≡◌, ◌+◌, ◌%◌, ◌<◌};

use crate::clcws::Clcw;
use std::marker::Model;
use tc_types::{Frame, Payload, RequestNumber};

/// The states of FARM-1 (CCSDS 232.1-B, 6.1.2).
#[derive(Clone, Copy, Debug, PartialEq, Eq)]
pub enum FarmState {
    /// Frames in order are accepted.
    Open,
    /// No buffer is free.
    Wait,
    /// Only an Unlock helps.
    Lockout,
}

/// The variables of FARM-1.
#[derive(Clone, Copy, Debug, PartialEq, Eq)]
pub struct FarmView {
    /// The state.
    pub state: FarmState,
    /// V(R), the number of the frame that is expected next, modulo 256.
    pub vr: u8,
    /// FARM-B, how many control commands were taken, modulo 4.
    pub farm_b: u8,
    /// The Lockout flag.
    pub lockout: bool,
    /// The Wait flag.
    pub wait: bool,
    /// The Retransmit flag.
    pub retransmit: bool,
    /// W, the window's width: even, 2 to 254.
    pub window: u8,
}

/// What the FARM says of a frame.
#[derive(Clone, Copy, Debug, PartialEq, Eq)]
pub enum FrameVerdict {
    /// The frame was taken: this request, and the part of it that flies.
    Accepted {
        request: RequestNumber,
        body: Payload,
    },
    /// The frame was not taken.
    Discarded,
    /// It was a control command.
    Control,
}

/// FARM-1, the frame acceptance and reporting mechanism (CCSDS 232.1-B, 6). A contract sees it as its variables.
#[derive(Debug, Drop)]
pub struct Farm {
    variables: FarmView,
}

impl Model for Farm {
    ghost use Rattle.tc_farm.specs.declared.farms.FarmView.{FarmView};
    ghost use Rattle.tc_farm.specs.Farm.{IsFarm};

    ghost Value = { FarmView };

    ghost view = { λ farm. farm.variables };

    ghost invariant = { λ farm. IsFarm farm.variables };
}

impl Farm {
    ghost use Rattle.std.specs.Prelude.{◌≡◌, ◌≢◌, ◌↔◌, IsSome, IfSome, true};
    ghost use Rattle.tc_farm.specs.Farm.{IsWindowWidth, IsFarm, new_farm, farm_after, verdict_of, released, changed, cell_of, is_accept, unlocked, with_vr, Becomes};
    ghost use Rattle.tc_farm.specs.FarmLaws.{Says, Reports};

    /// A FARM with window width W = `w`, open, that expects the number 0; `None` unless W is even and 2 to 254.
    pub fn new(w: u16) -> Option<Farm>
        ensures found { IsSome result ↔ IsWindowWidth w }
        ensures started { IfSome result (λ farm. farm ≡ new_farm w) }
    {
        if w < 2 || w > 254 || w % 2 != 0 {
            return None;
        }
        Some(Farm {
            variables: FarmView {
                state: FarmState::Open,
                vr: 0,
                farm_b: 0,
                lockout: false,
                wait: false,
                retransmit: false,
                window: w as u8,
            },
        })
    }

    /// A frame came; `free_buffer` says whether a buffer of the spacecraft is free for it. What is answered to it.
    pub fn frame(&mut self, frame: Frame, free_buffer: bool) -> FrameVerdict
        ensures after { self.new ≡ farm_after self.old frame free_buffer }
        ensures answered { result ≡ verdict_of self.old frame free_buffer }
        // accepted only in order, in Open and with a free buffer; V(R) moves only by an acceptance or a Set V(R)
        ensures in_order { Says result self.old frame free_buffer self.new }
        // Lockout is left only by an Unlock
        ensures locked_out { self.old.state ≡ FarmState.Lockout → frame ≢ Frame.Unlock → self.new.state ≡ FarmState.Lockout }
        // Wait implies Retransmit among what stands
        ensures sound { IsFarm self.new }
    {
        match frame {
            Frame::Ad { ns, request, body } => {
                if self.take(ns, free_buffer) {
                    FrameVerdict::Accepted { request, body }
                } else {
                    FrameVerdict::Discarded
                }
            }
            Frame::Unlock => {
                self.unlock();
                FrameVerdict::Control
            }
            Frame::SetVr(vr) => {
                self.set_vr(vr);
                FrameVerdict::Control
            }
        }
    }

    /// A buffer became free.
    pub fn release(&mut self)
        ensures after { self.new ≡ released self.old }
        ensures locked_out { self.old.state ≡ FarmState.Lockout → self.new.state ≡ FarmState.Lockout }
        ensures sound { IsFarm self.new }
    {
        self.variables.wait = false;
        if self.variables.state == FarmState::Wait {
            self.variables.state = FarmState::Open;
        }
    }

    /// The control word that reports the variables, on virtual channel 0.
    pub fn clcw(&self) -> Clcw
        ensures reports { Reports self.now result }
        ensures wait_implies_retransmit { result.wait ≡ true → result.retransmit ≡ true }
    {
        let farm = self.variables;
        Clcw {
            vc: 0,
            lockout: farm.lockout,
            wait: farm.wait,
            retransmit: farm.retransmit,
            farm_b: farm.farm_b,
            report: farm.vr,
        }
    }

    /// The variables.
    pub fn view(&self) -> FarmView
        ensures same { result ≡ self.now }
        ensures sound { IsFarm result }
    {
        self.variables
    }

    /// A type-AD frame with this number came: whether it is accepted.
    fn take(&mut self, ns: u8, free_buffer: bool) -> bool
        ensures after { Becomes (changed (cell_of self.old ns free_buffer) self.old) self.new }
        ensures accepted { result ≡ is_accept (cell_of self.old ns free_buffer) }
        ensures in_order { result ≡ true → ns ≡ self.old.vr }
    {
        let farm = &mut self.variables;
        let half = farm.window / 2;
        let ahead = ns.wrapping_sub(farm.vr);
        let behind = farm.vr.wrapping_sub(ns);
        if farm.state == FarmState::Lockout {
            return false;
        }
        if ahead >= half && behind > half {
            farm.lockout = true;
            farm.state = FarmState::Lockout;
            return false;
        }
        if farm.state != FarmState::Open {
            return false;
        }
        if ahead == 0 && free_buffer {
            farm.vr = ns.wrapping_add(1);
            farm.retransmit = false;
            return true;
        }
        if ahead < half {
            farm.retransmit = true;
        }
        if ahead == 0 {
            farm.wait = true;
            farm.state = FarmState::Wait;
        }
        false
    }

    /// An Unlock came.
    fn unlock(&mut self)
        ensures { Becomes (unlocked self.old) self.new }
    {
        let farm = &mut self.variables;
        farm.farm_b = one_more(farm.farm_b);
        farm.lockout = false;
        farm.wait = false;
        farm.retransmit = false;
        farm.state = FarmState::Open;
    }

    /// A Set V(R) came: the number `vr` is expected next, unless the FARM is in Lockout.
    fn set_vr(&mut self, vr: u8)
        ensures { Becomes (with_vr vr self.old.state self.old) self.new }
    {
        let farm = &mut self.variables;
        farm.farm_b = one_more(farm.farm_b);
        if farm.state != FarmState::Lockout {
            farm.vr = vr;
            farm.wait = false;
            farm.retransmit = false;
            farm.state = FarmState::Open;
        }
    }
}

/// One control command more, modulo 4.
fn one_more(farm_b: u8) -> u8
    requires { farm_b < 4 }
    ensures { result ≡ (farm_b + 1) % 4 }
{
    match farm_b {
        3 => 0,
        count => count + 1,
    }
}
