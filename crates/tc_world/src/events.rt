//! What happens to the link, and what it tells.
use tc_farm::FrameVerdict;
use tc_fop::signals;
use tc_types::{Directive, Frame, Payload, Report, RequestNumber, Telemetry};

/// What happens to the link. Control words come from its own FARM alone, but those that are heard from outside.
#[derive(Clone, Copy, Debug, PartialEq, Eq)]
pub enum Event {
    /// A request is offered to the FOP.
    Offer {
        request: RequestNumber,
        body: Payload,
    },
    /// The FOP gets a directive.
    Directive(Directive),
    /// One tick of the FOP's timer.
    Tick,
    /// The FARM gets the first frame of the uplink; `free_buffer` says whether a buffer is free for it.
    Uplink {
        free_buffer: bool,
    },
    /// The frame at this place of the uplink is lost, from 0 for the oldest.
    LoseUp(usize),
    /// A buffer became free on board.
    Release,
    /// The FARM puts its control word on the downlink.
    Clcw,
    /// The spacecraft puts a report on the downlink.
    Put(Telemetry),
    /// The ground gets the first item of the downlink.
    Downlink,
    /// The item at this place of the downlink is lost, from 0 for the oldest.
    LoseDown(usize),
    /// The front end takes the first frame of the uplink: it leaves this machine, and its own FARM does not see it.
    Transmit,
    /// A control word or a report from outside is heard as one that came down.
    Hear(Report),
}

/// What the link tells of an event.
#[derive(Clone, Copy, Debug, PartialEq, Eq)]
pub enum LinkIndication {
    /// What the FOP tells.
    Fop(signals::Indication),
    /// What the FARM says of a frame.
    Farm(FrameVerdict),
    /// This came down.
    Received(Report),
    /// Something in flight was lost: a loss where nothing stood tells nothing.
    Lost,
    /// The front end took this frame.
    Transmitted(Frame),
}
