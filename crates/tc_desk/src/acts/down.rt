//! The act `down`: the first item of the downlink comes to the desk.
ghost use Rattle.std.specs.Prelude.{◌≡◌, count_by};
ghost use Rattle.tc_types.specs.declared.acts.Act.TheVariants as act;
ghost use Rattle.tc_types.specs.declared.acts.LinkAct.TheVariants as link_act;
ghost use Rattle.tc_desk.specs.Acts.{is_there, first_of_down, first_of_report};
ghost use Rattle.tc_board.specs.Mirror.{HasRoom};
ghost use Rattle.tc_desk.specs.Asks.{command_told, command_down, mirror_read};
ghost use Rattle.tc_desk.specs.Parts.{Performs};

use crate::commands::command_at;
use crate::firsts::FirstLine;
use crate::flights::{Flight, ask, most_rows};
use crate::hearing::hear_down;
use crate::parts::Parts;
use std::alloc::Allocator;
use tc_board::Mirror;
use tc_book::{Records, Stamp};
use tc_types::{Frame, MOST_REQUESTS, Refusal, Report, ScheduleCommand, Summary, Telemetry};
use tc_world::{Carrier, Event, LinkIndication};

/// How many activities a summary tells.
fn count_of(summary: &Summary) -> u32
    ensures { result ≡ count_by is_there summary.now.activities }
{
    summary
        .activities
        .iter()
        .filter(|place| place.is_some())
        .count() as u32
}

/// How the reply to a report begins.
fn first_of_report(item: &Telemetry) -> FirstLine
    ensures { result ≡ first_of_report item.now }
{
    match item {
        Telemetry::Verification {
            verification,
            identity,
            ..
        } => FirstLine::Verified {
            verification: *verification,
            identity: *identity,
        },
        Telemetry::Summary(summary) => FirstLine::Summarized {
            enabled: summary.enabled,
            count: count_of(summary),
        },
    }
}

/// How the reply to `down` begins.
fn first_of_down(said: &[LinkIndication]) -> FirstLine
    ensures { result ≡ first_of_down said.now }
{
    match said.first() {
        Some(LinkIndication::Received(Report::Word(word))) => FirstLine::Word(*word),
        Some(LinkIndication::Received(Report::Telemetry(item))) => first_of_report(item),
        None
        | Some(
            LinkIndication::Fop(_)
            | LinkIndication::Farm(_)
            | LinkIndication::Lost
            | LinkIndication::Transmitted(_),
        ) => FirstLine::Nothing,
    }
}

/// The command that flew with the request of a report.
fn command_told<A: Allocator + Copy + Drop>(
    records: &Records<A>,
    item: &Report,
) -> Option<ScheduleCommand>
    ensures { result ≡ command_told records.now.book item.now }
{
    match item {
        Report::Telemetry(Telemetry::Verification { request, .. }) => {
            command_at(records, request.get())
        }
        Report::Word(_) | Report::Telemetry(Telemetry::Summary(_)) => None,
    }
}

/// The same of what came down.
fn command_down<A: Allocator + Copy + Drop>(
    records: &Records<A>,
    said: &[LinkIndication],
) -> Option<ScheduleCommand>
    ensures { result ≡ command_down records.now.book said.now }
{
    match said.first() {
        Some(LinkIndication::Received(item)) => command_told(records, item),
        None
        | Some(
            LinkIndication::Fop(_)
            | LinkIndication::Farm(_)
            | LinkIndication::Lost
            | LinkIndication::Transmitted(_),
        ) => None,
    }
}

/// What came down is read into the mirror, which has room.
fn read<A: Allocator + Copy + Drop>(
    mirror: &mut Mirror<A>,
    command: Option<ScheduleCommand>,
    said: &[LinkIndication],
)
    requires { HasRoom mirror.old }
    ensures { mirror.new.told ≡ mirror_read command said.now mirror.old.told }
{
    if let Some(LinkIndication::Received(item)) = said.first() {
        let is_read = mirror.take(item, command).is_ok();
        prove!(is_read);
    }
}

impl<U: Carrier<Frame> + Drop, D: Carrier<Report> + Drop, A: Allocator + Copy + Drop> Parts<
    U,
    D,
    A,
> {
    /// The first item of the downlink comes to the desk.
    pub(crate) fn down(&mut self, stamp: Stamp) -> Result<Flight<A>, Refusal>
        ensures { Performs U.kind D.kind self.old stamp (act.Link link_act.Down) self.new result }
    {
        if self.records.has_all_rows() {
            return Err(Refusal::DeskFull);
        }
        self.mirror.reserve()?;
        let shown = self.mirror.count().min(MOST_REQUESTS as usize);
        let most = most_rows(&self.records) + shown;
        let event = Event::Downlink;
        let flight = ask(&mut self.records, &mut self.world, self.alloc, event, most)?;
        let first = first_of_down(flight.said.as_slice());
        let command = command_down(&self.records, flight.said.as_slice());
        hear_down(
            &mut self.records,
            &stamp,
            &self.mirror,
            flight.said.as_slice(),
        );
        read(&mut self.mirror, command, flight.said.as_slice());
        Ok(Flight { first, ..flight })
    }
}
