//! What the book hears of the link.
ghost use Rattle.std.specs.Prelude.{◌≡◌, false};
ghost use Rattle.std.specs.List.{list_any};
ghost use Rattle.tc_board.specs.Mirror.{MirrorState, no_mirror};
ghost use Rattle.tc_desk.specs.Effects.{ComesAlone, MayHold, OnlyMoves, heard, heard_all, tells_report, told};

use crate::moving::{report, try_move, try_move_with};
use crate::reporting::hear_besides;
use std::alloc::Allocator;
use tc_board::Mirror;
use tc_book::{Records, Stamp};
use tc_fop::signals;
use tc_types::{Cause, Place, Report, Telemetry};
use tc_world::LinkIndication;

/// What the link told moves, where it is no report.
fn hear<A: Allocator + Copy + Drop>(records: &mut Records<A>, stamp: &Stamp, said: &LinkIndication)
    requires room { MayHold records.old (heard stamp.now no_mirror records.old.book said.now) }
    requires no_report { tells_report said.now ≡ false }
    ensures book { (mirror : MirrorState) → records.new.book ≡ heard stamp.now mirror records.old.book said.now }
    ensures only { OnlyMoves records.old records.new }
{
    match said {
        LinkIndication::Fop(signals::Indication::Sent(n)) => {
            let n = n.get();
            let from = [Place::Queued];
            try_move(records, stamp, n, &from, Place::Sent, Cause::Transmit);
        }
        LinkIndication::Fop(signals::Indication::Confirmed(n)) => {
            let n = n.get();
            let from = [Place::Sent];
            try_move(records, stamp, n, &from, Place::Confirmed, Cause::Confirm);
        }
        LinkIndication::Fop(signals::Indication::GivenBack(n)) => {
            let from = [Place::Queued];
            try_move_with(records, stamp, *n, &from, Place::Approved, Cause::GiveBack);
        }
        LinkIndication::Fop(signals::Indication::InDoubt(n)) => {
            let from = [Place::Sent];
            try_move_with(records, stamp, *n, &from, Place::Doubtful, Cause::Doubt);
        }
        LinkIndication::Fop(signals::Indication::Alert(_) | signals::Indication::Started)
        | LinkIndication::Received(_)
        | LinkIndication::Farm(_)
        | LinkIndication::Lost
        | LinkIndication::Transmitted(_) => {}
    }
}

/// All that an event of the link told, in order, where no report came down.
pub(crate) fn hear_all<A: Allocator + Copy + Drop>(
    records: &mut Records<A>,
    stamp: &Stamp,
    said: &[LinkIndication],
)
    requires room { MayHold records.old (heard_all stamp.now no_mirror said.now records.old.book) }
    requires no_report { list_any tells_report said.now ≡ false }
    ensures book { (mirror : MirrorState) → records.new.book ≡ heard_all stamp.now mirror said.now records.old.book }
    ensures only { OnlyMoves records.old records.new }
{
    for told in said {
        hear(records, stamp, told);
    }
}

/// What a report of the spacecraft moves: its request, and what follows from that. The mirror is as it was before the report was
/// read.
pub(crate) fn hear_telemetry<A: Allocator + Copy + Drop>(
    records: &mut Records<A>,
    stamp: &Stamp,
    mirror: &Mirror<A>,
    item: &Telemetry,
)
    requires { MayHold records.old (told stamp.now mirror.now.told records.old.book item.now) }
    ensures book { records.new.book ≡ told stamp.now mirror.now.told records.old.book item.now }
    ensures only { OnlyMoves records.old records.new }
{
    match item {
        Telemetry::Summary(_) => {}
        Telemetry::Verification {
            verification,
            request,
            ..
        } => {
            let known = records.request(request.get());
            report(records, stamp, *request, verification.stage());
            hear_besides(records, stamp, mirror, verification, &known);
        }
    }
}

/// What came down moves: a report as it says, and else all that the link told, in order.
pub(crate) fn hear_down<A: Allocator + Copy + Drop>(
    records: &mut Records<A>,
    stamp: &Stamp,
    mirror: &Mirror<A>,
    said: &[LinkIndication],
)
    requires room { MayHold records.old (heard_all stamp.now mirror.now.told said.now records.old.book) }
    requires alone { ComesAlone said.now }
    ensures book { records.new.book ≡ heard_all stamp.now mirror.now.told said.now records.old.book }
    ensures only { OnlyMoves records.old records.new }
{
    match said.first() {
        Some(LinkIndication::Received(Report::Telemetry(item))) => {
            hear_telemetry(records, stamp, mirror, item);
        }
        _ => hear_all(records, stamp, said),
    }
}
