//! What the types of a wall keep. These functions do nothing: their clauses are what the types know.
ghost use Rattle.std.specs.Prelude.{◌<◌, ◌≤◌, ◌^◌, IfSome, length};
ghost use Rattle.std.specs.List.{AllByRecursion};
ghost use Rattle.tc_wall.specs.Ranges.{IsShort, IsMoveInRange, IsWantingInRange, IsWaitingInRange, IsOnBoardInRange, IsLineInRange, IsUrgentInRange, IsOriginInRange, IsRequestInRange, IsWayInRange, AreQueuesInRange, AreCountersInRange, IsFopInRange, IsFarmInRange, IsLinkInRange, IsActivityInRange, IsScheduleInRange, IsLiveInRange, IsOpeningInRange, IsLastInRange, IsWallInRange};
ghost use Rattle.tc_wall.specs.Waits.{text_of};

use crate::bounds::{first_of, last_of};
use crate::links::{FarmLine, FopLine, LinkLines};
use crate::walls::{
    KINDS, Live, MOST_LINES, MOST_MOVES, MOST_OPEN, MOST_SHOWN_ACTIVITIES, Opening, ShownSchedule,
    UrgentRow, Wall, Way,
};
use crate::way_rows::kind;
use tc_types::{ListedActivity, Move, Name, Origin, PLACES, Request, StepText, Waiting, Wanting};
use tc_urgent::{OnBoard, UrgentLine};

/// A name is short.
fn keep_name(name: &Name)
    ensures { IsShort name.now }
{
    name.keeps_form();
}

/// So is one that may be missing.
fn keep_other(by: &Option<Name>)
    ensures { IfSome by.now IsShort }
{
    if let Some(name) = by {
        keep_name(name);
    }
}

/// And the text of a step.
fn keep_text(text: &Option<StepText>)
    ensures { length (text_of text.now) ≤ 80 }
{
    if let Some(text) = text {
        text.keeps_form();
    }
}

/// The numbers of a move.
fn keep_move(row: &Move)
    ensures { IsMoveInRange row.now }
{
    let _seq = row.seq;
    let _request = row.request.get();
    keep_name(&row.by);
}

/// Those of these moves.
#[tactic(auto, using(crate::proofs::RangeLemmas::each_kept))]
fn keep_moves(rows: &[Move])
    ensures { AllByRecursion IsMoveInRange rows.now }
{
    for row in rows {
        keep_move(row);
    }
}

/// The names of an approval that is wanting.
fn keep_wanting(approval: &Wanting)
    ensures { IsWantingInRange approval.now }
{
    keep_name(&approval.author);
    keep_other(&approval.by);
}

/// What waits.
fn keep_waiting(waiting: &Waiting)
    ensures { IsWaitingInRange waiting.now }
{
    match waiting {
        Waiting::Request { request, approval } => {
            let _number = *request;
            keep_wanting(approval);
        }
        Waiting::Stack {
            stack,
            approval,
            rows,
            first,
        } => {
            let _numbers = (*rows, *first);
            keep_name(stack);
            keep_wanting(approval);
        }
        Waiting::Free { request } | Waiting::Doubtful { request } => {
            let _number = *request;
        }
        Waiting::Locked { request, lock } => {
            let _number = *request;
            let _line = lock.line;
            keep_name(&lock.stack);
        }
        Waiting::Step {
            execution,
            procedure,
            step,
            ..
        } => {
            let _numbers = (*execution, *step);
            keep_name(procedure);
        }
    }
}

/// What may wait for no person.
fn keep_wait(waiting: &Option<Waiting>)
    ensures { IfSome waiting.now IsWaitingInRange }
{
    if let Some(waiting) = waiting {
        keep_waiting(waiting);
    }
}

/// By what a request is known on board.
fn keep_known(on_board: &OnBoard)
    ensures { IsOnBoardInRange on_board.now }
{
    let identity = &on_board.identity;
    let _numbers = (identity.apid.get(), identity.count.get());
    let _service = on_board.service;
    let _subtype = on_board.subtype;
}

/// The same of a request or an execution.
fn keep_on_board(on_board: &Option<OnBoard>)
    ensures { IfSome on_board.now IsOnBoardInRange }
{
    if let Some(on_board) = on_board {
        keep_known(on_board);
    }
}

/// A line of what is open.
fn keep_line(line: &UrgentLine)
    ensures { IsLineInRange line.now }
{
    let _number = line.number;
    let _insert = line.kind.insert();
    let _waited = line.waited;
    let _same = line.same;
    keep_on_board(&line.on_board);
    keep_other(&line.stack);
}

/// A line with what is said beside it.
fn keep_urgent(row: &UrgentRow)
    ensures { IsUrgentInRange row.now }
{
    keep_line(&row.line);
    keep_wait(&row.waiting);
    keep_text(&row.text);
}

/// These lines.
#[tactic(auto, using(crate::proofs::RangeLemmas::each_kept))]
fn keep_urgents(rows: &[UrgentRow])
    ensures { AllByRecursion IsUrgentInRange rows.now }
{
    for row in rows {
        keep_urgent(row);
    }
}

/// How many lines are left out.
#[tactic(auto, using(crate::proofs::RangeLemmas::each_kept_at))]
fn keep_left(left: &[usize; KINDS])
    ensures { AllByRecursion (λ n. n < 2 ^ 64) left.now }
{
    for count in left {
        let _count = *count;
    }
}

/// The row of a stack.
fn keep_origin(origin: &Option<Origin>)
    ensures { IfSome origin.now IsOriginInRange }
{
    if let Some(origin) = origin {
        let _line = origin.line;
        keep_name(&origin.stack);
    }
}

/// A request.
fn keep_request(request: &Request)
    ensures { IsRequestInRange request.now }
{
    let identity = &request.body.identity;
    let _numbers = (
        request.number.get(),
        identity.apid.get(),
        identity.count.get(),
    );
    let _kind = kind(&request.body.command);
    keep_name(&request.author);
    keep_origin(&request.origin);
}

/// A way.
fn keep_way(way: &Way)
    ensures { IsWayInRange way.now }
{
    let _moved = way.moved;
    keep_request(&way.request);
}

/// These ways.
#[tactic(auto, using(crate::proofs::RangeLemmas::each_kept))]
fn keep_ways(ways: &[Way])
    ensures { AllByRecursion IsWayInRange ways.now }
{
    for way in ways {
        keep_way(way);
    }
}

/// What the FOP holds.
fn keep_queues(fop: &FopLine)
    ensures { AreQueuesInRange fop.now }
{
    let _sent = fop.sent;
    let _waiting = fop.waiting;
    let _count = fop.count;
    let _k = fop.k;
    let _limit = fop.limit;
}

/// Its counters.
fn keep_counters(fop: &FopLine)
    ensures { AreCountersInRange fop.now }
{
    let _vs = fop.vs;
    let _nn = fop.nn;
    let _timer = fop.timer;
    let _t1 = fop.t1;
}

/// The FOP.
fn keep_fop(fop: &FopLine)
    ensures { IsFopInRange fop.now }
{
    keep_queues(fop);
    keep_counters(fop);
}

/// The FARM.
fn keep_farm(farm: &FarmLine)
    ensures { IsFarmInRange farm.now }
{
    let _vr = farm.vr;
    let _farm_b = farm.farm_b;
    let _window = farm.window;
}

/// The link.
fn keep_link(link: &LinkLines)
    ensures { IsLinkInRange link.now }
{
    let _up = link.up;
    let _down = link.down;
    keep_fop(&link.fop);
    keep_farm(&link.farm);
}

/// An activity.
fn keep_activity(it: &ListedActivity)
    ensures { IsActivityInRange it.now }
{
    let _numbers = (it.identity.apid.get(), it.identity.count.get());
}

/// These activities.
#[tactic(auto, using(crate::proofs::RangeLemmas::each_kept))]
fn keep_activities(activities: &[ListedActivity])
    ensures { AllByRecursion IsActivityInRange activities.now }
{
    for it in activities {
        keep_activity(it);
    }
}

/// The on-board schedule.
fn keep_schedule(schedule: &ShownSchedule)
    ensures { IsScheduleInRange schedule.now }
{
    let _count = schedule.laid_in;
    keep_activities(first_of(schedule.activities, MOST_SHOWN_ACTIVITIES));
}

/// How a desk was opened.
fn keep_opened(opening: &Opening)
    ensures { IsOpeningInRange opening.now }
{
    let _stood = opening.stood;
}

/// So is that of a desk that may be closed.
fn keep_opening(opening: &Option<Opening>)
    ensures { IfSome opening.now IsOpeningInRange }
{
    if let Some(opening) = opening {
        keep_opened(opening);
    }
}

/// What is told of a desk that is open.
fn keep_live(live: &Option<Live>)
    ensures { IfSome live.now IsLiveInRange }
{
    if let Some(live) = live {
        keep_link(&live.link);
        keep_schedule(&live.schedule);
    }
}

/// The counts.
#[tactic(auto, using(crate::proofs::RangeLemmas::each_kept_at))]
fn keep_counts(counts: &[u32; PLACES])
    ensures { AllByRecursion (λ n. n < 2 ^ 32) counts.now }
{
    for count in counts {
        let _count = *count;
    }
}

/// The last move.
fn keep_last(last: Option<Move>)
    ensures { IfSome last IsLastInRange }
{
    if let Some(row) = last {
        let _numbers = (row.seq, row.moment.get());
    }
}

/// A whole wall.
pub(crate) fn keep_wall(wall: &Wall)
    ensures { IsWallInRange wall.now }
{
    let _entered = wall.entered;
    let _lines = wall.lines;
    let _opened = wall.opened;
    let _moved = wall.moved;
    keep_counts(wall.counts);
    keep_urgents(first_of(wall.urgent, MOST_LINES));
    keep_left(wall.left);
    keep_opening(&wall.opening);
    keep_live(&wall.live);
    keep_ways(first_of(wall.ways, MOST_OPEN));
    keep_last(wall.moves.last().copied());
    keep_moves(last_of(wall.moves, MOST_MOVES));
}
