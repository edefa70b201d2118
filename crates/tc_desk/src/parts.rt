//! The parts of the desk: its book, its link, the rehearsal spacecraft and the mirror of its schedule, and the acts on them.
ghost use Rattle.std.specs.Prelude.{◌≡◌, ◌+◌, ◌==◌, ◌≤◌, true, false, length, IfErr, IfOk, OnOk};
ghost use Rattle.tc_types.specs.declared.refusals.Refusal.TheVariants.{BadDirective, Memory};
ghost use Rattle.tc_types.specs.declared.acts.Act.TheVariants as act;
ghost use Rattle.tc_book.specs.Good.{IsGoodBook};
ghost use Rattle.tc_book.specs.Batch.{GoesOn};
ghost use Rattle.tc_world.specs.Config.{IsConfig};
ghost use Rattle.tc_desk.specs.State.{first_k, new_desk};
ghost use Rattle.tc_desk.specs.Acts.{is_question};
ghost use Rattle.tc_desk.specs.Machine.{MakesRows};
ghost use Rattle.tc_farm.specs.Farm.{new_farm};
ghost use Rattle.tc_world.specs.Links.{AreEmpty};
ghost use Rattle.tc_world.specs.Window.{IsClaimed};
ghost use Rattle.tc_desk.specs.Downlink.{came_down};
ghost use Rattle.tc_desk.specs.Parts.{IsEven, Performs, Responds};

use crate::dones::{Acted, Done};
use crate::flights::Flight;
use std::alloc::Allocator;
use std::marker::Model;
use tc_board::{Board, Mirror};
use tc_book::{Draft, Records, Stamp};
use tc_farm::Farm;
use tc_fop::Fop;
use tc_types::{Act, Frame, LinkAct, Moment, Refusal, Report};
use tc_world::{Carrier, Config, LinkIndication, World, is_fit};

/// K, the FOP sliding window width, as a desk is made, where the FARM's window lets it be so wide.
const K: u8 = 10;

/// T1_Initial, in ticks, as a desk is made.
const T1: u16 = 10;

/// The Transmission_Limit, as a desk is made.
const LIMIT: u8 = 3;

/// The spacecraft's time, as a desk is made.
const START: u32 = 0;

/// The book, the link, the spacecraft, and the mirror of its schedule. What ties them is the desk's.
#[derive(Drop)]
pub(crate) struct Parts<
    U: Carrier<Frame> + Drop,
    D: Carrier<Report> + Drop,
    A: Allocator + Copy + Drop,
> {
    pub(crate) alloc: A,
    pub(crate) records: Records<A>,
    pub(crate) world: World<U, D, A>,
    pub(crate) board: Board<A>,
    pub(crate) mirror: Mirror<A>,
}

/// How many items came down.
fn count_down(said: &[LinkIndication]) -> usize
    ensures { result ≡ length (came_down said.now) }
{
    match said.first() {
        Some(LinkIndication::Received(_)) => 1,
        None
        | Some(
            LinkIndication::Fop(_)
            | LinkIndication::Farm(_)
            | LinkIndication::Lost
            | LinkIndication::Transmitted(_),
        ) => 0,
    }
}

/// K as a desk is made over a FARM of this window: 10, or the widest that fits, which is half of the window.
fn first_k(window: u16) -> u8
    ensures k { result ≡ first_k window }
    ensures some { 2 ≤ window → 1 ≤ result }
{
    let widest = window / 2;
    if widest < K as u16 {
        return widest as u8;
    }
    K
}

/// The FARM of a desk that is made so. `BadDirective` unless the window is even and 2 to 254, the channel 0 to 63, and the links
/// are lists or rings of 1 to 4,096 items.
pub(crate) fn farm_of(config: Config) -> Result<Farm, Refusal>
    ensures farm { IfOk result (λ farm. farm ≡ new_farm config.window) }
    ensures config { OnOk result (IsConfig config) }
    ensures refused { IfErr result (λ refusal. (refusal ≡ BadDirective) × (¬ IsConfig config)) }
{
    if !is_fit(config) {
        return Err(Refusal::BadDirective);
    }
    Farm::new(config.window).ok_or(Refusal::BadDirective)
}

/// Whether two counts are together as much as two others.
fn is_even(before: usize, put: usize, came: usize, after: usize) -> bool
    ensures { result ≡ (before + put == came + after) }
{
    before as u128 + put as u128 == came as u128 + after as u128
}

impl<U: Carrier<Frame> + Drop, D: Carrier<Report> + Drop, A: Allocator + Copy + Drop> Model
    for Parts<U, D, A> {
    ghost use Rattle.tc_desk.specs.State.{State};

    ghost Value = { State U D };

    ghost view = { λ p. record { book = p.records.book; world = p.world; board = p.board; mirror = p.mirror.told } };
}

impl<U: Carrier<Frame> + Drop, D: Carrier<Report> + Drop, A: Allocator + Copy + Drop> Parts<
    U,
    D,
    A,
> {
    /// The parts of a desk over this book, where nothing happened yet on the link, over these carriers, which are empty. Answers
    /// `Memory` where that is refused.
    pub(crate) fn over(
        alloc: A,
        records: Records<A>,
        config: Config,
        farm: Farm,
        up: U,
        down: D,
    ) -> Result<Self, Refusal>
        requires config { IsConfig config }
        requires farm { farm ≡ new_farm config.window }
        requires empty { AreEmpty U.kind D.kind up down }
        ensures desk { IfOk result (λ parts. parts ≡ record (new_desk config up down) { book = records.book }) }
        ensures refused { IfErr result (λ refusal. refusal ≡ Memory) }
    {
        let fop = Fop::new(alloc, first_k(config.window), T1, LIMIT)?;
        let board = Board::new(alloc, Moment::new(START).unwrap())?;
        Ok(Parts {
            alloc,
            records,
            world: World::new(alloc, fop, farm, up, down, config.channel)?,
            board,
            mirror: Mirror::new(alloc),
        })
    }

    /// Carries an act on the link out.
    fn fly(&mut self, stamp: Stamp, given: LinkAct) -> Result<Flight<A>, Refusal>
        ensures { Performs U.kind D.kind self.old stamp (act.Link given) self.new result }
    {
        match given {
            LinkAct::Release { request } => self.release(stamp, request),
            LinkAct::Direct(directive) => self.direct(stamp, directive),
            LinkAct::Tick => self.tick(stamp),
            LinkAct::Up => self.up(stamp),
            LinkAct::LoseUp { place } => self.lose_up(stamp, place),
            LinkAct::LoseDown { place } => self.lose_down(stamp, place),
            LinkAct::Clcw => self.clcw(stamp),
            LinkAct::Down => self.down(stamp),
            LinkAct::Work => self.work(stamp),
            LinkAct::Clock { time } => self.clock(stamp, time),
        }
    }

    /// Carries an act out.
    fn perform(&mut self, stamp: Stamp, act: Act) -> Result<Flight<A>, Refusal>
        requires { is_question act ≡ false }
        ensures performs { Performs U.kind D.kind self.old stamp act self.new result }
        ensures goes_on { OnOk result (GoesOn self.old.book self.new.book) }
    {
        match act {
            Act::Book(given) => self.on_book(stamp, given),
            Act::Link(given) => self.fly(stamp, given),
            Act::Step(given) => self.step(stamp, given),
            Act::Ask(_) => unreachable!(),
        }
    }

    /// An act of a person at a moment: it is carried out, and its moves and its batch are filled in.
    pub(crate) fn act(&mut self, stamp: Stamp, act: Act) -> Result<Acted<A>, Refusal>
        requires { is_question act ≡ false }
        ensures answers { Responds U.kind D.kind (λ acted. acted.done.said) (λ acted. acted.done.first) self.old stamp act self.new result }
        ensures kept { IfOk result (λ acted. IsEven D.kind self.old act self.new acted.done.said acted.kept) }
        ensures made { IfOk result (λ acted. MakesRows self.old self.new acted.done.moves.items acted.done.batch.items) }
        ensures good_before { IsGoodBook self.old.book }
        ensures good { IsGoodBook self.new.book }
        ensures claims { IfOk result (λ acted. self.new.world.clean ≡ true → IsClaimed self.new.world) }
    {
        let before = self.world.down_len();
        let mark = self.records.mark();
        let Flight {
            first,
            said,
            put,
            draft,
        } = self.perform(stamp, act)?;
        let Draft { moves, batch, .. } = self.records.fill(mark, draft);
        let kept = is_even(
            before,
            put,
            count_down(said.as_slice()),
            self.world.down_len(),
        );
        let done = Done {
            first,
            said,
            moves,
            batch,
        };
        // read for the proof alone: what the link claims of its sessions
        let _clean = self.world.clean();
        Ok(Acted { done, kept })
    }
}
