//! The desk of a room: its links are lists or rings, as it was chosen.
ghost use Rattle.std.specs.Prelude.{◌≡◌, [], true, IfErr, IfOk, length};
ghost use Rattle.tc_types.specs.declared.refusals.Refusal.TheVariants.{Memory};
ghost use Rattle.tc_types.specs.Images.{rows_in};
ghost use Rattle.tc_book.specs.Good.{IsGoodBook};
ghost use Rattle.tc_desk.specs.Opening.{MakesOpening, OpensOf};
ghost use Rattle.tc_world.specs.Config.{IsConfig, IsRing};
ghost use Rattle.tc_desk.specs.State.{MakesOf};
ghost use Rattle.tc_world.specs.EitherLink.{IsMade, content_of};
ghost use Rattle.tc_room.specs.Opening.{IsReopened};
ghost use Rattle.tc_room.specs.Room.{IsNewDesk};

use std::alloc::Global;
use tc_desk::{Desk, Reopened};
use tc_types::{Frame, Image, Moment, Refusal, Report};
use tc_world::{Config, LinkCarrier, is_fit};

/// A desk over two lists or two rings.
pub type LinkDesk = Desk<LinkCarrier<Frame, Global>, LinkCarrier<Report, Global>, Global>;

/// Such a desk that was opened over tables that were left, and what that made.
pub type ReopenedDesk = Reopened<LinkCarrier<Frame, Global>, LinkCarrier<Report, Global>, Global>;

/// A link with nothing in flight: a ring of so many items, or a list where no size is given. `Memory` where that is refused.
fn link_of<T: Drop>(alloc: Global, ring: Option<u32>) -> Result<LinkCarrier<T, Global>, Refusal>
    requires { IsRing ring }
    ensures made { IfOk result (λ link. IsMade ring link) }
    ensures empty { IfOk result (λ link. content_of link ≡ []) }
    ensures refused { IfErr result (λ refusal. refusal ≡ Memory) }
{
    LinkCarrier::new(alloc, ring)
}

/// The two directions of a link.
#[derive(Drop)]
struct Links {
    up: LinkCarrier<Frame, Global>,
    down: LinkCarrier<Report, Global>,
}

/// Makes the link of a desk, with nothing in flight, as it was chosen. Fails with `BadDirective` exactly where no desk may be made so; else
/// with `Memory` where that is refused.
fn make_links(alloc: Global, config: Config) -> Result<Links, Refusal>
    ensures up { IfOk result (λ links. IsMade config.ring links.up × (content_of links.up ≡ [])) }
    ensures down { IfOk result (λ links. IsMade config.ring links.down × (content_of links.down ≡ [])) }
    ensures choice { MakesOf config result }
{
    if !is_fit(config) {
        return Err(Refusal::BadDirective);
    }
    let up = link_of(alloc, config.ring)?;
    let down = link_of(alloc, config.ring)?;
    Ok(Links { up, down })
}

/// Makes a desk where nothing happened yet. Fails with `BadDirective` exactly where the window is not even and 2 to 254, the
/// channel is above 63, or a ring is none of 1 to 4,096 items; else with `Memory` where that is refused.
pub(crate) fn make_desk(alloc: Global, config: Config) -> Result<LinkDesk, Refusal>
    ensures made { IfOk result (λ desk. IsNewDesk config desk.parts) }
    ensures opened { IfOk result (λ desk. desk.opened ≡ 0) }
    ensures whole { IfOk result (λ desk. desk.whole ≡ true) }
    ensures good { IfOk result (λ desk. IsGoodBook desk.parts.book) }
    ensures choice { MakesOf config result }
{
    let Links { up, down } = make_links(alloc, config)?;
    Desk::new(alloc, config, up, down)
}

/// Opens a desk over the tables that were left, at a moment. Fails with `BadDirective` where the window is not even and 2 to 254, the
/// channel is above 63, or a ring is none of 1 to 4,096 items, with `Store` where no desk could have written the tables, and with `Memory`
/// where that is refused.
pub(crate) fn reopen_desk(
    alloc: Global,
    image: &Image,
    config: Config,
    moment: Moment,
) -> Result<ReopenedDesk, Refusal>
    ensures desk { IfOk result (λ opened. IsReopened config moment (rows_in image.now) opened.desk.parts) }
    ensures opened { IfOk result (λ opened. opened.desk.opened ≡ length opened.desk.parts.book.history) }
    ensures whole { IfOk result (λ opened. opened.desk.whole ≡ true) }
    ensures made { IfOk result (λ opened. MakesOpening (rows_in image.now) opened.desk.parts.book opened.done.moves.items opened.done.batch.items) }
    ensures choice { OpensOf config (rows_in image.now) result }
{
    let Links { up, down } = make_links(alloc, config)?;
    Desk::reopen(alloc, image, config, moment, up, down)
}
