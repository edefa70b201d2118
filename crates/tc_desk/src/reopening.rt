//! A desk over tables that were left: the book is opened, and the link, the spacecraft and the mirror are new.
ghost use Rattle.std.specs.Prelude.{◌≡◌, IfOk, []};
ghost use Rattle.tc_types.specs.Images.{rows_in};
ghost use Rattle.tc_world.specs.Links.{AreEmpty};
ghost use Rattle.tc_book.specs.Sound.{IsSound};
ghost use Rattle.tc_book.specs.Tables.{image_of};
ghost use Rattle.tc_desk.specs.Acts.{plain};
ghost use Rattle.tc_desk.specs.Opening.{MakesOpening, OpensOf, reopened_desk};

use crate::desks::{Desk, Reopened};
use crate::dones::answer;
use crate::parts::{Parts, farm_of};
use std::alloc::Allocator;
use tc_book::laws::a_good_book_is_sound;
use tc_book::{Opened, open};
use tc_types::{Frame, Image, Moment, Refusal, Report};
use tc_world::{Carrier, Config};

impl<U: Carrier<Frame> + Drop, D: Carrier<Report> + Drop, A: Allocator + Copy + Drop> Desk<
    U,
    D,
    A,
> {
    /// A desk over the tables that were left, at a moment, over these carriers, which are empty: each request that was on its way is
    /// moved by the desk itself, and the link and the spacecraft are new. `BadDirective` unless the window is even and 2 to 254, the
    /// channel 0 to 63, and the links are lists or rings of 1 to 4,096 items; else `Store` where no desk could have written the
    /// tables, or `Memory` where that is refused. `moves` are the rows of the history that the opening made, and `batch` turns the
    /// tables that were left into those of the book.
    pub fn reopen(
        alloc: A,
        image: &Image,
        config: Config,
        moment: Moment,
        up: U,
        down: D,
    ) -> Result<Reopened<U, D, A>, Refusal>
        requires { AreEmpty U.kind D.kind up down }
        ensures desk { IfOk result (λ opened. opened.desk ≡ reopened_desk config moment (rows_in image.now) up down) }
        ensures made { IfOk result (λ opened. MakesOpening (rows_in image.now) opened.desk.parts.book opened.done.moves.items opened.done.batch.items) }
        // its own tables are such as an opening takes again
        ensures sound_again { IfOk result (λ opened. IsSound (image_of opened.desk.parts.book)) }
        ensures silent { IfOk result (λ opened. opened.done.said ≡ []) }
        ensures first { IfOk result (λ opened. opened.done.first ≡ plain) }
        ensures choice { OpensOf config (rows_in image.now) result }
    {
        // a good book's tables are sound
        a_good_book_is_sound();
        let farm = farm_of(config)?;
        let Opened { records, draft } = open(alloc, image, moment)?;
        let opened = records.mark().rows;
        let parts = Parts::over(alloc, records, config, farm, up, down)?;
        Ok(Reopened {
            desk: Desk::over(parts, opened),
            done: answer(alloc, draft),
        })
    }
}
