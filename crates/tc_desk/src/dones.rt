//! What an act answers.
ghost use Rattle.std.specs.Prelude.{◌≡◌, []};

use crate::firsts::FirstLine;
use std::alloc::Allocator;
use tc_book::Draft;
use tc_types::{Move, Row};
use tc_world::Indications;

/// What an act that was carried out made.
#[derive(Drop)]
pub struct Done<A: Allocator + Copy + Drop> {
    /// What the first line of the reply says.
    pub first: FirstLine,
    /// What the link told, in order.
    pub said: Indications<A>,
    /// The rows of the history that it made, in order.
    pub moves: Vec<Move, A>,
    /// The rows of the tables that it made.
    pub batch: Vec<Row, A>,
}

/// What it made, and whether nothing of the downlink was lost.
#[derive(Drop)]
pub(crate) struct Acted<A: Allocator + Copy + Drop> {
    /// What it made.
    pub(crate) done: Done<A>,
    /// Whether as much came down and flies down now as flew there before and was put.
    pub(crate) kept: bool,
}

/// What the book alone made, of a draft that is filled: the link told nothing.
pub(crate) fn answer<A: Allocator + Copy + Drop>(alloc: A, filled: Draft<A>) -> Done<A>
    ensures first { result.first ≡ FirstLine.Book filled.first }
    ensures said { result.said ≡ [] }
    ensures moves { result.moves.items ≡ filled.moves.items }
    ensures batch { result.batch.items ≡ filled.batch.items }
{
    let Draft {
        first,
        moves,
        batch,
    } = filled;
    Done {
        first: FirstLine::Book(first),
        said: Indications::none(alloc),
        moves,
        batch,
    }
}
