//! The room that an act takes before it does anything: for its records, its moves and its batch.
ghost use Rattle.std.specs.Prelude.{◌≡◌, ◌+◌, ◌<◌, ◌^◌, IfOk, OnOk};
ghost use Rattle.tc_book.specs.Batch.{HasRoomFor, batch_rows};
ghost use Rattle.tc_book.specs.Records.{TellsTheSame, HasRoom};

use crate::firsts::First;
use crate::records::Records;
use std::alloc::{AllocError, Allocator};
use tc_types::{Move, PLACES, Row};

/// An answer with room for the moves and the batch of an act, and none there yet.
#[derive(Drop)]
pub struct Draft<A: Allocator + Copy + Drop> {
    /// What the first line of the reply will say.
    pub first: First,
    /// Room for the moves.
    pub moves: Vec<Move, A>,
    /// Room for the rows of the tables.
    pub batch: Vec<Row, A>,
}

/// How much an act needs room for. An act names what it needs, and nothing else.
#[derive(Clone, Copy, Debug, PartialEq, Eq)]
pub struct Needs {
    /// How many requests it enters.
    pub requests: usize,
    /// How many rows of the history it writes.
    pub rows: usize,
    /// How many activities it enters behind the first of their inserts.
    pub cargo: usize,
    /// How many rows of the log it writes.
    pub log: usize,
}

impl Needs {
    /// What an act needs that writes nothing.
    pub const NONE: Needs = Needs {
        requests: 0,
        rows: 0,
        cargo: 0,
        log: 0,
    };
}

/// Makes room for all that an act needs. Where memory is refused the book is as it was.
pub fn make_room<A: Allocator + Copy + Drop>(
    records: &mut Records<A>,
    alloc: A,
    first: First,
    needs: Needs,
) -> Result<Draft<A>, AllocError>
    requires { needs.requests + needs.rows + needs.cargo + needs.log < 2 ^ 32 }
    ensures same { TellsTheSame records.old records.new }
    ensures first { IfOk result (λ draft. draft.first ≡ first) }
    ensures moves { IfOk result (λ draft. HasRoomFor needs.rows draft.moves) }
    ensures batch { IfOk result (λ draft. HasRoomFor (batch_rows needs.requests needs.rows + needs.cargo + needs.log) draft.batch) }
    ensures room { OnOk result (HasRoom needs.requests needs.rows records.new) }
{
    let Needs {
        requests,
        rows,
        cargo,
        log,
    } = needs;
    let moves = Vec::with_capacity(alloc, rows)?;
    let entered = requests + requests + cargo;
    let batch = Vec::with_capacity(alloc, entered + rows + rows + log + PLACES + 2)?;
    records.reserve(requests, rows)?;
    Ok(Draft {
        first,
        moves,
        batch,
    })
}
