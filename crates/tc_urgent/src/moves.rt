//! The last move of each request.
ghost use Rattle.std.specs.Prelude.{◌≡◌, ◌-◌, ◌<◌, IfOk, set};
ghost use Rattle.tc_urgent.specs.declared.moves.LastMove.{LastMove as SomeLastMove};
ghost use Rattle.tc_urgent.specs.Judging.{AreLastMoves, latest};

use std::alloc::{AllocError, Allocator};
use tc_types::Move;

/// The last move of a request.
#[derive(Clone, Copy)]
pub(crate) struct LastMove {
    /// Its number; 0 if the request never moved.
    pub seq: u32,
    /// When it was, in whole Unix seconds.
    pub moment: u32,
}

/// No move.
const UNMOVED: LastMove = LastMove { seq: 0, moment: 0 };

/// Notes a move as the last of its request.
fn note_move(last: &mut [LastMove], row: &Move)
    ensures noted { last.new ≡ set last.old (row.now.request - 1) (let at : SomeLastMove = record { seq = row.now.seq; moment = row.now.moment } in at) }
    ensures some { 0 < row.now.request }
{
    let place = row.request.get() as usize - 1;
    if place < last.len() {
        last[place] = LastMove {
            seq: row.seq,
            moment: row.moment.get(),
        };
    }
}

/// The last moves of the first `count` requests, in order of number. Fails if memory is refused.
pub(crate) fn last_moves<A: Allocator + Copy>(
    alloc: A,
    rows: &[Move],
    count: usize,
) -> Result<Vec<LastMove, A>, AllocError>
    ensures { IfOk result (λ last. AreLastMoves rows.now count last.items) }
{
    let mut last = vec![in alloc; UNMOVED; count]?;
    for row in rows {
        note_move(&mut last, row);
    }
    Ok(last)
}

/// The moment of the last of these moves; 0 if there is none.
pub(crate) fn latest(rows: &[Move]) -> u32
    ensures { result ≡ latest rows.now }
{
    match rows.last() {
        Some(row) => row.moment.get(),
        None => 0,
    }
}
