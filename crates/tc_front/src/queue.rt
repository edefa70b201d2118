//! The requests that are whole, first come, first served.
ghost use Rattle.std.specs.Prelude.{◌≡◌, ◌++◌, ◌∷◌, [], IfSome, MatchOption, OnErr, OnOk};
ghost use Rattle.tc_front.specs.Front.{Asked, IsDecided};

use crate::arriving::Arriving;
use std::alloc::{AllocError, Global};
use std::collections::VecDeque;
use std::marker::Model;

/// A request that is whole.
#[derive(Drop)]
pub struct Whole {
    /// The place of the connection that it came by.
    pub peer: usize,
    /// Its bytes, and what came after them in the same piece.
    pub text: Vec<u8>,
}

/// The requests that wait to be served, in the order in which they became whole.
#[derive(Drop)]
pub struct Queue {
    waiting: VecDeque<Whole>,
}

impl Model for Queue {
    ghost use Rattle.std.specs.Prelude.{ℕ, All, List, map};
    ghost use Rattle.tc_front.specs.Front.{Asked, IsDecided};

    ghost Value = { List (ℕ × List ℕ) };

    ghost view = { λ queue. map (λ whole. (whole.peer, whole.text.items)) queue.waiting.items };

    ghost invariant = { λ queue. All (λ whole. (asked : Asked) × IsDecided whole.text.items asked) queue.waiting.items };
}

impl Queue {
    /// A queue in which nothing waits.
    pub fn new(alloc: Global) -> Queue
        ensures { result ≡ [] }
    {
        Queue {
            waiting: VecDeque::new(alloc),
        }
    }

    /// Adds the request that came by this connection, after all that wait. Fails only if memory is refused; the request is then dropped.
    pub fn push(&mut self, peer: usize, request: Arriving) -> Result<(), AllocError>
        requires { (asked : Asked) × IsDecided request asked }
        ensures last { OnOk result (self.new ≡ self.old ++ (peer, request) ∷ []) }
        ensures kept { OnErr result (self.new ≡ self.old) }
    {
        let text = request.into_text();
        match self.waiting.push_back(Whole { peer, text }) {
            Ok(()) => Ok(()),
            Err(_) => Err(AllocError),
        }
    }

    /// Takes the request that became whole first, if one waits.
    pub fn pop(&mut self) -> Option<Whole>
        ensures first { MatchOption result ((self.old ≡ []) × (self.new ≡ [])) (λ whole. self.old ≡ (whole.peer, whole.text.items) ∷ self.new) }
        ensures whole { IfSome result (λ whole. (asked : Asked) × IsDecided whole.text.items asked) }
    {
        self.waiting.pop_front()
    }
}
