//! A request that comes in pieces, until it is whole.
ghost use Rattle.std.specs.Prelude.{◌≡◌, ◌<◌, ◌++◌, IfOk, MatchBool, OnErr, OnOk, [], false, length};
ghost use Rattle.tc_front.specs.Front.{Asked, IsDecided, Waits};

use crate::routes::Routes;
use crate::watch::Watch;
use std::alloc::{AllocError, Global};
use std::marker::Model;

/// A request of which more bytes come. A contract sees the bytes that came.
#[derive(Drop)]
pub struct Arriving {
    text: Vec<u8>,
    watch: Watch,
}

impl Model for Arriving {
    ghost use Rattle.std.specs.Prelude.{ℕ, List};
    ghost use Rattle.tc_front.specs.Watch.{Watches};

    ghost Value = { List ℕ };

    ghost view = { λ arriving. arriving.text.items };

    ghost invariant = { λ arriving. Watches arriving.watch arriving.text.items };
}

impl Arriving {
    /// A request of which nothing has come.
    pub fn new(alloc: Global) -> Arriving
        ensures { result ≡ [] }
    {
        Arriving {
            text: Vec::new(alloc),
            watch: Watch::new(),
        }
    }

    /// Adds the bytes that came. Says whether the request is whole, or enough of it is there to refuse it. Fails only if memory is refused; the request is
    /// then as it was.
    pub fn add(&mut self, routes: &Routes, bytes: &[u8]) -> Result<bool, AllocError>
        ensures added { OnOk result (self.new ≡ self.old ++ bytes.now) }
        ensures whole { IfOk result (λ whole. MatchBool whole ((asked : Asked) × IsDecided self.new asked) (Waits self.new)) }
        // so a request that is not whole is no larger than this
        ensures short { IfOk result (λ whole. whole ≡ false → length self.new < 73728) }
        ensures kept { OnErr result (self.new ≡ self.old) }
    {
        self.text.extend_from_slice(bytes)?;
        Ok(self.watch.decides(routes, &self.text))
    }

    /// The bytes that came.
    pub(crate) fn into_text(self) -> Vec<u8>
        ensures { result.items ≡ self }
    {
        let Arriving { text, watch: _ } = self;
        text
    }
}
