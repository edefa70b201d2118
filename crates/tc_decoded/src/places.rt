//! The places of a layer's octets in the whole text.
ghost use Rattle.std.specs.Prelude.{◌≡◌, ◌+◌, ◌<◌, ◌≤◌, ◌^◌};
ghost use Rattle.tc_decoded.specs.Places.{coded_from, later, the_whole};
ghost use Rattle.tc_decoded.specs.Rows.{place_of};

/// The place of a layer's octets.
#[derive(Clone, Copy)]
pub(crate) struct Place {
    /// How many octets of the whole stand before the outermost layer.
    pub start: u32,
    /// How many octets of that layer stand before this one.
    pub skipped: u32,
    /// Whether that layer is the information of codeblocks.
    pub coded: bool,
}

impl Place {
    /// Returns the place of the whole text.
    pub(crate) fn whole() -> Place
        ensures { result ≡ the_whole }
    {
        Place {
            start: 0,
            skipped: 0,
            coded: false,
        }
    }

    /// Returns the place of the information of codeblocks that begin after so many octets.
    pub(crate) fn coded(start: u32) -> Place
        ensures { result ≡ coded_from start }
    {
        Place {
            start,
            skipped: 0,
            coded: true,
        }
    }

    /// Returns the place of a layer that begins after so many octets of this one.
    pub(crate) fn later(&self, octets: u32) -> Place
        requires { self.now.skipped + octets < 2 ^ 32 }
        ensures { result ≡ later self.now octets }
    {
        Place {
            start: self.start,
            skipped: self.skipped + octets,
            coded: self.coded,
        }
    }

    /// Returns an octet of the whole, from 1, by its number in the layer, from 0.
    pub(crate) fn octet(&self, octet: u64) -> u64
        requires { octet ≤ 2 ^ 32 }
        ensures { result ≡ place_of self.now octet }
    {
        let number = u64::from(self.skipped) + octet;
        let passed = if self.coded {
            number / 7 * 8 + number % 7
        } else {
            number
        };
        u64::from(self.start) + passed + 1
    }
}
