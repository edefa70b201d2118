//! What is chosen of a link as it is made.
ghost use Rattle.std.specs.Prelude.{◌↔◌, IsTrue};
ghost use Rattle.tc_world.specs.Config.{IsConfig, IsRing};

/// The most items that a link may hold which is a ring.
pub const GREATEST_RING: u32 = 4_096;

/// The window of the FARM, the channel of the link, and how its two directions hold what is in flight.
#[derive(Clone, Copy, Debug, PartialEq, Eq)]
pub struct Config {
    /// W, the FARM's window width: even, 2 to 254.
    pub window: u16,
    /// The virtual channel, 0 to 63.
    pub channel: u8,
    /// Two rings of so many items, 1 to `GREATEST_RING`, which drop their oldest where they are full; or two lists, which lose only
    /// what they are told to lose.
    pub ring: Option<u32>,
}

/// Whether links may be made so: lists, or rings of 1 to 4,096 items.
fn is_ring(ring: Option<u32>) -> bool
    ensures { IsTrue result ↔ IsRing ring }
{
    match ring {
        Some(size) => 1 <= size && size <= GREATEST_RING,
        None => true,
    }
}

/// Whether a link may be made so: a window that is even and 2 to 254, a channel of 0 to 63, and lists, or rings of 1 to 4,096 items.
pub fn is_fit(config: Config) -> bool
    ensures { IsTrue result ↔ IsConfig config }
{
    2 <= config.window
        && config.window <= 254
        && config.window % 2 == 0
        && config.channel <= 63
        && is_ring(config.ring)
}
