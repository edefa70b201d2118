//! The dice of the random texts.
use rand_core::{Rng, SeedableRng};
use rand_xoshiro::SplitMix64;

/// The dice.
#[derive(Drop)]
pub struct Dice {
    words: SplitMix64,
}

impl Dice {
    /// Dice with this seed.
    pub fn new(seed: u64) -> Dice {
        Dice {
            words: SplitMix64::seed_from_u64(seed),
        }
    }

    /// A number below this one.
    pub fn roll(&mut self, sides: u32) -> u32 {
        self.words.next_u32().checked_rem(sides).unwrap_or(0)
    }

    /// A byte below this number.
    pub fn byte(&mut self, sides: u32) -> u8 {
        u8::try_from(self.roll(sides)).unwrap_or(0)
    }

    /// Whether one of so many sides falls.
    pub fn one_in(&mut self, sides: u32) -> bool {
        self.roll(sides) == 0
    }

    /// One of these: mostly one of the first `good`, now and then any.
    pub fn pick(&mut self, given: &[&'static [u8]], good: u32) -> &'static [u8] {
        let count = u32::try_from(given.len()).unwrap_or(good);
        let most = if self.one_in(60) { count } else { good };
        match given.get(self.roll(most) as usize) {
            Some(field) => *field,
            None => b"",
        }
    }
}
