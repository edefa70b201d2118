//! The randomizer of telecommand frames.
ghost use Rattle.std.specs.Prelude.{◌≡◌};
ghost use Rattle.tc_octets.specs.Randomizer.{window_step, next_octet, randomized};

/// Returns the last eight bits of the sequence, one bit later: the next one goes in at the end, and the first one goes out.
#[tactic(auto, unfolding(crate::specs::Randomizer::window_step))]
fn stepped(window: u8) -> u8
    ensures { result ≡ window_step window }
{
    let next = window / 128 % 2
        + window / 64 % 2
        + window / 32 % 2
        + window / 16 % 2
        + window / 8 % 2
        + window / 2 % 2;
    window % 128 * 2 + next % 2
}

/// Returns the next octet of the sequence.
#[tactic(auto, using(crate::proofs::RandomizerLemmas::more, crate::proofs::RandomizerLemmas::none), unfolding(crate::specs::Randomizer::next_octet))]
fn next(window: u8) -> u8
    ensures { result ≡ next_octet window }
{
    let mut after = window;
    for _left in (0..8u32).rev() {
        after = stepped(after);
    }
    after
}

/// Lays the randomizer's sequence over the octets of a frame, from its first octet on (CCSDS 231.0-B): x^8 + x^6 + x^4 + x^3 + x^2 + x + 1, preset
/// ones. Doing it twice undoes it.
#[tactic(auto, using(crate::proofs::RandomizerLemmas::octet_randomized, crate::proofs::RandomizerLemmas::all_randomized, crate::proofs::RandomizerLemmas::undone))]
pub fn randomize(octets: &mut [u8])
    ensures value { octets.new ≡ randomized octets.old }
    ensures twice { randomized octets.new ≡ octets.old }
{
    let mut window = 0xff;
    for octet in octets.iter_mut() {
        *octet ^= window;
        window = next(window);
    }
}
