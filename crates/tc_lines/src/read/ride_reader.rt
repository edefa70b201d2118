//! The two lists of an insert, read side by side: the requests that it names, and their times.
ghost use Rattle.std.specs.Prelude.{◌≡◌, ◌∷◌, [], ℕ, List, IfSome, Some, map};
ghost use Rattle.tc_types.specs.declared.rides.Ride.{Ride as SomeRide};
ghost use Rattle.tc_types.specs.Grammar.{Reads, listed, target_word, time_word, IsRide, AreRides};

use crate::read::readers::{moment, number};
use crate::read::words::Words;
use tc_types::{MOST_INSERTED, Ride, Rides};

/// The next word of each list, as one activity.
fn next_ride(targets: &mut Words<'_>, times: &mut Words<'_>) -> Option<Ride>
    ensures found { IfSome result (λ r. (targets.old ≡ target_word r ∷ targets.new) × (times.old ≡ time_word r ∷ times.new) × IsRide r) }
    ensures only { (r : SomeRide) (others more : List (List ℕ)) → IsRide r → targets.old ≡ target_word r ∷ others → times.old ≡ time_word r ∷ more → (result ≡ Some r) × (targets.new ≡ others) × (times.new ≡ more) }
{
    let target = number(targets.next()?)?;
    let time = moment(times.next()?)?;
    Some(Ride { target, time })
}

/// The words of two lists, as 1 to 8 activities.
fn rides_of(targets: &mut Words<'_>, times: &mut Words<'_>) -> Option<Rides>
    ensures found { IfSome result (λ rides. (targets.old ≡ map target_word rides) × (times.old ≡ map time_word rides) × AreRides rides) }
    ensures only { (rides : List SomeRide) → AreRides rides → targets.old ≡ map target_word rides → times.old ≡ map time_word rides → result ≡ Some rides }
{
    let mut places = [next_ride(targets, times)?; MOST_INSERTED];
    let mut count = 1;
    while count < MOST_INSERTED && targets.end().is_none() {
        places[count] = next_ride(targets, times)?;
        count += 1;
    }
    targets.end()?;
    times.end()?;
    Rides::of(&places[..count])
}

/// The activities that an insert names, by its two words.
pub fn rides(target: &[u8], time: &[u8]) -> Option<Rides>
    ensures { Reads (λ rides. listed target_word rides ∷ listed time_word rides ∷ []) AreRides (target.now ∷ time.now ∷ []) result }
{
    rides_of(&mut Words::new(target, b';'), &mut Words::new(time, b';'))
}
