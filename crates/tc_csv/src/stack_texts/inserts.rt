//! The two fields of an insert: the lines that it names, and an instant for each, parted by semicolons.
ghost use Rattle.std.specs.Prelude.{◌≡◌, List, Some, IfSome};
ghost use Rattle.std.specs.Fmt.{decimal};
ghost use Rattle.tc_types.specs.declared.rides.Ride.{Ride as SomeRide};
ghost use Rattle.tc_types.specs.Grammar.{Reads, listed};
ghost use Rattle.tc_types.specs.Inserts.{IsInsert};
ghost use Rattle.tc_csv.specs.CommandTexts.{AreLines, AreAt};

use crate::instants::instant;
use crate::stack_texts::commands::earlier;
use tc_lines::cut;
use tc_types::{MOST_INSERTED, Ride, Rides, Targets};

/// 1 to 8 earlier lines.
pub(crate) fn earlier_lines(line: u32, field: &[u8]) -> Option<Targets>
    ensures { Reads (λ lines. listed decimal lines) (AreLines line) field.now result }
{
    let mut places = [0; MOST_INSERTED];
    let mut count = 0;
    let mut left = Some(field);
    while let Some(text) = left {
        if count == MOST_INSERTED {
            return None;
        }
        let (word, rest) = cut(text, b';');
        places[count] = earlier(line, word)?;
        count += 1;
        left = rest;
    }
    Targets::of(&places[..count])
}

/// An instant for each of these lines.
pub(crate) fn instants(lines: &[u32], field: &[u8]) -> Option<Rides>
    requires { IsInsert lines.now }
    ensures found { IfSome result (AreAt lines.now field.now) }
    ensures only { (rides : List SomeRide) → AreAt lines.now field.now rides → result ≡ Some rides }
{
    let (word, mut left) = cut(field, b';');
    let time = instant(word)?;
    let target = *lines.first()?;
    let mut places = [Ride { target, time }; MOST_INSERTED];
    let mut count = 1;
    while count < lines.len() {
        let (word, rest) = cut(left?, b';');
        let time = instant(word)?;
        let target = lines[count];
        places[count] = Ride { target, time };
        count += 1;
        left = rest;
    }
    match left {
        Some(_) => None,
        None => Rides::of(&places[..count]),
    }
}
