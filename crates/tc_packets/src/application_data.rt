//! The application data of plain requests. A contract sees `ApplicationData` as the list of their octets.
ghost use Rattle.std.specs.Prelude.{◌≡◌, ◌≤◌, ◌↔◌, [], IsSome, IfSome, length};
ghost use Rattle.tc_packets.specs.ApplicationData.{most_data};

use std::marker::Model;

/// The most octets of application data that a plain request has (this project's own): eight such requests fit one insert.
pub const MOST_DATA: usize = 96;

/// The application data of a plain request: 0 to 96 octets.
///
/// The places after the last are 0, so that equal lists are equal values.
#[derive(Clone, Copy, Debug, PartialEq, Eq)]
pub struct ApplicationData {
    octets: [u8; 96],
    count: u8,
}

impl Model for ApplicationData {
    ghost use Rattle.std.specs.Prelude.{◌≡◌, ◌≤◌, ℕ, List, length, take};
    ghost use Rattle.tc_packets.specs.ApplicationData.{most_data, padded_data};

    ghost Value = { List ℕ };

    ghost view = { λ d. take d.count d.octets };

    ghost invariant = { λ d. (d.count ≤ most_data) × (d.octets ≡ padded_data (take d.count d.octets)) × (length d.octets ≡ 96)
        × (length (take d.count d.octets) ≤ most_data) };

    ghost inverse = { λ octets. record { octets = padded_data octets; count = length octets } };
}

impl ApplicationData {
    /// Returns these octets; `None` if they are more than 96.
    pub fn of(octets: &[u8]) -> Option<ApplicationData>
        ensures found { IsSome result ↔ (length octets.now ≤ most_data) }
        ensures value { IfSome result (λ d. d ≡ octets.now) }
    {
        if octets.len() > MOST_DATA {
            return None;
        }
        let mut places = [0; MOST_DATA];
        places[..octets.len()].copy_from_slice(octets);
        Some(ApplicationData {
            octets: places,
            count: octets.len() as u8,
        })
    }

    /// Returns an empty one.
    pub fn none() -> ApplicationData
        ensures { result ≡ [] }
    {
        ApplicationData {
            octets: [0; MOST_DATA],
            count: 0,
        }
    }

    /// Returns the octets, in order.
    pub fn as_slice(&self) -> &[u8]
        ensures octets { result.now ≡ self.now }
        ensures few { length self.now ≤ most_data }
    {
        &self.octets[..usize::from(self.count)]
    }
}
