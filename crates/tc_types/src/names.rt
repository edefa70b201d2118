//! Names of persons, stacks and procedures. A contract sees a `Name` as its bytes.
ghost use Rattle.std.specs.Prelude.{◌≡◌, ◌↔◌, IsTrue, IsSome, IfSome};
ghost use Rattle.std.specs.List.{list_all};
ghost use Rattle.tc_types.specs.Names.{is_name_byte, IsName, is_same_name};

use std::marker::Model;
use std::str;

/// The most bytes that a name has.
pub const LONGEST_NAME: usize = 16;

/// A name of a person, a stack or a procedure: 1 to 16 of the characters `a-z0-9`.
///
/// The name `desk` is the desk's own: no person has it (`Person`).
#[derive(Clone, Copy, Debug, PartialEq, Eq)]
pub struct Name {
    bytes: [u8; 16],
    len: u8,
}

impl Model for Name {
    ghost use Rattle.std.specs.Prelude.{◌≡◌, ◌≤◌, ℕ, List, length, take};
    ghost use Rattle.tc_types.specs.Names.{IsName, padded_name};

    ghost Value = { List ℕ };

    ghost view = { λ n. take n.len n.bytes };

    ghost invariant = { λ n. (n.len ≤ 16) × (n.bytes ≡ padded_name (take n.len n.bytes)) × (length n.bytes ≡ 16) × IsName (take n.len n.bytes) };

    ghost inverse = { λ name. record { bytes = padded_name name; len = length name } };
}

/// The name by which the desk's own moves are made.
pub const DESK: &[u8] = b"desk";

/// Whether this byte may stand in a name.
fn fits_name(byte: u8) -> bool
    ensures { result ≡ is_name_byte byte }
{
    byte.is_ascii_lowercase() || byte.is_ascii_digit()
}

/// Whether all these bytes may stand in a name.
fn fit_name(bytes: &[u8]) -> bool
    ensures { result ≡ list_all is_name_byte bytes.now }
{
    bytes.iter().all(|byte| fits_name(*byte))
}

/// Whether these bytes are a name.
pub fn is_name(bytes: &[u8]) -> bool
    ensures { IsTrue result ↔ IsName bytes.now }
{
    !bytes.is_empty() && bytes.len() <= LONGEST_NAME && fit_name(bytes)
}

/// Whether two names are the same.
pub fn is_same_name(a: &Name, b: &Name) -> bool
    ensures { result ≡ is_same_name a.now b.now }
{
    a.as_str() == b.as_str()
}

impl Name {
    /// The name with these bytes; `None` where they are none.
    pub fn read(bytes: &[u8]) -> Option<Name>
        ensures found { IsSome result ↔ IsName bytes.now }
        ensures value { IfSome result (λ n. n ≡ bytes.now) }
    {
        if !is_name(bytes) {
            return None;
        }
        let mut padded = [0; LONGEST_NAME];
        padded[..bytes.len()].copy_from_slice(bytes);
        Some(Name {
            bytes: padded,
            len: bytes.len() as u8,
        })
    }

    /// A name has its form: its type keeps it. This does nothing; its clause is the law.
    pub fn keeps_form(&self)
        ensures { IsName self.now }
    {
        let _length = self.len; // read for the proof alone
    }

    /// The name as text, in its form.
    pub fn as_str(&self) -> &str
        ensures text { result.now ≡ self.now }
        ensures name { IsName result.now }
    {
        str::from_utf8(&self.bytes[..usize::from(self.len)]).unwrap()
    }
}
