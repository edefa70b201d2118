//! Persons. A contract sees a `Person` as the bytes of its name.
ghost use Rattle.std.specs.Prelude.{◌≡◌, ◌≢◌, ◌↔◌, ℕ, List, IsSome, IfSome, IsTrue};
ghost use Rattle.tc_types.specs.Names.{IsPerson, desk_name};
ghost use Rattle.tc_types.specs.Grammar.{Reads};

use crate::names::{DESK, Name};
use std::marker::Model;

/// Who acts at the desk: any name but `desk`, which is the desk itself.
#[derive(Clone, Copy, Debug, PartialEq, Eq)]
pub struct Person {
    name: Name,
}

impl Model for Person {
    ghost use Rattle.std.specs.Prelude.{ℕ, List};
    ghost use Rattle.tc_types.specs.Names.{IsPerson};

    ghost Value = { List ℕ };

    ghost view = { λ p. p.name };

    ghost invariant = { λ p. IsPerson p.name };

    ghost inverse = { λ name. record { name = name } };
}

/// Whether a name is a person's: any but the desk's own.
pub fn is_person(name: &Name) -> bool
    ensures { IsTrue result ↔ IsPerson name.now }
{
    name.keeps_form();
    name.as_str().as_bytes() != DESK
}

impl Person {
    /// The person with this name; `None` where it is the desk's own.
    pub fn new(name: Name) -> Option<Person>
        ensures found { IsSome result ↔ (name ≢ desk_name) }
        ensures value { IfSome result (λ person. person ≡ name) }
    {
        if is_person(&name) {
            Some(Person { name })
        } else {
            None
        }
    }

    /// The person whose name these bytes are; `None` where they are no name, or the desk's own.
    pub fn read(word: &[u8]) -> Option<Person>
        ensures { Reads {X = List ℕ} (λ person. person) IsPerson word.now result }
    {
        Person::new(Name::read(word)?)
    }

    /// The name, which is not the desk's.
    pub fn name(&self) -> Name
        ensures value { result ≡ self.now }
        ensures person { IsPerson self.now }
    {
        self.name
    }
}
