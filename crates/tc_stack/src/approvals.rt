//! The approval of a request by other persons than its author (this desk's own rule).
ghost use Rattle.std.specs.Prelude.{◌≡◌, ◌<◌, ◌≤◌, ◌++◌, ◌∷◌, [], length, slice_get, IfOk};
ghost use Rattle.std.specs.List.{list_any};
ghost use Rattle.tc_stack.specs.Approvals.{unapproved, wanted, is_complete, is_same_person, refusal_of, after_approval, refused_with, IsApproval};
ghost use Rattle.tc_stack.specs.Given.{persons_of};

use std::marker::Model;
use tc_types::{Name, Refusal};

/// Who approved so far.
#[derive(Clone, Copy, Debug, PartialEq, Eq)]
enum Given {
    /// Nobody.
    Nobody,
    /// One person.
    One(Name),
    /// Two persons.
    Two(Name, Name),
}

/// The approval of a request: its author, whether two persons are wanted, and who approved, never more than are wanted, no
/// person twice, and not the author. A contract sees the persons as a list. It takes no memory.
#[derive(Debug, Drop)]
pub struct Approvals {
    author: Name,
    critical: bool,
    given: Given,
}

impl Model for Approvals {
    ghost use Rattle.tc_stack.specs.Approvals.{ApprovalState, IsApproval};
    ghost use Rattle.tc_stack.specs.Given.{persons_of};

    ghost Value = { ApprovalState };

    ghost view = { λ a. record { author = a.author; critical = a.critical; persons = persons_of a.given } };

    ghost invariant = { λ a. IsApproval (record { author = a.author; critical = a.critical; persons = persons_of a.given }) };
}

/// Whether two names are of one person.
fn is_same_person(a: &Name, b: &Name) -> bool
    ensures { result ≡ is_same_person a.now b.now }
{
    a.as_str() == b.as_str()
}

impl Given {
    /// One person more, of at most two.
    fn with(&self, person: Name) -> Given
        requires { length (persons_of self.now) < 2 }
        ensures { persons_of result ≡ persons_of self.now ++ person ∷ [] }
    {
        match self {
            Given::Nobody => Given::One(person),
            Given::One(first) | Given::Two(first, _) => Given::Two(*first, person),
        }
    }
}

impl Approvals {
    /// Nobody approved so far. Two persons are wanted where the request is critical, else one.
    pub fn new(author: Name, critical: bool) -> Approvals
        ensures { result ≡ unapproved author critical }
    {
        Approvals {
            author,
            critical,
            given: Given::Nobody,
        }
    }

    /// Whose the request is; this person may not approve it.
    pub fn author(&self) -> Name
        ensures { result ≡ self.now.author }
    {
        self.author
    }

    /// Whether two persons are wanted.
    pub fn is_critical(&self) -> bool
        ensures { result ≡ self.now.critical }
    {
        self.critical
    }

    /// Who approved first, if anybody did.
    pub fn first(&self) -> Option<Name>
        ensures { result ≡ slice_get self.now.persons 0 }
    {
        match &self.given {
            Given::Nobody => None,
            Given::One(first) | Given::Two(first, _) => Some(*first),
        }
    }

    /// How many persons are wanted: 1 or 2.
    pub fn wanted(&self) -> u8
        ensures { result ≡ wanted self.now }
    {
        if self.critical { 2 } else { 1 }
    }

    /// How many persons approved: 0 to 2.
    pub fn count(&self) -> u8
        ensures count { result ≡ length self.now.persons }
        ensures few { result ≤ 2 }
    {
        match &self.given {
            Given::Nobody => 0,
            Given::One(_) => 1,
            Given::Two(_, _) => 2,
        }
    }

    /// Whether as many approved as are wanted.
    pub fn is_complete(&self) -> bool
        ensures { result ≡ is_complete self.now }
    {
        self.count() >= self.wanted()
    }

    /// Whether this person approved.
    fn has(&self, person: &Name) -> bool
        ensures { result ≡ list_any (is_same_person person.now) self.now.persons }
    {
        match &self.given {
            Given::Nobody => false,
            Given::One(first) => is_same_person(person, first),
            Given::Two(first, second) => {
                is_same_person(person, first) || is_same_person(person, second)
            }
        }
    }

    /// Why this person may not approve, if so: `SamePerson` where it is the author, and `ApprovedAlready` where this person
    /// approved or nobody is wanted any more.
    pub fn refusal(&self, person: &Name) -> Option<Refusal>
        ensures { result ≡ refusal_of person.now self.now }
    {
        if is_same_person(&self.author, person) {
            return Some(Refusal::SamePerson);
        }
        if self.has(person) || self.is_complete() {
            return Some(Refusal::ApprovedAlready);
        }
        None
    }

    /// A person approves: whether the approval is complete then. Refused with `SamePerson` where it is the author, and with
    /// `ApprovedAlready` where this person approved or nobody is wanted any more; then nothing changes.
    pub fn add(&mut self, person: Name) -> Result<bool, Refusal>
        ensures refused { refused_with result ≡ refusal_of person self.old }
        ensures after { self.new ≡ after_approval (refused_with result) person self.old }
        ensures complete { IfOk result (λ complete. complete ≡ is_complete self.new) }
        ensures sound { IsApproval self.new }
    {
        if let Some(why) = self.refusal(&person) {
            return Err(why);
        }
        self.given = self.given.with(person);
        Ok(self.is_complete())
    }
}
