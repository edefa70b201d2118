//! Who asks for what is to be done once.
use tc_store::CallNumber;
use tc_types::Person;

/// Who asks, and under which number of its own.
#[derive(Clone, Copy, Debug, PartialEq, Eq)]
pub struct Caller {
    /// The person.
    pub by: Person,
    /// The number that the person gave what is asked.
    pub number: CallNumber,
}
