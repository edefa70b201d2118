//! The lines of what octets mean.
ghost use Rattle.std.specs.Prelude.{◌↔◌, IsTrue};
ghost use Rattle.tc_decoded.specs.LineTexts.{IsFault};

use crate::names::Name;
use crate::rows::{Fit, Shown};

/// A line: what stands at an octet, or what is wrong there.
#[derive(Clone, Copy)]
pub struct Line {
    pub(crate) at: u64,
    pub(crate) name: Name,
    pub(crate) value: u64,
    pub(crate) shown: Shown,
    pub(crate) fault: Option<Fit>,
}

impl Line {
    /// Returns whether the line says what is wrong.
    pub fn is_fault(&self) -> bool
        ensures { IsTrue result ↔ IsFault self.now }
    {
        self.fault.is_some()
    }
}
