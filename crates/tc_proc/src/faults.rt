//! Why nothing is opened over tables that were left.
use std::alloc::AllocError;
use tc_types::Refusal;

/// Why nothing is opened over tables that were left.
#[derive(Clone, Copy, Debug, PartialEq, Eq)]
pub enum ReopenFault {
    /// The tables hold what no desk could have written.
    Unsound,
    /// Memory was refused.
    Memory,
}

impl From<AllocError> for ReopenFault {
    ghost use Rattle.std.specs.Prelude.{◌≡◌};
    ghost use Rattle.tc_proc.specs.declared.faults.ReopenFault.TheVariants.{Memory};

    ghost from_gives = { λ _ fault. fault ≡ Memory };

    fn from(_error: AllocError) -> ReopenFault {
        ReopenFault::Memory
    }
}

impl From<ReopenFault> for Refusal {
    ghost use Rattle.std.specs.Prelude.{◌≡◌};
    ghost use Rattle.tc_proc.specs.Faults.{refusal_of};

    ghost from_gives = { λ fault refusal. refusal ≡ refusal_of fault };

    fn from(fault: ReopenFault) -> Refusal {
        match fault {
            ReopenFault::Unsound => Refusal::Store,
            ReopenFault::Memory => Refusal::Memory,
        }
    }
}
