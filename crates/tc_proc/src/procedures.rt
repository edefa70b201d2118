//! A procedure: its steps, in order.
ghost use Rattle.std.specs.Prelude.{◌≡◌};
ghost use Rattle.tc_proc.specs.Procedures.{IsProcedure};

use std::marker::Model;
use tc_types::StepText;

/// A step of a procedure.
#[derive(Clone, Copy, Debug, PartialEq, Eq)]
pub struct Step {
    /// What is done.
    pub text: StepText,
    /// Whether a second person is wanted.
    pub is_countersigned: bool,
    /// The number of the request that is released where the step is done, if it releases one. Whether there is such a request
    /// is not known here.
    pub request: Option<u32>,
}

/// A procedure: 1 to 100 steps, in order. A contract sees it as the list of them.
#[derive(Debug, Drop)]
pub struct Procedure {
    steps: Vec<Step>,
}

impl Model for Procedure {
    ghost use Rattle.std.specs.Prelude.{List};
    ghost use Rattle.tc_proc.specs.declared.procedures.Step.{Step as SomeStep};
    ghost use Rattle.tc_proc.specs.Procedures.{IsProcedure};

    ghost Value = { List SomeStep };

    ghost view = { λ p. p.steps.items };

    ghost invariant = { λ p. IsProcedure p.steps.items };
}

impl Procedure {
    /// A procedure with these steps.
    pub fn of(steps: Vec<Step>) -> Procedure
        requires { IsProcedure steps.items }
        ensures { result ≡ steps.items }
    {
        Procedure { steps }
    }

    /// The steps, in order.
    pub fn steps(&self) -> &[Step]
        ensures value { result.now ≡ self.now }
        ensures sound { IsProcedure result.now }
    {
        self.steps.as_slice()
    }
}
