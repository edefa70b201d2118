//! Whether the steps of procedures name requests that were entered.
ghost use Rattle.std.specs.Prelude.{◌≡◌, ◌↔◌, ◌<◌, ◌≤◌, IfSome, IsTrue};
ghost use Rattle.std.specs.List.{AllByRecursion};
ghost use Rattle.tc_types.specs.declared.tables.rows.ProcedureStep.{ProcedureStep as SomeStep};

use tc_types::ProcedureStep;

/// Whether a step, where it names a request, names one of so many.
fn names_one(entered: usize, step: &ProcedureStep) -> bool
    ensures { IsTrue result ↔ IfSome step.now.request (λ n. (0 < n) × (n ≤ entered)) }
{
    match step.request {
        Some(n) => n.get() > 0 && n.get() as usize <= entered,
        None => true,
    }
}

/// Whether each step that names a request names one of so many.
pub(crate) fn names_entered(entered: usize, steps: &[ProcedureStep]) -> bool
    ensures { IsTrue result ↔ AllByRecursion (λ (s : SomeStep). IfSome s.request (λ n. (0 < n) × (n ≤ entered))) steps.now }
{
    for step in steps {
        if !names_one(entered, step) {
            return false;
        }
    }
    true
}
