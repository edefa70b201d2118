//! The words and the sign of each kind of line.
ghost use Rattle.std.specs.Prelude.{◌≡◌};
ghost use Rattle.tc_wall.specs.Kinds.{kind_begins, kind_class, kind_letter};

use tc_urgent::UrgentKind;

/// The class of a row.
#[tactic(auto, unfolding(crate::specs::Kinds::kind_class))]
pub(crate) fn kind_class(kind: &UrgentKind) -> &'static str
    ensures { result.now ≡ kind_class kind.now }
{
    match kind {
        UrgentKind::InDoubt => "InDoubt",
        UrgentKind::FailedSince => "FailedSince",
        UrgentKind::Approval => "Approval",
        UrgentKind::StepDue => "StepDue",
        UrgentKind::Flying => "Flying",
        UrgentKind::LostReport => "LostReport",
        UrgentKind::Free => "Free",
        UrgentKind::ActivityOf { .. } => "Activity",
        UrgentKind::LockedForever => "LockedForever",
        UrgentKind::Locked => "Locked",
    }
}

/// The letter with which the identity of a row begins: `e` of an execution, `u` of a request.
#[tactic(auto, unfolding(crate::specs::Kinds::kind_letter))]
pub(crate) fn kind_letter(kind: &UrgentKind) -> &'static str
    ensures { result.now ≡ kind_letter kind.now }
{
    match kind {
        UrgentKind::StepDue => "e",
        _ => "u",
    }
}

/// The start of a row's first cell: its sign, and the word for what the line is of.
#[tactic(auto, unfolding(crate::specs::Kinds::kind_begins))]
pub(crate) fn kind_begins(kind: &UrgentKind) -> &'static str
    ensures { result.now ≡ kind_begins kind.now }
{
    match kind {
        UrgentKind::InDoubt => "<td>? request ",
        UrgentKind::FailedSince => "<td>&#215; request ",
        UrgentKind::Approval => "<td>&#9675; request ",
        UrgentKind::StepDue => "<td>&#9998; execution ",
        UrgentKind::Flying => "<td>&#9654; request ",
        UrgentKind::LostReport => "<td>! request ",
        UrgentKind::Free => "<td>&#9679; request ",
        UrgentKind::ActivityOf { .. } => "<td>&#8627; request ",
        UrgentKind::LockedForever => "<td>&#8856; request ",
        UrgentKind::Locked => "<td>&#9676; request ",
    }
}
