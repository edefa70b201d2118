//! A sign for each place.
ghost use Rattle.std.specs.Prelude.{◌≡◌};
ghost use Rattle.tc_wall.specs.Signs.{sign_of};

use tc_types::Place;

/// The sign of a place, which tiles and rows have.
#[tactic(auto, unfolding(crate::specs::Signs::sign_of))]
pub(crate) fn sign(place: Place) -> &'static str
    ensures { result.now ≡ sign_of place }
{
    match place {
        Place::Entered => "&#9675;",
        Place::Approved => "&#9679;",
        Place::Queued
        | Place::Sent
        | Place::Confirmed
        | Place::Riding
        | Place::Accepted
        | Place::Started => "&#9654;",
        Place::Scheduled => "&#9670;",
        Place::Doubtful => "?",
        Place::Failed => "&#215;",
        Place::Completed => "&#10003;",
        Place::Withdrawn | Place::Deleted | Place::Closed => "&#9632;",
    }
}
