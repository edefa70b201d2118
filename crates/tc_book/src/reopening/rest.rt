//! What no part of a book needs, and yet has to be so in tables that a desk could have written.
ghost use Rattle.std.specs.Prelude.{◌≡◌, ◌↔◌, map, IsTrue};
ghost use Rattle.tc_types.specs.Images.{rows_in};
ghost use Rattle.tc_book.specs.Book.{approval_of};
ghost use Rattle.tc_book.specs.SoundParts.{AreToldRequests, IsSoundRest};

use crate::reopening::complete::are_complete;
use crate::reopening::persons::names_persons;
use crate::reopening::stack_approvals::are_stacks_approved;
use crate::reopening::steps::names_entered;
use tc_stack::Approvals;
use tc_types::{Image, Request};

/// Whether the approvals of stacks, the moves of those who were approved, the steps that name requests, and the persons are as a desk could
/// have written them.
pub(crate) fn is_rest_sound(image: &Image, requests: &[Request], approved: &[Approvals]) -> bool
    requires requests { AreToldRequests (rows_in image.now) requests.now }
    requires approved { approved.now ≡ map (approval_of image.now.approvals.items) requests.now }
    ensures { IsTrue result ↔ IsSoundRest (rows_in image.now) }
{
    if !are_stacks_approved(requests, &image.stack_approvals) {
        return false;
    }
    are_complete(requests, approved, &image.stack_approvals, &image.moves)
        && names_entered(requests.len(), &image.steps)
        && names_persons(image, requests)
}
