//! What carries frames up and reports down: a link that only loses.
ghost use Rattle.std.specs.Prelude.{◌≡◌, ◌↔◌, ◌+◌, ◌<◌, ◌≤◌, ℕ, Bool, List, [], ◌∷◌, ◌++◌, length, OnOk, IsOk, IsNone, IfNone, IfSome, IsTrue};
ghost use Rattle.tc_world.specs.Links.{Kind};
ghost use Rattle.tc_world.specs.Sublist.{IsSublist};

use std::alloc::AllocError;

/// A link. Its content is the list of the items in flight, the oldest first.
///
/// Each kind of link says by relations of its own what a put, a take and a lose leave; the laws bound these relations:
/// whatever a call does, the content after is the content before, followed by what was put, with items left out.
pub trait Carrier<T>: Drop {
    /// Its content, itself but for its room, and what a put, a take that gives an item, and a lose leave.
    ghost kind: { Kind Self T };

    /// How many puts have their room.
    ghost covered: { Self → ℕ };

    /// Makes room for so many puts. The content stays, and all else but the room, whatever is answered.
    fn reserve(&mut self, count: usize) -> Result<(), AllocError>
        ensures content { kind.content self.new ≡ kind.content self.old }
        ensures readied { kind.without_room self.new ≡ kind.without_room self.old }
        ensures room { OnOk result (count ≤ covered self.new) }
        ensures kept { covered self.old ≤ covered self.new }
        ensures within { count ≤ covered self.old → IsOk result };

    /// Puts an item behind the others.
    fn put(&mut self, item: T)
        requires { 0 < covered self.old }
        ensures put { kind.puts self.old item self.new }
        ensures room { covered self.old ≤ covered self.new + 1 };

    /// Takes an item: none exactly where nothing is in flight.
    fn take(&mut self) -> Option<T>
        ensures none { IsNone result ↔ (kind.content self.old ≡ []) }
        ensures some { IfSome result (λ item. kind.takes self.old item self.new) }
        ensures same { IfNone result (kind.without_room self.new ≡ kind.without_room self.old) }
        ensures room { covered self.old ≤ covered self.new };

    /// Loses the item at a place, from 0 for the oldest, and says whether there was one.
    fn lose(&mut self, place: usize) -> bool
        ensures lost { kind.loses self.old place result self.new }
        ensures room { covered self.old ≤ covered self.new };

    /// How many items are in flight.
    fn len(&self) -> usize
        ensures { result ≡ length (kind.content self.now) };

    /// Whether nothing is in flight.
    fn is_empty(&self) -> bool
        ensures { IsTrue result ↔ (kind.content self.now ≡ []) };

    ghost room_holds_nothing: { (link : Self) → kind.content (kind.without_room link) ≡ kind.content link };

    ghost put_only_loses: { (old new : Self) (item : T) → kind.puts old item new → IsSublist (kind.content new) (kind.content old ++ item ∷ []) };

    ghost take_is_in_order: { (old new : Self) (item : T) → kind.takes old item new → (lost : List T) × (kind.content old ≡ lost ++ item ∷ kind.content new) };

    ghost lose_only_loses: { (old new : Self) (place : ℕ) (answer : Bool) → kind.loses old place answer new → IsSublist (kind.content new) (kind.content old) };
}
