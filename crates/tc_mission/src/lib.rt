//! What holds over the air, where the far side is no part of this machine. These functions do nothing: their clauses are the
//! laws.
#![tactic(auto)]

ghost use Rattle.std.specs.Prelude.{◌≡◌, Bool, true, false, List, ℕ};
ghost use Rattle.std.specs.List.{list_all};
ghost use Rattle.tc_farm.specs.Farm.{IsFarm};
ghost use Rattle.tc_farm.specs.declared.farms.FarmView.{FarmView};
ghost use Rattle.tc_fop.specs.Machine.{Machine};
ghost use Rattle.tc_fop.specs.Standing.{IsFop};
ghost use Rattle.tc_fop.specs.declared.signals.FopState.TheVariants.{Initial};
ghost use Rattle.tc_world.specs.declared.events.Event.{Event};
ghost use Rattle.tc_world.specs.declared.events.LinkIndication.{LinkIndication};
ghost use Rattle.tc_world.specs.Links.{lossy};
ghost use Rattle.tc_world.specs.Abstraction.{Bare};
ghost use Rattle.tc_world.specs.Window.{Follows, all_confirmed};
ghost use Rattle.tc_world.specs.Fair.{is_fair};
ghost use Rattle.tc_world.specs.Flight.{KeepsClaims};
ghost use Rattle.tc_world.specs.World.{Happens, all_sent};
ghost use Rattle.tc_mission.specs.Mission.{Mission, MissionStep, IsMission, FieldRun, IsGroundOf, IsOverTheAir, IsSameStep, IsTakenThrough, is_far, first_mission, new_ground, relayed, world_of};

use tc_world::laws::window_is_kept;

/// A mission is a world: each of its steps is an event of a world over links that only lose. So it keeps what a world keeps,
/// and while every start was good the window's claims hold of it: what the ground was told to be confirmed was accepted far
/// away, once and in order.
pub fn a_mission_is_a_world()
    ensures world { (m n : Mission) (answer : List LinkIndication) → MissionStep m n answer → (given : Event) × (told : List LinkIndication) × Happens lossy lossy given (world_of m) (world_of n) told }
    ensures begins { (fop : Machine) (farm : FarmView) (vc : ℕ) → IsFop fop → fop.state ≡ Initial → IsFarm farm → farm.lockout ≡ false → IsMission (first_mission fop farm vc) }
    ensures kept { (m n : Mission) (answer : List LinkIndication) → IsMission m → IsFop n.fop → IsFarm n.farm → MissionStep m n answer → IsMission n }
    ensures follows { (m n : Mission) (answer : List LinkIndication) → IsMission m → IsFop n.fop → IsFarm n.farm → MissionStep m n answer → n.clean ≡ true → Follows (world_of m) (world_of n) }
    ensures alerts { (m n : Mission) (answer : List LinkIndication) → IsMission m → IsFop n.fop → IsFarm n.farm → MissionStep m n answer → n.clean ≡ true → n.fits ≡ true → list_all (is_fair m.level m.fop.state) answer ≡ true }
    ensures claims { (m : Mission) → IsMission m → KeepsClaims relayed lossy m }
{
    window_is_kept();
}

/// The program's desk is the ground of such a mission: what it does over the air is a step of each mission whose ground it
/// is, told alike, and it stays its ground, also by all that happens far away and in the air.
pub fn the_ground_is_a_desk()
    ensures steps { (given : Event) (w v : Bare) (answer : List LinkIndication) (m : Mission) → IsGroundOf w m → IsOverTheAir given m → Happens lossy lossy given w v answer → (n : Mission) × IsSameStep given v answer m n }
    // a new desk is the ground of a mission that begins, whatever its own FARM is
    ensures begins { (fop : Machine) (own farm : FarmView) (vc : ℕ) (fits : Bool) → IsGroundOf (new_ground fop own vc fits) (first_mission fop farm vc) }
    // what the desk writes down as sent and confirmed is what the mission's logs have, in order
    ensures sent { (w : Bare) (m : Mission) → IsGroundOf w m → all_sent w ≡ all_sent m }
    ensures confirmed { (w : Bare) (m : Mission) → IsGroundOf w m → all_confirmed w ≡ all_confirmed m }
    ensures stays { (given : Event) (w : Bare) (m n : Mission) (answer : List LinkIndication) → is_far given ≡ true → Happens relayed lossy given m n answer → IsGroundOf w m → IsGroundOf w n }
    // the headline: at each moment of each run in the field, while every start was good, what the desk calls confirmed was accepted far
    // away, once and in order
    ensures field { (w : Bare) (m : Mission) (moments : List (Bare × Mission)) → IsGroundOf w m → IsMission m → FieldRun w m moments → IsTakenThrough moments }
{
    a_mission_is_a_world();
}
