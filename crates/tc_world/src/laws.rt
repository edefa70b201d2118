//! What the events keep, in the words of sessions. This function does nothing: its clauses are the laws.
ghost use Rattle.std.specs.Prelude.{◌≡◌, true, false, List};
ghost use Rattle.tc_farm.specs.Farm.{IsFarm, is_locked_out};
ghost use Rattle.tc_fop.specs.Standing.{IsFop};
ghost use Rattle.tc_world.specs.declared.events.Event.{Event};
ghost use Rattle.tc_world.specs.declared.events.LinkIndication.{LinkIndication};
ghost use Rattle.tc_world.specs.Links.{lossy};
ghost use Rattle.tc_world.specs.Abstraction.{Bare};
ghost use Rattle.tc_world.specs.Window.{Follows, IsClaimed};
ghost use Rattle.tc_world.specs.Kept.{IsKept};
ghost use Rattle.tc_world.specs.Fitting.{IsFit, IsNarrow};
ghost use Rattle.tc_world.specs.Fair.{IsFairOn, is_fair};
ghost use Rattle.std.specs.List.{list_all};
ghost use Rattle.tc_world.specs.Flight.{FliesInOrder};
ghost use Rattle.tc_world.specs.World.{Happens};

/// Over links that only lose, an event keeps what stands between events; while every start was good it is a run of the
/// session that is on, or begins another; and what stands carries the window's claims, and says what flies.
pub fn window_is_kept()
    ensures kept { (given : Event) (w v : Bare) (answer : List LinkIndication) → IsKept w → IsFop v.fop → IsFarm v.farm → Happens lossy lossy given w v answer → IsKept v }
    ensures follows { (given : Event) (w v : Bare) (answer : List LinkIndication) → IsKept w → IsFop v.fop → IsFarm v.farm → Happens lossy lossy given w v answer → v.clean ≡ true → Follows w v }
    // where K fitted into half of the FARM's window at every moment, the FARM is not in Lockout
    ensures fits { (given : Event) (w v : Bare) (answer : List LinkIndication) → IsKept w → IsFit w → IsFop v.fop → IsFarm v.farm → Happens lossy lossy given w v answer → IsFit v }
    ensures narrow { (given : Event) (w v : Bare) (answer : List LinkIndication) → IsNarrow w → Happens lossy lossy given w v answer → IsNarrow v }
    // nor do other alerts come than those that may
    ensures fair { (given : Event) (w v : Bare) (answer : List LinkIndication) → IsKept w → IsFit w → IsFairOn w → IsFop v.fop → IsFarm v.farm → Happens lossy lossy given w v answer → IsFairOn v }
    ensures alerts { (given : Event) (w v : Bare) (answer : List LinkIndication) → IsKept w → IsFit w → IsFairOn w → IsFop v.fop → IsFarm v.farm → Happens lossy lossy given w v answer → v.clean ≡ true → v.fits ≡ true → list_all (is_fair w.level w.fop.state) answer ≡ true }
    ensures never_locked_out { (w : Bare) → IsKept w → IsFit w → w.clean ≡ true → w.fits ≡ true → is_locked_out w.farm.state ≡ false }
    ensures flight { (w : Bare) → IsKept w → w.clean ≡ true → FliesInOrder w }
    ensures claims { (w : Bare) → IsKept w → w.clean ≡ true → IsClaimed w }
{
    // what the two tables say
    tc_farm::laws::frames_in_order();
    tc_fop::laws::moves();
    tc_fop::laws::initiates();
    tc_fop::laws::keeps_k();
    tc_farm::laws::asks_ahead();
    tc_fop::laws::fair_cells();
    tc_fop::laws::fair_lists();
    tc_fop::laws::word_lists();
    tc_fop::laws::tells_fairly();
    tc_fop::laws::stands_fairly();
    tc_fop::laws::keeps_order();
}
