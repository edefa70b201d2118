//! What holds of the fronts of any input. These functions do nothing: their clauses are the laws.
ghost use Rattle.std.specs.Prelude.{◌≡◌, ◌≤◌, ◌<◌, ◌++◌, ℕ, List, length};
ghost use Rattle.tc_front.specs.Front.{Asked, IsDecided, IsWanted, Waits};

/// A front decides one thing alone: what it decides is a function of its bytes.
pub fn a_decision_is_one()
    ensures { (text : List ℕ) (a b : Asked) → IsDecided text a → IsDecided text b → a ≡ b }
{}

/// What a front decides stays decided, the same, when more bytes come.
pub fn a_decision_stays()
    ensures { (text more : List ℕ) (asked : Asked) → IsDecided text asked → IsDecided (text ++ more) asked }
{}

/// Two fronts of one input that decide, decide the same, so that any that decides is answered as the shortest.
pub fn fronts_agree()
    ensures { (input first more second others : List ℕ) (a b : Asked) → input ≡ first ++ more → input ≡ second ++ others → IsDecided first a → IsDecided second b → a ≡ b }
{}

/// What is wanted is needed: a text that goes on from a front and has fewer bytes than are wanted decides nothing.
pub fn what_is_wanted_is_needed()
    ensures { (text more : List ℕ) (wanted : ℕ) → IsWanted text wanted → length (text ++ more) < wanted → Waits (text ++ more) }
{}

/// No more are wanted than a head and a body may have, so that a text of so many bytes decides.
pub fn what_is_wanted_is_bounded()
    ensures { (text : List ℕ) (wanted : ℕ) → IsWanted text wanted → wanted ≤ 73728 }
{}

/// Where as many bytes are there as are wanted, the front decides.
pub fn what_is_wanted_is_enough()
    ensures { (text : List ℕ) (wanted : ℕ) → IsWanted text wanted → wanted ≤ length text → (asked : Asked) × IsDecided text asked }
{}
