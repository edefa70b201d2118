//! What the table keeps, in the words of requests and frames. These functions do nothing: their clauses are the laws.
ghost use Rattle.std.specs.Prelude.{◌≡◌, ◌≤◌, ◌<◌, Bool, Option, Some, None, Ok, true, false};
ghost use Rattle.tc_farm.specs.declared.clcws.Clcw.{Clcw};
ghost use Rattle.tc_farm.specs.Farm.{distance};
ghost use Rattle.tc_fop.specs.declared.signals.FopState.TheVariants.{InitialisingWithoutBc, InitialisingWithBc, Initial};
ghost use Rattle.tc_fop.specs.declared.fop_rows.FopRow.{FopRow};
ghost use Rattle.tc_fop.specs.Machine.{Machine, Waiting, Out, Wait, after, change};
ghost use Rattle.tc_fop.specs.Rows.{Seen, When, row_seen};
ghost use Rattle.tc_fop.specs.Laws.{AtWords, AtTicks, AtOffers, AtDirectives};
ghost use Rattle.tc_fop.specs.Requests.{KeepsRequests, KeepsOrder, KeepsWindow, ConfirmsFront, AreAmong, GivesBack, acknowledged, frames_of};
ghost use Rattle.tc_fop.specs.Calls.{offered, directed, reported, ticked, Answers};
ghost use Rattle.tc_fop.specs.Width.{AllLeaveK, k_after};
ghost use Rattle.tc_fop.specs.Moves.{MovesIn, Initiates, is_initiation};
ghost use Rattle.tc_types.specs.declared.link.directives.Directive.{Directive};
ghost use Rattle.tc_fop.specs.Standing.{IsFop, is_starting};
ghost use Rattle.std.specs.List.{list_all};
ghost use Rattle.tc_fop.specs.Cells.{cell};
ghost use Rattle.tc_fop.specs.Rows.{row_of};
ghost use Rattle.tc_fop.specs.Calls.{is_taking};
ghost use Rattle.tc_fop.specs.Fair.{IsHeardFairly, alerts_in, is_retransmitting, is_checking, may_alert, may_come, AllMayCome, AllLeaveStanding};

/// The row that is chosen applies, and no other row does.
pub fn one_row_applies()
    ensures chosen { (s : Seen) → 1 ≤ s.limit → When (row_seen s) s }
    ensures only { (s : Seen) (row : FopRow) → 1 ≤ s.count → When row s → row ≡ row_seen s }
{}

/// No request is lost between the queues, and none leaves them twice: an alert gives each back once.
pub fn keeps_requests()
    ensures words { AtWords KeepsRequests }
    ensures ticks { AtTicks KeepsRequests }
    ensures offers { AtOffers KeepsRequests }
    ensures directives { AtDirectives KeepsRequests }
{}

/// Requests are transmitted in the order offered.
pub fn keeps_order()
    ensures words { AtWords KeepsOrder }
    ensures ticks { AtTicks KeepsOrder }
    ensures offers { AtOffers KeepsOrder }
    ensures directives { AtDirectives KeepsOrder }
{}

/// At a transmission at most K frames are out.
pub fn keeps_window()
    ensures words { AtWords (λ offered old new out. KeepsWindow new out) }
    ensures ticks { AtTicks (λ offered old new out. KeepsWindow new out) }
    ensures offers { AtOffers (λ offered old new out. KeepsWindow new out) }
    ensures directives { AtDirectives (λ offered old new out. KeepsWindow new out) }
{}

/// Requests are confirmed from the front of the Sent_Queue alone, and no more than the report value acknowledges.
pub fn confirms_front()
    ensures words { (m : Machine) (word : Option Clcw) (new : Machine) (out : Out) → IsFop m → IsFop new → Answers (reported m word) m new (Ok out) → ConfirmsFront (acknowledged m word) m out }
    ensures ticks { AtTicks (λ offered old new out. ConfirmsFront 0 old out) }
    ensures offers { AtOffers (λ offered old new out. ConfirmsFront 0 old out) }
    ensures directives { AtDirectives (λ offered old new out. ConfirmsFront 0 old out) }
{}

/// A frame that is put out is the BC frame, stands in the Sent_Queue under the number that it had, or is that of the
/// request that waits, under V(S).
pub fn sends_queued_frames()
    ensures words { AtWords (λ offered old new out. AreAmong (frames_of old) out.frames) }
    ensures ticks { AtTicks (λ offered old new out. AreAmong (frames_of old) out.frames) }
    ensures offers { (m : Machine) (w : Waiting) (new : Machine) (out : Out) → IsFop m → IsFop new → Answers (offered m w) m new (Ok out) → AreAmong (frames_of (change (Wait w) m)) out.frames }
{}

/// Where the service stops, its output confirms from the front of the Sent_Queue, then tells each other request that
/// was sent to be in doubt, from the front, then gives the waiting one back, and ends with the alert.
pub fn alerts_give_back()
    ensures words { AtWords (λ offered old new out. GivesBack old new out) }
    ensures ticks { AtTicks (λ offered old new out. GivesBack old new out) }
    ensures offers { AtOffers (λ offered old new out. GivesBack old new out) }
    ensures directives { AtDirectives (λ offered old new out. GivesBack old new out) }
{}

/// What a call that is no initiation makes of the service, by the state in which it comes.
pub fn moves()
    ensures words { (m : Machine) (word : Option Clcw) (new : Machine) (out : Out) → IsFop m → IsFop new → Answers (reported m word) m new (Ok out) → MovesIn m.state word m new out }
    ensures ticks { AtTicks (λ offered old new out. MovesIn old.state None old new out) }
    ensures offers { AtOffers (λ offered old new out. MovesIn old.state None old new out) }
    ensures directives { (m : Machine) (directive : Directive) (new : Machine) (out : Out) → is_initiation directive ≡ false → IsFop m → IsFop new → Answers (directed m directive) m new (Ok out) → MovesIn m.state None m new out }
{}

/// What an initiation makes of the service.
pub fn initiates()
    ensures directives { (m : Machine) (directive : Directive) (new : Machine) (out : Out) → is_initiation directive ≡ true → IsFop m → IsFop new → Answers (directed m directive) m new (Ok out) → Initiates directive m new out }
{}

/// At a control word that fits, in S1 to S3, the table leads to S2 and S3 only where the word asks for a frame again.
pub fn fair_cells()
    ensures asks { (m : Machine) (word : Clcw) → 1 ≤ m.limit → IsHeardFairly m word → is_taking m.state ≡ true → is_retransmitting (after (cell (row_of m (Some word)) m.state) m).state ≡ true → word.retransmit ≡ true }
{}

/// No call but a directive sets K.
pub fn k_cells()
    ensures words { (m : Machine) (word : Option Clcw) → AllLeaveK (reported m word) }
    ensures ticks { (m : Machine) → AllLeaveK (ticked m) }
    ensures offers { (m : Machine) (w : Waiting) → AllLeaveK (offered m w) }
{}

/// A directive sets K, or leaves it.
pub fn directives_k()
    ensures { (m : Machine) (directive : Directive) (new : Machine) (out : Out) → Answers (directed m directive) m new (Ok out) → new.k ≡ k_after directive m }
{}

/// No call but a directive changes K.
pub fn keeps_k()
    ensures words { (m : Machine) (word : Option Clcw) (new : Machine) (out : Out) → Answers (reported m word) m new (Ok out) → new.k ≡ m.k }
    ensures ticks { (m : Machine) (new : Machine) (out : Out) → Answers (ticked m) m new (Ok out) → new.k ≡ m.k }
    ensures offers { (m : Machine) (w : Waiting) (new : Machine) (out : Out) → Answers (offered m w) m new (Ok out) → new.k ≡ m.k }
{
    k_cells();
}

/// Which alerts the table has, by the state.
pub fn fair_lists()
    ensures taking { (level : Bool) (m : Machine) (word : Clcw) → 1 ≤ m.limit → IsHeardFairly m word → is_taking m.state ≡ true → list_all (may_come level m.state) (cell (row_of m (Some word)) m.state) ≡ true }
    ensures checking { (m : Machine) (word : Clcw) → m.state ≡ InitialisingWithoutBc → word.lockout ≡ false → (word.wait ≡ true → word.retransmit ≡ true) → list_all (may_come false m.state) (cell (row_of m (Some word)) m.state) ≡ true }
    ensures level { (level : Bool) (m : Machine) (word : Clcw) → m.state ≡ InitialisingWithoutBc → word.lockout ≡ false → word.wait ≡ false → word.retransmit ≡ false → distance word.report m.nn ≡ 0 → distance m.vs m.nn ≡ 0 → list_all (may_come level m.state) (cell (row_of m (Some word)) m.state) ≡ true }
    ensures with_control { (level : Bool) (m : Machine) (word : Clcw) → m.state ≡ InitialisingWithBc → list_all (may_come level m.state) (cell (row_of m (Some word)) m.state) ≡ true }
    ensures initial { (level : Bool) (m : Machine) (word : Clcw) → m.state ≡ Initial → list_all (may_come level m.state) (cell (row_of m (Some word)) m.state) ≡ true }
    ensures ticks { (level : Bool) (m : Machine) → AllMayCome level m.state (ticked m) }
    ensures offers { (level : Bool) (m : Machine) (w : Waiting) → AllMayCome level m.state (offered m w) }
    ensures directives { (level : Bool) (m : Machine) (directive : Directive) → AllMayCome level m.state (directed m directive) }
{}

/// Where the service stands after a control word.
pub fn word_lists()
    ensures reports { (m : Machine) (word : Clcw) → 1 ≤ m.limit → word.report < 256 → m.nn < 256 → IsHeardFairly m word → is_taking m.state ≡ true → is_retransmitting (after (cell (row_of m (Some word)) m.state) m).state ≡ true → (after (cell (row_of m (Some word)) m.state) m).nn ≡ word.report }
    ensures begins { (m : Machine) (word : Clcw) → is_starting m.state ≡ true → is_taking (after (cell (row_of m (Some word)) m.state) m).state ≡ true → word.retransmit ≡ false }
    ensures active { (m : Machine) (word : Clcw) → is_starting m.state ≡ true → is_retransmitting (after (cell (row_of m (Some word)) m.state) m).state ≡ false }
{}

/// But at a control word and an initiation, no call leads to S2 or S3 or moves NN(R) in S1 to S3.
pub fn standing_lists()
    ensures ticks { (m : Machine) → is_taking m.state ≡ true → AllLeaveStanding (ticked m) }
    ensures offers { (m : Machine) (w : Waiting) → AllLeaveStanding (offered m w) }
    ensures directives { (m : Machine) (directive : Directive) → is_initiation directive ≡ false → is_taking m.state ≡ true → AllLeaveStanding (directed m directive) }
{}

/// The alerts that may come in a state.
pub fn tells_fairly()
    ensures words { (level : Bool) (m : Machine) (word : Clcw) (new : Machine) (out : Out) → list_all (may_come level m.state) (cell (row_of m (Some word)) m.state) ≡ true → Answers (reported m (Some word)) m new (Ok out) → list_all (may_alert level m.state) (alerts_in out) ≡ true }
    ensures ticks { (level : Bool) (m : Machine) (new : Machine) (out : Out) → Answers (ticked m) m new (Ok out) → list_all (may_alert level m.state) (alerts_in out) ≡ true }
    ensures offers { (level : Bool) (m : Machine) (w : Waiting) (new : Machine) (out : Out) → Answers (offered m w) m new (Ok out) → list_all (may_alert level m.state) (alerts_in out) ≡ true }
    ensures directives { (level : Bool) (m : Machine) (directive : Directive) (new : Machine) (out : Out) → Answers (directed m directive) m new (Ok out) → list_all (may_alert level m.state) (alerts_in out) ≡ true }
{
    fair_lists();
}

/// In S1 to S3 no call but a control word leads to S2 or S3, or moves NN(R) there.
pub fn stands_fairly()
    ensures ticks { (m : Machine) (new : Machine) (out : Out) → is_taking m.state ≡ true → Answers (ticked m) m new (Ok out) → is_retransmitting new.state ≡ true → (is_retransmitting m.state ≡ true) × (new.nn ≡ m.nn) }
    ensures offers { (m : Machine) (w : Waiting) (new : Machine) (out : Out) → Answers (offered m w) m new (Ok out) → is_retransmitting new.state ≡ true → (is_retransmitting m.state ≡ true) × (new.nn ≡ m.nn) }
    ensures directives { (m : Machine) (directive : Directive) (new : Machine) (out : Out) → is_initiation directive ≡ false → is_taking m.state ≡ true → Answers (directed m directive) m new (Ok out) → is_retransmitting new.state ≡ true → (is_retransmitting m.state ≡ true) × (new.nn ≡ m.nn) }
{
    standing_lists();
}
