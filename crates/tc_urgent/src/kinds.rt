//! The kinds of urgent lines.
ghost use Rattle.std.specs.Prelude.{◌≡◌, ◌≤◌};
ghost use Rattle.tc_urgent.specs.Kinds.{urgency, insert_in, is_folded, is_folded_alone, is_same_kind};

/// What a line says of its request or its execution, most urgent first.
#[derive(Clone, Copy, Debug, PartialEq, Eq)]
pub enum UrgentKind {
    /// A request at Doubtful: nobody knows whether it is on board.
    InDoubt,
    /// A request at Failed that failed after the opening.
    FailedSince,
    /// A request at Entered: it waits for approval.
    Approval,
    /// An execution whose next step is due.
    StepDue,
    /// A request on its way, or at work on board.
    Flying,
    /// A request whose next report is missing: at Confirmed, or at Scheduled and not in the mirror.
    LostReport,
    /// A request at Approved that may be released.
    Free,
    /// A request at Approved that this open insert names: the insert takes it along.
    ActivityOf { insert: u32 },
    /// A request at Approved whose lock never opens: the line that it waits for is never completed.
    LockedForever,
    /// A request at Approved that waits for a line of its stack.
    Locked,
}

impl UrgentKind {
    /// Its rank, 1 to 10: 1 is the most urgent.
    pub fn urgency(&self) -> u8
        ensures value { result ≡ urgency self.now }
        ensures range { result ≤ 10 }
    {
        match self {
            UrgentKind::InDoubt => 1,
            UrgentKind::FailedSince => 2,
            UrgentKind::Approval => 3,
            UrgentKind::StepDue => 4,
            UrgentKind::Flying => 5,
            UrgentKind::LostReport => 6,
            UrgentKind::Free => 7,
            UrgentKind::ActivityOf { .. } => 8,
            UrgentKind::LockedForever => 9,
            UrgentKind::Locked => 10,
        }
    }

    /// The insert that takes an activity along; 0 for any other kind.
    pub fn insert(&self) -> u32
        ensures { result ≡ insert_in self.now }
    {
        match self {
            UrgentKind::ActivityOf { insert } => *insert,
            _ => 0,
        }
    }

    /// Whether lines of this kind are folded if they came with one stack. Those that a person needs
    /// by name are not.
    pub fn is_folded(&self) -> bool
        ensures { result ≡ is_folded self.now }
    {
        matches!(
            self,
            UrgentKind::Approval
                | UrgentKind::Flying
                | UrgentKind::Free
                | UrgentKind::ActivityOf { .. }
                | UrgentKind::LockedForever
                | UrgentKind::Locked
        )
    }

    /// Whether lines of this kind are folded if they came with no stack. Those that wait for an act
    /// on each of them are not.
    pub fn is_folded_alone(&self) -> bool
        ensures { result ≡ is_folded_alone self.now }
    {
        matches!(
            self,
            UrgentKind::Flying
                | UrgentKind::ActivityOf { .. }
                | UrgentKind::LockedForever
                | UrgentKind::Locked
        )
    }

    /// Whether two lines are of one kind, and activities of one insert.
    pub fn is_same(&self, other: &UrgentKind) -> bool
        ensures { result ≡ is_same_kind self.now other.now }
    {
        self.urgency() == other.urgency() && self.insert() == other.insert()
    }
}
