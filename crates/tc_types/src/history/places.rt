//! The fifteen places where a request can stand.
ghost use Rattle.std.specs.Prelude.{◌≡◌, ◌↔◌, ◌<◌, ◌≤◌, Some, IfSome, IsTrue};
ghost use Rattle.tc_types.specs.Lawful.{place_number, is_one_of, is_among};
ghost use Rattle.tc_types.specs.declared.history.places.Place.{Place};
ghost use Rattle.tc_types.specs.Lines.{place_name};

/// How many places there are.
pub const PLACES: usize = 15;

/// Where a request stands. Completed, Failed, Withdrawn, Deleted and Closed are final.
#[derive(Clone, Copy, Debug, PartialEq, Eq)]
pub enum Place {
    /// Written down, and not yet approved.
    Entered,
    /// Approved by as many persons as it wants.
    Approved,
    /// Released, and waiting in the ground's wait queue.
    Queued,
    /// Transmitted, and not yet acknowledged by the link.
    Sent,
    /// Acknowledged by the link: taken on board.
    Confirmed,
    /// The activity of an insert that was released.
    Riding,
    /// In the on-board schedule.
    Scheduled,
    /// Its acceptance was reported.
    Accepted,
    /// Its start or progress was reported.
    Started,
    /// Its completion was reported.
    Completed,
    /// A failure was reported.
    Failed,
    /// Sent, and unknown whether it arrived.
    Doubtful,
    /// Withdrawn before release.
    Withdrawn,
    /// Taken out of the on-board schedule.
    Deleted,
    /// Closed by a person.
    Closed,
}

/// All places, in order of number.
pub const ALL_PLACES: [Place; PLACES] = [
    Place::Entered,
    Place::Approved,
    Place::Queued,
    Place::Sent,
    Place::Confirmed,
    Place::Riding,
    Place::Scheduled,
    Place::Accepted,
    Place::Started,
    Place::Completed,
    Place::Failed,
    Place::Doubtful,
    Place::Withdrawn,
    Place::Deleted,
    Place::Closed,
];

impl Place {
    /// Its number, 1 to 15, in tables and in the line of counts.
    pub fn number(self) -> u8
        ensures value { result ≡ place_number self }
        ensures range { (1 ≤ result) × (result ≤ 15) }
    {
        match self {
            Place::Entered => 1,
            Place::Approved => 2,
            Place::Queued => 3,
            Place::Sent => 4,
            Place::Confirmed => 5,
            Place::Riding => 6,
            Place::Scheduled => 7,
            Place::Accepted => 8,
            Place::Started => 9,
            Place::Completed => 10,
            Place::Failed => 11,
            Place::Doubtful => 12,
            Place::Withdrawn => 13,
            Place::Deleted => 14,
            Place::Closed => 15,
        }
    }

    /// The place with this number; `None` for 0 and above 15.
    pub fn from_number(number: u8) -> Option<Place>
        ensures found { IfSome result (λ place. place_number place ≡ number) }
        ensures only { (place : Place) → place_number place ≡ number → result ≡ Some place }
    {
        match number {
            1 => Some(Place::Entered),
            2 => Some(Place::Approved),
            3 => Some(Place::Queued),
            4 => Some(Place::Sent),
            5 => Some(Place::Confirmed),
            6 => Some(Place::Riding),
            7 => Some(Place::Scheduled),
            8 => Some(Place::Accepted),
            9 => Some(Place::Started),
            10 => Some(Place::Completed),
            11 => Some(Place::Failed),
            12 => Some(Place::Doubtful),
            13 => Some(Place::Withdrawn),
            14 => Some(Place::Deleted),
            15 => Some(Place::Closed),
            _ => None,
        }
    }

    /// Its name, as it is printed.
    pub fn name(self) -> &'static str
        ensures { result.now ≡ place_name self }
    {
        match self {
            Place::Entered => "Entered",
            Place::Approved => "Approved",
            Place::Queued => "Queued",
            Place::Sent => "Sent",
            Place::Confirmed => "Confirmed",
            Place::Riding => "Riding",
            Place::Scheduled => "Scheduled",
            Place::Accepted => "Accepted",
            Place::Started => "Started",
            Place::Completed => "Completed",
            Place::Failed => "Failed",
            Place::Doubtful => "Doubtful",
            Place::Withdrawn => "Withdrawn",
            Place::Deleted => "Deleted",
            Place::Closed => "Closed",
        }
    }

    /// Whether it is one of these.
    pub fn is_one_of(self, places: &[Place]) -> bool
        ensures { result ≡ is_one_of places.now self }
    {
        let wanted = self.number();
        places.iter().any(|place| place.number() == wanted)
    }
}

/// Whether a request that stands `at` a place stands at one of these.
pub fn is_among(at: Option<Place>, places: &[Place]) -> bool
    ensures { result ≡ is_among places.now at }
{
    match at {
        None => false,
        Some(place) => place.is_one_of(places),
    }
}

/// Whether two requests stand at the same place, or both nowhere.
#[tactic(auto, using(crate::proofs::PlaceLemmas::same_number))]
pub fn is_same_place(a: Option<Place>, b: Option<Place>) -> bool
    ensures { IsTrue result ↔ (a ≡ b) }
{
    match (a, b) {
        (None, None) => true,
        (Some(a), Some(b)) => a.number() == b.number(),
        (None, Some(_)) | (Some(_), None) => false,
    }
}
