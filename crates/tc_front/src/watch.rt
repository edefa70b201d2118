//! A text that grows, watched until it decides.
ghost use Rattle.std.specs.Prelude.{◌≡◌, ◌<◌, List, ℕ, length, true, false};
ghost use Rattle.tc_front.specs.Front.{Asked, IsDecided, Waits};
ghost use Rattle.tc_front.specs.Watch.{Watches};

use crate::ends::HeadSearch;
use crate::front::wanted;
use crate::routes::Routes;

/// What is known of a text that grows at its end: its head is searched from where the last search stopped, and is parsed
/// once it has ended, and once more when its body is there. So the work is in line with the text's length, however few
/// bytes come at a time.
#[derive(Clone, Copy, Debug)]
pub(crate) struct Watch {
    /// Where the search for the end of its head stands.
    search: HeadSearch,
    /// With fewer bytes than these it decides nothing.
    wanted: usize,
}

impl Watch {
    /// Nothing is known but that no bytes decide nothing.
    pub(crate) fn new() -> Watch
        ensures { (text : List ℕ) → Watches result text }
    {
        Watch {
            search: HeadSearch::new(),
            wanted: 1,
        }
    }

    /// Whether the text decides now.
    pub(crate) fn decides(&mut self, routes: &Routes, text: &[u8]) -> bool
        requires { Watches self.old text.now }
        ensures yes { result ≡ true → (asked : Asked) × IsDecided text.now asked }
        ensures no { result ≡ false → Waits text.now }
        ensures short { result ≡ false → length text.now < 73728 }
        ensures watches { Watches self.new text.now }
    {
        if text.len() < self.wanted {
            return false;
        }
        self.wanted = wanted(routes, &mut self.search, text);
        text.len() >= self.wanted
    }
}
