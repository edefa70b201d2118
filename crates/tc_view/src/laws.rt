//! What holds of any page. These functions do nothing: their clauses are the laws.
ghost use Rattle.std.specs.Prelude.{◌≡◌, ◌≤◌, ℕ, Bool, List, count_by, drop, filter};
ghost use Rattle.std.specs.List.{AllByRecursion};
ghost use Rattle.tc_book.specs.Book.{Book};
ghost use Rattle.tc_book.specs.Good.{IsGoodBook};
ghost use Rattle.tc_types.specs.declared.requests.Request.{Request};
ghost use Rattle.tc_urgent.specs.declared.lines.UrgentLine.{UrgentLine};
ghost use Rattle.tc_urgent.specs.Kinds.{urgency};
ghost use Rattle.tc_wall.specs.declared.walls.UrgentRow.{UrgentRow};
ghost use Rattle.tc_wall.specs.declared.walls.Wall.{Wall};
ghost use Rattle.tc_view.specs.Shown.{IsFilePage, ShowsBook};
ghost use Rattle.tc_view.specs.Urgents.{SaysSo};
ghost use Rattle.tc_view.specs.Ways.{is_open, open_of};

use tc_wall::MOST_LINES;

/// A book that a desk could have written has one page: what a wall shows says all of its bytes.
pub fn a_file_has_one_page()
    ensures { (book : Book) (one two : List ℕ) → IsGoodBook book → IsFilePage book one → IsFilePage book two → one ≡ two }
{}

/// No line that a wall leaves out is more urgent than one that it shows: none in doubt is left out while a lesser one is shown.
pub fn nothing_more_urgent_is_left_out()
    ensures { (book : Book) (stood : ℕ) (scheduled : List ℕ) (wall : Wall) (is : ShowsBook book stood scheduled wall)
        → AllByRecursion (λ (row : UrgentRow). AllByRecursion (λ (left : UrgentLine). urgency row.line.kind ≤ urgency left.kind) (drop MOST_LINES is.shown)) wall.urgent.now }
{}

/// What a wall says of a request is so: what it shows as free stands at Approved, no open insert names it, and nothing locks it.
pub fn what_is_shown_is_so()
    ensures { (book : Book) (stood : ℕ) (scheduled : List ℕ) (wall : Wall) → ShowsBook book stood scheduled wall → AllByRecursion (λ (row : UrgentRow). SaysSo book row.line) wall.urgent.now }
{}

/// The requests whose ways a wall shows first are those that are open, each once: any test is passed by as many of the ones as of the others.
pub fn each_open_request_has_one_way()
    ensures { (book : Book) (stood : ℕ) (scheduled : List ℕ) (wall : Wall) (is : ShowsBook book stood scheduled wall) → IsGoodBook book
        → (p : Request → Bool) → count_by p (open_of book is.by_urgency.lines) ≡ count_by p (filter (is_open book) book.requests) }
{}
