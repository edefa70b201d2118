//! What holds of the lines of any book. These functions do nothing: their clauses are the laws.
ghost use Rattle.std.specs.Prelude.{◌≡◌, ℕ, List, IfSome};
ghost use Rattle.tc_types.specs.declared.requests.Request.{Request};
ghost use Rattle.tc_book.specs.Book.{Book};
ghost use Rattle.tc_urgent.specs.declared.lines.UrgentLine.{UrgentLine};
ghost use Rattle.tc_urgent.specs.Folds.{folded, total};
ghost use Rattle.tc_urgent.specs.Judging.{kind_of};
ghost use Rattle.tc_urgent.specs.Laws.{AreByUrgency, AreShownOnce, NoneMoreUrgent, TellsSo};
ghost use Rattle.tc_urgent.specs.Lines.{request_lines};

/// Each request that has not ended, or that failed after the opening, has one line, and no other
/// request has one.
pub fn each_open_request_has_one_line()
    ensures { (book : Book) (opened : ℕ) (scheduled : List ℕ) → AreShownOnce book opened (request_lines book opened scheduled) }
{}

/// What a line says of a request is so: an activity of an open insert is never told to be free, and
/// a lock that never opens is told as that.
pub fn what_is_told_is_so()
    ensures { (book : Book) (opened : ℕ) (scheduled : List ℕ) (r : Request) → IfSome (kind_of book opened scheduled r) (TellsSo book r) }
{}

/// Folded lines stand for as many requests and executions as the lines did.
pub fn a_fold_counts_all()
    ensures { (lines : List UrgentLine) → total (folded lines) ≡ total lines }
{}

/// No line is more urgent than one before it. So what a page leaves out after it is not more urgent
/// than what it shows.
pub fn nothing_urgent_comes_later()
    ensures { (lines : List UrgentLine) → AreByUrgency lines → NoneMoreUrgent lines }
{}

/// That stays so when the lines are folded.
pub fn a_fold_keeps_the_order()
    ensures { (lines : List UrgentLine) → NoneMoreUrgent lines → NoneMoreUrgent (folded lines) }
{}
