//! Why the marks are compared. This function does nothing: its clause is the law.
ghost use Rattle.std.specs.Prelude.{◌≡◌, ◌≢◌, Some, IfSome};
ghost use Rattle.tc_copy.specs.Copies.{Mixes};
ghost use Rattle.tc_copy.specs.Marks.{head_of};
ghost use Rattle.tc_copy.specs.declared.marks.Marks.{Marks as SomeMarks};

/// Where a page is copied into the file and the log is emptied, so that it stands under another head or under none, a copy that was read meanwhile may
/// recover a page as the desk never had it.
pub fn an_emptied_log_mixes()
    ensures { (before between behind : SomeMarks) → head_of between.log ≡ head_of before.log → between ≢ before → behind ≢ before
        → IfSome (head_of behind.log) (λ head. head_of before.log ≢ Some head) → Mixes before behind }
{}
