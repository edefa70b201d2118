//! What may be entered: a form that keeps the rule of the on-board schedule's commands.
ghost use Rattle.std.specs.Prelude.{◌≡◌, ◌↔◌, IfSome, IsSome, IsTrue};
ghost use Rattle.tc_types.specs.Grammar.{IsEntry};
ghost use Rattle.tc_types.specs.Schedule.{KeepsScheduleRule};

use crate::numbers::Apid;
use crate::requests::{Command, Form, Outcome};
use std::marker::Model;

/// What a person says of a request when it is entered: a form whose numbers are in their ranges, and that keeps the rule of
/// the on-board schedule's commands. Each of them asks for the report of its completion and completes, for by that report
/// alone the desk knows the schedule (this desk's own). A contract sees the form.
#[derive(Clone, Copy, Debug, PartialEq, Eq)]
pub struct Entry {
    form: Form,
}

impl Model for Entry {
    ghost use Rattle.tc_types.specs.declared.requests.Form.{Form};
    ghost use Rattle.tc_types.specs.Grammar.{IsEntry};

    ghost Value = { Form };

    ghost view = { λ e. e.form };

    ghost invariant = { λ e. IsEntry e.form };

    ghost inverse = { λ form. record { form = form } };
}

impl Form {
    /// Whether a schedule command asks for its completion and completes.
    fn keeps_schedule_rule(&self) -> bool
        ensures { IsTrue result ↔ KeepsScheduleRule self.now }
    {
        !self.command.is_schedule() || (self.ack.completion && self.outcome == Outcome::Completes)
    }
}

impl Entry {
    /// The entry of this form; `None` where its command is one of the on-board schedule's and it does not ask for its
    /// completion, or is not to complete.
    pub fn new(form: Form) -> Option<Entry>
        ensures some { IfSome result (λ entry. entry ≡ form) }
        ensures which { IsSome result ↔ KeepsScheduleRule form }
        // the ranges of its numbers are kept by their types
        ensures entry { IfSome result (λ entry. IsEntry entry) }
    {
        // read for the proof alone: the numbers are in their ranges
        let _apid = form.apid.get();
        form.command.keeps_ranges();
        form.outcome.keeps_ranges();
        if form.keeps_schedule_rule() {
            Some(Entry { form })
        } else {
            None
        }
    }

    /// The application process.
    pub fn apid(&self) -> Apid
        ensures { result ≡ self.now.apid }
    {
        self.form.apid
    }

    /// What it commands.
    pub fn command(&self) -> Command
        ensures { result ≡ self.now.command }
    {
        self.form.command
    }

    /// What was written down, in form.
    pub fn form(&self) -> Form
        ensures form { result ≡ self.now }
        ensures entry { IsEntry self.now }
    {
        self.form
    }
}
