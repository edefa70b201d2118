//! What holds of the definitions. These functions do nothing: their clauses are the laws.
ghost use Rattle.std.specs.Prelude.{◌≡◌, ℕ, List, Option};
ghost use Rattle.tc_types.specs.declared.link.reports.Report.TheVariants as report;
ghost use Rattle.tc_types.specs.declared.link.reports.Telemetry.{Telemetry};
ghost use Rattle.tc_types.specs.declared.link.reports.Telemetry.TheVariants as telemetry;
ghost use Rattle.tc_types.specs.declared.link.telecommands.ScheduleCommand.{ScheduleCommand};
ghost use Rattle.tc_board.specs.Schedule.{ScheduleState, IsSchedule, summary_of};
ghost use Rattle.tc_board.specs.Board.{BoardState, new_board};
ghost use Rattle.tc_board.specs.Mirror.{MirrorState, no_mirror, mirror_of, mirror_after};
ghost use Rattle.tc_board.specs.Follows.{Roll, IsBoardOf, Event, IsEventOf, Makes, read_all, Runs};

/// While every report that the spacecraft makes is read, in order, and with the command of the request that it names, the
/// mirror is the spacecraft's schedule. The premise is on what the desk releases (`IsEventOf`): a request flies on its own
/// or inside an insert, never both; an activity has its request's own identity, is plain and asks for its acceptance.
pub fn mirror_follows()
    // step by step: from a state in which the mirror is the schedule
    ensures steps { (roll : Roll) (old new : BoardState) (event : Event) (made : List Telemetry) → IsBoardOf roll old → IsEventOf roll event → Makes old event made new → IsBoardOf roll new × (read_all roll (mirror_of old.schedule) made ≡ mirror_of new.schedule) }
    // in all runs from a new spacecraft
    ensures runs { (roll : Roll) (time : ℕ) (made : List Telemetry) (new : BoardState) → Runs roll (new_board time) made new → read_all roll no_mirror made ≡ mirror_of new.schedule }
{}

/// A summary makes the mirror what it carries, whatever was lost before.
pub fn summary_tells()
    ensures { (before : MirrorState) (command : Option ScheduleCommand) (s : ScheduleState) → IsSchedule s.activities → mirror_after before (report.Telemetry (telemetry.Summary (summary_of s)), command) ≡ mirror_of s }
{}
