//! The run of a script.
ghost use Rattle.std.specs.Prelude.{◌≡◌, ◌⊎◌, ℕ, List, [], ◌∷◌, Err, IfErr, IfOk, false};
ghost use Rattle.std.specs.Io.KnownBytes.{Appends};
ghost use Rattle.std.specs.String.{string_bytes};
ghost use Rattle.tc_types.specs.Counts.{counts_of, inner_of};
ghost use Rattle.tc_types.specs.Loads.{line_of};
ghost use Rattle.tc_desk.specs.Replies.{Reply};
ghost use Rattle.tc_room.specs.Answers.{RefusesWith};
ghost use Rattle.tc_room.specs.Loads.{RoomLoad, loader_of};
ghost use Rattle.tc_room.specs.Replies.{ended};
ghost use Rattle.tc_room.specs.Truth.{LeavesLink};
ghost use Rattle.tc_closed.specs.Files.{Gives, file_at, none_at};
ghost use Rattle.tc_check.specs.Scripts.{is_skipped, script_lines};
ghost use Rattle.tc_run.specs.Run.{Came, CameLast, IsAnswered, RepliesTo, RunsLines, TakesLine, TakesLines, exchange};
ghost use Rattle.tc_closed.specs.Scripts.{Ends};
ghost use Rattle.tc_run.specs.Stops.{LeavesPart, Stops, StopsAfter, StopsNext, Unanswered};
ghost use Rattle.tc_closed.specs.declared.paths.PathFault.TheVariants as path_fault;

use crate::moments::{last_moment, later, latest_moment};
use bstr::ByteSlice;
use sqlite::Alter;
use std::alloc::{AllocError, Global};
use std::io::Write;
use tc_check::is_skipped;
use tc_closed::{Answered, MOST_FILE_BYTES, PathFault, Paths, ScriptFault, Watch, put, status_of};
use tc_lines::read::load_reader::read_load;
use tc_room::{Answer, Room, answer_line, answer_load, answer_places};
use tc_types::{Counted, Load, Moment};
use tc_world::Config;

/// Runs the lines of a script on a desk where nothing happened yet, and writes what they are answered, and at the end
/// what `places` is answered. Gives the exit status: 1 where any line or that question was refused, else 0. A line that loads
/// a stack or a procedure takes its text from this source of files; a path that gives none ends the run. Where it is watched with an echo, each line that is
/// answered is written before its answer, behind `> `.
///
/// The writer begins to count here, so that a caller sees whether it failed. What it holds back is the caller's to flush.
///
/// Before its first line a run ends with `Config`, `Memory` or `Tables`, where the desk is not opened; behind it with `Output` where a write fails, `Path` where the path
/// of the next line gives no text, and `Memory` where that text or that of a reply finds none.
pub fn run_script<P: Paths, T: Watch, W: Write>(
    alloc: Global,
    config: Config,
    text: &[u8],
    paths: &mut P,
    watch: &T,
    writer: &mut Counted<W>,
) -> Result<u8, ScriptFault>
    ensures { Ends (λ status. IsAnswered (T.echoes watch.now) config text.now status (P.given paths.old) (P.given paths.new) (W.contents (inner_of writer.old)) (W.contents (inner_of writer.new)))
        (λ fault. Stops (T.echoes watch.now) config fault (script_lines text.now) (P.given paths.old) (P.given paths.new) (W.contents (inner_of writer.old)) (W.contents (inner_of writer.new))) (counts_of writer.old) (counts_of writer.new) result }
{
    let mut room = Room::open_in_memory(alloc, config)?;
    let ended = run_room(alloc, &mut room, text, paths, watch, writer);
    // read for the proof alone: the promise is kept, also where the run stopped
    let _opened = room.opened();
    ended
}

/// Runs the lines of a script in a room, and asks the question `places`.
pub(crate) fn run_room<S: Alter + Drop, P: Paths, T: Watch, W: Write>(
    alloc: Global,
    room: &mut Room<S>,
    text: &[u8],
    paths: &mut P,
    watch: &T,
    writer: &mut Counted<W>,
) -> Result<u8, ScriptFault>
    ensures { Ends (λ status. RunsLines S.Store (T.echoes watch.now) room.old text.now status (P.given paths.old) (P.given paths.new) (W.contents (inner_of writer.old)) (W.contents (inner_of writer.new)) room.new)
        (λ fault. StopsAfter S.Store (T.echoes watch.now) fault room.old (script_lines text.now) (P.given paths.old) (P.given paths.new) (W.contents (inner_of writer.old)) (W.contents (inner_of writer.new)) room.new) (counts_of writer.old) (counts_of writer.new) result }
{
    let refused = run_lines(alloc, room, text, paths, watch, writer)?;
    // read for the proof alone: the promise is kept
    let _opened = room.opened();
    let last = run_places(alloc, room, writer)?;
    Ok(status_of(refused | last))
}

/// What a line that loads a stack or a procedure is answered, once the text at its path is there.
fn answer_file<S: Alter + Drop, P: Paths>(
    alloc: Global,
    room: &mut Room<S>,
    load: &Load<'_>,
    paths: &mut P,
) -> Result<Answer, ScriptFault>
    ensures answered { IfOk result (λ answer. (reply : Reply) × (text : List ℕ) × RoomLoad S.Store room.old (loader_of (line_of load.now)) load.now.kind load.now.name text reply room.new
        × Gives (P.given paths.old) (P.given paths.new) (file_at load.now.path.now text ∷ [])
        × (string_bytes answer.text ≡ ended reply) × RefusesWith reply answer.refusal × (room.new.opened ≡ room.old.opened)) }
    ensures link { LeavesLink room.old room.new }
    ensures fault { IfErr result (λ fault. (fault ≡ ScriptFault.Memory) ⊎ (fault ≡ ScriptFault.Path)) }
    // its path gave no text, and nothing happened
    ensures unread { result ≡ Err ScriptFault.Path → Gives (P.given paths.old) (P.given paths.new) (none_at load.now.path.now path_fault.Unreadable ∷ []) × (room.new ≡ room.old) }
    // it was answered, and there was no memory for the text of its reply; or there was none for the text at its path, and nothing happened
    ensures memory { result ≡ Err ScriptFault.Memory →
        ((reply : Reply) × (text : List ℕ) × RoomLoad S.Store room.old (loader_of (line_of load.now)) load.now.kind load.now.name text reply room.new
        × Gives (P.given paths.old) (P.given paths.new) (file_at load.now.path.now text ∷ []))
        ⊎ (Gives (P.given paths.old) (P.given paths.new) (none_at load.now.path.now path_fault.Memory ∷ []) × (room.new ≡ room.old)) }
{
    match paths.load(alloc, load.path, MOST_FILE_BYTES) {
        Ok(text) => Ok(answer_load(alloc, room, load, &text)?),
        Err(PathFault::Unreadable) => Err(ScriptFault::Path),
        Err(PathFault::Memory) => Err(ScriptFault::Memory),
    }
}

/// What a line that is not skipped is answered.
fn answer<S: Alter + Drop, P: Paths>(
    alloc: Global,
    room: &mut Room<S>,
    line: &[u8],
    paths: &mut P,
) -> Result<Answer, ScriptFault>
    ensures answered { IfOk result (λ answer. RepliesTo S.Store room.old line.now (P.given paths.old) (P.given paths.new) (string_bytes answer.text) answer.refusal room.new) }
    ensures unanswered { IfErr result (Unanswered S.Store room.old line.now (P.given paths.old) (P.given paths.new) room.new) }
{
    match read_load(line) {
        Ok(load) => answer_file(alloc, room, &load, paths),
        Err(_) => Ok(answer_line(alloc, room, line)?),
    }
}

/// What is written where a line is answered by this text.
pub fn exchange(
    alloc: Global,
    echoes: bool,
    line: &[u8],
    answer: String,
) -> Result<Vec<u8>, AllocError>
    ensures { IfOk result (λ bytes. bytes.items ≡ exchange echoes line.now (string_bytes answer)) }
{
    if !echoes {
        return Ok(answer.into_bytes());
    }
    let mut bytes = Vec::from_slice(alloc, b"> ")?;
    bytes.extend_from_slice(line)?;
    bytes.push(b'\n')?;
    bytes.extend_from_slice(answer.as_bytes())?;
    Ok(bytes)
}

/// The place of a line in a script.
#[derive(Clone, Copy)]
struct Turn {
    /// Its number, from 1.
    number: usize,
    /// When the latest of the moves before it was, if there was one.
    latest: Option<Moment>,
}

impl Turn {
    /// Returns the place of the next line, before which the last move was at this moment.
    fn next(self, last: Option<Moment>) -> Turn {
        Turn {
            number: self.number.saturating_add(1),
            latest: later(self.latest, last),
        }
    }
}

/// Takes the line at this place in the script, and says whether it was refused.
fn run_line<S: Alter + Drop, P: Paths, T: Watch, W: Write>(
    alloc: Global,
    room: &mut Room<S>,
    turn: Turn,
    line: &[u8],
    paths: &mut P,
    watch: &T,
    writer: &mut Counted<W>,
) -> Result<bool, ScriptFault>
    ensures { Ends (λ refused. Came S.Store (T.echoes watch.now) (line.now ∷ []) (TakesLine S.Store room.old line.now) room.old (P.given paths.old) (P.given paths.new) (W.contents (inner_of writer.old)) (W.contents (inner_of writer.new)) room.new refused)
        (λ fault. StopsNext S.Store (T.echoes watch.now) fault room.old (line.now ∷ []) (P.given paths.old) (P.given paths.new) (W.contents (inner_of writer.old)) (W.contents (inner_of writer.new)) room.new) (counts_of writer.old) (counts_of writer.new) result }
{
    if is_skipped(line) {
        return Ok(false);
    }
    let answer = answer(alloc, room, line, paths)?;
    let refused = answer.refused();
    let refusal = answer.refusal;
    let shown = exchange(alloc, watch.echoes(), line, answer.text)?;
    put(writer, &shown)?;
    watch.answered(&Answered {
        number: turn.number,
        line,
        refusal,
        last: turn.latest,
    });
    Ok(refused)
}

/// Takes each line in turn, and says whether any was refused.
fn run_lines<S: Alter + Drop, P: Paths, T: Watch, W: Write>(
    alloc: Global,
    room: &mut Room<S>,
    text: &[u8],
    paths: &mut P,
    watch: &T,
    writer: &mut Counted<W>,
) -> Result<bool, ScriptFault>
    ensures { Ends (λ refused. Came S.Store (T.echoes watch.now) (script_lines text.now) (TakesLines S.Store room.old (script_lines text.now)) room.old (P.given paths.old) (P.given paths.new) (W.contents (inner_of writer.old)) (W.contents (inner_of writer.new)) room.new refused)
        (λ fault. StopsAfter S.Store (T.echoes watch.now) fault room.old (script_lines text.now) (P.given paths.old) (P.given paths.new) (W.contents (inner_of writer.old)) (W.contents (inner_of writer.new)) room.new) (counts_of writer.old) (counts_of writer.new) result }
{
    let mut refused = false;
    let mut turn = Turn {
        number: 0,
        latest: latest_moment(room),
    };
    for line in text.lines() {
        turn = turn.next(last_moment(room));
        refused |= run_line(alloc, room, turn, line, paths, watch, writer)?;
    }
    Ok(refused)
}

/// Asks the question `places`, and says whether it was refused.
fn run_places<S: Alter + Drop, W: Write>(
    alloc: Global,
    room: &mut Room<S>,
    writer: &mut Counted<W>,
) -> Result<bool, ScriptFault>
    ensures { Ends (λ refused. CameLast S.Store room.old (W.contents (inner_of writer.old)) (W.contents (inner_of writer.new)) room.new refused)
        (λ fault. (part : List ℕ) × LeavesPart S.Store false fault room.old [] [] part room.new × Appends (W.contents (inner_of writer.old)) (W.contents (inner_of writer.new)) part) (counts_of writer.old) (counts_of writer.new) result }
{
    let last = answer_places(alloc, room)?;
    put(writer, last.text.as_bytes())?;
    Ok(last.refused())
}
