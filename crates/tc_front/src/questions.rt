//! The question that a path asks, by the numbers in it.
ghost use Rattle.tc_front.specs.Judge.{AsksFor, AsksHistory, AsksMoves, AsksProcedure, AsksReport, AsksRequest, AsksUrgent};
ghost use Rattle.tc_front.specs.Paths.{texts_of};

use crate::paths::Question;
use tc_lines::read::readers::{moment, number};
use tc_types::{Name, Query};

/// What a path asks: nothing where a number in it is not in form, or past its range.
pub(crate) fn query_of(question: Question<'_>) -> Option<Query>
    ensures { AsksFor (texts_of question.entry) result }
{
    match question {
        Question::Places => Some(Query::Places),
        Question::Request { number } => request_query(number),
        Question::History { request, after } => history_query(request, after),
        Question::Report { from, to } => report_query(from, to),
        Question::Waiting => Some(Query::Waiting),
        Question::Urgent { from } => urgent_query(from),
        Question::Moves { after } => moves_query(after),
        Question::Procedure { name } => procedure_query(name),
    }
}

/// Request `word`.
fn request_query(word: &[u8]) -> Option<Query>
    ensures { AsksRequest word.now result }
{
    let request = number(word)?;
    Some(Query::Request { request })
}

/// The history of request `first` behind row `second`.
fn history_query(first: &[u8], second: &[u8]) -> Option<Query>
    ensures { AsksHistory first.now second.now result }
{
    let request = number(first);
    let after = number(second);
    Some(Query::History {
        request: request?,
        after: after?,
    })
}

/// The shift from `first` to before `second`.
fn report_query(first: &[u8], second: &[u8]) -> Option<Query>
    ensures { AsksReport first.now second.now result }
{
    let from = moment(first);
    let to = moment(second);
    Some(Query::Report {
        from: from?,
        to: to?,
    })
}

/// The page of what is urgent that begins with line `word`.
fn urgent_query(word: &[u8]) -> Option<Query>
    ensures { AsksUrgent word.now result }
{
    let from = number(word)?;
    Some(Query::Urgent { from })
}

/// The moves behind row `word`.
fn moves_query(word: &[u8]) -> Option<Query>
    ensures { AsksMoves word.now result }
{
    let after = number(word)?;
    Some(Query::Moves { after })
}

/// The procedure of the name `word`.
fn procedure_query(word: &[u8]) -> Option<Query>
    ensures { AsksProcedure word.now result }
{
    let procedure = Name::read(word)?;
    Some(Query::Steps { procedure })
}
