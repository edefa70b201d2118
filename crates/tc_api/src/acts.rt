//! What a body posts to `/acts`.
ghost use Rattle.std.specs.Prelude.{◌≡◌, option_map};
ghost use Rattle.serde_json.specs.View.{view};
ghost use Rattle.tc_api.specs.Acts.{JudgesActKeys, act_keys, act_keys_seen, act_outcome};

use crate::bodies::{caller_of, moment_in, number_at, text_at};
use serde_json::Value;
use tc_room::Caller;
use tc_types::{Moment, Refusal};

/// What stands at the keys of an act.
#[derive(Clone, Copy)]
struct ActKeys<'a> {
    act: &'a str,
    by: &'a str,
    moment: Option<u64>,
    number: Option<u64>,
}

/// The keys of an act, where each is there and of its kind.
fn act_keys(value: &Value) -> Option<ActKeys<'_>>
    ensures { option_map act_keys_seen result ≡ act_keys (view value.now) }
{
    Some(ActKeys {
        act: text_at(value, "act")?,
        by: text_at(value, "by")?,
        moment: number_at(value, "moment")?.as_u64(),
        number: number_at(value, "number")?.as_u64(),
    })
}

/// An act or a question that is called: by whom, and when, where that is a moment.
#[derive(Clone, Copy)]
pub(crate) struct ActPost<'a> {
    pub(crate) caller: Caller,
    pub(crate) moment: Option<Moment>,
    pub(crate) text: &'a str,
}

/// The act or the question that a JSON value posts: an object with the keys `act` and `by` (texts), `moment` and `number` (numbers). It is refused with `BadText` where it
/// is no such object, the person may not act, or the number is not whole or out of range.
pub(crate) fn judge_act(value: &Value) -> Result<ActPost<'_>, Refusal>
    ensures { JudgesActKeys (act_keys (view value.now)) (act_outcome result) }
{
    let keys = act_keys(value).ok_or(Refusal::BadText)?;
    let caller = caller_of(keys.by, keys.number)?;
    Ok(ActPost {
        caller,
        moment: moment_in(keys.moment),
        text: keys.act,
    })
}
