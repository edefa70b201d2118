//! What a body posts to be loaded, to `/stacks` or to `/procedures`.
ghost use Rattle.std.specs.Prelude.{◌≡◌, option_map};
ghost use Rattle.serde_json.specs.View.{view};
ghost use Rattle.tc_api.specs.Loads.{JudgesLoadKeys, load_keys, load_keys_seen, load_outcome};

use crate::bodies::{caller_of, moment_in, number_at, text_at};
use serde_json::Value;
use tc_room::Caller;
use tc_types::{Moment, Refusal};

/// What stands at the keys of a load.
#[derive(Clone, Copy)]
struct LoadKeys<'a> {
    by: &'a str,
    csv: &'a str,
    moment: Option<u64>,
    name: &'a str,
    number: Option<u64>,
}

/// The keys of a load, where each is there and of its kind.
fn load_keys(value: &Value) -> Option<LoadKeys<'_>>
    ensures { option_map load_keys_seen result ≡ load_keys (view value.now) }
{
    Some(LoadKeys {
        by: text_at(value, "by")?,
        csv: text_at(value, "csv")?,
        moment: number_at(value, "moment")?.as_u64(),
        name: text_at(value, "name")?,
        number: number_at(value, "number")?.as_u64(),
    })
}

/// A load that is called: by whom, when, where that is a moment, and the name and the text as they came.
#[derive(Clone, Copy)]
pub(crate) struct LoadPost<'a> {
    pub(crate) caller: Caller,
    pub(crate) moment: Option<Moment>,
    pub(crate) name: &'a str,
    pub(crate) csv: &'a str,
}

/// The load that a JSON value posts: an object with the keys `by`, `csv` and `name` (texts), `moment` and `number` (numbers). It is refused as an act is.
pub(crate) fn judge_load(value: &Value) -> Result<LoadPost<'_>, Refusal>
    ensures { JudgesLoadKeys (load_keys (view value.now)) (load_outcome result) }
{
    let keys = load_keys(value).ok_or(Refusal::BadText)?;
    let caller = caller_of(keys.by, keys.number)?;
    Ok(LoadPost {
        caller,
        moment: moment_in(keys.moment),
        name: keys.name,
        csv: keys.csv,
    })
}
