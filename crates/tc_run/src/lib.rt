//! The run of a script on a desk, in memory or one that is kept in a database, and the opening of one that is served. A reader, a writer, a store and a
//! source of files are whatever the caller has.
#![tactic(auto)]

mod files;
mod kept;
mod moments;
mod opened;
mod run;

pub use kept::run_kept;
pub use moments::{last_moment, later, latest_moment};
pub use opened::{Opening, Unopened, open_told};
pub use run::{exchange, run_script};
