//! How tables of an earlier version become those of the newest, with all their rows.
ghost use Rattle.std.specs.Prelude.{◌≡◌};
ghost use Rattle.tc_store.specs.Ledgers.{from_or};
ghost use Rattle.tc_store.specs.Steps.{Does, Migrated};

use crate::creates::{define_all, missing_texts};
use crate::steps::run;
use crate::versions::Version;
use sqlite::{Alter, Error, Transaction};

/// The text that names the newest version where another is named. The row keeps its number, which is that of a new desk's.
const UPDATE_VERSION: &str = "UPDATE meta SET value = 3 WHERE name = 'schema'";

/// Makes the tables that an earlier version lacks, and names the newest.
fn migrate<S: Alter>(tx: &mut Transaction<'_, S>, from: Version) -> Result<usize, Error>
    ensures { Does S.Store (λ _. Migrated S.Store from) tx.old.conn tx.new.conn result }
{
    define_all(tx, missing_texts(from))?;
    run(tx, UPDATE_VERSION, &[])
}

/// Brings the tables to the newest version, where they are of another.
pub(crate) fn bring<S: Alter>(
    tx: &mut Transaction<'_, S>,
    from: Option<Version>,
) -> Result<(), Error>
    ensures { Does S.Store (λ _. Migrated S.Store (from_or from)) tx.old.conn tx.new.conn result }
{
    if let Some(version) = from {
        migrate(tx, version)?;
    }
    Ok(())
}
