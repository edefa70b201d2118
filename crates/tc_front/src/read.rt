//! The reading of a request.
ghost use Rattle.std.specs.Prelude.{◌≡◌, ◌≢◌, ◌≤◌, [], Err, IfSome, OnErr, OnOk, length};
ghost use Rattle.std.specs.Io.KnownBytes.{Consumes};
ghost use Rattle.tc_types.specs.Counts.{counts_of, inner_of, no_counts};
ghost use Rattle.tc_front.specs.Front.{Asked, IsDecided, Waits};
ghost use Rattle.tc_front.specs.Read.{CanGoOn, HasStopped, NoFront};

use crate::routes::Routes;
use crate::watch::Watch;
use std::alloc::AllocError;
use std::io;
use std::io::Read;
use tc_types::{Counted, Refusal};

/// How many times a reader is read at most. Each read gives a byte, and a text of so many decides: a head has 8,192 at most, and a
/// body 65,536.
pub const MOST_READS: u64 = 73_728;

/// Why no request was read.
#[derive(Clone, Copy, Debug, PartialEq, Eq)]
pub enum FrontFault {
    /// The reader failed or ended before a front of the input decided.
    Unread,
    /// There was no memory to read on.
    Memory,
}

impl From<AllocError> for FrontFault {
    ghost use Rattle.std.specs.Prelude.{◌≡◌};
    ghost use Rattle.tc_front.specs.declared.read.FrontFault.TheVariants.{Memory};

    ghost from_gives = { λ _ fault. fault ≡ Memory };

    fn from(_error: AllocError) -> FrontFault {
        FrontFault::Memory
    }
}

impl From<io::Error> for FrontFault {
    ghost use Rattle.std.specs.Prelude.{◌≡◌};
    ghost use Rattle.tc_front.specs.declared.read.FrontFault.TheVariants.{Unread};

    ghost from_gives = { λ _ fault. fault ≡ Unread };

    fn from(_error: io::Error) -> FrontFault {
        FrontFault::Unread
    }
}

impl From<FrontFault> for Refusal {
    ghost use Rattle.std.specs.Prelude.{◌≡◌};
    ghost use Rattle.tc_front.specs.Read.{refusal_of};

    ghost from_gives = { λ fault refusal. refusal ≡ refusal_of fault };

    fn from(fault: FrontFault) -> Refusal {
        match fault {
            FrontFault::Unread => Refusal::ReadFault,
            FrontFault::Memory => Refusal::Memory,
        }
    }
}

/// Reads until a front of the input decides: `decide` then says what `text` decides, which is what the shortest front does
/// that decides, and all that the reader had. What was read stands in `text`, however it ends: it may be more than the
/// front that decides.
///
/// # Errors
///
/// `Unread` where the reader failed or ended, and `Memory` where there was no memory for what would be read next. No front of
/// what was read decides then.
pub fn read_front<R: Read>(
    routes: &Routes,
    reader: &mut Counted<R>,
    text: &mut Vec<u8>,
) -> Result<(), FrontFault>
    requires fresh { counts_of reader.old ≡ no_counts }
    requires empty { text.old.items ≡ [] }
    ensures taken { Consumes (R.remaining (inner_of reader.old)) (R.remaining (inner_of reader.new)) text.new.items }
    ensures decided { OnOk result ((asked : Asked) × IsDecided text.new.items asked) }
    ensures whole { OnOk result ((asked : Asked) → IsDecided text.new.items asked → IfSome (R.remaining (inner_of reader.old)) (λ input. IsDecided input asked)) }
    ensures unread { result ≡ Err FrontFault.Unread → HasStopped (counts_of reader.new) }
    ensures memory { result ≡ Err FrontFault.Memory → CanGoOn (counts_of reader.new) }
    ensures waits { OnErr result (Waits text.new.items) }
    ensures fronts { OnErr result (NoFront text.new.items) }
    ensures failed { (counts_of reader.new).faults ≢ 0 → result ≡ Err FrontFault.Unread }
    ensures ended { (counts_of reader.new).ends ≢ 0 → result ≡ Err FrontFault.Unread }
    ensures reads { (counts_of reader.new).reads ≤ MOST_READS }
{
    let mut buffer = [0; 4096];
    let mut watch = Watch::new();
    'reads: loop {
        text.reserve(buffer.len())?;
        let count = reader.read(&mut buffer)?;
        if count == 0 {
            return Err(FrontFault::Unread);
        }
        text.extend_from_slice(&buffer[..count])?;
        if watch.decides(routes, text) {
            return Ok(());
        }
    }
}
