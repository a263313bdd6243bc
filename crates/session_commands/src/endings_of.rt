//! How a command ends, where no client was opened or begun.

ghost use Rattle.std.specs.Prelude.{◌≡◌};
ghost use Rattle.session_commands.specs.Opening.{ending_of_begin, ending_of_open};

use client::{BeginRefusal, OpenRefusal};
use endings::Ending;
use session_model::Refusal;

/// Where no client was opened.
pub(crate) fn unopened(refusal: OpenRefusal) -> Ending
    ensures { result ≡ ending_of_open refusal }
{
    match refusal {
        OpenRefusal::Memory => Ending::NoMemory,
        OpenRefusal::StoreFault { .. } => Ending::DiskFault,
        OpenRefusal::Damaged { slot, at } => Ending::Damaged { slot, at },
        OpenRefusal::NoSession => Ending::NoSession,
    }
}

/// Where none was begun.
pub(crate) fn unbegun(refusal: BeginRefusal) -> Ending
    ensures { result ≡ ending_of_begin refusal }
{
    match refusal {
        BeginRefusal::Memory => Ending::NoMemory,
        BeginRefusal::StoreFault { .. } => Ending::DiskFault,
        BeginRefusal::Damaged { slot, at } => Ending::Damaged { slot, at },
        BeginRefusal::Exists => Ending::Exists,
        BeginRefusal::NoPair => Ending::Refused(Refusal::NoPair),
    }
}
