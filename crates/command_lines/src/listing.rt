//! What a command lists of a core.

ghost use Rattle.dr_ports.specs.Writing.{Writes};
ghost use Rattle.command_lines.specs.Listings.{lines_of};

use crate::showing::{write_inbox, write_outbox, write_state};
use crate::waiting::write_awaiting;
use client::Core;
use dr_ports::{Failed, Sink};
use kem_laws::Kem;

/// What a command lists of what a core keeps.
#[derive(Clone, Copy, PartialEq, Eq, Drop)]
pub enum Listing {
    /// The texts of the inbox, a line `E.I "TEXT"` for each, the oldest first.
    Inbox,
    /// The packets of the outbox, a line `E.I HEX` for each, the oldest first.
    Outbox,
    /// The own texts that wait for a receipt: a line `awaiting COUNT`, and then a line `E.I` for
    /// each, the oldest first.
    Awaiting,
    /// What the core is and holds: the lines `session S`, `side SIDE`, `epoch E`, `missing M`,
    /// `inbox I` and `outbox O`.
    State,
}

/// Writes the lines of a listing.
pub fn write_listing<K: Kem, O: Sink>(
    core: &Core<K>,
    listing: Listing,
    out: &mut O,
) -> Result<(), Failed>
    ensures { Writes (O.at out.old) (O.at out.new) (lines_of listing core.now) result }
{
    match listing {
        Listing::Inbox => write_inbox(core, out),
        Listing::Outbox => write_outbox(core, out),
        Listing::Awaiting => write_awaiting(core, out),
        Listing::State => write_state(core, out),
    }
}
