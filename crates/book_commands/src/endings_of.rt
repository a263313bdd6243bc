//! How a command ends where no book was opened, or none of its sessions was called.

ghost use Rattle.std.specs.Prelude.{◌≡◌};
ghost use Rattle.book_commands.specs.Opening.{ending_of_begin_book, ending_of_open_book};

use book::{BookBeginError, BookOpenError};
use endings::Ending;
use session_model::Refusal;

/// Where no book was opened.
pub(crate) fn unopened(error: BookOpenError) -> Ending
    ensures { result ≡ ending_of_open_book error }
{
    match error {
        BookOpenError::Memory => Ending::NoMemory,
        BookOpenError::StoreFault { .. } => Ending::DiskFault,
        BookOpenError::DamagedTable { table, at } => Ending::DamagedBookTable { table, at },
        BookOpenError::DamagedRow { row, at } => Ending::DamagedBookRow { row, at },
    }
}

/// Where no session was begun.
pub(crate) fn unbegun(error: BookBeginError) -> Ending
    ensures { result ≡ ending_of_begin_book error }
{
    match error {
        BookBeginError::Closed { .. } => Ending::DiskFault,
        BookBeginError::BadName => Ending::BadName,
        BookBeginError::NameTaken => Ending::NameTaken,
        BookBeginError::BookFull { rows } => Ending::BookFull(rows),
        BookBeginError::Memory => Ending::NoMemory,
        BookBeginError::NoPair => Ending::Refused(Refusal::NoPair),
        BookBeginError::StoreFault { .. } => Ending::DiskFault,
    }
}
