//! The table of a record, as the pages of a disk know it.

ghost use Rattle.std.specs.Prelude.{◌≡◌};
ghost use Rattle.slot_store.specs.Reading.{table_number};

use pages::Directory;

/// A table names the pages of one record.
pub(crate) struct RecordTable;

impl Directory for RecordTable {
    ghost use Rattle.record_pages.specs.Tables.{record_names};

    ghost names = { record_names };
}

/// The number of a table.
pub(crate) fn number(second: bool) -> u32
    ensures { result ≡ table_number second }
{
    if second { 1 } else { 0 }
}
