//! The book, and what it shows.

ghost use Rattle.std.specs.Prelude.{◌≡◌, ◌≤◌, IfErr, IfOk, IfSome, None, Some, get_or, is_some, length, option_map, slice_get};
ghost use Rattle.boxes.specs.Posts.{post_under};
ghost use Rattle.boxes.specs.Seen.{entry_seen};
ghost use Rattle.book_model.specs.Rows.{under};
ghost use Rattle.dr_base.specs.declared.limits.TheConstants.{PACKET_LIMIT, TEXT_LIMIT};
ghost use Rattle.session_model.specs.Clients.{summary_of};
ghost use Rattle.book.specs.Showing.{IsUnder};
ghost use Rattle.book.specs.RowKeepings.{name_of};

use crate::refusals::NoName;
use crate::row::row_name;
use crate::shelf::Shelf;
use boxes::Entry;
use client::Core;
use dr_base::Position;
use kem_laws::Kem;
use session_model::Summary;
use std::marker::Model;

/// Up to 32 sessions under names, kept in one store on a disk, which each call is lent as the last
/// one left it. A contract sees its rows, its store, and the call on the disk that closed it. It
/// takes all its memory when it is opened, and when a session is begun.
#[derive(Drop)]
pub struct Book<K: Kem> {
    pub(crate) shelf: Shelf<K>,
}

impl<K: Kem> Model for Book<K> {
    ghost use Rattle.book.specs.Books.{BookNow};

    ghost Value = { BookNow };

    ghost view = { λ b. b.shelf.book };
}

impl<K: Kem> Book<K> {
    /// The session of a name. `NoName` exactly where no row has the name.
    pub fn core(&self, name: &str) -> Result<&Core<K>, NoName>
        ensures none { IfErr result (λ _. under name.now self.now.rows ≡ None) }
        ensures shows { IfOk result (λ core. under name.now self.now.rows ≡ Some core.now) }
    {
        match self.shelf.look(name) {
            Some(core) => Ok(core),
            None => Err(NoName),
        }
    }

    /// The text of a session's inbox at a place, from 0, the oldest first. `NoName` exactly where
    /// no row has the name.
    pub fn inbox(&self, name: &str, at: usize) -> Result<Option<Entry<'_>>, NoName>
        ensures none { IfErr result (λ _. under name.now self.now.rows ≡ None) }
        ensures shows { IfOk result (λ entry. IsUnder name.now self.now.rows (λ kept.
            option_map entry_seen entry ≡ slice_get kept.inbox at)) }
        ensures fits { IfOk result (λ entry.
            IfSome entry (λ entry. length entry.text.now ≤ TEXT_LIMIT)) }
    {
        match self.shelf.look(name) {
            Some(core) => Ok(core.inbox(at)),
            None => Err(NoName),
        }
    }

    /// The packet of a session's outbox at a place, from 0, the oldest first. `NoName` exactly
    /// where no row has the name.
    pub fn outbox(&self, name: &str, at: usize) -> Result<Option<(Position, &[u8])>, NoName>
        ensures none { IfErr result (λ _. under name.now self.now.rows ≡ None) }
        ensures shows { IfOk result (λ packet. IsUnder name.now self.now.rows (λ kept.
            option_map (λ pair. post_under pair.0 pair.1.now) packet
            ≡ slice_get kept.outbox at)) }
        ensures fits { IfOk result (λ packet.
            IfSome packet (λ pair. length pair.1.now ≤ PACKET_LIMIT)) }
    {
        match self.shelf.look(name) {
            Some(core) => Ok(core.outbox(at)),
            None => Err(NoName),
        }
    }

    /// Where a session's own text stands that waits for a receipt at a place, from 0, the oldest
    /// first. `NoName` exactly where no row has the name.
    pub fn awaiting(&self, name: &str, at: usize) -> Result<Option<Position>, NoName>
        ensures none { IfErr result (λ _. under name.now self.now.rows ≡ None) }
        ensures shows { IfOk result (λ position. IsUnder name.now self.now.rows (λ kept.
            position ≡ slice_get kept.state.awaiting at)) }
    {
        match self.shelf.look(name) {
            Some(core) => Ok(core.awaiting(at)),
            None => Err(NoName),
        }
    }

    /// What a session holds, in numbers. `NoName` exactly where no row has the name.
    pub fn state(&self, name: &str) -> Result<Summary, NoName>
        ensures none { IfErr result (λ _. under name.now self.now.rows ≡ None) }
        ensures shows { IfOk result (λ summary. IsUnder name.now self.now.rows (λ kept.
            summary ≡ summary_of kept)) }
    {
        match self.shelf.look(name) {
            Some(core) => Ok(core.state()),
            None => Err(NoName),
        }
    }

    /// The name of a row; none exactly where the row is absent.
    pub fn name(&self, row: usize) -> Option<&str>
        ensures variant { is_some result ≡ is_some (get_or self.now.rows row None) }
        ensures value { IfSome result (λ name.
            name_of (get_or self.now.rows row None) ≡ Some name.now) }
    {
        let rows = &self.shelf.rows;
        if row < rows.len() {
            return row_name(&rows[row]);
        }
        None
    }
}
