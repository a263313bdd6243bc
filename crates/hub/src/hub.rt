//! The hub: a book on a disk in memory, with a session for each peer.

ghost use Rattle.std.specs.Prelude.{◌≡◌, ◌≤◌, IfOk, None, Some, false};
ghost use Rattle.book_model.specs.Rows.{is_full, under};
ghost use Rattle.session_model.specs.Clients.{Client};
ghost use Rattle.session_record.specs.Lawful.{IsLawfulClient};
ghost use Rattle.hub.specs.Beginning.{BeginsHub, BeginsOne, IsErrorOf, IsFirstRefusal};
ghost use Rattle.hub.specs.Peers.{begun_rows, peer_name};

use crate::opening::opened;
use crate::peers::{PEERS_LIMIT, peer_key, peer_name};
use crate::playing::FanPlayError;
use bodies::Format;
use book::{Book, BookBeginError};
use book_store::{BOOK_START, ROW_SIZE, resting_books, zeros_are_at_rest};
use dr_base::Side;
use dr_disk::MemoryDisk;
use kem_laws::Kem;
use std::alloc::{AllocError, Global};
use std::marker::Model;

/// A book that is open on a disk in memory, all of whose calls pass. A contract sees the book.
#[derive(Drop)]
pub(crate) struct Hub<K: Kem> {
    pub(crate) book: Book<K>,
    pub(crate) disk: MemoryDisk,
}

impl<K: Kem> Model for Hub<K> {
    ghost use Rattle.book.specs.Books.{BookNow};
    ghost use Rattle.hub.specs.Held.{IsHeld};

    ghost Value = { BookNow };

    ghost view = { λ h. h.book };

    ghost invariant = { λ h. IsHeld h.book.store.rows h.book h.disk };
}

/// What a book has under a name is lawful: a caller that needs this calls it.
fn lawful_under<K: Kem>(book: &Book<K>, name: &str)
    ensures { (kept : Client) → under name.now book.now.rows ≡ Some kept
        → IsLawfulClient K.mechanism kept }
{
    if let Ok(core) = book.core(name) {
        core.lawful();
    }
}

/// Why no session is begun for a peer.
fn begin_error(error: BookBeginError) -> FanPlayError
    requires { IsFirstRefusal error }
    ensures { IsErrorOf error result }
{
    match error {
        BookBeginError::NoPair => FanPlayError::NoPair,
        BookBeginError::Memory => FanPlayError::Memory,
        _ => unreachable!(),
    }
}

impl<K: Kem> Hub<K> {
    /// A hub without a session, with room for so many.
    fn empty(alloc: Global, peers: u32) -> Result<Hub<K>, AllocError>
        requires { peers ≤ PEERS_LIMIT }
        ensures rows { IfOk result (λ hub. hub.rows ≡ begun_rows K.mechanism peers 0) }
        ensures count { IfOk result (λ hub. hub.store.rows ≡ peers) }
    {
        resting_books();
        zeros_are_at_rest();
        let Ok(mut disk) = MemoryDisk::new(alloc, BOOK_START + ROW_SIZE * u64::from(peers)) else {
            return Err(AllocError);
        };
        match opened(alloc, &mut disk, peers) {
            Ok(book) => Ok(Hub { book, disk }),
            Err(AllocError) => Err(AllocError),
        }
    }

    /// Begins the session with the peer of a number, as First.
    fn begin_one(&mut self, alloc: Global, number: u32) -> Result<(), FanPlayError>
        requires first { 1 ≤ number }
        requires few { number ≤ PEERS_LIMIT }
        requires fresh { under (peer_name number) self.old.rows ≡ None }
        requires room { is_full self.old.rows ≡ false }
        ensures { BeginsOne K.mechanism number self.old self.new result }
    {
        let name = peer_name(number);
        let key = peer_key(number);
        match self.book.begin(
            alloc,
            &mut self.disk,
            name,
            Side::First,
            Format::Plain,
            &key,
        ) {
            Ok(()) => {
                lawful_under(&self.book, name);
                Ok(())
            }
            Err(error) => Err(begin_error(error)),
        }
    }

    /// A hub with a session for each peer, as First.
    pub(crate) fn new(alloc: Global, peers: u32) -> Result<Hub<K>, FanPlayError>
        requires { peers ≤ PEERS_LIMIT }
        ensures { BeginsHub K.mechanism peers result }
    {
        let mut hub = match Hub::<K>::empty(alloc, peers) {
            Ok(hub) => hub,
            Err(AllocError) => return Err(FanPlayError::Memory),
        };
        'peers: for at in 0..peers {
            match hub.begin_one(alloc, at + 1) {
                Ok(()) => {}
                Err(error) => return Err(error),
            }
        }
        Ok(hub)
    }
}
