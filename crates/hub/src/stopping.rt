//! The hub fans its text, on a disk that stops meanwhile.

ghost use Rattle.std.specs.Prelude.{◌≡◌, ◌≤◌, IfErr, IfOk, false};
ghost use Rattle.book_model.specs.Rows.{Rows};
ghost use Rattle.book_store.specs.Layout.{HasBook};
ghost use Rattle.dr_disk.specs.MemoryDisks.{state_of};
ghost use Rattle.session_model.specs.Clients.{Client};
ghost use Rattle.hub.specs.Held.{AreLawful, LeavesRows, LeavesSessions};
ghost use Rattle.hub.specs.Leaving.{IsLeftOf};
ghost use Rattle.hub.specs.Peers.{hub_rows};
ghost use Rattle.hub.specs.Plays.{IsRefusalOf, IsSaidRefusal, StopsFan};
ghost use Rattle.hub.specs.declared.playing.FanPlayError.TheVariants.{Memory};

use crate::draws::hub_draws;
use crate::everyone::everyone;
use crate::hub::Hub;
use crate::opening::opened;
use crate::peers::PEERS_LIMIT;
use crate::playing::FanPlayError;
use book::{Book, FanRefusal};
use book_store::resting_books;
use client::SayRefusal;
use dr_disk::{MemoryDisk, Mode};
use kem_laws::{Kem, laws};
use session_model::Refusal;
use std::alloc::{AllocError, Global};

/// The text that the hub says.
const HELLO: &[u8; 5] = b"hello";

/// Why a session of the hub refuses its text, none of whose draws fails.
fn refusal_of(refusal: SayRefusal) -> Refusal
    requires { IsSaidRefusal refusal }
    ensures { IsRefusalOf refusal result }
{
    match refusal {
        SayRefusal::Refused(refusal) => refusal,
        SayRefusal::NoPair { .. } => Refusal::NoPair,
        _ => unreachable!(),
    }
}

/// A book as it was recovered, or as it stands where its fan was acknowledged.
#[derive(Drop)]
pub(crate) struct Left<K: Kem> {
    pub(crate) book: Book<K>,
    pub(crate) acknowledged: bool,
}

/// The book that a disk has after a crash.
fn recovered<K: Kem>(
    alloc: Global,
    disk: MemoryDisk,
    mode: Mode,
    peers: u32,
) -> Result<Left<K>, FanPlayError>
    requires few { peers ≤ PEERS_LIMIT }
    requires within { HasBook peers (state_of disk) }
    requires leaves { LeavesSessions K.mechanism peers mode (state_of disk) }
    ensures rows { IfOk result (λ left. (sessions : Rows Client)
        → LeavesRows K.mechanism peers sessions mode (state_of disk)
        → left.book.rows ≡ sessions) }
    ensures cut { IfOk result (λ left. left.acknowledged ≡ false) }
    ensures memory { IfErr result (λ error. error ≡ Memory) }
{
    let mut disk = disk.crash(mode);
    match opened(alloc, &mut disk, peers) {
        Ok(book) => Ok(Left {
            book,
            acknowledged: false,
        }),
        Err(AllocError) => Err(FanPlayError::Memory),
    }
}

impl<K: Kem> Hub<K> {
    /// Fans the text to all peers, on a disk that stops once this many writes and syncs have
    /// passed. Where that cuts the fan off, the disk crashes in this way, and the book is opened
    /// from what is left.
    pub(crate) fn fan_stopped(
        self,
        alloc: Global,
        peers: u32,
        after: u32,
        mode: Mode,
    ) -> Result<Left<K>, FanPlayError>
        requires first { 1 ≤ peers }
        requires few { peers ≤ PEERS_LIMIT }
        requires rows { self.rows ≡ hub_rows K.mechanism peers }
        requires count { self.store.rows ≡ peers }
        requires lawful { AreLawful K.mechanism self.rows }
        ensures left { IfOk result (λ left. IsLeftOf K.mechanism peers after mode
            left.acknowledged left.book.rows) }
        ensures stops { IfErr result (StopsFan K.mechanism peers) }
    {
        laws::<K>();
        resting_books();
        let mut draws = match hub_draws(alloc, peers) {
            Ok(draws) => draws,
            Err(AllocError) => return Err(FanPlayError::Memory),
        };
        let Hub { mut book, mut disk } = self;
        let list = everyone(&book, peers);
        disk.stop_after(after);
        match book.fan(&mut disk, &list, HELLO, &mut draws) {
            Ok(()) => {
                disk.go_on();
                Ok(Left {
                    book,
                    acknowledged: true,
                })
            }
            Err(FanRefusal::StoreFault { .. }) => recovered(alloc, disk, mode, peers),
            Err(FanRefusal::Peer { at, refusal }) => Err(FanPlayError::Peer {
                at,
                refusal: refusal_of(refusal),
            }),
            Err(FanRefusal::Closed { .. }) => unreachable!(),
            Err(FanRefusal::Nobody) => unreachable!(),
        }
    }
}
