//! The receipt that a session sends with a text.

ghost use Rattle.std.specs.Prelude.{◌≡◌, option_map};
ghost use Rattle.session_model.specs.Saying.{read_up_to, receipt_in};
ghost use Rattle.session_model.specs.Seen.{reception_seen};
ghost use Rattle.session_model.specs.States.{receiving_epoch};

use crate::part::{Reception, SessionPart};
use bodies::{Format, Receipt};
use dr_base::{Position, Side};
use kem_laws::Kem;

/// The latest epoch of the peer's, once the side has reached an epoch.
fn receiving_epoch(side: Side, epoch: u32) -> Option<u32>
    ensures { result ≡ receiving_epoch side epoch }
{
    if !side.owns(epoch) {
        return Some(epoch);
    }
    if epoch == 0 {
        return None;
    }
    Some(epoch - 1)
}

/// How far a session has read that epoch.
fn read_up_to(epoch: Option<u32>, receiving: &Option<Reception>) -> Option<Position>
    ensures { result ≡ read_up_to epoch (option_map reception_seen receiving.now) }
{
    match (epoch, receiving) {
        (Some(epoch), Some(reception)) => Some(Position {
            epoch,
            index: reception.reach,
        }),
        _ => None,
    }
}

impl<K: Kem> SessionPart<K> {
    /// The receipt of what the session has opened, where its format has receipts: it goes along
    /// with the next text.
    pub fn receipt(&self) -> Option<Receipt>
        ensures { result ≡ receipt_in self.now.format self.now }
    {
        match self.head.format {
            Format::Plain | Format::Padded => None,
            Format::Receipts => {
                let epoch = receiving_epoch(self.head.side, self.head.epoch);
                match read_up_to(epoch, &self.head.receiving) {
                    None => None,
                    Some(reached) => Some(Receipt::up_to(self.kept.kept(), reached)),
                }
            }
        }
    }
}
