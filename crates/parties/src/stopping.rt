//! A side whose disk stops in an act.

ghost use Rattle.std.specs.Prelude.{◌≡◌, None, IfOk};
ghost use Rattle.dr_disk.specs.MemoryDisks.{state_of};
ghost use Rattle.dr_disk.specs.State.{Fate};
ghost use Rattle.dr_model.specs.Machines.Acts.{act_on};
ghost use Rattle.dr_model.specs.Machines.Steps.{settled, step};
ghost use Rattle.session_model.specs.Clients.{Client as Keeping};
ghost use Rattle.slot_store.specs.Store.{HasArea};
ghost use Rattle.client.specs.Clients.{client_area};
ghost use Rattle.parties.specs.Acts.{IsChecked, act_of_call};
ghost use Rattle.client.specs.Opening.{ReadsClient};
ghost use Rattle.parties.specs.Parties.{DiskReads, IsWantOfMemory};
ghost use Rattle.parties.specs.Shuts.{open_party};
ghost use Rattle.parties.specs.Stops.{stopped_client};

use crate::acts::{ClientCall, Ended, perform};
use crate::party::Party;
use client::{Client, OpenRefusal};
use dr_disk::{MemoryDisk, Mode};
use kem_laws::{Kem, laws};
use session_model::Answer;
use session_record::record_law;
use std::alloc::{AllocError, Global};

/// Why an opening failed, where that is want of memory.
fn want_of_memory(refusal: OpenRefusal) -> AllocError
    requires { IsWantOfMemory refusal }
{
    match refusal {
        OpenRefusal::Memory => AllocError,
        _ => unreachable!(),
    }
}

/// The side that a disk reads, all of whose calls pass. It isn't refused: its only error is
/// want of memory.
pub(crate) fn reopened<K: Kem>(alloc: Global, disk: MemoryDisk) -> Result<Party<K>, AllocError>
    requires within { HasArea client_area (state_of disk) }
    requires passes { (state_of disk).fate ≡ Fate.all_pass }
    requires holds { ReadsClient K.mechanism (state_of disk) }
    ensures { IfOk result (λ p. (kept : Keeping)
        → DiskReads K.mechanism kept (state_of disk) → p ≡ open_party kept) }
{
    let mut disk = disk;
    match Client::open(alloc, &mut disk) {
        Ok(client) => Ok(Party {
            client,
            disk,
            shut: None,
        }),
        Err(refusal) => Err(want_of_memory(refusal)),
    }
}

impl<K: Kem> Party<K> {
    /// Does an act on a disk that stops once this many writes and syncs have passed. Where that
    /// cuts the act off, the disk crashes in this way, and the client is opened from what is left.
    pub fn stopped(
        self,
        alloc: Global,
        after: u32,
        mode: Mode,
        call: ClientCall<'_>,
    ) -> Result<(Self, Answer), AllocError>
        requires open { self.shut ≡ None }
        requires checked { IsChecked self.kept (act_of_call call) }
        ensures made { let act = act_of_call call.entry in
            let made = settled self.kept (act_on K.mechanism self.kept act) in
            IfOk result (λ pair. step pair.1 pair.0.kept
            ≡ stopped_client after mode self.kept made) }
        ensures open { IfOk result (λ pair. pair.0.shut ≡ None) }
    {
        laws::<K>();
        record_law();
        let Party {
            mut client,
            mut disk,
            ..
        } = self;
        client.lawful();
        disk.stop_after(after);
        match perform(&mut client, &mut disk, call) {
            Ended::Acknowledged(answer) => {
                disk.go_on();
                Ok((
                    Party {
                        client,
                        disk,
                        shut: None,
                    },
                    answer,
                ))
            }
            Ended::Refused(refusal) => {
                disk.go_on();
                Ok((
                    Party {
                        client,
                        disk,
                        shut: None,
                    },
                    Answer::Refused(refusal),
                ))
            }
            Ended::Faulted(_) => match reopened(alloc, disk.crash(mode)) {
                Ok(party) => Ok((party, Answer::Stopped)),
                Err(AllocError) => Err(AllocError),
            },
        }
    }
}
