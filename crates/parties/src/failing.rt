//! A side whose disk fails once in an act, and which then opens again.

ghost use Rattle.std.specs.Prelude.{◌≡◌, ◌≤◌, None, IfOk, IfSome, IsSome};
ghost use Rattle.parties.specs.Acts.{IsChecked, act_of_call};
ghost use Rattle.parties.specs.Failing.{FailsAt};
ghost use Rattle.parties.specs.Shuts.{open_party};

use crate::acts::{ClientCall, Ended, perform};
use crate::party::Party;
use crate::stopping::reopened;
use dr_disk::Call;
use kem_laws::{Kem, laws};
use session_model::Answer;
use session_record::record_law;
use std::alloc::{AllocError, Global};

impl<K: Kem> Party<K> {
    /// Does an act in which the write or sync of this number, from 1, fails. Where the act makes so
    /// many, its client is closed by that one, whose kind is given.
    pub fn failed(&mut self, at: u32, call: ClientCall<'_>) -> Result<Answer, Call>
        requires open { self.old.shut ≡ None }
        requires checked { IsChecked self.old.kept (act_of_call call) }
        requires counted { 1 ≤ at }
        ensures { FailsAt K.mechanism at (act_of_call call.entry) self.old.kept self.new result }
    {
        laws::<K>();
        record_law();
        self.client.lawful();
        self.disk.fail_at(at);
        let ended = perform(&mut self.client, &mut self.disk, call);
        self.disk.go_on();
        match ended {
            Ended::Acknowledged(answer) => Ok(answer),
            Ended::Refused(refusal) => Ok(Answer::Refused(refusal)),
            Ended::Faulted(call) => {
                self.shut = Some(call);
                Err(call)
            }
        }
    }

    /// Opens its closed client again from its disk.
    pub fn opened(self, alloc: Global) -> Result<Self, AllocError>
        requires { IsSome self.shut }
        ensures { IfOk result (λ p. IfSome self.shut (λ shut. p ≡ open_party shut.left)) }
    {
        reopened(alloc, self.disk)
    }
}
