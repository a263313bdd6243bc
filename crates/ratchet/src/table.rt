//! The kept keys of a draft: those of the session, until a packet changes them. Only then they are
//! copied, into room that the caller lends.

ghost use Rattle.std.specs.Prelude.{◌≡◌, ◌+◌, ◌-◌, ◌≤◌, ◌++◌, None, length, option_map, true};
ghost use Rattle.dr_base.specs.declared.limits.TheConstants.{KEPT_LIMIT};
ghost use Rattle.fs_aead.specs.Chain.{chain_of};
ghost use Rattle.fs_aead.specs.Table.{AllBefore, kept_key, shelved, without};
ghost use Rattle.ratchet.specs.Seen.{kept_in, room_seen};

use dr_base::{Key32, Position};
use etm_aead::OpenKey;
use fs_aead::{ReceiveStream, Skipped};
use std::marker::Model;

/// Room for kept keys that a packet changes. A contract sees those that it holds, if a packet
/// changed them.
#[derive(Drop)]
pub(crate) struct KeptRoom {
    is_changed: bool,
    table: Skipped,
}

impl Model for KeptRoom {
    ghost use Rattle.std.specs.Prelude.{List, Option};
    ghost use Rattle.dr_base.specs.declared.key.Kept.{Kept};
    ghost use Rattle.ratchet.specs.Seen.{room_seen};

    ghost Value = { Option (List Kept) };

    ghost view = { λ r. room_seen r.is_changed r.table };
}

/// The kept keys with a change, if there is one.
pub(crate) fn kept_in<'a>(kept: &'a Skipped, table: Option<&'a Skipped>) -> &'a Skipped
    ensures { result.now ≡ kept_in kept.now (option_map (λ t. t.now) table.entry) }
{
    match table {
        None => kept,
        Some(table) => table,
    }
}

/// Makes a change of kept keys, if there is one.
pub(crate) fn settle(kept: &mut Skipped, table: Option<&Skipped>)
    ensures { kept.new ≡ kept_in kept.old (option_map (λ t. t.now) table.entry) }
{
    match table {
        None => {}
        Some(table) => kept.copy_from(table),
    }
}

/// Copies the kept keys, unless they are changed already.
fn begin_change(is_changed: &mut bool, table: &mut Skipped, kept: &Skipped)
    ensures changed { is_changed.new ≡ true }
    ensures table { table.new ≡ kept_in kept.now (room_seen is_changed.old table.old) }
{
    if !*is_changed {
        table.copy_from(kept);
        *is_changed = true;
    }
}

impl KeptRoom {
    /// Room in which no key stands.
    pub(crate) fn new() -> KeptRoom
        ensures { result ≡ None }
    {
        KeptRoom {
            is_changed: false,
            table: Skipped::new(),
        }
    }

    /// Forgets what it holds.
    pub(crate) fn clear(&mut self)
        ensures { self.new ≡ None }
    {
        self.is_changed = false;
    }

    /// What it holds.
    pub(crate) fn changed(&self) -> Option<&Skipped>
        ensures { option_map (λ t. t.now) result ≡ self.now }
    {
        if self.is_changed {
            Some(&self.table)
        } else {
            None
        }
    }

    /// Takes the key of a position out of the kept ones. Where it isn't kept, nothing is copied.
    pub(crate) fn take(&mut self, kept: &Skipped, position: Position) -> Option<OpenKey>
        requires { self.old ≡ None }
        ensures key { result ≡ kept_key kept.now position }
        ensures rest { kept_in kept.now self.new ≡ without kept.now position }
    {
        match kept.find(position) {
            None => None,
            Some(_) => {
                self.is_changed = true;
                self.table.copy_from(kept);
                self.table.take(position)
            }
        }
    }

    /// The stream of a chain key that stands after the key of the index `reach`, once it passed the
    /// keys up to the index `to`, which are put after the kept ones. Where there is none between,
    /// nothing is copied.
    pub(crate) fn pass(
        &mut self,
        kept: &Skipped,
        chain: Key32,
        reach: u32,
        epoch: u32,
        to: u32,
    ) -> ReceiveStream
        requires from { reach ≤ to }
        requires room { length (kept_in kept.now self.old) + (to - reach) ≤ KEPT_LIMIT }
        requires below { AllBefore (kept_in kept.now self.old)
            (record { epoch = epoch; index = reach + 1 }) }
        ensures stream { result ≡ record { chain = chain_of chain.bytes (to - reach); count = to } }
        ensures shelved { kept_in kept.now self.new ≡
            kept_in kept.now self.old ++ shelved epoch chain.bytes reach (to - reach) }
    {
        let stream = ReceiveStream::resume(chain, reach);
        if reach == to {
            return stream;
        }
        begin_change(&mut self.is_changed, &mut self.table, kept);
        stream.advance(epoch, &mut self.table, to)
    }
}
