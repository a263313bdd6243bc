//! The calls that sessions and records stand on, once with ample memory, and the worked rows of the
//! protocol.
//!
//! Want of memory is the one answer without a cause, so a body that always gave it would be proved.
//! `lists`, `stand_in`, `ring` and `mechanism` have the calls that may give it.
#![tactic(auto)]

#[cfg(test)]
mod agreement;
#[cfg(test)]
mod comparing;
#[cfg(test)]
mod lists;
#[cfg(test)]
mod mechanism;
#[cfg(test)]
mod packets;
#[cfg(test)]
mod receipts;
#[cfg(test)]
mod records;
#[cfg(test)]
mod ring;
#[cfg(test)]
mod schedule;
#[cfg(test)]
mod sessions;
#[cfg(test)]
mod stand_in;
