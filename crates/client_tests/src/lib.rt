//! Tests of clients on disks in memory: each act once, stopped at each write, syncs over links in
//! memory, long texts, a text that is known to be opened, and disks of an earlier version that are opened.
#![tactic(auto)]

#[cfg(test)]
mod acts;
#[cfg(test)]
mod awaiting;
#[cfg(test)]
mod changes;
#[cfg(test)]
mod cores;
#[cfg(test)]
mod damaged;
#[cfg(test)]
mod faults;
#[cfg(test)]
mod firsts;
#[cfg(test)]
mod grown;
#[cfg(test)]
mod longs;
#[cfg(test)]
mod old_disks;
#[cfg(test)]
mod once;
#[cfg(test)]
mod openings;
#[cfg(test)]
mod relayed;
#[cfg(test)]
mod renewals;
#[cfg(test)]
mod stops;
#[cfg(test)]
mod syncs;
