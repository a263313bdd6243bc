//! Tests of the whole program over ports in memory, over std's reader and writer and over files:
//! one call on each port that fails, and the bytes that go to a relay and come from one. Its
//! scripts and commands, and each call that fails, are tried on the built program.
#![tactic(auto)]

#[cfg(test)]
mod answers;
#[cfg(test)]
mod books;
#[cfg(test)]
mod disks;
#[cfg(test)]
mod faults;
#[cfg(test)]
mod relays;
#[cfg(test)]
mod running;
