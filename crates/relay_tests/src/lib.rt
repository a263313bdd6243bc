//! Tests of the relay, from its frames to its command: the worked exchange, and each fault once.
#![tactic(auto)]

#[cfg(test)]
mod command;
#[cfg(test)]
mod exchanges;
#[cfg(test)]
mod faults;
#[cfg(test)]
mod frames;
#[cfg(test)]
mod links;
#[cfg(test)]
mod loopback;
#[cfg(test)]
mod mailboxes;
#[cfg(test)]
mod receiving;
#[cfg(test)]
mod records;
#[cfg(test)]
mod server;
