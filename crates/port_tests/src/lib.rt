//! Tests of ports and disks: each once, and each fault once; over files and sockets too.
#![tactic(auto)]

#[cfg(test)]
mod disks;
#[cfg(test)]
mod draws;
#[cfg(test)]
mod failing;
#[cfg(test)]
mod files;
#[cfg(test)]
mod played;
#[cfg(test)]
mod ports;
#[cfg(test)]
mod sockets;
#[cfg(test)]
mod times;
#[cfg(test)]
mod waiting;
#[cfg(test)]
mod watched;
