//! Tests of a record's store on disks, by the bytes of an independent implementation.
#![tactic(auto)]

#[cfg(test)]
mod building;
#[cfg(test)]
mod damage;
#[cfg(test)]
mod disks;
#[cfg(test)]
mod halves;
#[cfg(test)]
mod looks;
#[cfg(test)]
mod rows;
#[cfg(test)]
mod stops;
#[cfg(test)]
mod stores;
