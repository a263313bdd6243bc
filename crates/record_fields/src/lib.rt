//! The fields of a record that each version has the same, read and put: the side, the epoch and
//! counts, and what holds keys: what an own epoch has ([`read_phase`], [`put_phase`]) and the
//! stream of the latest peer's epoch ([`read_receiving`], [`put_receiving`]).
#![tactic(auto)]

pub use keys::{
    put_phase, put_receiving, reach_of, read_array, read_key, read_phase, read_receiving,
};
pub use numbers::{format_code, read_epoch, read_previous, read_side, side_code};

mod keys;
mod numbers;
