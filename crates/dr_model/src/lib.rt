//! The conversation as a pure machine: what each event is answered with, and what follows for every
//! run. The definitions stand in specs/; the functions here have empty bodies, and their contracts
//! are the laws.
#![tactic(auto)]

pub use laws::{
    acts_follow, both_sides_follow, erasure, headline, one_draft_is_accepted, receipts_are_true,
    said_is_opened, sessions_agree, views_have_worlds,
};

mod laws;
