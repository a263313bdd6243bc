//! The guards of a relay's boxes: whose requests are served.
//!
//! A request for a guarded box has a token: a counter, and a tag over it and over the request's
//! bytes under one of the two keys of the box. Each counter is served once, and counters rise.
//!
//! `specs/Guards` has the rules, `specs/Histories` what holds over requests and crashes.
#![tactic(auto)]

pub use guard::{Denied, Guard, Role, Token};
pub use law::{counters_rise, rules};
pub use tag::token_tag;

mod guard;
mod law;
mod tag;
