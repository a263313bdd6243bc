//! The steps of an address book as a machine over rows with names, and what follows for whole runs:
//! what is answered under one name hangs on nothing that is asked under another.
//!
//! What a book's sessions are is left open (`specs/Steps`), so that a book of clients is one case.
//! `specs/Runs` has the events: one thing is asked under a name, or a fan makes a call under each
//! of several names; and a mishap from outside may befall each of them. `specs/Independence` says
//! what of a run counts for a name.
#![tactic(auto)]

pub mod laws;
