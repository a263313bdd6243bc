//! Tests of the commands on a session: their words, and the work of each with its faults.
#![tactic(auto)]

#[cfg(test)]
mod book_words;
#[cfg(test)]
mod growing;
#[cfg(test)]
mod no_words;
#[cfg(test)]
mod outcomes;
#[cfg(test)]
mod sessions;
#[cfg(test)]
mod whole_talks;
#[cfg(test)]
mod words;
