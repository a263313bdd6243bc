//! The double ratchet of one side (Alwen, Coretti, Dodis, "The Double Ratchet", Eurocrypt 2019),
//! over any key encapsulation mechanism: a session, and drafts of what it would say or take. A
//! draft changes nothing until it is accepted, and a session accepts it only in a state that gives
//! this draft, so that of two texts drafted from one state one at most is accepted
//! (`dr_model::one_draft_is_accepted`).
//!
//! A text of an own epoch is sealed with the next key of its stream. The first text after the
//! peer's is a turn: it begins the next epoch with new keys, and takes a seed. A packet is opened
//! along the stream of its epoch, by a key that was kept when its index was passed, or as the first
//! one of the next epoch. No memory is allocated.
//!
//! A part of a long text is said as a text is, where the format has receipts.
//!
//! A text that is said waits for a receipt. In the format `Receipts` each text takes one along, of
//! the peer's texts that were opened; what an opened packet's receipt covers doesn't wait any more.
//!
//! Below, First opens what Second drafted. That it does, whatever was said and lost before, is the
//! law `dr_model::sessions_agree`, which speaks of the states that a contract sees of the two
//! sessions.
//!
//! ```rust
//! use bodies::{Format, TEXT_KIND};
//! use dr_base::{Key32, Side};
//! use kem_laws::OpenKem;
//! use packet::parse;
//! use ratchet::{NoPairFor, OpeningRoom, PacketRoom, Session};
//!
//! let key = Key32 { bytes: [7; 32] };
//! let mut first = Session::<OpenKem>::begin(&mut (), Side::First, Format::Plain, &key)?;
//! let mut second = Session::<OpenKem>::begin(&mut (), Side::Second, Format::Plain, &key)?;
//!
//! let mut saying = PacketRoom::new();
//! let mut opening = OpeningRoom::new();
//!
//! // A text in an epoch of Second's own needs no seed.
//! if let Ok(false) = second.send_check(TEXT_KIND, b"hello") {
//!     match second.draft_send(&mut (), TEXT_KIND, b"hello", None, &mut saying) {
//!         Ok(said) => {
//!             if let Ok(view) = parse(said.packet(), 64) {
//!                 match first.draft_receive(&mut (), &view, &mut opening) {
//!                     Ok(taken) => taken.accept(&mut first),
//!                     Err(_) => {}
//!                 }
//!             }
//!             said.accept(&mut second);
//!         }
//!         Err(NoPairFor { seed: _ }) => {}
//!     }
//! }
//! ```
#![tactic(auto)]

pub use receiving::ReceiveDraft;
pub use rooms::{OpeningRoom, PacketRoom};
pub use sending::{NoPairFor, SendDraft};
pub use session::Session;

mod beginning;
mod drafting;
mod entering;
mod receiving;
mod rooms;
mod sealing;
mod sending;
mod session;
mod table;
mod way;
