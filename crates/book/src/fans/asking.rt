//! Each session of a fan is asked whether it says the text, before anything is written.

ghost use Rattle.std.specs.Prelude.{◌≡◌, ◌<◌, [], None, Ok, get_or, is_some, length};
ghost use Rattle.session_model.specs.Clients.{say_check};
ghost use Rattle.session_model.specs.Contents.{text_content};
ghost use Rattle.book.specs.Fanning.{AsksInTurn};
ghost use Rattle.book.specs.Fans.{Answers, AreListed, Asks};
ghost use Rattle.book.specs.RowKeepings.{row_keeping};

use super::list::{FAN_LIMIT, FanOut};
use crate::refusals::FanRefusal;
use crate::shelf::Shelf;
use arrayvec::ArrayVec;
use boxes::TEXT_KIND;
use client::{Keeper, SayRefusal};
use dr_base::Key32;
use dr_ports::Draws;
use kem_laws::Kem;
use ratchet::PacketRoom;
use session_model::copy_of_key;

/// The seeds with which the sessions of a fan say its text.
pub(super) type Seeds = ArrayVec<Option<Key32>, FAN_LIMIT>;

/// A second copy of a seed.
fn copy_of_seed(seed: &Option<Key32>) -> Option<Key32>
    ensures { result ≡ seed.now }
{
    match seed {
        Some(key) => Some(copy_of_key(key)),
        None => None,
    }
}

/// The seed of a fan's session.
pub(super) fn seed_at(seeds: &Seeds, i: usize) -> Option<Key32>
    requires { i < length seeds.now.items }
    ensures { result ≡ get_or seeds.now.items i None }
{
    let seeds = seeds.as_slice();
    copy_of_seed(&seeds[i])
}

impl<K: Kem> Shelf<K> {
    /// Whether the session in use says a text with this seed, which it asks for: the seed is handed
    /// back.
    fn try_seed(&mut self, text: &[u8], seed: Option<Key32>) -> Result<Option<Key32>, SayRefusal>
        requires there { row_keeping.there self.old }
        requires checked { say_check (row_keeping.kept self.old) (text_content text.now)
            ≡ Ok (is_some seed) }
        ensures answers { Answers K.mechanism text.now (row_keeping.kept self.old) seed result }
        ensures same { self.new ≡ self.old }
    {
        let copy = copy_of_seed(&seed);
        let mut room = PacketRoom::new();
        match self.draft_say(TEXT_KIND, text, copy, &mut room) {
            Ok(draft) => {
                draft.discard();
                Ok(seed)
            }
            Err(none) => Err(SayRefusal::NoPair { seed: none.seed }),
        }
    }

    /// Whether the session in use says a text, with a draw exactly where it needs a seed.
    fn ask<W: Draws>(&mut self, text: &[u8], draws: &mut W) -> Result<Option<Key32>, SayRefusal>
        requires there { row_keeping.there self.old }
        ensures asks { Asks W.at K.mechanism text.now (row_keeping.kept self.old)
            draws.old draws.new result }
        ensures same { self.new ≡ self.old }
    {
        match self.core().say_check(TEXT_KIND, text) {
            Err(refusal) => Err(SayRefusal::Refused(refusal)),
            Ok(false) => self.try_seed(text, None),
            Ok(true) => match draws.draw() {
                Err(_) => Err(SayRefusal::DrawFault),
                Ok(seed) => {
                    // The proof takes the length of the seed from this.
                    let _bytes = &seed.bytes;
                    self.try_seed(text, Some(seed))
                }
            },
        }
    }

    /// Asks each session of a list in turn, until one doesn't say the text. Puts the seeds into
    /// room that is empty.
    pub(super) fn ask_all<W: Draws>(
        &mut self,
        list: &FanOut,
        text: &[u8],
        draws: &mut W,
        seeds: &mut Seeds,
    ) -> Result<(), FanRefusal>
        requires listed { AreListed self.old.book.rows list.now }
        requires empty { seeds.old.items ≡ [] }
        ensures asks { AsksInTurn W.at K.mechanism text.now self.old.book.rows list.now
            draws.old draws.new seeds.new.items result }
        ensures same { self.new.book ≡ self.old.book }
    {
        list.is_fair();
        'list: for i in 0..list.len() {
            self.use_row(list.place(i));
            match self.ask(text, draws) {
                Ok(seed) => seeds.push(seed),
                Err(refusal) => return Err(FanRefusal::Peer { at: i, refusal }),
            }
        }
        Ok(())
    }
}
