//! What a client and its text have to do with each other.

ghost use Rattle.std.specs.Prelude.{◌≡◌, ℕ, List, Ok, true};
ghost use Rattle.dr_base.specs.Bytes.{AreBytes};
ghost use Rattle.grammar.specs.Grammar.{IsWholeGrammar};
ghost use Rattle.kem_laws.specs.Mechanism.{Mechanism};
ghost use Rattle.session_record.specs.Lawful.{IsLawfulClient, IsLawfulSaved};
ghost use Rattle.session_model.specs.Clients.{Client};
ghost use Rattle.session_record.specs.Record.{record_read, record_text, saved_read, saved_text};
ghost use Rattle.session_record.specs.Versions.{is_newest};

/// The law of each version: the text of a client that it allows is read as that client in that
/// version, and nothing else is read.
pub fn version_law()
    ensures { (k : Mechanism) → IsWholeGrammar saved_text (IsLawfulSaved k) (saved_read k) }
{}

/// The law of the record, in whatever version: a lawful client's text, which is in the newest one,
/// is read as that client; what any text is read as is lawful, and so is read the same once it is
/// written anew; and a text that begins as the newest version does is the one that is written.
pub fn record_law()
    ensures written { (k : Mechanism) (c : Client) → IsLawfulClient k c
        → record_read k (record_text c) ≡ Ok c }
    ensures lawful { (k : Mechanism) (text : List ℕ) (c : Client) → AreBytes text
        → record_read k text ≡ Ok c → IsLawfulClient k c }
    ensures newest { (k : Mechanism) (text : List ℕ) (c : Client) → AreBytes text
        → record_read k text ≡ Ok c → is_newest text ≡ true → text ≡ record_text c }
    ensures bytes { (c : Client) → is_newest (record_text c) ≡ true }
{}
