//! What reading and writing have to do with each other.

ghost use Rattle.std.specs.Prelude.{◌≡◌, ℕ, ◌+◌, ◌^◌, ◌<◌, List, length, Err};
ghost use Rattle.std.specs.List.{concat};
ghost use Rattle.packet.specs.declared.fault.Malformed.{Malformed};
ghost use Rattle.packet.specs.Faults.{pieces_of, IsFault};
ghost use Rattle.packet.specs.Packet.{Fields, IsLawful, ad_of, packet_of};
ghost use Rattle.dr_base.specs.declared.limits.TheConstants.{PACKET_FRAME};
ghost use Rattle.dr_base.specs.Bytes.{AreBytes};
ghost use Rattle.packet.specs.Reading.{read_packet};

/// The law of the grammar: a packet is read exactly where it was printed from lawful fields, and as
/// these.
pub fn grammar()
    // What is printed from lawful fields is read as these fields.
    ensures printed_is_read { (agreement : ℕ) (f : Fields) → agreement < 2 ^ 16
        → IsLawful agreement f →
        read_packet agreement (packet_of f) ≡ Ok f }
    // Only what is printed from lawful fields is read.
    ensures read_was_printed { (agreement : ℕ) (bytes : List ℕ) (f : Fields) → AreBytes bytes →
        read_packet agreement bytes ≡ Ok f → IsLawful agreement f × (bytes ≡ packet_of f) }
    ensures ad_len { (agreement : ℕ) (f : Fields) → IsLawful agreement f
        → length (ad_of f) ≡ 33 + length f.agreement }
    ensures packet_len { (agreement : ℕ) (f : Fields) → IsLawful agreement f →
        length (packet_of f) ≡ PACKET_FRAME + length f.agreement + length f.ciphertext }
    // A packet is its fields one after another.
    ensures in_pieces { (f : Fields) → packet_of f ≡ concat (pieces_of f) }
    // The fault of bytes that are no packet is the first one: what stands before its place begins a
    // lawful packet, and with the field there none begins so. It holds for every agreement length.
    // No packet can hold an agreement message of 65,536 bytes or more: with such a length no packet
    // of an epoch above 0 is read.
    ensures fault_is_first { (agreement : ℕ) (bytes : List ℕ) (fault : Malformed) → AreBytes bytes →
        read_packet agreement bytes ≡ Err fault → IsFault agreement bytes fault }
{}
