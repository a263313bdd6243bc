//! The laws of bodies.

ghost use Rattle.std.specs.Prelude.{◌≡◌, ◌≢◌, ℕ, ◌+◌, ◌-◌, ◌*◌, ◌%◌, ◌<◌, ◌≤◌, true, List, length, slice_index_or, Some};
ghost use Rattle.dr_base.specs.Bytes.{AreBytes};
ghost use Rattle.dr_base.specs.Position.{IsUpTo};
ghost use Rattle.dr_base.specs.declared.limits.TheConstants.{RECEIPT_LIMIT};
ghost use Rattle.dr_base.specs.declared.position.Position.{Position};
ghost use Rattle.dr_base.specs.declared.position.Side.{Side};
ghost use Rattle.bodies.specs.Bodies.{Body, HasContentAt, body_place, body_text, opened_body, sealed_body};
ghost use Rattle.bodies.specs.Lawful.{AreListed, IsLawfulBody, IsLawfulReceipt, IsOpenedAt};
ghost use Rattle.bodies.specs.Padding.{padded_len};
ghost use Rattle.bodies.specs.Receipts.{Receipt, is_covered_by, receipt_text, receipt_up_to};

use crate::limits::{BODY_LIMIT, BOUND_LEN, POSITION_LEN};
use dr_base::{PADDED_LIMIT, PLAIN, RECEIPTS, SEALED_LIMIT, TEXT_LIMIT};

/// What was sealed is opened, and nothing else. The function has no code.
pub fn bodies_law()
    ensures opens { (version : ℕ) (side : Side) (body : Body) → IsLawfulBody version side body
        → opened_body version side (sealed_body version body) ≡ Some body }
    ensures only { (version : ℕ) (side : Side) (bytes : List ℕ) (body : Body) → AreBytes bytes
        → opened_body version side bytes ≡ Some body
        → (bytes ≡ sealed_body version body) × IsLawfulBody version side body }
    // These two hold of all numbers, also of those that are no bytes.
    ensures fits { (version : ℕ) (side : Side) (bytes : List ℕ) (body : Body)
        → opened_body version side bytes ≡ Some body → version ≢ PLAIN
        → length body.content ≤ TEXT_LIMIT }
    ensures place { (version : ℕ) (side : Side) (bytes : List ℕ) (body : Body)
        → opened_body version side bytes ≡ Some body
        → HasContentAt bytes (body_place version body) body.content }
{}

/// The receipt of whoever misses some texts of a side, and has opened all others up to a position,
/// is one that the side may open, and what it covers was opened. It covers all that was opened, as
/// far as it may list what wasn't. The function has no code.
pub fn receipts_law()
    ensures lawful { (side : Side) (missing : List Position) (reached : Position)
        → AreListed side reached missing → IsLawfulReceipt side (receipt_up_to missing reached) }
    ensures covers { (side : Side) (missing : List Position) (reached p : Position)
        → AreListed side reached missing → is_covered_by (receipt_up_to missing reached) p ≡ true
        → IsOpenedAt side missing reached p }
    // It says enough: all that was opened, or where more are missing than it lists, all up to the
    // last that it lists.
    ensures covers_all { (side : Side) (missing : List Position) (reached p : Position)
        → AreListed side reached missing → length missing ≤ RECEIPT_LIMIT
        → IsOpenedAt side missing reached p
        → is_covered_by (receipt_up_to missing reached) p ≡ true }
    ensures covers_first { (side : Side) (missing : List Position) (reached p : Position)
        → AreListed side reached missing → RECEIPT_LIMIT < length missing
        → IsOpenedAt side missing reached p
        → IsUpTo (slice_index_or missing (RECEIPT_LIMIT - 1) reached) p
        → is_covered_by (receipt_up_to missing reached) p ≡ true }
{}

/// How long sealed bytes are: as their content, or the least multiple of 256 that holds what is
/// padded after its length. The function has no code.
pub fn lengths_law()
    ensures plain { (body : Body) → length (sealed_body PLAIN body) ≡ length body.content }
    ensures padded { (version : ℕ) (body : Body) → version ≢ PLAIN
        → length (sealed_body version body) ≡ padded_len (length (body_text version body)) }
    ensures alone { (version : ℕ) (body : Body) → version ≢ RECEIPTS
        → body_text version body ≡ body.content }
    ensures told { (body : Body) → length (body_text RECEIPTS body)
        ≡ length (receipt_text body.receipt) + 1 + length body.content }
    ensures receipt { (r : Receipt) → length (receipt_text (Some r))
        ≡ BOUND_LEN + POSITION_LEN * length r.listed }
    ensures multiple { (n : ℕ) → padded_len n % 256 ≡ 0 }
    ensures from_one_step { (n : ℕ) → 256 ≤ padded_len n }
    ensures holds { (n : ℕ) → n + 2 ≤ padded_len n }
    ensures least { (n : ℕ) → padded_len n < n + 2 + 256 }
    ensures fits { (n : ℕ) → n ≤ TEXT_LIMIT → padded_len n ≤ PADDED_LIMIT }
    ensures fits_body { (n : ℕ) → n ≤ BODY_LIMIT → padded_len n ≤ SEALED_LIMIT }
{}
