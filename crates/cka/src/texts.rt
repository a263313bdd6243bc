//! Byte lists of fixed room, which allocate nothing.

ghost use Rattle.std.specs.Prelude.{◌≡◌, ◌+◌, ◌≤◌, ◌++◌, length};
ghost use Rattle.dr_base.specs.declared.limits.TheConstants.{AGREEMENT_LIMIT};

use arrayvec::ArrayVec;
use dr_base::{AGREEMENT_LIMIT, PUBLIC_LIMIT, SECRET_LIMIT, in_room};

/// A public key, in room for that of any mechanism.
pub type PublicText = ArrayVec<u8, PUBLIC_LIMIT>;

/// A secret, in room for that of any mechanism.
pub type SecretText = ArrayVec<u8, SECRET_LIMIT>;

/// A message: a ciphertext, and after it a public key for the answer.
pub type Agreement = ArrayVec<u8, AGREEMENT_LIMIT>;

/// The message of a turn: a ciphertext, and after it a public key.
pub(crate) fn message_of(ciphertext: &[u8], public: &[u8]) -> Agreement
    requires { length ciphertext.now + length public.now ≤ AGREEMENT_LIMIT }
    ensures { result.items ≡ ciphertext.now ++ public.now }
{
    let mut message = in_room(ciphertext);
    let _appended = message.try_extend_from_slice(public);
    message
}
