//! Whether a client may say a part of a long text.

ghost use Rattle.std.specs.Prelude.{◌≡◌};
ghost use Rattle.boxes.specs.Parts.{IsPart, part_text};
ghost use Rattle.session_model.specs.Clients.{say_check};
ghost use Rattle.session_model.specs.Contents.{part_content};

use boxes::{PART_KIND, Part, put_part};
use client::Client;
use dr_base::TEXT_LIMIT;
use kem_laws::Kem;
use session_model::Refusal;

/// The bytes of a part, in room for them.
fn bytes_in<'a>(part: &Part<'_>, room: &'a mut [u8; TEXT_LIMIT]) -> &'a [u8]
    requires { IsPart part.now }
    ensures { result.now ≡ part_text part.now }
{
    let len = put_part(room, 0, part);
    &room[..len]
}

/// Whether a client may say a part of a long text, and then whether that needs a seed. The room of
/// its bytes stands only here.
#[inline(never)]
pub fn part_check<K: Kem>(client: &Client<K>, part: &Part<'_>) -> Result<bool, Refusal>
    requires { IsPart part.now }
    ensures { result ≡ say_check client.now.kept (part_content part.now) }
{
    let mut room = [0; TEXT_LIMIT];
    let bytes = bytes_in(part, &mut room);
    client.say_check(PART_KIND, bytes)
}
