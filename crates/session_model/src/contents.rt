//! What is said: a text, or a part of a long one.

ghost use Rattle.std.specs.Prelude.{◌≡◌};
ghost use Rattle.session_model.specs.Contents.{content_check, content_with, has_kinds, length_check};
ghost use Rattle.session_model.specs.Refusals.{refused_as, send_refusal};

use crate::refusals::SendRefusal;
use bodies::Format;
use boxes::{TEXT_KIND, is_content};
use dr_base::TEXT_LIMIT;

/// Whether the packets of a format tell the kind of what they seal.
fn has_kinds(format: Format) -> bool
    ensures { result ≡ has_kinds format }
{
    match format {
        Format::Plain | Format::Padded => false,
        Format::Receipts => true,
    }
}

/// Whether a text of this length isn't too long.
fn length_check(len: usize) -> Result<(), SendRefusal>
    ensures { refused_as send_refusal result ≡ length_check len }
{
    if len > TEXT_LIMIT {
        return Err(SendRefusal::TextTooLong { len });
    }
    Ok(())
}

/// Whether a session of a format says bytes of a kind: each text that isn't too long; and each
/// lawful part of a long text, where the format has receipts, else `NoParts` tells that it doesn't.
pub fn content_check(format: Format, kind: u8, bytes: &[u8]) -> Result<(), SendRefusal>
    ensures { refused_as send_refusal result
        ≡ content_check format (content_with kind bytes.now) }
{
    if kind == TEXT_KIND {
        return length_check(bytes.len());
    }
    if has_kinds(format) && is_content(kind, bytes) {
        return Ok(());
    }
    Err(SendRefusal::NoParts)
}
