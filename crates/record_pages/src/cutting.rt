//! Pages, and the pieces of a record that fill them.

ghost use Rattle.std.specs.Prelude.{◌≡◌, ◌≤◌, length, replicate};
ghost use Rattle.std.specs.Str.{bytes_eq};
ghost use Rattle.dr_base.specs.declared.limits.TheConstants.{PAGE};
ghost use Rattle.record_pages.specs.Pages.{filled_page, page_count};

use dr_base::PAGE;

/// How many pages a record of this length has.
pub fn page_count(length: usize) -> usize
    ensures { result ≡ page_count length }
{
    length.div_ceil(PAGE)
}

/// Whether a page is this piece, filled with zeros.
pub fn holds_piece(page: &[u8], piece: &[u8], zeros: &[u8]) -> bool
    requires long { length page.now ≡ PAGE }
    requires fits { length piece.now ≤ PAGE }
    requires zero { zeros.now ≡ replicate PAGE 0 }
    ensures { result ≡ bytes_eq page.now (filled_page piece.now) }
{
    let len = piece.len();
    page[..len] == piece[..] && page[len..] == zeros[len..]
}
