//! A text taken apart: its first line, and what follows a prefix.

ghost use Rattle.std.specs.Prelude.{◌≡◌, ◌≢◌, ℕ, ◌+◌, ◌<◌, ◌≤◌, [], ◌∷◌, length, slice_index, option_copied, option_map, MatchOption, IfSome};
ghost use Rattle.script_parts.specs.Parts.{after_prefix, halves_of, lines_of};

/// The place of the first line feed, or the end of the text.
fn line_end(text: &[u8]) -> usize
    ensures within { result ≤ length text.now }
    ensures before { (k : ℕ) → k < result → slice_index text.now k ≢ 10 }
    ensures found { result < length text.now → slice_index text.now result ≡ 10 }
{
    for (i, byte) in text.iter().enumerate() {
        if *byte == b'\n' {
            return i;
        }
    }
    text.len()
}

/// The first line, without its line feed, and what follows it.
pub fn split_line(text: &[u8]) -> Option<(&[u8], &[u8])>
    ensures line { MatchOption result (lines_of text.entry.now ≡ [])
        (λ parts. lines_of text.entry.now ≡ parts.0.now ∷ lines_of parts.1.now) }
    ensures shorter { IfSome result (λ parts. length parts.1.now < length text.entry.now) }
{
    if text.is_empty() {
        return None;
    }
    let end = line_end(text);
    if end == text.len() {
        return Some((text, &text[..0]));
    }
    Some((&text[..end], &text[end + 1..]))
}

/// What follows a prefix.
#[tactic(auto, unfolding(crate::specs::Parts::after_prefix))]
pub fn after_prefix<'a>(text: &'a [u8], prefix: &[u8]) -> Option<&'a [u8]>
    ensures { option_copied result ≡ after_prefix prefix.entry.now text.entry.now }
{
    if text.starts_with(prefix) {
        return Some(&text[prefix.len()..]);
    }
    None
}

/// The text before the first of these bytes, and the text after it.
pub fn cut_at(text: &[u8], mark: u8) -> Option<(&[u8], &[u8])>
    ensures { option_map (λ halves. (halves.0.now, halves.1.now)) result
        ≡ halves_of mark text.entry.now }
{
    match text.iter().position(|byte| *byte == mark) {
        Some(at) => Some((&text[..at], &text[at + 1..])),
        None => None,
    }
}
