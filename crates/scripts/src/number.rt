//! Numbers as scripts write them: decimal digits without a sign or a leading zero, below 2^32.

ghost use Rattle.std.specs.Prelude.{◌≡◌, ◌≤◌, IfSome};
ghost use Rattle.std.specs.Option.{option_and_then};
ghost use Rattle.scripts.specs.Words.{if_counted};
ghost use Rattle.scripts.specs.Number.{is_unpadded, script_number_read};

/// Whether the text has at least one byte, and no zero before another.
fn is_unpadded(text: &[u8]) -> bool
    ensures { result ≡ is_unpadded text.now }
{
    match text {
        [] => false,
        [_] => true,
        [first, ..] => *first != b'0',
    }
}

/// The number that a text says.
#[tactic(auto, unfolding(crate::specs::Number::script_number_read))]
pub fn number(text: &[u8]) -> Option<u32>
    ensures { result ≡ script_number_read text.now }
{
    if !is_unpadded(text) {
        return None;
    }
    let mut value: u64 = 0;
    'digits: for byte in text {
        if !byte.is_ascii_digit() {
            return None;
        }
        value = value
            .saturating_mul(10)
            .saturating_add(u64::from(*byte - b'0'));
    }
    if value > 0xffff_ffff {
        return None;
    }
    Some(value as u32)
}

/// A number from 1.
pub fn counted(text: &[u8]) -> Option<u32>
    ensures value { result ≡ option_and_then if_counted (script_number_read text.now) }
    ensures counted { IfSome result (λ n. 1 ≤ n) }
{
    let n = number(text)?;
    if n < 1 {
        return None;
    }
    Some(n)
}
