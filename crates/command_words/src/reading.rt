//! A value of a command as a side, a format or a number.

ghost use Rattle.std.specs.Prelude.{◌≡◌, ◌<◌, ◌^◌, option_map};
ghost use Rattle.command_words.specs.declared.limits.TheConstants.{PORT_LIMIT};
ghost use Rattle.command_words.specs.Commands.{amount_read, count_read, format_given, side_read};
ghost use Rattle.command_words.specs.Numbers.{number_read};

use crate::limits::PORT_LIMIT;
use bodies::Format;
use dr_base::Side;

/// The side that a word names.
#[tactic(auto, unfolding(crate::specs::Commands::side_read))]
pub(crate) fn side_of(word: &str) -> Option<Side>
    ensures { result ≡ side_read word.now }
{
    match word {
        "first" => Some(Side::First),
        "second" => Some(Side::Second),
        _ => None,
    }
}

/// The format that a word names, and plain where there is none.
pub(crate) fn format_of(word: Option<&str>) -> Option<Format>
    ensures { result ≡ format_given (option_map (λ word. word.now) word.entry) }
{
    match word {
        Some(word) => Format::named(word.as_bytes()),
        None => Some(Format::Plain),
    }
}

/// The number that a word says.
pub(crate) fn number_of(word: &str) -> Option<u64>
    ensures { result ≡ number_read word.now }
{
    match word.parse::<u64>() {
        Ok(number) => Some(number),
        Err(_) => None,
    }
}

/// The number of at most `most` that a word says.
#[tactic(auto, unfolding(crate::specs::Commands::amount_read))]
pub(crate) fn amount_of(most: usize, word: &str) -> Option<u32>
    requires { most < 2 ^ 32 }
    ensures { result ≡ amount_read most word.now }
{
    let number = number_of(word)?;
    if number <= most as u64 {
        Some(number as u32)
    } else {
        None
    }
}

/// The number from 1 to `most` that a word says.
#[tactic(auto, unfolding(crate::specs::Commands::count_read))]
pub(crate) fn count_of(most: u32, word: &str) -> Option<u32>
    ensures { result ≡ count_read most word.now }
{
    let number = number_of(word)?;
    if number >= 1 && number <= u64::from(most) {
        Some(number as u32)
    } else {
        None
    }
}

/// The port that a word says.
#[tactic(auto, unfolding(crate::specs::Commands::count_read))]
pub(crate) fn port_of(word: &str) -> Option<u16>
    ensures { result ≡ count_read PORT_LIMIT word.now }
{
    let number = number_of(word)?;
    if number >= 1 && number <= u64::from(PORT_LIMIT) {
        Some(number as u16)
    } else {
        None
    }
}
