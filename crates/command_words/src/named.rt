//! The command of a name and of the values after it.

ghost use Rattle.std.specs.Prelude.{◌≡◌, ◌++◌, ℕ, List, [], ◌∷◌, codes, is_some, option_map};
ghost use Rattle.clap.specs.Walk.{texts};
ghost use Rattle.dr_base.specs.declared.limits.TheConstants.{INBOX_LIMIT, OUTBOX_LIMIT};
ghost use Rattle.command_words.specs.declared.limits.TheConstants.{CALL_LIMIT, CONNECTION_LIMIT, ID_LIMIT, PEER_LIMIT, PORT_LIMIT, ROUND_LIMIT};
ghost use Rattle.command_words.specs.Commands.{asked, begin_read, book_rows, command_named, fan_play_read, folder_rows, made_read, named_rows, relay_read, row_of, rows, say_long_read, session_rows, work_with};
ghost use Rattle.command_words.specs.Seen.{work_of};

use crate::command::{Ask, Command, Where};
use crate::limits::{CALL_LIMIT, CONNECTION_LIMIT, ID_LIMIT, PEER_LIMIT, ROUND_LIMIT};
use crate::reading::{amount_of, count_of, format_of, number_of, port_of, side_of};
use dr_base::{INBOX_LIMIT, OUTBOX_LIMIT};

/// The beginning that a side's word says, with the word of a format after it or none.
#[tactic(auto, unfolding(crate::specs::Commands::begin_read))]
fn begin_of(side: &str, format: Option<&str>) -> Option<Ask>
    ensures { result ≡ begin_read side.now (option_map (λ word. word.now) format.entry) }
{
    let side = side_of(side)?;
    let format = format_of(format)?;
    Some(Ask::Begin(side, format))
}

/// The relay that two words say.
#[tactic(auto, unfolding(crate::specs::Commands::relay_read))]
fn relay_of(port: &str, count: &str) -> Option<Ask>
    ensures { result ≡ relay_read port.now count.now }
{
    let port = port_of(port)?;
    let count = count_of(CONNECTION_LIMIT, count)?;
    Some(Ask::Relay { port, count })
}

/// The made script that two words say.
#[tactic(auto, unfolding(crate::specs::Commands::made_read))]
fn made_of(rounds: &str, number: &str) -> Option<Ask>
    ensures { result ≡ made_read rounds.now number.now }
{
    let rounds = count_of(ROUND_LIMIT, rounds)?;
    let number = number_of(number)?;
    Some(Ask::DuetMake { rounds, number })
}

/// The long text to say that two words say, and the part from which on.
#[tactic(auto, unfolding(crate::specs::Commands::say_long_read))]
fn say_long_of(id: &str, from: &str) -> Option<Ask>
    ensures { result ≡ say_long_read id.now from.now }
{
    let id = amount_of(ID_LIMIT, id)?;
    let from = number_of(from)?;
    Some(Ask::SayLong { id, from })
}

/// The fan to play that two words say.
#[tactic(auto, unfolding(crate::specs::Commands::fan_play_read))]
fn fan_play_of(peers: &str, calls: &str) -> Option<Ask>
    ensures { result ≡ fan_play_read peers.now calls.now }
{
    let peers = count_of(PEER_LIMIT, peers)?;
    let calls = amount_of(CALL_LIMIT, calls)?;
    Some(Ask::DuetFan { peers, calls })
}

/// Whether a session of a book has the command of this name too.
fn is_of_session(name: &str) -> bool
    ensures { result ≡ is_some (row_of session_rows name.now) }
{
    match name {
        "begin" | "say" | "take" | "inbox" | "done" | "sent" | "outbox" | "state" => true,
        _ => false,
    }
}

/// What a name without a value asks of a session.
fn asked_bare(name: &str) -> Option<Ask>
    ensures { result ≡ asked session_rows name.now [] }
{
    match name {
        "take" => Some(Ask::Take),
        "inbox" => Some(Ask::Inbox),
        "outbox" => Some(Ask::Outbox),
        "state" => Some(Ask::State),
        _ => None,
    }
}

/// What a name with this value asks of a session.
fn asked_with(name: &str, value: &str) -> Option<Ask>
    ensures { result ≡ asked session_rows name.now (value.now ∷ []) }
{
    match name {
        "begin" => begin_of(value, None),
        "say" => Some(Ask::Say),
        "done" => Some(Ask::Done(amount_of(INBOX_LIMIT, value)?)),
        "sent" => Some(Ask::Sent(amount_of(OUTBOX_LIMIT, value)?)),
        _ => None,
    }
}

/// What a name with these two values asks of a session.
fn asked_with_two(name: &str, first: &str, second: &str) -> Option<Ask>
    ensures { result ≡ asked session_rows name.now (first.now ∷ second.now ∷ []) }
{
    match name {
        "begin" => begin_of(first, Some(second)),
        _ => None,
    }
}

/// What a name with these values asks of a session.
fn asked_of_session(name: &str, values: &[&str]) -> Option<Ask>
    ensures { result ≡ asked session_rows name.now (texts values.now) }
{
    match values {
        [] => asked_bare(name),
        [value] => asked_with(name, value),
        [first, second] => asked_with_two(name, first, second),
        [_, _, ..] => None,
    }
}

/// What a name without a value asks for that no session of a book has.
fn alone_bare(name: &str) -> Option<Ask>
    ensures { result ≡ asked folder_rows name.now [] }
{
    match name {
        "awaiting" => Some(Ask::Awaiting),
        "relay-keys" => Some(Ask::RelayKeys),
        "check" => Some(Ask::Check),
        "duet" => Some(Ask::Duet),
        _ => None,
    }
}

/// What a name with one value asks for that no session of a book has.
fn alone_with(name: &str, value: &str) -> Option<Ask>
    ensures { result ≡ asked folder_rows name.now (value.now ∷ []) }
{
    match name {
        "long" => Some(Ask::Long(amount_of(ID_LIMIT, value)?)),
        "done-long" => Some(Ask::DoneLong(amount_of(ID_LIMIT, value)?)),
        "sync" => Some(Ask::Sync),
        _ => None,
    }
}

/// What a name with these two values asks for that no session of a book has.
fn alone_with_two(name: &str, first: &str, second: &str) -> Option<Ask>
    ensures { result ≡ asked folder_rows name.now (first.now ∷ second.now ∷ []) }
{
    match name {
        "say-long" => say_long_of(first, second),
        "duet-make" => made_of(first, second),
        "fan" => Some(Ask::Fan),
        _ => None,
    }
}

/// What a name with three values asks for that no session of a book has.
fn alone_with_three(name: &str, first: &str, second: &str) -> Option<Ask>
    ensures { (third : List ℕ)
        → result ≡ asked folder_rows name.now (first.now ∷ second.now ∷ third ∷ []) }
{
    match name {
        "relay" => relay_of(first, second),
        "duet-fan" => fan_play_of(first, second),
        "fan" => Some(Ask::Fan),
        _ => None,
    }
}

/// What a name with three values, and more after them, asks for that no session of a book has.
fn alone_with_more(name: &str, first: &str, second: &str) -> Option<Ask>
    ensures { (third fourth : List ℕ) (others : List (List ℕ))
        → result ≡ asked folder_rows name.now
        (first.now ∷ second.now ∷ third ∷ fourth ∷ others) }
{
    match name {
        "relay" => relay_of(first, second),
        "fan" => Some(Ask::Fan),
        _ => None,
    }
}

/// What a name asks for that no session of a book has, with these values.
fn asked_alone(name: &str, values: &[&str]) -> Option<Ask>
    ensures { result ≡ asked folder_rows name.now (texts values.now) }
{
    match values {
        [] => alone_bare(name),
        [value] => alone_with(name, value),
        [first, second] => alone_with_two(name, first, second),
        [first, second, _] => alone_with_three(name, first, second),
        [first, second, ..] => alone_with_more(name, first, second),
    }
}

/// What a name without `book-` asks for with these values.
fn asked_here(name: &str, values: &[&str]) -> Option<Ask>
    ensures { result ≡ asked (session_rows ++ folder_rows) name.now (texts values.now) }
{
    if is_of_session(name) {
        asked_of_session(name, values)
    } else {
        asked_alone(name, values)
    }
}

/// What a name behind `book-` asks of the session whose name stands before these values.
fn asked_of_named(name: &str, values: &[&str]) -> Option<Ask>
    ensures { result ≡ asked named_rows name.now (texts values.now) }
{
    match (name, values) {
        ("forget", []) => Some(Ask::Forget),
        ("forget", _) => None,
        _ => asked_of_session(name, values),
    }
}

/// What a name behind `book-` asks for with these values.
fn asked_of_book(name: &str, values: &[&str]) -> Option<Ask>
    ensures { result ≡ asked book_rows (codes "book-" ++ name.now) (texts values.now) }
{
    match (name, values) {
        ("list", []) => Some(Ask::List),
        ("list", _) => None,
        (_, []) => None,
        (_, [_, behind @ ..]) => asked_of_named(name, behind),
    }
}

/// The command of a name with the values that were given.
pub fn command_named<'a>(name: &str, values: Vec<&'a str>) -> Option<Command<'a>>
    ensures { option_map work_of result ≡ command_named rows name.now (texts values.entry.items) }
{
    let (place, ask) = match name.strip_prefix("book-") {
        Some(behind) => (Where::Book, asked_of_book(behind, values.as_slice())?),
        None => (Where::Folder, asked_here(name, values.as_slice())?),
    };
    Some(Command { place, ask, values })
}
