//! Which of two tables counts.

ghost use Rattle.std.specs.Prelude.{◌≡◌, ◌≤◌, length};
ghost use Rattle.pages.specs.Judged.{standing_seen, table_with};
ghost use Rattle.pages.specs.Tables.{is_open, standing_of, turn_after};

use crate::layout::OPEN;

/// No table is open; one is newer than the other, or alone, table 1 or table 0; or both are open,
/// and neither is newer.
#[derive(Clone, Copy)]
pub enum Judged {
    NoneOpen,
    Newer { second: bool },
    Alike,
}

/// Whether a table is open that was read as this gate, with these bytes after it.
pub fn is_open(gate: u8, body: &[u8]) -> bool
    requires { 1 ≤ length body.now }
    ensures { result ≡ is_open (table_with gate body.now) }
{
    gate == OPEN && body[0] >= 1 && body[0] <= 3
}

/// The turn that follows.
pub fn next_turn(turn: u8) -> u8
    requires { turn ≤ 3 }
    ensures next { result ≡ turn_after turn }
    ensures low { 1 ≤ result }
    ensures high { result ≤ 3 }
{
    if turn == 3 { 1 } else { turn + 1 }
}

/// Which of two tables counts, by their gates and turns. Each was read as this gate, with these
/// bytes after it.
pub fn judge(first_gate: u8, first: &[u8], second_gate: u8, second: &[u8]) -> Judged
    requires first_long { 1 ≤ length first.now }
    requires second_long { 1 ≤ length second.now }
    ensures { standing_seen result (table_with first_gate first.now)
        (table_with second_gate second.now)
        ≡ standing_of (table_with first_gate first.now) (table_with second_gate second.now) }
{
    let first_open = is_open(first_gate, first);
    let second_open = is_open(second_gate, second);
    if !first_open && !second_open {
        return Judged::NoneOpen;
    }
    if !second_open {
        return Judged::Newer { second: false };
    }
    if !first_open {
        return Judged::Newer { second: true };
    }
    if second[0] == next_turn(first[0]) {
        return Judged::Newer { second: true };
    }
    if first[0] == next_turn(second[0]) {
        return Judged::Newer { second: false };
    }
    Judged::Alike
}
