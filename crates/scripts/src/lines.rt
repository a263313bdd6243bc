//! The lines of a script that was read, one after another.

ghost use Rattle.std.specs.Prelude.{◌≡◌, [], ◌∷◌, MatchOption};
ghost use Rattle.scripts.specs.Script.{AreRead, deeds_in};
ghost use Rattle.scripts.specs.Lined.{lined_deed};

use crate::lined::Lined;
use script_parts::split_line;
use std::marker::Model;

/// The lines that are left. A contract sees them as their deeds.
#[derive(Drop)]
pub struct Lines<'a> {
    rest: &'a [u8],
}

impl<'a> Model for Lines<'a> {
    ghost use Rattle.std.specs.Prelude.{List};
    ghost use Rattle.std.specs.Coded.{coded_list};
    ghost use Rattle.scripts.specs.Deeds.{Deed};
    ghost use Rattle.scripts.specs.Script.{AreRead, deeds_in};
    ghost use Rattle.scripts.specs.ScriptCodes.{deed_code};

    ghost Value = { List Deed };

    ghost coded = { coded_list deed_code };

    ghost view = { λ l. deeds_in l.rest.now };

    ghost invariant = { λ l. AreRead l.rest.now };
}

impl<'a> Lines<'a> {
    /// The lines of a text in which no line is bad.
    pub fn new(text: &'a [u8]) -> Lines<'a>
        requires { AreRead text.now }
        ensures { result ≡ deeds_in text.entry.now }
    {
        Lines { rest: text }
    }

    /// The next line, if there is one.
    pub fn next(&mut self) -> Option<Lined<'a>>
        ensures { MatchOption result (self.old ≡ [])
            (λ line. self.old ≡ lined_deed line ∷ self.new) }
    {
        match split_line(self.rest) {
            None => None,
            Some((line, rest)) => {
                self.rest = rest;
                Lined::parse(line)
            }
        }
    }
}
