//! What a line lets a side say: a text, or a part of a long one.

ghost use Rattle.std.specs.Prelude.{◌≤◌, length};
ghost use Rattle.boxes.specs.declared.limits.TheConstants.{PARTS_LIMIT, PART_LIMIT};

use boxes::Part;

/// What a side says.
#[derive(Clone, Copy)]
pub enum Said<'a> {
    /// A text.
    Text(&'a [u8]),
    /// A part of a long text.
    Part(SaidPart<'a>),
}

/// A part of a long text as a line says it: it is lawful.
#[derive(Clone, Copy)]
pub struct SaidPart<'a> {
    /// The id of the long text.
    pub id: u32,
    /// Which part it is, from 1 to the count.
    pub number: u8,
    /// How many parts the long text has.
    pub count: u8,
    pub bytes: &'a [u8],
    pub ghost one: { 1 ≤ number },
    pub ghost most: { number ≤ count },
    pub ghost few: { count ≤ PARTS_LIMIT },
    pub ghost short: { length bytes.now ≤ PART_LIMIT },
}

impl<'a> SaidPart<'a> {
    ghost use Rattle.std.specs.Prelude.{◌≡◌};
    ghost use Rattle.boxes.specs.Parts.{IsPart};
    ghost use Rattle.scripts.specs.Seen.{part_said};

    /// The same, as a client says it.
    pub fn part(self) -> Part<'a>
        ensures value { result ≡ part_said self.entry }
        ensures lawful { IsPart result }
    {
        Part {
            id: self.id,
            number: self.number,
            count: self.count,
            bytes: self.bytes,
        }
    }
}
