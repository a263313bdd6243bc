//! Taking a box from its record.

ghost use Rattle.std.specs.Prelude.{◌≡◌, ◌<◌, ◌≤◌, [], length, IfOk, IsOk};
ghost use Rattle.grammar.specs.Reader.{items};
ghost use Rattle.grammar.specs.Standing.{Reads};
ghost use Rattle.relay_core.specs.declared.limits.TheConstants.{BOX_LIMIT};
ghost use Rattle.relay_core.specs.Record.{box_read, next_kept};

use crate::guarding::has_same_keys;
use crate::mailbox::Mailbox;
use crate::reading::{read_head, read_kept};
use crate::relay::Relay;
use crate::rooms::Rooms;
use grammar::Cursor;

/// What became of a record that was to be loaded.
#[derive(Clone, Copy)]
pub enum Loaded {
    /// The box is the record's now.
    Taken,
    /// The record has another name than the box, which is as it was.
    OtherName,
    /// The record has the name of the box and another guard: other keys, or a guard where the box
    /// has none, or none where it has one. The box is as it was.
    OtherKeys,
}

/// Takes this many packets, with numbers up to `last`.
fn take_packets(
    packets: &mut Rooms,
    cursor: &mut Cursor<'_>,
    last: u64,
    count: u8,
) -> Result<(), usize>
    requires empty { packets.old ≡ [] }
    requires few { count ≤ BOX_LIMIT }
    ensures { Reads (λ _. packets.new)
        (items (next_kept last) count) cursor.old cursor.new result }
{
    let mut low = 0;
    'packets: for _ in 0..count {
        let kept = read_kept(cursor, low, last)?;
        low = kept.0;
        packets.push(low, kept.1);
    }
    Ok(())
}

impl Mailbox {
    ghost use Rattle.relay_core.specs.Loading.{LoadsBox};

    /// Becomes the box of a record, where that has its name and its keys.
    #[tactic(auto, unfolding(crate::specs::Record::box_read, crate::specs::Record::box_fields))]
    fn load(&mut self, text: &[u8]) -> Loaded
        requires { IsOk (box_read text.now) }
        ensures { IfOk (box_read text.now) (λ box. LoadsBox self.old self.new box result) }
    {
        let mut cursor = Cursor::new(text);
        let Ok(head) = read_head(&mut cursor) else {
            unreachable!();
        };
        if head.name != self.name.bytes() {
            return Loaded::OtherName;
        }
        if !has_same_keys(&head.guard, &self.guard) {
            return Loaded::OtherKeys;
        }
        self.packets.clear();
        let Ok(()) = take_packets(&mut self.packets, &mut cursor, head.last, head.count) else {
            unreachable!();
        };
        self.last = head.last;
        self.guard = head.guard;
        Loaded::Taken
    }
}

impl Relay {
    ghost use Rattle.relay_core.specs.Loading.{Loads};

    /// Takes the box at a place from a record that `check_box` accepts, counters and all. Nothing
    /// changes where the record has another name, or other keys.
    pub fn load(&mut self, place: usize, text: &[u8]) -> Loaded
        requires inside { place < length self.old }
        requires record { IsOk (box_read text.now) }
        ensures loads { IfOk (box_read text.now) (λ box. Loads self.old self.new place box result) }
        ensures count { length self.new ≡ length self.old }
    {
        let mailbox = &mut self.boxes[place];
        let loaded = mailbox.load(text);
        loaded
    }
}
