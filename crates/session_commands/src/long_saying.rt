//! The command that says a long text, part by part.

ghost use Rattle.std.specs.Prelude.{◌≡◌, ◌≤◌, [], length};
ghost use Rattle.boxes.specs.Parts.{IsPart};
ghost use Rattle.dr_disk.specs.Spans.{IsQuiet};
ghost use Rattle.long_text.specs.Cuts.{count_of};
ghost use Rattle.long_text.specs.declared.limits.TheConstants.{LONG_LIMIT};
ghost use Rattle.endings.specs.declared.ending.Ending.TheVariants.{NoSuchPart};
ghost use Rattle.command_lines.specs.Closing.{ending_by, lines_of_ending, worked_by};
ghost use Rattle.command_lines.specs.Runs.{Runs, RunsAndCounts};
ghost use Rattle.session_commands.specs.Disks.{HasClientRoom};
ghost use Rattle.session_commands.specs.LongSaying.{RunsSayLong, SaysFrom, SaysPart, SaysParts, parts_from};
ghost use Rattle.session_commands.specs.PartsSaid.{SaysOne};
ghost use Rattle.session_commands.specs.Showing.{RunsTell};

use crate::endings_of::unopened;
use boxes::Part;
use client::Client;
use command_lines::{read_long, said_at, write_said_part};
use dr_base::Position;
use dr_disk::Disk;
use dr_ports::{Draws, Failed, Sink, Source};
use endings::{Ending, Status, UNWRITTEN, finish};
use kem_laws::Kem;
use long_text::{cut_part, part_count};
use std::alloc::Global;

/// Opens the client, which says a part.
fn say_part<K: Kem, D: Disk, W: Draws>(
    alloc: Global,
    part: &Part<'_>,
    disk: &mut D,
    draws: &mut W,
) -> Result<Position, Ending>
    requires part { IsPart part.now }
    requires room { HasClientRoom (D.state disk.old) }
    ensures { SaysPart D.state W.at K.mechanism part.now disk.old disk.new draws.old draws.new
        (ending_by (worked_by result)) (lines_of_ending (worked_by result)) }
{
    match Client::<K>::open(alloc, disk) {
        Err(refusal) => Err(unopened(refusal)),
        Ok(mut client) => {
            let acted = client.say_part(disk, part, draws);
            said_at(acted)
        }
    }
}

/// Says a part, and writes its line. An error is how the command ends here.
fn say_and_show<K: Kem, D: Disk, O: Sink, W: Draws>(
    alloc: Global,
    part: &Part<'_>,
    disk: &mut D,
    out: &mut O,
    draws: &mut W,
) -> Result<(), Status>
    requires part { IsPart part.now }
    requires room { HasClientRoom (D.state disk.old) }
    ensures says { SaysOne D.state W.at K.mechanism part.now disk.old disk.new
        draws.old draws.new (O.at out.old) (O.at out.new) result }
    ensures room { HasClientRoom (D.state disk.new) }
    ensures later { (O.at out.old).faults ≤ (O.at out.new).faults }
{
    match say_part::<K, D, W>(alloc, part, disk, draws) {
        Err(ending) => Err(finish(out, ending)),
        Ok(position) => match write_said_part(out, position, part.number, part.count) {
            Err(Failed) => Err(UNWRITTEN),
            Ok(()) => Ok(()),
        },
    }
}

/// Says the parts of a text, from a number on that it has.
fn say_parts<K: Kem, D: Disk, O: Sink, W: Draws>(
    alloc: Global,
    id: u32,
    from: u8,
    text: &[u8],
    disk: &mut D,
    out: &mut O,
    draws: &mut W,
) -> Status
    requires room { HasClientRoom (D.state disk.old) }
    requires text { length text.now ≤ LONG_LIMIT }
    requires one { 1 ≤ from }
    requires most { from ≤ count_of text.now }
    ensures runs { Runs (SaysParts D.state W.at K.mechanism
        (O.at out.old).faults (O.at out.new).faults (parts_from id text.now from)
        disk.old disk.new draws.old draws.new)
        (O.at out.old) (O.at out.new) result.code }
    ensures later { (O.at out.old).faults ≤ (O.at out.new).faults }
    // Status 0 says that no call on the disk failed, and no draw.
    ensures quiet { result.code ≡ 0 → IsQuiet (D.state disk.old) (D.state disk.new)
        × ((W.at draws.new).faults ≡ (W.at draws.old).faults) }
{
    let count = part_count(text);
    'parts: for number in from..count + 1 {
        let Some(part) = cut_part(text, id, number) else {
            unreachable!()
        };
        match say_and_show::<K, D, O, W>(alloc, &part, disk, out, draws) {
            Err(status) => return status,
            Ok(()) => {}
        }
    }
    finish(out, Ending::Done)
}

/// Opens the client, and writes that the text has no part of the number.
fn tell_no_part<K: Kem, D: Disk, O: Sink>(
    alloc: Global,
    count: u32,
    disk: &mut D,
    out: &mut O,
) -> Status
    requires { HasClientRoom (D.state disk.old) }
    ensures { RunsAndCounts
        (RunsTell D.state K.mechanism (λ kept. NoSuchPart count) (λ kept. []) disk.old disk.new)
        (IsQuiet (D.state disk.old) (D.state disk.new))
        (O.at out.old) (O.at out.new) result.code }
{
    match Client::<K>::open(alloc, disk) {
        Err(refusal) => finish(out, unopened(refusal)),
        Ok(_client) => finish(out, Ending::NoSuchPart(count)),
    }
}

/// Says the parts of a text from a number on, or writes that it has no such part.
fn say_from<K: Kem, D: Disk, O: Sink, W: Draws>(
    alloc: Global,
    id: u32,
    from: u64,
    text: &[u8],
    disk: &mut D,
    out: &mut O,
    draws: &mut W,
) -> Status
    requires room { HasClientRoom (D.state disk.old) }
    requires text { length text.now ≤ LONG_LIMIT }
    ensures runs { Runs (SaysFrom D.state W.at K.mechanism id from text.now
        disk.old disk.new draws.old draws.new (O.at out.old).faults (O.at out.new).faults)
        (O.at out.old) (O.at out.new) result.code }
    ensures later { (O.at out.old).faults ≤ (O.at out.new).faults }
    // Status 0 says that no call on the disk failed, and no draw.
    ensures quiet { result.code ≡ 0 → IsQuiet (D.state disk.old) (D.state disk.new)
        × ((W.at draws.new).faults ≡ (W.at draws.old).faults) }
{
    let count = u32::from(part_count(text));
    if from < 1 || from > u64::from(count) {
        return tell_no_part::<K, D, O>(alloc, count, disk, out);
    }
    say_parts::<K, D, O, W>(alloc, id, from as u8, text, disk, out, draws)
}

/// Says the long text that the source holds under an id, from the part of a number on: each part in
/// a run of its own, with its line `said E.I part K/N` as soon as it is said. It ends with the first
/// that isn't said, or whose line can't be written: what was said before stands. `NoSuchPart N`
/// comes exactly where the number is 0 or above the count of parts, once the client is opened.
#[inline(never)]
pub fn say_long<K: Kem, D: Disk, S: Source, O: Sink, W: Draws>(
    alloc: Global,
    id: u32,
    from: u64,
    disk: &mut D,
    source: &mut S,
    out: &mut O,
    draws: &mut W,
) -> Status
    requires { HasClientRoom (D.state disk.old) }
    ensures runs { RunsAndCounts
        (RunsSayLong D.state W.at K.mechanism id from (S.at source.old) (S.at source.new)
        disk.old disk.new draws.old draws.new (O.at out.old).faults (O.at out.new).faults)
        (IsQuiet (D.state disk.old) (D.state disk.new)
        × ((S.at source.new).faults ≡ (S.at source.old).faults)
        × ((W.at draws.new).faults ≡ (W.at draws.old).faults))
        (O.at out.old) (O.at out.new) result.code }
    ensures reads { (S.at source.old).faults ≤ (S.at source.new).faults }
{
    match read_long(alloc, source) {
        Err(ending) => finish(out, ending),
        Ok(text) => say_from::<K, D, O, W>(alloc, id, from, text.as_slice(), disk, out, draws),
    }
}
