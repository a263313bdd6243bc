//! Each command once on disks in memory, and each fault.

use crate::outcomes::{Command, first_packet, new_disk, outcome};
use bodies::Format;
use client::AREA_SIZE;
use dr_base::Side;
use dr_disk::{Disk, MemoryDisk};
use std::alloc::Global;
use std::test::Fail;

const KEY: &[u8] = b"0000000000000000000000000000000000000000000000000000000000000000\n";

/// A command, the numbers of its reads or draws that fail, its status, and its lines.
type Row<'a> = (Command<'a>, &'a [u64], u8, &'a [u8]);

/// Whether a command ends with its status and writes just its lines.
fn ends(
    alloc: Global,
    disk: &mut MemoryDisk,
    (command, fails, status, lines): Row<'_>,
) -> Result<bool, Fail> {
    let (code, written) = outcome(alloc, disk, command, fails)?;
    Ok(code == status && written.as_slice() == lines)
}

/// The same of each of these, one after the other.
fn all_end(alloc: Global, disk: &mut MemoryDisk, rows: &[Row<'_>]) -> Result<bool, Fail> {
    for &row in rows {
        if !ends(alloc, disk, row)? {
            return Ok(false);
        }
    }
    Ok(true)
}

/// The name of the session of the key of zeros is from another implementation of HKDF.
const NAME: &[u8] = b"session 70e0f9cd1a5863238d67aecce0c032e5\n";

// Second says a text, and drops its packet.
#[test]
fn a_text_is_said(rt: HostRuntime) -> Result<(), Fail> {
    let alloc = rt.alloc();
    let mut disk = new_disk(alloc)?;
    let state =
        b"session 70e0f9cd1a5863238d67aecce0c032e5\nside second\nepoch 0\nmissing 0\ninbox 0\noutbox 0\n";
    let rows: [Row<'_>; 7] = [
        (
            Command::Begin(Side::Second, Format::Plain, KEY),
            &[],
            0,
            NAME,
        ),
        (Command::State, &[], 0, state),
        (Command::Awaiting, &[], 0, b"awaiting 0\n"),
        (Command::Say(b"hi"), &[], 0, b"said 0.1\n"),
        (Command::Awaiting, &[], 0, b"awaiting 1\n0.1\n"),
        (Command::Sent(1), &[], 0, b"sent 1\n"),
        (Command::Outbox, &[], 0, b""),
    ];
    assert!(rt; all_end(alloc, &mut disk, &rows)?);
    Ok(())
}

// Second says a long text in parts, and from its second part on.
#[test]
fn a_long_text_is_said(rt: HostRuntime) -> Result<(), Fail> {
    let alloc = rt.alloc();
    let mut disk = new_disk(alloc)?;
    let two = &[b'y'; 4091];
    let rows: [Row<'_>; 8] = [
        (Command::SayLong(7, 1, b"ab"), &[], 9, b"no session\n"),
        (Command::SayLong(7, 2, b"ab"), &[], 9, b"no session\n"),
        (
            Command::Begin(Side::Second, Format::Receipts, KEY),
            &[],
            0,
            NAME,
        ),
        (
            Command::SayLong(7, 0, b"ab"),
            &[],
            3,
            b"refused: NoSuchPart 1\n",
        ),
        (
            Command::SayLong(7, 3, two),
            &[],
            3,
            b"refused: NoSuchPart 2\n",
        ),
        (Command::SayLong(7, 1, b""), &[], 0, b"said 0.1 part 1/1\n"),
        (
            Command::SayLong(8, 1, two),
            &[],
            0,
            b"said 0.2 part 1/2\nsaid 0.3 part 2/2\n",
        ),
        (Command::SayLong(8, 2, two), &[], 0, b"said 0.4 part 2/2\n"),
    ];
    assert!(rt; all_end(alloc, &mut disk, &rows)?);
    Ok(())
}

// Parts are refused in a session of another format, and a read of the text may fail.
#[test]
fn a_long_text_is_refused(rt: HostRuntime) -> Result<(), Fail> {
    let alloc = rt.alloc();
    let mut disk = new_disk(alloc)?;
    let rows: [Row<'_>; 4] = [
        (
            Command::Begin(Side::Second, Format::Padded, KEY),
            &[],
            0,
            NAME,
        ),
        (Command::SayLong(7, 1, b"ab"), &[], 3, b"refused: NoParts\n"),
        (
            Command::SayLong(7, 2, b"ab"),
            &[],
            3,
            b"refused: NoSuchPart 1\n",
        ),
        (Command::SayLong(7, 1, b"ab"), &[1], 4, b"fault: read\n"),
    ];
    assert!(rt; all_end(alloc, &mut disk, &rows)?);
    Ok(())
}

/// The packet of a text that Second says in this format.
fn packet_of_second(alloc: Global, format: Format) -> Result<Vec<u8>, Fail> {
    let mut disk = new_disk(alloc)?;
    let rows: [Row<'_>; 2] = [
        (Command::Begin(Side::Second, format, KEY), &[], 0, NAME),
        (Command::Say(b"a\"b\\\n"), &[], 0, b"said 0.1\n"),
    ];
    if !all_end(alloc, &mut disk, &rows)? {
        return Err(Fail::from("not said"));
    }
    first_packet(alloc, &mut disk)
}

/// Whether First takes a packet once, whose line has this length and which Second says in this
/// format, shows its text, and is done with it.
fn takes_once(alloc: Global, format: Format, length: usize) -> Result<bool, Fail> {
    let packet = packet_of_second(alloc, format)?;
    let mut disk = new_disk(alloc)?;
    let rows: [Row<'_>; 6] = [
        (
            Command::Begin(Side::First, Format::Plain, KEY),
            &[],
            0,
            NAME,
        ),
        (Command::Take(packet.as_slice()), &[], 0, b"opened 0.1\n"),
        (Command::Inbox, &[], 0, b"0.1 \"a\\x22b\\x5c\\x0a\"\n"),
        (
            Command::Take(packet.as_slice()),
            &[],
            3,
            b"refused: Spent 0.1\n",
        ),
        (Command::Done(2), &[], 3, b"refused: Fewer 1\n"),
        (Command::Done(1), &[], 0, b"done 1\n"),
    ];
    Ok(packet.len() == length && all_end(alloc, &mut disk, &rows)?)
}

// How long the line of each packet is: two digits for each of 33 bytes, of the text of 5 bytes or its
// padding, and of 32 bytes; and a line feed.
#[test]
fn a_text_is_taken(rt: HostRuntime) -> Result<(), Fail> {
    let alloc = rt.alloc();
    assert!(rt; takes_once(alloc, Format::Plain, 141)?);
    assert!(rt; takes_once(alloc, Format::Padded, 643)?);
    assert!(rt; takes_once(alloc, Format::Receipts, 643)?);
    Ok(())
}

/// What a look shows of a disk with the client that has begun, by another implementation.
const BEGUN: &[u8] = b"slot 0 open 1\nslot 1 closed\nrecord 261\nrest yes\n";

/// What one shows of a damaged disk.
const DAMAGED: &[u8] = b"slot 0 open 1\nslot 1 open 1\ndamaged slot 1 at 1\nrest no\n";

/// Opens the gate of table 1 with the turn 1.
fn opens_gate(disk: &mut MemoryDisk) -> bool {
    disk.size() == AREA_SIZE && disk.write_at(4096, &[0xa5, 1]).is_ok()
}

/// Whether looks at a disk of zeros, at one with a client and at a damaged one show what is there,
/// and one at a disk that has stopped is refused.
fn shows_looks(alloc: Global, disk: &mut MemoryDisk) -> Result<bool, Fail> {
    let none = b"slot 0 closed\nslot 1 closed\nno record\nrest yes\n";
    let rows: [Row<'_>; 3] = [
        (Command::Check, &[], 0, none),
        (
            Command::Begin(Side::Second, Format::Plain, KEY),
            &[],
            0,
            NAME,
        ),
        (Command::Check, &[], 0, BEGUN),
    ];
    if !all_end(alloc, disk, &rows)? || !opens_gate(disk) {
        return Ok(false);
    }
    let is_damaged = ends(alloc, disk, (Command::Check, &[], 0, DAMAGED))?;
    disk.stop_after(0);
    Ok(is_damaged && ends(alloc, disk, (Command::Check, &[], 6, b"fault: disk\n"))?)
}

// A look's lines, also of a damaged disk, and its fault.
#[test]
fn the_disk_is_checked(rt: HostRuntime) -> Result<(), Fail> {
    let alloc = rt.alloc();
    let mut disk = new_disk(alloc)?;
    assert!(rt; shows_looks(alloc, &mut disk)?);
    Ok(())
}

// Each ending but those of a work that was done or refused.
#[test]
fn each_fault(rt: HostRuntime) -> Result<(), Fail> {
    let alloc = rt.alloc();
    let mut disk = new_disk(alloc)?;
    let begin = Command::Begin(Side::First, Format::Plain, KEY);
    let rows: [Row<'_>; 9] = [
        (Command::State, &[], 9, b"no session\n"),
        (Command::Awaiting, &[], 9, b"no session\n"),
        (
            Command::Begin(Side::First, Format::Plain, &[b'0'; 63]),
            &[],
            3,
            b"refused: BadKey\n",
        ),
        (
            Command::Begin(Side::First, Format::Padded, &[b'0'; 66]),
            &[],
            3,
            b"refused: InputTooLong 65\n",
        ),
        (begin, &[1], 4, b"fault: read\n"),
        (begin, &[], 0, NAME),
        (begin, &[], 10, b"session exists\n"),
        (Command::Take(b"0g"), &[], 3, b"refused: NotHex\n"),
        (Command::Say(b"hi"), &[1], 8, b"fault: draws\n"),
    ];
    assert!(rt; all_end(alloc, &mut disk, &rows)?);
    disk.stop_after(1);
    assert!(rt;
        ends(
            alloc,
            &mut disk,
            (Command::Say(b"hi"), &[], 6, b"fault: disk\n")
        )?
    );
    Ok(())
}
