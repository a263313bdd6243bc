//! A whole conversation on two disks in memory. That all its pieces came about says that there is
//! one: nothing is premised of the worlds, nor of what is forged.

ghost use Rattle.std.specs.Prelude.{◌≡◌, ℕ, List, IfOk, IfSome, Some, true};
ghost use Rattle.dr_disk.specs.MemoryDisks.{state_of};
ghost use Rattle.command_lines.specs.Inputs.{packet_in_hex};
ghost use Rattle.session_commands.specs.WholeRuns.{LeavesAlone};
ghost use Rattle.command_tests.specs.Talks.{HasBegun, HasPosted, HasSaidText, HasTaken, HasTakenTwice, HasTalked, HaveBegun, HoldsPacket};

use crate::outcomes::new_disk;
use bodies::Format;
use client::{AREA_SIZE, Client};
use command_lines::read_packet;
use conversation::laws::whole_talk;
use dr_base::{Key32, Side};
use dr_disk::{Disk, MemoryDisk, Mode};
use dr_ports::{NullSink, SteadyDraws, SteadySource};
use kem_laws::{Kem, OpenKem, laws};
use session_commands::{begin, say, take};
use std::alloc::{AllocError, Global};
use std::test::Fail;

/// Begins a side's session.
pub fn begins<K: Kem>(
    alloc: Global,
    side: Side,
    key: &[u8],
    disk: &mut MemoryDisk,
) -> Result<bool, AllocError>
    ensures { IfOk result (λ done. done ≡ true → HasBegun K.mechanism side key.now disk.new) }
{
    if disk.size() < AREA_SIZE {
        return Ok(false);
    }
    let mut source = SteadySource::new(alloc, key)?;
    let mut out = NullSink::new();
    let status = begin::<K, MemoryDisk, SteadySource, NullSink>(
        alloc,
        side,
        Format::Plain,
        disk,
        &mut source,
        &mut out,
    );
    Ok(status.code == 0)
}

/// Begins both sides' with one key.
pub fn both_begin<K: Kem>(
    alloc: Global,
    key: &[u8],
    first: &mut MemoryDisk,
    second: &mut MemoryDisk,
) -> Result<bool, AllocError>
    ensures { IfOk result (λ done. done ≡ true
        → HaveBegun K.mechanism key.now first.new second.new) }
{
    if !begins::<K>(alloc, Side::First, key, first)? {
        return Ok(false);
    }
    begins::<K>(alloc, Side::Second, key, second)
}

/// Says a text.
pub fn says<K: Kem>(alloc: Global, text: &[u8], disk: &mut MemoryDisk) -> Result<bool, AllocError>
    ensures { IfOk result (λ done. done ≡ true
        → HasSaidText K.mechanism text.now disk.old disk.new) }
{
    if disk.size() < AREA_SIZE {
        return Ok(false);
    }
    let mut draws = SteadyDraws::new(alloc, &[Key32 { bytes: [9; 32] }])?;
    let mut out = NullSink::new();
    let status = say::<K, MemoryDisk, NullSink, SteadyDraws>(
        alloc, text, disk, &mut out, &mut draws,
    );
    Ok(status.code == 0)
}

/// Whether a packet is what these digits are read as.
pub fn are_of(alloc: Global, digits: &[u8], packet: &[u8]) -> Result<bool, AllocError>
    ensures { IfOk result (λ are. are ≡ true → packet_in_hex digits.now ≡ Some packet.now) }
{
    let mut source = SteadySource::new(alloc, digits)?;
    match read_packet(alloc, &mut source) {
        Ok(read) => Ok(read.as_slice() == packet),
        Err(_) => Ok(false),
    }
}

/// The packet that stands first in the outbox of the client that the disk holds, in hex.
pub fn packet_of<K: Kem>(
    alloc: Global,
    disk: &mut MemoryDisk,
) -> Result<Option<Vec<u8>>, AllocError>
    ensures { IfOk result (λ found. IfSome found
        (λ digits. HoldsPacket K.mechanism digits.items disk.old)) }
{
    if disk.size() < AREA_SIZE {
        return Ok(None);
    }
    let Ok(client) = Client::<K>::open(alloc, disk) else {
        return Ok(None);
    };
    let Some((_, packet)) = client.outbox(0) else {
        return Ok(None);
    };
    let digits = hex::encode(alloc, packet)?.into_bytes();
    if !are_of(alloc, digits.as_slice(), packet)? {
        return Ok(None);
    }
    Ok(Some(digits))
}

/// Says a text, and gives its packet in hex.
pub fn posts<K: Kem>(
    alloc: Global,
    text: &[u8],
    disk: &mut MemoryDisk,
) -> Result<Option<Vec<u8>>, AllocError>
    ensures { IfOk result (λ found. IfSome found
        (λ digits. HasPosted K.mechanism text.now digits.items disk.old)) }
{
    if !says::<K>(alloc, text, disk)? {
        return Ok(None);
    }
    packet_of::<K>(alloc, disk)
}

/// Takes a packet: whether it was done, where no more than the disk failed.
pub fn takes<K: Kem>(
    alloc: Global,
    digits: &[u8],
    disk: &mut MemoryDisk,
) -> Result<Option<bool>, AllocError>
    ensures { IfOk result (λ ran. IfSome ran
        (λ done. HasTaken K.mechanism digits.now disk.old disk.new done)) }
{
    if disk.size() < AREA_SIZE {
        return Ok(None);
    }
    let mut source = SteadySource::new(alloc, digits)?;
    let mut out = NullSink::new();
    let status = take::<K, MemoryDisk, SteadySource, NullSink>(alloc, disk, &mut source, &mut out);
    match status.code {
        0 => Ok(Some(true)),
        6 => Ok(Some(false)),
        _ => Ok(None),
    }
}

/// Stops a disk after so many writes and syncs, which leaves what it holds.
pub fn stops(disk: &mut MemoryDisk, stop: u32)
    ensures { LeavesAlone (state_of disk.old) (state_of disk.new) }
{
    disk.stop_after(stop);
}

/// The disk after a crash, which leaves what it might have left.
pub fn crashes(disk: MemoryDisk, mode: Mode) -> MemoryDisk
    ensures { LeavesAlone (state_of disk) (state_of result) }
{
    disk.crash(mode)
}

/// Takes a packet on a disk that stops after so many writes and syncs, and takes it again after a
/// crash of this kind: whether it was done then.
pub fn takes_twice<K: Kem>(
    alloc: Global,
    digits: &[u8],
    disk: MemoryDisk,
    stop: u32,
    mode: Mode,
) -> Result<Option<bool>, AllocError>
    ensures { IfOk result (λ ran. IfSome ran
        (λ done. HasTakenTwice K.mechanism digits.now disk done)) }
{
    let mut second = disk;
    stops(&mut second, stop);
    let Some(_was_done) = takes::<K>(alloc, digits, &mut second)? else {
        return Ok(None);
    };
    let mut crashed = crashes(second, mode);
    takes::<K>(alloc, digits, &mut crashed)
}

/// Where all pieces came about, there is a whole conversation. There is no code: a caller that needs
/// the fact calls it.
pub fn pieces_are_whole<K: Kem>()
    ensures { (key text digits : List ℕ) (first second : MemoryDisk)
        → HaveBegun K.mechanism key first second → HasPosted K.mechanism text digits first
        → HasTakenTwice K.mechanism digits second true → HasTalked K.mechanism text }
{
    laws::<K>();
    whole_talk::<MemoryDisk, MemoryDisk, SteadyDraws>();
}

/// Two sides begin with one key on two disks in memory. First says the text. Second takes its
/// packet and is stopped after so many writes and syncs, a crash of this kind follows, and Second
/// takes it again. The answer says whether all this came about.
pub fn talk_in_memory<K: Kem>(
    alloc: Global,
    key: &[u8],
    text: &[u8],
    stop: u32,
    mode: Mode,
) -> Result<bool, AllocError>
    ensures { IfOk result (λ done. done ≡ true → HasTalked K.mechanism text.now) }
{
    pieces_are_whole::<K>();
    let mut first = new_disk(alloc)?;
    let mut second = new_disk(alloc)?;
    if !both_begin::<K>(alloc, key, &mut first, &mut second)? {
        return Ok(false);
    }
    let Some(digits) = posts::<K>(alloc, text, &mut first)? else {
        return Ok(false);
    };
    match takes_twice::<K>(alloc, digits.as_slice(), second, stop, mode)? {
        Some(done) => Ok(done),
        None => Ok(false),
    }
}

const KEY: &[u8] = b"0000000000000000000000000000000000000000000000000000000000000000\n";

// Second's take is cut off before anything is written, and before its record stands: then it is
// taken again. Where the record stands, the packet is refused as one that was opened.
#[test]
fn a_whole_conversation(rt: HostRuntime) -> Result<(), Fail> {
    let alloc = rt.alloc();
    for (stop, mode, talked) in [
        (0, Mode::Old, true),
        (4, Mode::Old, true),
        (6, Mode::New, false),
    ] {
        let whole = talk_in_memory::<OpenKem>(alloc, KEY, b"hello", stop, mode)?;
        assert_eq!(rt; whole, talked, "at {stop}");
    }
    Ok(())
}
