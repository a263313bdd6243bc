//! What a command on a disk in memory comes to.

use bodies::Format;
use client::AREA_SIZE;
use command_lines::Listing;
use dr_base::{Key32, Side};
use dr_disk::{Disk, MemoryDisk};
use dr_ports::{MemoryDraws, MemorySink, MemorySource};
use kem_laws::OpenKem;
use session_commands::{begin, check, drop_items, say, say_long, show, take};
use session_model::{Items, Which};
use std::alloc::{AllocError, Global};
use std::test::Fail;

/// A new disk with room for a client. What is known of it here isn't known where it is used, so the
/// checker needn't look at all its zeros there.
pub fn new_disk(alloc: Global) -> Result<MemoryDisk, AllocError> {
    MemoryDisk::new(alloc, AREA_SIZE)
}

/// A command, with its words and what it reads.
#[derive(Clone, Copy)]
pub enum Command<'a> {
    Begin(Side, Format, &'a [u8]),
    Say(&'a [u8]),
    /// An id, the part to begin with, and what is read.
    SayLong(u32, u64, &'a [u8]),
    Take(&'a [u8]),
    Done(u32),
    Sent(u32),
    Inbox,
    Outbox,
    Awaiting,
    State,
    Check,
}

/// What a command reads.
fn text_of<'a>(command: Command<'a>) -> &'a [u8] {
    match command {
        Command::Begin(_, _, text) | Command::SayLong(_, _, text) | Command::Take(text) => text,
        _ => b"",
    }
}

/// The status of a command. The reads and the draws of these numbers fail.
fn status_of(
    alloc: Global,
    disk: &mut MemoryDisk,
    command: Command<'_>,
    fails: &[u64],
    out: &mut MemorySink,
) -> Result<u8, Fail> {
    if disk.size() < AREA_SIZE {
        return Err(Fail::from("no room"));
    }
    let mut source = MemorySource::new(alloc, text_of(command), fails)?;
    let mut draws = MemoryDraws::new(alloc, &[Key32 { bytes: [9; 32] }], fails)?;
    let status = match command {
        Command::Begin(side, format, _) => {
            begin::<OpenKem, _, _, _>(alloc, side, format, disk, &mut source, out)
        }
        Command::Take(_) => take::<OpenKem, _, _, _>(alloc, disk, &mut source, out),
        Command::Say(text) => say::<OpenKem, _, _, _>(alloc, text, disk, out, &mut draws),
        Command::SayLong(id, from, _) => say_long::<OpenKem, _, _, _, _>(
            alloc,
            id,
            from,
            disk,
            &mut source,
            out,
            &mut draws,
        ),
        Command::Done(n) => {
            drop_items::<OpenKem, _, _>(alloc, Which::Oldest(Items::Texts, n), disk, out)
        }
        Command::Sent(n) => {
            drop_items::<OpenKem, _, _>(alloc, Which::Oldest(Items::Packets, n), disk, out)
        }
        Command::Inbox => show::<OpenKem, _, _>(alloc, Listing::Inbox, disk, out),
        Command::Outbox => show::<OpenKem, _, _>(alloc, Listing::Outbox, disk, out),
        Command::Awaiting => show::<OpenKem, _, _>(alloc, Listing::Awaiting, disk, out),
        Command::State => show::<OpenKem, _, _>(alloc, Listing::State, disk, out),
        Command::Check => check::<OpenKem, _, _>(alloc, disk, out),
    };
    Ok(status.code)
}

/// What a command ends with, and what it writes.
pub fn outcome(
    alloc: Global,
    disk: &mut MemoryDisk,
    command: Command<'_>,
    fails: &[u64],
) -> Result<(u8, Vec<u8>), Fail> {
    let mut out = MemorySink::new(alloc, 16384, &[])?;
    let code = status_of(alloc, disk, command, fails, &mut out)?;
    Ok((code, out.taken().to_vec(alloc)?))
}

/// The packet of the position 0.1 in an outbox, in hex.
pub fn first_packet(alloc: Global, disk: &mut MemoryDisk) -> Result<Vec<u8>, Fail> {
    let (_, packets) = outcome(alloc, disk, Command::Outbox, &[])?;
    match packets.strip_prefix(b"0.1 ") {
        Some(packet) => Ok(packet.to_vec(alloc)?),
        None => Err(Fail::from("another position")),
    }
}
