//! What clients do on disks in memory.

ghost use Rattle.std.specs.Prelude.{◌≡◌, IfOk, true};
ghost use Rattle.dr_disk.specs.MemoryDisks.{state_of};
ghost use Rattle.client.specs.Clients.{IsOpenOn, MayActOn};

use bodies::Format;
use boxes::parse_part;
use client::{BeginRefusal, Client, OpenRefusal};
use dr_base::{Key32, Side};
use dr_disk::{Disk, MemoryDisk};
use dr_ports::SteadyDraws;
use kem_laws::OpenKem;
use std::alloc::{AllocError, Global};

/// How many bytes a disk has that holds a client's area.
pub const SIZE: u64 = 1572864;

/// The key of zeros.
pub const ZEROS: Key32 = Key32 { bytes: [0; 32] };

/// A text of which only its packet counts, with the byte of its draw.
pub const HI: Act<'static> = Act::Say(b"hi", 9);

/// What a client does: it says a text, with a draw that has this byte 32 times, or a part that has
/// these bytes, with a draw of the byte 9; takes a packet; drops the oldest item of a box; or drops
/// the long text of an id.
#[derive(Clone, Copy)]
pub enum Act<'a> {
    Say(&'a [u8], u8),
    Part(&'a [u8]),
    Take(&'a [u8]),
    Done,
    Sent,
    DoneLong(u32),
}

/// A new disk. What is known of it here isn't known where it is used, so the checker needn't look
/// at all its zeros there.
pub fn new_disk(alloc: Global) -> Result<MemoryDisk, AllocError> {
    MemoryDisk::new(alloc, SIZE)
}

/// Begins a client.
pub fn begin(
    alloc: Global,
    side: (Side, Format),
    key: &Key32,
    disk: &mut MemoryDisk,
) -> Result<Client<OpenKem>, BeginRefusal>
    ensures { IfOk result (λ client. IsOpenOn client (state_of disk.new)) }
{
    if disk.size() < SIZE {
        return Err(BeginRefusal::Memory);
    }
    Client::<OpenKem>::begin(alloc, disk, side.0, side.1, key)
}

/// Why a side isn't begun, if it isn't.
pub fn begun(
    alloc: Global,
    side: (Side, Format),
    key: &Key32,
    disk: &mut MemoryDisk,
) -> Result<(), BeginRefusal> {
    match begin(alloc, side, key, disk) {
        Ok(_) => Ok(()),
        Err(refusal) => Err(refusal),
    }
}

/// Whether a plain side is begun under the key of zeros.
pub fn begins(alloc: Global, side: Side, disk: &mut MemoryDisk) -> bool {
    begun(alloc, (side, Format::Plain), &ZEROS, disk).is_ok()
}

/// Says a text. Answers whether that was acknowledged.
fn say(
    alloc: Global,
    text: &[u8],
    draw: u8,
    client: &mut Client<OpenKem>,
    disk: &mut MemoryDisk,
) -> bool
    requires { MayActOn client.old (state_of disk.old) }
    ensures { result ≡ true → IsOpenOn client.new (state_of disk.new) }
{
    match SteadyDraws::new(alloc, &[Key32 { bytes: [draw; 32] }]) {
        Ok(mut draws) => client.say(disk, text, &mut draws).is_ok(),
        Err(_) => false,
    }
}

/// Says the part that has these bytes. Answers whether that was acknowledged.
fn say_part(
    alloc: Global,
    bytes: &[u8],
    client: &mut Client<OpenKem>,
    disk: &mut MemoryDisk,
) -> bool
    requires { MayActOn client.old (state_of disk.old) }
    ensures { result ≡ true → IsOpenOn client.new (state_of disk.new) }
{
    let Some(part) = parse_part(bytes) else {
        return false;
    };
    match SteadyDraws::new(alloc, &[Key32 { bytes: [9; 32] }]) {
        Ok(mut draws) => client.say_part(disk, &part, &mut draws).is_ok(),
        Err(_) => false,
    }
}

/// Acts. Answers whether that was acknowledged.
pub fn perform(
    alloc: Global,
    act: Act<'_>,
    client: &mut Client<OpenKem>,
    disk: &mut MemoryDisk,
) -> bool
    requires { MayActOn client.old (state_of disk.old) }
    ensures { result ≡ true → IsOpenOn client.new (state_of disk.new) }
{
    match act {
        Act::Say(text, draw) => say(alloc, text, draw, client, disk),
        Act::Part(bytes) => say_part(alloc, bytes, client, disk),
        Act::Take(packet) => client.take(disk, packet).is_ok(),
        Act::Done => client.done(disk, 1).is_ok(),
        Act::Sent => client.sent(disk, 1).is_ok(),
        Act::DoneLong(id) => client.done_long(disk, id).is_ok(),
    }
}

/// The same of a client that is opened for it.
fn performs(alloc: Global, act: Act<'_>, disk: &mut MemoryDisk) -> bool {
    if disk.size() < SIZE {
        return false;
    }
    match Client::<OpenKem>::open(alloc, disk) {
        Ok(mut client) => perform(alloc, act, &mut client, disk),
        Err(_) => false,
    }
}

/// The same of these acts, one after the other.
pub fn performs_all(alloc: Global, acts: &[Act<'_>], disk: &mut MemoryDisk) -> bool {
    for &act in acts {
        if !performs(alloc, act, disk) {
            return false;
        }
    }
    true
}

/// The packet that stands at this place of a client's outbox.
pub fn packet_at(alloc: Global, at: usize, disk: &mut MemoryDisk) -> Option<Vec<u8>> {
    if disk.size() < SIZE {
        return None;
    }
    match Client::<OpenKem>::open(alloc, disk) {
        Ok(client) => match client.outbox(at) {
            Some((_, packet)) => packet.to_vec(alloc).ok(),
            None => None,
        },
        Err(_) => None,
    }
}

/// The packet of the text "hi", which Second says.
pub fn packet_of_second(alloc: Global) -> Option<Vec<u8>> {
    let Ok(mut disk) = new_disk(alloc) else {
        return None;
    };
    if !begins(alloc, Side::Second, &mut disk) || !performs(alloc, HI, &mut disk) {
        return None;
    }
    packet_at(alloc, 0, &mut disk)
}

/// How many texts and packets an opening finds, or why it refuses.
pub fn opened(alloc: Global, disk: &mut MemoryDisk) -> Result<(u32, u32), OpenRefusal> {
    if disk.size() < SIZE {
        return Err(OpenRefusal::Memory);
    }
    match Client::<OpenKem>::open(alloc, disk) {
        Ok(client) => {
            let state = client.state();
            Ok((state.inbox, state.outbox))
        }
        Err(refusal) => Err(refusal),
    }
}
