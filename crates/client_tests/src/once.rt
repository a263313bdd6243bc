//! Beginning, opening, a look, and acts of one client after the other.

ghost use Rattle.dr_disk.specs.MemoryDisks.{state_of};
ghost use Rattle.client.specs.Clients.{MayActOn};

use crate::acts::{
    Act, SIZE, ZEROS, begin, begins, begun, new_disk, opened, packet_of_second, perform,
};
use bodies::Format;
use client::{BeginRefusal, Client, OpenRefusal, look};
use dr_base::{Key32, Side};
use dr_disk::{Disk, MemoryDisk};
use kem_laws::OpenKem;
use std::alloc::Global;
use std::test::Fail;

/// Whether a look finds the area at rest.
fn rests(alloc: Global, disk: &mut MemoryDisk) -> bool {
    if disk.size() < SIZE {
        return false;
    }
    match look::<OpenKem, MemoryDisk>(alloc, disk) {
        Ok(report) => report.rest,
        Err(_) => false,
    }
}

/// Whether an empty disk has no session, and one is begun once.
fn is_begun_once(alloc: Global, disk: &mut MemoryDisk) -> bool {
    let first = (Side::First, Format::Plain);
    let other = Key32 { bytes: [7; 32] };
    rests(alloc, disk)
        && matches!(opened(alloc, disk), Err(OpenRefusal::NoSession))
        && begins(alloc, Side::First, disk)
        && rests(alloc, disk)
        && matches!(begun(alloc, first, &other, disk), Err(BeginRefusal::Exists))
}

#[test]
fn begun_once(rt: HostRuntime) -> Result<(), Fail> {
    let mut disk = new_disk(rt.alloc())?;
    assert!(rt; is_begun_once(rt.alloc(), &mut disk));
    Ok(())
}

/// Whether a client takes a packet, whose text stands then, and is done with it.
fn takes_and_finishes(
    alloc: Global,
    packet: &[u8],
    client: &mut Client<OpenKem>,
    disk: &mut MemoryDisk,
) -> bool
    requires { MayActOn client.old (state_of disk.old) }
{
    perform(alloc, Act::Take(packet), client, disk)
        && client.state().inbox == 1
        && perform(alloc, Act::Done, client, disk)
        && client.state().inbox == 0
}

/// Whether First does so with the packet that Second says.
fn goes_over(alloc: Global, disk: &mut MemoryDisk) -> bool {
    let Some(packet) = packet_of_second(alloc) else {
        return false;
    };
    match begin(alloc, (Side::First, Format::Plain), &ZEROS, disk) {
        Ok(mut client) => takes_and_finishes(alloc, packet.as_slice(), &mut client, disk),
        Err(_) => false,
    }
}

// What one side says the other takes.
#[test]
fn said_and_taken(rt: HostRuntime) -> Result<(), Fail> {
    let mut disk = new_disk(rt.alloc())?;
    assert!(rt; goes_over(rt.alloc(), &mut disk));
    Ok(())
}
