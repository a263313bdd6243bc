//! Runs of the program on words.

use dr_base::Key32;
use dr_disk::{Disk, SteadyDisk};
use dr_ports::{MemoryDoor, MemoryDraws, MemoryLink, MemorySink, MemorySource, Sink, Source};
use messenger_cli::{BOOK_SIZE, DISK_SIZE, Ports, RELAY_DISK_SIZE, Status, run};
use std::alloc::{AllocError, Global};

/// The ports of a run around this disk, this source and this sink. All else is in memory.
pub type Around<D, S, O> = Ports<
    D,
    SteadyDisk,
    SteadyDisk,
    S,
    O,
    MemoryLink,
    MemoryDoor,
    MemoryDraws,
>;

/// The ports of a run in memory, over disks all of whose calls pass.
pub type InMemory = Around<SteadyDisk, MemorySource, MemorySink>;

/// Ports around these: disks of zeros for a relay and a book, a link that gives these bytes, a door
/// whose one connection holds these, and draws of which the first fails.
pub fn ports_around<D: Drop, S: Drop, O: Drop>(
    alloc: Global,
    (disk, source, sink): (D, S, O),
    link: &[u8],
    door: &[u8],
) -> Result<Around<D, S, O>, AllocError> {
    let relay_disk = zeros(alloc, RELAY_DISK_SIZE)?;
    let book = zeros(alloc, BOOK_SIZE)?;
    let link = MemoryLink::new(alloc, link, 4096, &[])?;
    let door = MemoryDoor::new(alloc, door, &[door.len()], 4096, &[], &[])?;
    let draws = MemoryDraws::new(alloc, &[Key32 { bytes: [7; 32] }], &[1])?;
    Ok(Ports {
        disk,
        relay_disk,
        book,
        source,
        sink,
        link,
        door,
        draws,
    })
}

/// Ports in memory, with an empty source and a sink without room.
pub fn in_memory(alloc: Global, link: &[u8], door: &[u8]) -> Result<InMemory, AllocError> {
    let disk = zeros(alloc, DISK_SIZE)?;
    let source = MemorySource::new(alloc, b"", &[])?;
    let sink = MemorySink::new(alloc, 0, &[])?;
    ports_around(alloc, (disk, source, sink), link, door)
}

/// A disk of zeros, all of whose calls pass. What is known of it here isn't known where it is used,
/// so the checker needn't look at all its zeros there.
fn zeros(alloc: Global, size: u64) -> Result<SteadyDisk, AllocError> {
    SteadyDisk::new(alloc, size)
}

/// Runs the program on words, between bars, over disks of the sizes that it asks for.
pub fn run_on<D: Disk, S: Source, O: Sink>(
    alloc: Global,
    line: &str,
    ports: &mut Around<D, S, O>,
) -> Result<Status, AllocError> {
    let mut words = Vec::new(alloc);
    for word in line.split('|') {
        words.push(String::from_str(alloc, word)?)?;
    }
    if ports.disk.size() < DISK_SIZE
        || ports.relay_disk.size() < RELAY_DISK_SIZE
        || ports.book.size() < BOOK_SIZE
    {
        return Err(AllocError);
    }
    Ok(run(alloc, words.as_slice(), ports))
}
