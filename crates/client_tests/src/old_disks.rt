//! Disks with records of version 1, and how they are opened.

use crate::acts::SIZE;
use crate::damaged::bytes_of;
use client::{Client, OpenRefusal};
use dr_disk::{Call, Disk, MemoryDisk};
use hex::decode;
use kem_laws::OpenKem;
use sha2::{Digest, Sha256};
use std::alloc::Global;

/// Table 1 of First's disk: its record of 585 bytes stands in page 3.
const TABLE: &str = "a503000002490003";

/// The record of First, who has talked, in version 1.
const RECORD: &str =
    "01017992cd5f4ac8394bf3744ac50eb9f28667a6a5f78efba36acc5e81f3219174142de180ed40c79b959963389e\
    d8019461000000030303030303030303030303030303030303030303030303030303030303030303f2e642f85e31\
    36bb0e4fbe5be762c080f60968fa15c54152b62a7454b2e321b0d8041f7991d732ea98ec0ad6308ce15b8d99264b\
    78eddef1b47a7c3f8b6a10dff21b6cc7570a5daa12d29147d5d47d83dfb9cbe243dd9319d27bb6503eb465120000\
    0001000000015d5f1c2cc211c097b62e56f92ceba7649304d5093b87e12ece80794837a69c620000000100020000\
    000000000001b8784b816479975311a7bf0a5540c69f776176698799498caa7a6ba5f7b87fdf0000000000000002\
    94bc646910b29b95ac28cec5dd28e026f2f8c135392f390d256425afcc0c388f0100000002000000010001650200\
    82017992cd5f4ac8394bf3744ac50eb9f2860000000100000000000000010040030610bfe3b906afc878a84f0087\
    ea6c20e112a5218a7510d0d37c0bbe796f1a2d44de7f90a0095da077abf0a056f7e7224e97f9738020b784e1fa5a\
    8fba32b60001493d7ac87a12120e9d9c35d0930e0568d5a00014da6b4362de65759b71dbe53d240082017992cd5f\
    4ac8394bf3744ac50eb9f2860000000300000001000000010040f2e642f85e3136bb0e4fbe5be762c080f60968fa\
    15c54152b62a7454b2e321b0d8041f7991d732ea98ec0ad6308ce15b8d99264b78eddef1b47a7c3f8b6a10df0001\
    4610f6a8b5d5253cf519e8a7f45a5e72766089d1bb47b4eb255127c7a07a523e29";

/// Whether bytes are those that are written in hex.
pub fn are(alloc: Global, bytes: &[u8], hexed: &str) -> bool {
    match decode(alloc, hexed) {
        Ok(expected) => bytes == expected.as_slice(),
        Err(_) => false,
    }
}

/// Whether a disk's bytes have this digest.
pub fn has_digest(alloc: Global, disk: &mut MemoryDisk, hexed: &str) -> bool {
    match bytes_of(alloc, disk) {
        Some(bytes) => are(alloc, Sha256::digest(bytes.as_slice()).as_slice(), hexed),
        None => false,
    }
}

/// Writes bytes at a place, and syncs. Answers whether it did.
pub fn lays(disk: &mut MemoryDisk, at: u64, bytes: &[u8]) -> bool {
    disk.size() == SIZE
        && at <= SIZE
        && bytes.len() as u64 <= SIZE - at
        && disk.write_at(at, bytes).is_ok()
        && disk.sync().is_ok()
}

/// The same of bytes in hex.
fn lays_hexed(alloc: Global, disk: &mut MemoryDisk, at: u64, hexed: &str) -> bool {
    match decode(alloc, hexed) {
        Ok(bytes) => lays(disk, at, bytes.as_slice()),
        Err(_) => false,
    }
}

/// Makes a new disk First's of version 1. Answers whether it did.
pub fn lays_old(alloc: Global, disk: &mut MemoryDisk) -> bool {
    lays_hexed(alloc, disk, 4096, TABLE) && lays_hexed(alloc, disk, 12288, RECORD)
}

/// Whether a client is opened, or which call fails; nothing where it is refused otherwise.
fn opens(alloc: Global, disk: &mut MemoryDisk) -> Option<Result<(), Call>> {
    if disk.size() < SIZE {
        return None;
    }
    match Client::<OpenKem>::open(alloc, disk) {
        Ok(_) => Some(Ok(())),
        Err(OpenRefusal::StoreFault { call }) => Some(Err(call)),
        Err(_) => None,
    }
}

/// How an opening ends on a disk that stops after so many writes and syncs, and then goes on.
pub fn opens_stopped(alloc: Global, disk: &mut MemoryDisk, after: u32) -> Option<Result<(), Call>> {
    disk.stop_after(after);
    let end = opens(alloc, disk);
    disk.go_on();
    end
}

/// Whether an opening makes no more than so many writes and syncs, and leaves a disk with this
/// digest.
pub fn opens_to(alloc: Global, disk: &mut MemoryDisk, calls: u32, hexed: &str) -> bool {
    disk.fail_at(calls.saturating_add(1));
    let end = opens(alloc, disk);
    disk.go_on();
    end == Some(Ok(())) && has_digest(alloc, disk, hexed)
}
