//! The bytes of First's disk while its record grows to more pages than the lower ones of its area,
//! and shrinks again, by another implementation.

use crate::outcomes::{Command, new_disk, outcome};
use bodies::Format;
use client::AREA_SIZE;
use dr_base::{Side, TEXT_LIMIT};
use dr_disk::{Disk, MemoryDisk};
use hex::decode;
use sha2::{Digest, Sha256};
use std::alloc::Global;
use std::test::Fail;

const KEY: &[u8] = b"0000000000000000000000000000000000000000000000000000000000000000\n";

/// How many bytes the line of a packet has behind its position: a text of the greatest length, 33
/// bytes before it and 32 behind it, in hex, and the line's end.
const LINE: usize = 2 * (33 + TEXT_LIMIT + 32) + 1;

/// First takes the texts from one number to another; the SHA-256 of its disk then.
const TAKES: [(u8, u8, &str); 5] = [
    (
        1,
        1,
        "37acc9d6574c97e1226a3b5078f78bf4e8d6f45cb4e67f6a65464460f38c417f",
    ),
    (
        2,
        2,
        "c8b2948231ebcf9895972d011a1a36e9d0eae675509539a12998ce02701865ad",
    ),
    (
        3,
        64,
        "4f737bf033113b2eb23fe3fbdb2e111e477fbc7a63b9bf740f883b0b5b260a52",
    ),
    (
        65,
        127,
        "ad731c1dae7f58a323f7d5ff60f99f6ef07f513a4e21f79cc4fe947c6eebdf88",
    ),
    (
        128,
        128,
        "2da65a7574523814a34e398952aa4e26e33a9c0bfe27e801f682daca5e2e2aeb",
    ),
];

/// It is done with so many of them; the SHA-256 of its disk then.
const DROPS: [(u32, &str); 4] = [
    (
        1,
        "5878c9070aaa0c1161d8ce8f43d7405c76e452dd5cb7e021dbddba214eabbaff",
    ),
    (
        1,
        "6142c525819e1293a8671a6a970eb4ab6a34505b0ddd70fff29839eb5a826024",
    ),
    (
        100,
        "2a28b8ee40e4ee817b0cc60d0f43360a1f145ad62165e2879b38ed067279cb94",
    ),
    (
        26,
        "131da981e9db1423d9b08b546fe9899ca35619f0529ce580e6059d110e9345fa",
    ),
];

/// Whether a command does its work.
fn works(alloc: Global, disk: &mut MemoryDisk, command: Command<'_>) -> Result<bool, Fail> {
    let (status, _) = outcome(alloc, disk, command, &[])?;
    Ok(status == 0)
}

/// Second says a text of one byte, as often as a text may have it, and drops its packet. Answers
/// the packet's line.
fn said(alloc: Global, disk: &mut MemoryDisk, byte: u8) -> Result<Vec<u8>, Fail> {
    let text = vec![in alloc; byte; TEXT_LIMIT]?;
    if !works(alloc, disk, Command::Say(text.as_slice()))? {
        return Err(Fail::from("not said"));
    }
    let (_, packets) = outcome(alloc, disk, Command::Outbox, &[])?;
    if !works(alloc, disk, Command::Sent(1))? {
        return Err(Fail::from("not dropped"));
    }
    match packets.len().checked_sub(LINE) {
        Some(at) => Ok(packets[at..].to_vec(alloc)?),
        None => Err(Fail::from("no packet")),
    }
}

/// Whether First takes the texts of these numbers, which Second says.
fn takes(
    alloc: Global,
    first: &mut MemoryDisk,
    second: &mut MemoryDisk,
    from: u8,
    to: u8,
) -> Result<bool, Fail> {
    for byte in from..=to {
        let packet = said(alloc, second, byte)?;
        if !works(alloc, first, Command::Take(packet.as_slice()))? {
            return Ok(false);
        }
    }
    Ok(true)
}

/// Whether the bytes of a disk have this SHA-256, in hex.
fn has_digest(alloc: Global, disk: &mut MemoryDisk, sha256: &str) -> Result<bool, Fail> {
    let mut bytes = vec![in alloc; 0; AREA_SIZE as usize]?;
    if disk.size() != AREA_SIZE || disk.read(0, &mut bytes).is_err() {
        return Ok(false);
    }
    Ok(Sha256::digest(&bytes).as_slice() == decode(alloc, sha256)?.as_slice())
}

/// Whether First's disk is as told while both begin, and its inbox is filled.
fn grows(alloc: Global, first: &mut MemoryDisk, second: &mut MemoryDisk) -> Result<bool, Fail> {
    let (one, other) = (
        Command::Begin(Side::First, Format::Plain, KEY),
        Command::Begin(Side::Second, Format::Plain, KEY),
    );
    if !works(alloc, first, one)? || !works(alloc, second, other)? {
        return Ok(false);
    }
    for (from, to, sha256) in TAKES {
        if !takes(alloc, first, second, from, to)? || !has_digest(alloc, first, sha256)? {
            return Ok(false);
        }
    }
    Ok(true)
}

/// The same while it is emptied again.
fn shrinks(alloc: Global, first: &mut MemoryDisk) -> Result<bool, Fail> {
    for (count, sha256) in DROPS {
        if !works(alloc, first, Command::Done(count))? || !has_digest(alloc, first, sha256)? {
            return Ok(false);
        }
    }
    Ok(true)
}

#[test]
fn records_of_many_pages(rt: HostRuntime) -> Result<(), Fail> {
    let alloc = rt.alloc();
    let mut first = new_disk(alloc)?;
    let mut second = new_disk(alloc)?;
    assert!(rt; grows(alloc, &mut first, &mut second)?);
    assert!(rt; shrinks(alloc, &mut first)?);
    Ok(())
}
