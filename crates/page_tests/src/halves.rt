//! A relay's box whose record grows past the lower half of its area, by the rows of an independent
//! implementation.

use crate::building::add;
use crate::disks::{bytes_of, has_digest};
use crate::stores::{BOXES_SIZE, has_box, puts_box, puts_lower};
use dr_disk::SteadyDisk;
use std::alloc::{AllocError, Global};
use std::test::Fail;

/// Two numbers of packets, and the disk's SHA-256 then.
type Row = (u8, u8, &'static str);

/// The packets after the first number are posted, up to the second.
const POSTS: [Row; 7] = [
    (
        0,
        1,
        "112c5749ac1292226379dcea040fbff8baef002800e98d3087faac1fe9281d8a",
    ),
    (
        1,
        2,
        "60da28adbcfdd7bf0ae636ff7f872b42a506a15e530984ce259fa8c87e672375",
    ),
    (
        2,
        60,
        "243bbb94a90361b179f1204812a6e0c3bf1fdaffee456e44705c89d5d1839ff8",
    ),
    (
        60,
        61,
        "ec77f318f015db918ee3a675bccf589212745c004dbcc80d6e9ac7069ff47165",
    ),
    (
        61,
        62,
        "e02e65b3f99da27a6562ec4e68f83136b1d1e1dc7a8b5234719b0cece75e1dbf",
    ),
    (
        62,
        63,
        "3bc5cfdde5abae67b08856451a3a77e9532003659005bfb734be251b07eda5b0",
    ),
    (
        63,
        64,
        "a0bafa8f844e97289ca9aca061e57293268a81e6f90a0fa0c0c721a308686358",
    ),
];

/// The packets from the first number to the second are left of 64.
const LEFT: [Row; 3] = [
    (
        2,
        64,
        "348c8dc55ea230e3e61b2450f868b2e6b121b0494e6a704df0c3870b63f2e6d0",
    ),
    (
        3,
        64,
        "026a5b61cb4123e95e6342977cd2d2b6745b1643a9928859f45aaf252926ff73",
    ),
    (
        3,
        63,
        "77cdc38210909acd83081d4fe510d88a7077547f011c8fa0715b3948c7342f48",
    ),
];

/// The record of the box `b-1`, which gave a last number, with the packets from a first one to a
/// last one: packet n is 8,000 times the byte n.
fn record_with(alloc: Global, given: u8, first: u8, last: u8) -> Result<Vec<u8>, AllocError> {
    let mut text = Vec::new(alloc);
    text.extend_from_slice(b"\x01\x03b-1\0\0\0\0\0\0\0")?;
    text.push(given)?;
    text.push(last.saturating_add(1).saturating_sub(first))?;
    for number in u32::from(first)..u32::from(last) + 1 {
        text.extend_from_slice(&u64::from(number).to_be_bytes())?;
        text.extend_from_slice(b"\x1f\x40")?;
        add(&mut text, number as u8, 8000)?;
    }
    Ok(text)
}

/// Stores such a record. Answers whether it did.
fn puts(
    alloc: Global,
    disk: &mut SteadyDisk,
    given: u8,
    first: u8,
    last: u8,
) -> Result<bool, AllocError> {
    let text = record_with(alloc, given, first, last)?;
    Ok(puts_box(alloc, disk, 1, &text))
}

/// Stores the records of the boxes `a` and `b-1` without packets. Answers whether it did.
fn begins(alloc: Global, disk: &mut SteadyDisk) -> Result<bool, AllocError> {
    let is_begun = puts_box(alloc, disk, 0, b"\x01\x01a\0\0\0\0\0\0\0\0\0");
    Ok(is_begun && puts(alloc, disk, 0, 1, 0)?)
}

/// Posts packets. Answers whether it did.
fn posts(alloc: Global, disk: &mut SteadyDisk, before: u8, last: u8) -> Result<bool, AllocError> {
    for number in u32::from(before)..u32::from(last) {
        let next = (number + 1) as u8;
        if !puts(alloc, disk, next, 1, next)? {
            return Ok(false);
        }
    }
    Ok(true)
}

/// Whether the disk is as told after each of the posts.
fn are_posted(alloc: Global, disk: &mut SteadyDisk) -> Result<bool, Fail> {
    for (before, last, sha256) in POSTS {
        let is_done = posts(alloc, disk, before, last)?;
        let bytes = bytes_of(alloc, disk)?;
        if !is_done || !has_digest(alloc, bytes, sha256)? {
            return Ok(false);
        }
    }
    Ok(true)
}

/// Whether the disk is as told once packets are taken out.
fn are_left(alloc: Global, disk: &mut SteadyDisk) -> Result<bool, Fail> {
    for (first, last, sha256) in LEFT {
        let is_done = puts(alloc, disk, 64, first, last)?;
        let bytes = bytes_of(alloc, disk)?;
        if !is_done || !has_digest(alloc, bytes, sha256)? {
            return Ok(false);
        }
    }
    Ok(true)
}

/// Whether a box grows and shrinks so.
fn is_kept(alloc: Global) -> Result<bool, Fail> {
    let mut disk = SteadyDisk::new(alloc, BOXES_SIZE)?;
    Ok(begins(alloc, &mut disk)? && are_posted(alloc, &mut disk)? && are_left(alloc, &mut disk)?)
}

#[test]
fn a_box_of_two_halves(rt: HostRuntime) -> Result<(), Fail> {
    assert!(rt; is_kept(rt.alloc())?);
    Ok(())
}

/// The record of the box `b-1` with the packets `hello` and 4,000 times `p`.
fn older_record(alloc: Global) -> Result<Vec<u8>, AllocError> {
    let mut text = Vec::new(alloc);
    text.extend_from_slice(b"\x01\x03b-1\0\0\0\0\0\0\0\x02\x02")?;
    text.extend_from_slice(b"\0\0\0\0\0\0\0\x01\0\x05hello")?;
    text.extend_from_slice(b"\0\0\0\0\0\0\0\x02\x0f\xa0")?;
    add(&mut text, b'p', 4000)?;
    Ok(text)
}

/// Stores the records of the boxes in lower halves: empty ones, and then the packets, one after the
/// other. Answers whether it did.
fn puts_older(alloc: Global, disk: &mut SteadyDisk, text: &[u8]) -> bool {
    let one = b"\x01\x03b-1\0\0\0\0\0\0\0\x01\x01\0\0\0\0\0\0\0\x01\0\x05hello";
    puts_lower(alloc, disk, 0, b"\x01\x01a\0\0\0\0\0\0\0\0\0")
        && puts_lower(alloc, disk, 1, b"\x01\x03b-1\0\0\0\0\0\0\0\0\0")
        && puts_lower(alloc, disk, 1, one)
        && puts_lower(alloc, disk, 1, text)
}

/// Whether a disk of lower halves is as told, opens with what stands there, and stays as it is.
fn is_read(alloc: Global) -> Result<bool, Fail> {
    let sha256 = "ff618f158d7601575f85ec35f5c4ad62d1bee69107deae239839f7c6b7ddf960";
    let mut disk = SteadyDisk::new(alloc, BOXES_SIZE)?;
    let text = older_record(alloc)?;
    if !puts_older(alloc, &mut disk, &text) {
        return Ok(false);
    }
    let bytes = bytes_of(alloc, &mut disk)?;
    let is_older = has_digest(alloc, bytes, sha256)?;
    let is_there = has_box(alloc, &mut disk, 1, &text);
    let bytes = bytes_of(alloc, &mut disk)?;
    Ok(is_older && is_there && has_digest(alloc, bytes, sha256)?)
}

#[test]
fn lower_halves_alone(rt: HostRuntime) -> Result<(), Fail> {
    assert!(rt; is_read(rt.alloc())?);
    Ok(())
}
