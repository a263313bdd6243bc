//! One record after the other in an area.

use crate::building::record_of;
use crate::rows::{Row, rows};
use crate::stores::{SIZE, puts};
use dr_disk::{Disk, SteadyDisk};
use hex::decode;
use sha2::{Digest, Sha256};
use std::alloc::{AllocError, Global};
use std::test::Fail;

/// All bytes of a disk, where they can be read.
pub(crate) fn bytes_of<D: Disk>(
    alloc: Global,
    disk: &mut D,
) -> Result<Option<Vec<u8>>, AllocError> {
    let mut bytes = vec![in alloc; 0; disk.size() as usize]?;
    match disk.read(0, &mut bytes) {
        Ok(()) => Ok(Some(bytes)),
        Err(_) => Ok(None),
    }
}

/// Whether these are bytes with this SHA-256, in hex.
pub(crate) fn has_digest(
    alloc: Global,
    bytes: Option<Vec<u8>>,
    sha256: &str,
) -> Result<bool, Fail> {
    let Some(bytes) = bytes else {
        return Ok(false);
    };
    Ok(Sha256::digest(&bytes).as_slice() == decode(alloc, sha256)?.as_slice())
}

/// The number of the first row after which the disk isn't as told, if there is one.
fn first_wrong(alloc: Global, disk: &mut SteadyDisk, rows: &[Row]) -> Result<Option<usize>, Fail> {
    for at in 0..rows.len() {
        let text = record_of(alloc, &rows[at])?;
        if !puts(alloc, disk, &text) {
            return Ok(Some(at));
        }
        let bytes = bytes_of(alloc, disk)?;
        if !has_digest(alloc, bytes, rows[at].sha256)? {
            return Ok(Some(at));
        }
    }
    Ok(None)
}

// Records that grow and shrink, of one page to the most. Each is stored by a store that is opened
// for it.
#[test]
fn whole_disks(rt: HostRuntime) -> Result<(), Fail> {
    let alloc = rt.alloc();
    let mut disk = SteadyDisk::new(alloc, SIZE)?;
    assert!(rt; first_wrong(alloc, &mut disk, &rows())? == None);
    Ok(())
}
