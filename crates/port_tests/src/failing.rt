//! The disk over a file with a fault, which it hands on; and what it makes of the folder, and of a
//! file without room.

use crate::files::{is_absent, is_written, makes_folder, removes_folder};
use crate::watched::Watched;
use dr_disk::{Disk, write_synced};
use file_disk::{FileDisk, Sharing};

/// Which of a read, a write, a sync, a read and a sync pass on a disk of four bytes.
fn passes<D: Disk>(disk: &mut D) -> [bool; 5] {
    if disk.size() != 4 {
        return [true; 5];
    }
    let reads = disk.read(0, &mut [0; 4]).is_ok();
    let writes = disk.write_at(0, &[1]).is_ok();
    let syncs = disk.sync().is_ok();
    let reads_again = disk.size() == 4 && disk.read(0, &mut [0; 4]).is_ok();
    [reads, writes, syncs, reads_again, disk.sync().is_ok()]
}

/// Whether just these pass on a disk of four bytes over the file at a path.
fn hands_on(rt: &HostRuntime, path: &str, passing: [bool; 5]) -> bool {
    let mut disk = FileDisk::new(rt, path, 4, 0, Sharing::InTurn);
    passes(&mut disk) == passing
}

// /dev/null can't be synced, /dev/full neither that nor be written to, and of one's own memory the
// first page not be read either. Where there is no folder there is no file, which reads as zeros
// and has nothing to sync.
#[test]
fn hands_errors_on(rt: HostRuntime) {
    let rows = [
        ("/dev/null", [true, true, false, true, false]),
        ("/dev/full", [true, false, false, true, false]),
        ("/proc/self/mem", [false; 5]),
        ("no/folder", [true, false, true, true, true]),
    ];
    for (path, passing) in rows {
        assert!(rt; hands_on(&rt, path, passing));
    }
}

/// Whether a write is synced, after which so many folders were opened in all.
fn syncs<D: Disk>(disk: &mut D, files: &Watched<'_>, folders: u32) -> bool {
    disk.size() == 4 && write_synced(disk, 0, &[1]).is_ok() && files.folders() == folders
}

/// Whether the folder is synced with the first write alone.
fn sync_once<D: Disk>(disk: &mut D, files: &Watched<'_>) -> bool {
    disk.sync() == Ok(()) && files.folders() == 0 && syncs(disk, files, 1) && syncs(disk, files, 1)
}

/// Whether a write alone fails, after which one file was made, and none is there.
fn make_none<D: Disk>(rt: &HostRuntime, disk: &mut D, files: &Watched<'_>) -> bool {
    passes(disk) == [true, false, true, true, true] && files.made() == 1 && is_absent(rt, "unmade")
}

/// Whether a disk that is watched makes no file where there is no room, and otherwise syncs the
/// folder once.
fn is_watched<D: Disk>(rt: &HostRuntime, disk: &mut D, files: &Watched<'_>, is_full: bool) -> bool {
    if is_full {
        make_none(rt, disk, files)
    } else {
        sync_once(disk, files)
    }
}

/// Whether that is so of one over the file at a path. If there is said to be no room, what is made
/// can't be written to.
fn watch(rt: &HostRuntime, path: &str, is_full: bool) -> bool {
    let files = Watched::new(rt, is_full);
    let mut disk = FileDisk::new(&files, path, 4, 0, Sharing::InTurn);
    is_watched(rt, &mut disk, &files, is_full)
}

// Another program made the file and ended before it synced it.
#[test]
fn syncs_the_folder_once(rt: HostRuntime) {
    assert!(rt; makes_folder(&rt, "folder"));
    assert!(rt; is_written(&rt, "folder/state", b"old"));
    assert!(rt; watch(&rt, "folder/state", false));
    assert!(rt; removes_folder(&rt, "folder"));
}

// Whatever is made here can't be written to, as on a full disk.
#[test]
fn leaves_no_file_without_room(rt: HostRuntime) {
    assert!(rt; watch(&rt, "unmade", true));
}
