//! What a disk leaves behind where a sync fails, and what the next one makes of it.
//!
//! A system may forget that it couldn't write: the next sync then answers well, and reads give what
//! stands in memory alone. So a disk whose sync fails leaves a mark beside its file, and whoever
//! finds the mark writes each byte of the file anew before it reads one.

use crate::own_file::OwnFile;
use std::fs::{File, OpenOptions};
use std::os::unix::fs::OpenOptionsExt;
use std::path::Path;
use std::rt::Files;
use std::{fs, io};

/// The folder that the file of a path stands in.
pub(crate) fn folder_of(path: &str) -> &str {
    match Path::new(path).parent() {
        Some(parent) if !parent.as_str().is_empty() => parent.as_str(),
        _ => ".",
    }
}

/// Syncs the folder that a file stands in.
pub(crate) fn sync_folder<R: Files<File = File>>(files: &R, path: &str) -> io::Result<()> {
    File::open(files, folder_of(path))?.sync_all()
}

/// Makes the file of a mark, and syncs it with its folder.
fn make_mark<R: Files<File = File>>(files: &R, mark: &str) -> io::Result<()> {
    let file = OpenOptions::new()
        .write(true)
        .create(true)
        .mode(0o600)
        .open(files, mark)?;
    OwnFile::new(file)?.sync()?;
    sync_folder(files, mark)
}

/// Leaves a mark, as far as the system lets it.
pub(crate) fn leave<R: Files<File = File>>(files: &R, mark: Option<&str>) {
    if let Some(mark) = mark {
        let _made = make_mark(files, mark);
    }
}

/// Writes each byte of a file anew and syncs it, and takes its mark away, if there is one.
pub(crate) fn make_good<R: Files<File = File>>(
    files: &R,
    file: &OwnFile,
    mark: Option<&str>,
) -> io::Result<()> {
    file.write_back()?;
    match mark {
        Some(mark) if fs::exists(files, mark)? => {
            fs::remove_file(files, mark)?;
            sync_folder(files, mark)
        }
        _ => Ok(()),
    }
}

/// Makes good what an earlier program left marked.
pub(crate) fn look_for<R: Files<File = File>>(
    files: &R,
    file: &OwnFile,
    mark: Option<&str>,
) -> io::Result<()> {
    match mark {
        Some(path) if fs::exists(files, path)? => make_good(files, file, mark),
        _ => Ok(()),
    }
}
