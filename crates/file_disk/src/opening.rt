//! How a file is found or made, and locked. Those who take turns make it one after the other: whoever
//! finds none has the lock of its folder until it has made it.

use crate::marks::folder_of;
use crate::own_file::OwnFile;
use std::fs::{File, OpenOptions};
use std::io::{Error, ErrorKind};
use std::os::unix::fs::{MetadataExt, OpenOptionsExt};
use std::rt::Files;
use std::{fs, io};

/// What a disk does where another program has the file open.
#[derive(Clone, Copy)]
pub enum Sharing {
    /// It waits until the other has ended. A file that it may not write to can still be read.
    InTurn,
    /// Its calls fail.
    Alone,
}

/// What is found at a path.
#[derive(Drop)]
pub(crate) enum Found {
    /// A file, which is locked.
    File(OwnFile),
    /// None. Whoever takes turns has the folder's lock, if the folder can be opened, so that nobody
    /// else makes the file meanwhile.
    Nothing { turn: Option<OwnFile> },
}

/// Opens the file of a path, if there is one; only to be read, where a program that takes turns may
/// not write to it.
fn open<R: Files<File = File>>(
    files: &R,
    path: &str,
    sharing: Sharing,
) -> io::Result<Option<File>> {
    match OpenOptions::new().read(true).write(true).open(files, path) {
        Ok(file) => Ok(Some(file)),
        Err(e) => match (e.kind(), sharing) {
            (ErrorKind::NotFound, _) => Ok(None),
            (ErrorKind::PermissionDenied | ErrorKind::ReadOnlyFilesystem, Sharing::InTurn) => {
                Ok(Some(File::open(files, path)?))
            }
            _ => Err(e),
        },
    }
}

/// Whether this path names the file. While it waited for the lock, another program may have removed
/// it.
fn is_named<R: Files>(files: &R, path: &str, file: &OwnFile) -> io::Result<bool> {
    let named = fs::metadata(files, path)?;
    let opened = file.metadata()?;
    Ok(named.dev() == opened.dev() && named.ino() == opened.ino())
}

/// The file of this path, once it is locked.
fn locked<R: Files>(files: &R, path: &str, file: File, sharing: Sharing) -> io::Result<OwnFile> {
    let file = OwnFile::new(file)?;
    file.lock(sharing)?;
    if !is_named(files, path, &file)? {
        return Err(Error::from(ErrorKind::NotFound));
    }
    Ok(file)
}

/// The file of a path, locked, if there is one.
fn look<R: Files<File = File>>(
    files: &R,
    path: &str,
    sharing: Sharing,
) -> io::Result<Option<OwnFile>> {
    match open(files, path, sharing)? {
        Some(file) => Ok(Some(locked(files, path, file, sharing)?)),
        None => Ok(None),
    }
}

/// The folder of a file, locked once those who came before have let it go, if it can be opened.
fn take_turn<R: Files<File = File>>(files: &R, path: &str) -> io::Result<Option<OwnFile>> {
    let Ok(folder) = File::open(files, folder_of(path)) else {
        return Ok(None);
    };
    let Ok(folder) = OwnFile::new(folder) else {
        return Ok(None);
    };
    folder.lock(Sharing::InTurn)?;
    Ok(Some(folder))
}

/// Whether a file has bytes. One without any may be just being made.
fn is_made(file: &Option<OwnFile>) -> io::Result<bool> {
    match file {
        Some(file) => Ok(file.metadata()?.len() > 0),
        None => Ok(false),
    }
}

/// Looks for the file of a path. Where it isn't made yet, a program that takes turns looks again
/// once it has the folder's lock.
pub(crate) fn find<R: Files<File = File>>(
    files: &R,
    path: &str,
    sharing: Sharing,
) -> io::Result<Found> {
    let first = look(files, path, sharing)?;
    let (found, turn) = match sharing {
        Sharing::InTurn if !is_made(&first)? => {
            // An empty file is let go before, since who makes it waits for its lock.
            drop(first);
            let turn = take_turn(files, path)?;
            (look(files, path, sharing)?, turn)
        }
        _ => (first, None),
    };
    match found {
        Some(file) => Ok(Found::File(file)),
        None => Ok(Found::Nothing { turn }),
    }
}

/// Locks a new file, which nobody may have written to meanwhile.
fn claim(file: &OwnFile, sharing: Sharing) -> io::Result<()> {
    file.lock(sharing)?;
    if file.metadata()?.len() != 0 {
        return Err(Error::from(ErrorKind::AlreadyExists));
    }
    Ok(())
}

/// Gives a new file its mode and its length.
fn furnish(file: &OwnFile, length: u64) -> io::Result<()> {
    file.make_private()?;
    file.fill(length)
}

/// Makes the file, with this length, or leaves none. It must not have come meanwhile.
pub(crate) fn make<R: Files<File = File>>(
    files: &R,
    path: &str,
    length: u64,
    sharing: Sharing,
) -> io::Result<OwnFile> {
    let file = OpenOptions::new()
        .read(true)
        .write(true)
        .create_new(true)
        .mode(0o600)
        .open(files, path)?;
    let file = OwnFile::new(file)?;
    claim(&file, sharing)?;
    // While it is locked nobody else has it, so it may be removed again.
    if let Err(e) = furnish(&file, length) {
        fs::remove_file(files, path)?;
        return Err(e);
    }
    Ok(file)
}
