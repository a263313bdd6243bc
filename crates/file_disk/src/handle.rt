//! A file that is opened and locked when it is first needed.

use crate::marks;
use crate::opening::{Found, Sharing, find, make};
use crate::own_file::OwnFile;
use std::fs::File;
use std::io;
use std::io::{Error, ErrorKind};
use std::rt::Files;

/// How far what this disk wrote is synced.
#[derive(Clone, Copy, Drop)]
enum Written {
    /// It wrote nothing yet.
    Nothing,
    /// It wrote, and the next sync reaches the folder too. It needn't have made the file: a program
    /// that made it may have ended before it synced.
    Unsynced,
    /// It synced the folder since.
    Synced,
    /// A sync failed, so the system may have forgotten what it couldn't write. The next sync writes
    /// each byte anew.
    Lost,
}

/// How far the file was opened.
#[derive(Drop)]
enum Stage {
    /// No call was made yet.
    Unopened,
    /// There is no file.
    Missing { turn: Option<OwnFile> },
    /// The file stands and is locked.
    Open { file: OwnFile, written: Written },
}

/// A file that is opened when it is first needed.
#[derive(Drop)]
pub(crate) struct Handle<'a, R: Files<File = File>> {
    files: &'a R,
    path: &'a str,
    sharing: Sharing,
    mark: Option<&'a str>,
    whole: u64,
    /// The length that the file was given by this disk, or has at least.
    room: u64,
    stage: Stage,
}

/// Syncs a file, by how far what was written is synced.
fn sync_written<R: Files<File = File>>(
    files: &R,
    path: &str,
    mark: Option<&str>,
    file: &OwnFile,
    written: Written,
) -> io::Result<Written> {
    match written {
        Written::Nothing | Written::Synced => {
            file.sync_bytes()?;
            return Ok(written);
        }
        Written::Unsynced => file.sync()?,
        Written::Lost => marks::make_good(files, file, mark)?,
    }
    marks::sync_folder(files, path)?;
    Ok(Written::Synced)
}

impl<'a, R: Files<File = File>> Handle<'a, R> {
    /// The file at `path`. No call is made.
    pub(crate) fn new(files: &'a R, path: &'a str, sharing: Sharing) -> Self {
        Handle {
            files,
            path,
            sharing,
            mark: None,
            whole: 0,
            room: 0,
            stage: Stage::Unopened,
        }
    }

    /// Has this mark stand beside the file from a sync that fails to one that makes it good.
    pub(crate) fn set_mark(&mut self, mark: &'a str) {
        self.mark = Some(mark);
    }

    /// Gives a file that is found this length at once, if it has less.
    pub(crate) fn set_whole(&mut self, length: u64) {
        self.whole = length;
    }

    /// What a file that was found begins with: a mark made good, and its whole length.
    fn settle(&self, file: OwnFile) -> io::Result<Stage> {
        marks::look_for(self.files, &file, self.mark)?;
        let mut written = Written::Nothing;
        if file.metadata()?.len() < self.whole {
            file.fill(self.whole)?;
            written = Written::Unsynced;
        }
        Ok(Stage::Open { file, written })
    }

    /// Looks for the file, unless that was done.
    fn look(&mut self) -> io::Result<()> {
        if let Stage::Unopened = self.stage {
            self.stage = match find(self.files, self.path, self.sharing)? {
                Found::File(file) => self.settle(file)?,
                Found::Nothing { turn } => Stage::Missing { turn },
            };
        }
        Ok(())
    }

    /// Fills `into`, with zeros where there is no file or no more of it.
    pub(crate) fn read(&mut self, at: u64, into: &mut [u8]) -> io::Result<()> {
        self.look()?;
        match &self.stage {
            Stage::Open { file, written: _ } => file.read(at, into),
            _ => {
                into.fill(0);
                Ok(())
            }
        }
    }

    /// How many bytes the file has, none where there is no file.
    pub(crate) fn len(&mut self) -> io::Result<u64> {
        self.look()?;
        match &self.stage {
            Stage::Open { file, written: _ } => Ok(file.metadata()?.len()),
            _ => Ok(0),
        }
    }

    /// Writes over the bytes from a place on. A file that has fewer bytes than `length` is given
    /// these first, which is looked for once: nobody else makes the file shorter. Where there is no
    /// file it is made. A file that was made and couldn't be given its bytes is removed again.
    pub(crate) fn write(&mut self, at: u64, bytes: &[u8], length: u64) -> io::Result<()> {
        self.look()?;
        if let Stage::Missing { turn: _ } = self.stage {
            let file = make(self.files, self.path, length, self.sharing)?;
            let written = Written::Unsynced;
            // With the file's lock the folder's is let go.
            self.stage = Stage::Open { file, written };
        }
        match &mut self.stage {
            Stage::Open { file, written } => {
                if let Written::Nothing = written {
                    *written = Written::Unsynced;
                }
                if self.room < length {
                    file.fill(length)?;
                    self.room = length;
                }
                file.write(at, bytes)
            }
            _ => Err(Error::from(ErrorKind::NotFound)),
        }
    }

    /// Syncs the file, and its folder at the first sync after a write. Where that fails it leaves
    /// the mark.
    pub(crate) fn sync(&mut self) -> io::Result<()> {
        self.look()?;
        match &mut self.stage {
            Stage::Open { file, written } => {
                match sync_written(self.files, self.path, self.mark, file, *written) {
                    Ok(now) => {
                        *written = now;
                        Ok(())
                    }
                    Err(e) => {
                        *written = Written::Lost;
                        marks::leave(self.files, self.mark);
                        Err(e)
                    }
                }
            }
            _ => Ok(()),
        }
    }
}
