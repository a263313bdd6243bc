//! An open file that is this program's own: no standard stream has its descriptor.

ghost use Rattle.std.specs.Prelude.{◌≤◌, ◌↔◌, length, IsOk, IfOk};
ghost use Rattle.std.specs.Fd.{file_raw_fd};
ghost use Rattle.dr_base.specs.Descriptors.{IsOwn};
ghost use Rattle.file_disk.specs.Limits.{HasLimits};

use crate::opening::Sharing;
use std::fs::{File, Metadata, Permissions};
use std::io;
use std::io::{Error, ErrorKind};
use std::os::fd::AsRawFd;
use std::os::unix::fs::{FileExt, PermissionsExt};

/// The least descriptor that no standard stream has.
const FIRST_OWN: i32 = 3;

/// How many bytes are filled with zeros at once.
const PIECE: u64 = 65_536;

/// How often a read that a signal interrupts is tried.
const TRIES: u32 = 1_000;

/// An open file with a descriptor that is none of standard input, output and errors. A program that
/// was started with one of these closed is given its number for the next file that it opens, and
/// what it prints would go over that file.
#[derive(Drop)]
pub(crate) struct OwnFile {
    file: File,
    ghost own: { IsOwn (file_raw_fd file) },
}

impl OwnFile {
    /// Takes a file, or closes it and fails where a standard stream has its descriptor.
    pub(crate) fn new(file: File) -> io::Result<Self>
        ensures { IsOk result ↔ IsOwn (file_raw_fd file) }
    {
        if file.as_raw_fd() < FIRST_OWN {
            return Err(Error::from(ErrorKind::Unsupported));
        }
        Ok(OwnFile { file })
    }

    /// Locks the file: it waits for another program that has it, or fails.
    pub(crate) fn lock(&self, sharing: Sharing) -> io::Result<()> {
        match sharing {
            Sharing::InTurn => self.file.lock(),
            Sharing::Alone => Ok(self.file.try_lock()?),
        }
    }

    /// What the system says of the file.
    pub(crate) fn metadata(&self) -> io::Result<Metadata> {
        self.file.metadata()
    }

    /// Has its owner alone read and write the file.
    pub(crate) fn make_private(&self) -> io::Result<()> {
        self.file.set_permissions(Permissions::from_mode(0o600))
    }

    /// Reads some bytes, none only at the file's end. A read that a signal interrupts is tried
    /// again.
    fn read_some(&self, at: u64, into: &mut [u8]) -> io::Result<usize>
        ensures { IfOk result (λ count. count ≤ length into.new) }
    {
        for _ in 0..TRIES {
            match self.file.read_at(into, at) {
                Err(e) if e.kind() == ErrorKind::Interrupted => {}
                ended => return ended,
            }
        }
        Err(Error::from(ErrorKind::Interrupted))
    }

    /// Fills `into`, with zeros after the file's end.
    pub(crate) fn read(&self, at: u64, into: &mut [u8]) -> io::Result<()> {
        let mut done = 0;
        'pieces: while done < into.len() {
            match self.read_some(at.wrapping_add(done as u64), &mut into[done..])? {
                0 => {
                    into[done..].fill(0);
                    return Ok(());
                }
                n => done += n,
            }
        }
        Ok(())
    }

    /// Writes over the bytes from a place on.
    pub(crate) fn write(&self, at: u64, bytes: &[u8]) -> io::Result<()> {
        self.file.write_all_at(bytes, at)
    }

    /// Writes zeros from the file's end up to `length`.
    // Not inlined, so that its zeros are made where they are written alone.
    #[inline(never)]
    fn lengthen(&self, end: u64, length: u64) -> io::Result<()> {
        let zeros = [0; PIECE as usize];
        let mut end = end;
        'pieces: while end < length {
            let count = (length - end).min(PIECE);
            self.file.write_all_at(&zeros[..count as usize], end)?;
            end += count;
        }
        Ok(())
    }

    /// Gives the file `length` bytes, if it has fewer, by writing zeros. So the system has room for
    /// all of them.
    pub(crate) fn fill(&self, length: u64) -> io::Result<()> {
        let end = self.file.metadata()?.len();
        if end < length {
            return self.lengthen(end, length);
        }
        Ok(())
    }

    /// Writes each byte of the file anew, as it is read, and syncs them.
    pub(crate) fn write_back(&self) -> io::Result<()> {
        let mut piece = [0; PIECE as usize];
        let end = self.file.metadata()?.len();
        let mut at = 0;
        'pieces: while at < end {
            let count = (end - at).min(PIECE);
            self.read(at, &mut piece[..count as usize])?;
            self.write(at, &piece[..count as usize])?;
            at += count;
        }
        self.sync()
    }

    /// Syncs the bytes, and what the system needs to find them.
    pub(crate) fn sync_bytes(&self) -> io::Result<()> {
        self.file.sync_data()
    }

    /// Syncs the bytes, and all that the system says of the file.
    pub(crate) fn sync(&self) -> io::Result<()> {
        self.file.sync_all()
    }
}

/// The limits of this crate as numbers. The function has no code.
pub fn limits_in_numbers()
    ensures { HasLimits }
{}
