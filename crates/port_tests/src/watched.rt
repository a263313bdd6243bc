//! The files of the system, as a test watches them, and with files that can't be written to if it
//! wishes.

use std::alloc::Allocator;
use std::cell::Cell;
use std::fs::{File, Metadata, OpenOptions};
use std::io;
use std::rt::Files;

/// The system's files. It counts the files that were made, and those that were opened to be read
/// alone, as folders are.
#[derive(Drop)]
pub struct Watched<'a> {
    rt: &'a HostRuntime,
    is_full: bool,
    made: Cell<u32>,
    folders: Cell<u32>,
}

impl<'a> Watched<'a> {
    /// The system's files. If the disk is said to be full, a file that is made can't be written to.
    pub fn new(rt: &'a HostRuntime, is_full: bool) -> Self {
        Watched {
            rt,
            is_full,
            made: Cell::new(0),
            folders: Cell::new(0),
        }
    }

    /// How many files were made.
    pub fn made(&self) -> u32 {
        self.made.get()
    }

    /// How many files were opened to be read alone.
    pub fn folders(&self) -> u32 {
        self.folders.get()
    }
}

impl Files for Watched<'_> {
    type File = File;

    type Dir = <HostRuntime as Files>::Dir;

    fn open_file(&self, how: &OpenOptions, path: &str) -> io::Result<File> {
        if !how.asks_write() {
            self.folders.set(self.folders.get().saturating_add(1));
        }
        let file = self.rt.open_file(how, path)?;
        if how.asks_create_new() {
            self.made.set(self.made.get().saturating_add(1));
            if self.is_full {
                return File::open(self.rt, path);
            }
        }
        Ok(file)
    }

    fn open_dir(&self, path: &str) -> io::Result<Self::Dir> {
        self.rt.open_dir(path)
    }

    fn metadata(&self, path: &str) -> io::Result<Metadata> {
        self.rt.metadata(path)
    }

    fn symlink_metadata(&self, path: &str) -> io::Result<Metadata> {
        self.rt.symlink_metadata(path)
    }

    fn copy(&self, from: &str, to: &str) -> io::Result<u64> {
        self.rt.copy(from, to)
    }

    fn rename(&self, from: &str, to: &str) -> io::Result<()> {
        self.rt.rename(from, to)
    }

    fn remove_file(&self, path: &str) -> io::Result<()> {
        self.rt.remove_file(path)
    }

    fn create_dir(&self, path: &str) -> io::Result<()> {
        self.rt.create_dir(path)
    }

    fn remove_dir(&self, path: &str) -> io::Result<()> {
        self.rt.remove_dir(path)
    }

    fn remove_dir_all<B: Allocator>(&self, alloc: B, path: &str) -> io::Result<()> {
        self.rt.remove_dir_all(alloc, path)
    }
}
