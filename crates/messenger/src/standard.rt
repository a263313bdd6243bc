//! The descriptors of standard input, output and errors, where the program was started without
//! them.

use std::fs::{File, OpenOptions};
use std::os::fd::AsRawFd;
use std::rt::Files;

/// How many standard streams there are. They have the descriptors below this number.
const STREAMS: i32 = 3;

/// What stands at the descriptors of standard streams that were closed.
#[derive(Drop)]
pub struct Placeholders {
    input: Option<File>,
    others: [Option<File>; 2],
}

/// Opens `/dev/null`, if it is given a descriptor below this one. Without `/dev/null` the
/// descriptor stays free, and disks, links and doors refuse it.
fn placed<R: Files<File = File>>(files: &R, how: &OpenOptions, below: i32) -> Option<File> {
    match how.open(files, "/dev/null") {
        Ok(file) if file.as_raw_fd() < below => Some(file),
        _ => None,
    }
}

/// Takes the descriptors of the standard streams that are closed, for as long as the answer is
/// kept. So no file and no connection is given one of them: what is printed doesn't go there, and
/// what stands there isn't read as input. A call on a closed stream still fails: the placeholder of
/// standard input can only be written to, those of the others only be read.
pub fn take_closed<R: Files<File = File>>(files: &R) -> Placeholders {
    let mut written = OpenOptions::new();
    written.write(true);
    let mut read = OpenOptions::new();
    read.read(true);
    Placeholders {
        input: placed(files, &written, 1),
        others: [placed(files, &read, STREAMS), placed(files, &read, STREAMS)],
    }
}
