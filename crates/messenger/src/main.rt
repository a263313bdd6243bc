//! The messenger: its arguments, files for the session, for a relay's boxes and for a book, standard
//! input and output, TCP, and the system's random source, handed to the top call.
#![tactic(auto)]

use dr_ports::{RandomDraws, ReaderSource, WriterSink};
use file_disk::{FileDisk, Sharing};
use messenger_cli::{
    BOOK_SIZE, BOOK_START, DISK_SIZE, Ports, RELAY_DISK_SIZE, ROW_SIZE, run_arguments,
};
use rand::rngs::SysRng;
use standard::take_closed;
use std::env;
use std::process::ExitCode;
use tcp_ports::{TcpDoor, TcpLink};

mod standard;

fn main(rt: HostRuntime) -> ExitCode {
    let _placeholders = take_closed(&rt);
    // A session's file has its whole size from its first write on, a relay's from its opening on,
    // and a book's that of its rows up to the last one that was written to.
    let disk = FileDisk::new(
        &rt,
        "messenger.state",
        DISK_SIZE,
        DISK_SIZE,
        Sharing::InTurn,
    )
    .with_mark("messenger.state.unsynced");
    let boxes = FileDisk::new(
        &rt,
        "relay.state",
        RELAY_DISK_SIZE,
        RELAY_DISK_SIZE,
        Sharing::Alone,
    )
    .with_mark("relay.state.unsynced")
    .whole_at_opening();
    let book = FileDisk::new(&rt, "book.state", BOOK_SIZE, ROW_SIZE, Sharing::InTurn)
        .with_head(BOOK_START)
        .with_mark("book.state.unsynced");
    let mut ports = Ports {
        disk,
        relay_disk: boxes,
        book,
        source: ReaderSource::new(rt.stdin()),
        sink: WriterSink::new(rt.stdout()),
        link: TcpLink::new(&rt),
        door: TcpDoor::new(&rt),
        draws: RandomDraws::new(SysRng::new(&rt)),
    };
    let status = run_arguments(rt.alloc(), env::args(&rt), &mut ports);
    ExitCode::from(status.code)
}
