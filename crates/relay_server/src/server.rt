//! A server: its boxes, and the room for one connection.

ghost use Rattle.std.specs.Prelude.{◌≡◌, ◌≤◌, length, IfErr, IfOk};
ghost use Rattle.dr_disk.specs.Spans.{Span};
ghost use Rattle.relay_server.specs.Durable.{IsServerReady};
ghost use Rattle.relay_server.specs.Looking.{IsUnsettled, LooksAt, Settles};
ghost use Rattle.relay_server.specs.Opening.{IsServerOpened, IsOpening, IsServerUnopened};
ghost use Rattle.relay_server.specs.Places.{HasRoomFor};
ghost use Rattle.relay_server.specs.FrameByFrame.{IsServedInOrder};
ghost use Rattle.relay_wire.specs.declared.limits.TheConstants.{FRAME_LIMIT};

use crate::durable::DurableBoxes;
use crate::errors::ServerOpenError;
use crate::serving::{Ended, ServeFault};
use dr_disk::{Call, Disk};
use dr_ports::Pipe;
use relay_core::BoxSpec;
use relay_wire::{FRAME_LIMIT, FrameReader};
use std::alloc::{AllocError, Global};
use std::marker::Model;

/// A relay's server, with all the memory that it will ever use. A contract sees its boxes, and a
/// store for each.
#[derive(Drop)]
pub struct Server {
    boxes: DurableBoxes,
    reader: FrameReader,
    out: Vec<u8>,
}

impl Model for Server {
    ghost use Rattle.std.specs.Prelude.{◌≡◌, length};
    ghost use Rattle.relay_wire.specs.declared.limits.TheConstants.{FRAME_LIMIT};
    ghost use Rattle.relay_server.specs.Durable.{ServerNow};

    ghost Value = { ServerNow };

    ghost view = { λ s. s.boxes };

    ghost invariant = { λ s. length s.out.items ≡ FRAME_LIMIT };
}

/// A server that looked at its areas and put nothing yet. A contract sees what it sees of a server.
#[derive(Drop)]
pub struct Looked {
    server: Server,
}

impl Model for Looked {
    ghost use Rattle.relay_server.specs.Durable.{ServerNow};

    ghost Value = { ServerNow };

    ghost view = { λ l. l.server };
}

impl Looked {
    /// Gives each area without a record an empty box's. Then the server is ready.
    pub fn settle<D: Disk>(self, disk: &mut D) -> Result<Server, Call>
        requires { IsUnsettled self (D.state disk.old) }
        ensures { Settles self (λ server. server) (D.state disk.old) (D.state disk.new) result }
    {
        let mut server = self.server;
        match server.boxes.settle(disk) {
            Ok(()) => Ok(server),
            Err(call) => Err(call),
        }
    }
}

/// Room for a frame.
fn frame_room(alloc: Global) -> Result<Vec<u8>, AllocError>
    ensures { IfOk result (λ room. length room.items ≡ FRAME_LIMIT) }
{
    vec![in alloc; 0; FRAME_LIMIT]
}

impl Server {
    /// Looks at the boxes of these specs, 1 to 16 and no two of one name: each lives in the area of
    /// its place, which has a lower and an upper half. The areas are opened in order, and then
    /// their records are loaded. No record is put, and where all areas are read at rest, or as
    /// zeros, no byte is written.
    ///
    /// `Damaged` exactly where an area that was read is damaged. `BoxName` and `BoxKeys` exactly
    /// where none is, and one has a record of another name, or of the name with other keys: the
    /// first one that has either, by what was read. `StoreFault` only where a call on the disk
    /// failed. Memory may be wanting for an area once those before it were opened.
    pub fn look<D: Disk>(
        alloc: Global,
        disk: &mut D,
        specs: &[BoxSpec],
    ) -> Result<Looked, ServerOpenError>
        requires { HasRoomFor specs.now (D.state disk.old) }
        ensures { LooksAt specs.now (D.state disk.old) (D.state disk.new) result }
    {
        let Ok(reader) = FrameReader::new(alloc) else {
            return Err(ServerOpenError::Memory);
        };
        let Ok(out) = frame_room(alloc) else {
            return Err(ServerOpenError::Memory);
        };
        match DurableBoxes::look(alloc, disk, specs) {
            Ok(boxes) => Ok(Looked {
                server: Server { boxes, reader, out },
            }),
            Err(error) => Err(error),
        }
    }

    /// Opens the server of the boxes of these specs: a look, and then a settling. Once all areas
    /// have their boxes, each one without a record gets an empty box's.
    ///
    /// The errors are those of `look`, and `StoreFault` also where a call on the disk failed while
    /// a record was put.
    pub fn open<D: Disk>(
        alloc: Global,
        disk: &mut D,
        specs: &[BoxSpec],
    ) -> Result<Server, ServerOpenError>
        requires { HasRoomFor specs.now (D.state disk.old) }
        ensures opened { IfOk result
            (λ server. IsServerOpened specs.now server (D.state disk.old) (D.state disk.new)) }
        ensures unopened { IfErr result
            (IsServerUnopened specs.now (D.state disk.old) (D.state disk.new)) }
        // Meanwhile, and in each ending.
        ensures any_moment { Span (D.state disk.old) (D.state disk.new)
            (IsOpening specs.now (D.state disk.old)) }
    {
        let looked = match Server::look(alloc, disk, specs) {
            Ok(looked) => looked,
            Err(error) => return Err(error),
        };
        match looked.settle(disk) {
            Ok(server) => Ok(server),
            Err(call) => Err(ServerOpenError::StoreFault { call }),
        }
    }

    /// Serves a connection: answers its frames in order until it ends, until a frame had no lawful
    /// length, or until 65,536 frames were answered. A frame that the end cuts is dropped. It takes
    /// no memory.
    pub fn serve<D: Disk, P: Pipe>(
        &mut self,
        disk: &mut D,
        pipe: &mut P,
    ) -> Result<Ended, ServeFault>
        requires { IsServerReady self.old (D.state disk.old) }
        ensures { IsServedInOrder D.state P.port self.old self.new disk.old disk.new
            pipe.old pipe.new result }
    {
        self.boxes
            .serve(disk, pipe, &mut self.reader, &mut self.out)
    }
}
