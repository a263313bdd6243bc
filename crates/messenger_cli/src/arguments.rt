//! The call for `main`: the program on its arguments.

ghost use Rattle.std.specs.Prelude.{◌≡◌, IfOk};
ghost use Rattle.messenger_cli.specs.Arguments.{HasWords, ending_without_words, words_of};
ghost use Rattle.messenger_cli.specs.Counts.{HaveRoom, IsRun};
ghost use Rattle.messenger_cli.specs.Held.{ports_seen};
ghost use Rattle.messenger_cli.specs.Performing.{RunsArguments};

use crate::ports::Ports;
use crate::program::run;
use dr_disk::Disk;
use dr_ports::{Door, Draws, Link, Sink, Source};
use endings::{Ending, Status, finish};
use std::alloc::{AllocError, Global};
use std::env::Args;
use std::io;
use std::io::ErrorKind;

/// The words after the program's name.
fn words_behind(alloc: Global, mut arguments: Args) -> Result<Vec<String>, AllocError>
    ensures { IfOk result (λ words. words.items ≡ words_of arguments) }
{
    let _name = arguments.next();
    arguments.collect(alloc)
}

/// How the program ends where its arguments couldn't be read.
fn ending_without(error: &io::Error) -> Ending
    ensures { result ≡ ending_without_words error.now }
{
    match error.kind() {
        ErrorKind::OutOfMemory => Ending::NoMemory,
        _ => Ending::Usage,
    }
}

/// The words, or how the program ends without them.
fn words(alloc: Global, arguments: io::Result<Args>) -> Result<Vec<String>, Ending>
    ensures { HasWords arguments result }
{
    match arguments {
        Ok(given) => words_behind(alloc, given).map_err(|_| Ending::NoMemory),
        Err(error) => Err(ending_without(&error)),
    }
}

/// Runs the program on its arguments, as the system gave them: the first is the program's name, the
/// others are the words. Where one of them isn't text, the system gives an error in their place.
pub fn run_arguments<D: Disk, R: Disk, B: Disk, S: Source, O: Sink, L: Link, A: Door, W: Draws>(
    alloc: Global,
    arguments: io::Result<Args>,
    ports: &mut Ports<D, R, B, S, O, L, A, W>,
) -> Status
    requires { HaveRoom (D.state ports.old.disk) (R.state ports.old.relay_disk)
        (B.state ports.old.book) }
    ensures { IsRun (RunsArguments arguments)
        (ports_seen D.state R.state B.state S.at O.at L.port A.port W.at)
        ports.old ports.new result.code }
{
    match words(alloc, arguments) {
        Ok(words) => run(alloc, words.as_slice(), ports),
        Err(ending) => finish(&mut ports.sink, ending),
    }
}
