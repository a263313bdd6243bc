//! The answer of a call under a name, or how the command ends without it.

ghost use Rattle.std.specs.Prelude.{◌≡◌};
ghost use Rattle.client.specs.Outcomes.{dropped_as, said_as, taken_as};
ghost use Rattle.book_commands.specs.Calling.{worked_under};
ghost use Rattle.book_commands.specs.Forgetting.{forgotten_under};

use book::{BookRefusal, ForgetError};
use client::{DropRefusal, SayRefusal, TakeRefusal};
use command_lines::{dropped, said, taken};
use dr_base::Position;
use endings::Ending;
use session_model::Answer;

/// The answer to a text, or how the command ends.
pub(crate) fn said_under(acted: Result<Position, BookRefusal<SayRefusal>>) -> Result<Answer, Ending>
    ensures { result ≡ worked_under said_as acted }
{
    match acted {
        Ok(position) => said(Ok(position)),
        Err(BookRefusal::Of(refusal)) => said(Err(refusal)),
        Err(BookRefusal::NoName) => Err(Ending::NoName),
        Err(BookRefusal::Closed { .. }) => Err(Ending::DiskFault),
    }
}

/// The answer to a packet.
pub(crate) fn taken_under(
    acted: Result<Position, BookRefusal<TakeRefusal>>,
) -> Result<Answer, Ending>
    ensures { result ≡ worked_under taken_as acted }
{
    match acted {
        Ok(position) => taken(Ok(position)),
        Err(BookRefusal::Of(refusal)) => taken(Err(refusal)),
        Err(BookRefusal::NoName) => Err(Ending::NoName),
        Err(BookRefusal::Closed { .. }) => Err(Ending::DiskFault),
    }
}

/// The answer where items are dropped from a box.
pub(crate) fn dropped_under(
    answer: Answer,
    acted: Result<(), BookRefusal<DropRefusal>>,
) -> Result<Answer, Ending>
    ensures { result ≡ worked_under (dropped_as answer) acted }
{
    match acted {
        Ok(()) => dropped(answer, Ok(())),
        Err(BookRefusal::Of(refusal)) => dropped(answer, Err(refusal)),
        Err(BookRefusal::NoName) => Err(Ending::NoName),
        Err(BookRefusal::Closed { .. }) => Err(Ending::DiskFault),
    }
}

/// Where a session is forgotten.
pub(crate) fn forgotten_under(acted: Result<(), ForgetError>) -> Result<(), Ending>
    ensures { result ≡ forgotten_under acted }
{
    match acted {
        Ok(()) => Ok(()),
        Err(ForgetError::Closed { .. }) => Err(Ending::DiskFault),
        Err(ForgetError::NoName) => Err(Ending::NoName),
        Err(ForgetError::StoreFault { .. }) => Err(Ending::DiskFault),
    }
}
