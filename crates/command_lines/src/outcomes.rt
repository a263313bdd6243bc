//! The answer of an act, or how the command ends without it.

ghost use Rattle.std.specs.Prelude.{◌≡◌};
ghost use Rattle.client.specs.Outcomes.{dropped_as, said_as, taken_as};
ghost use Rattle.command_lines.specs.Closing.{worked_as, worked_by};

use client::{DropRefusal, SayRefusal, TakeRefusal};
use dr_base::Position;
use endings::Ending;
use session_model::{Answer, Refusal};

/// The answer to a text, or how the command ends.
pub fn said(acted: Result<Position, SayRefusal>) -> Result<Answer, Ending>
    ensures { result ≡ worked_as (said_as acted) }
{
    match acted {
        Ok(position) => Ok(Answer::Said(position)),
        Err(SayRefusal::Closed { .. }) => Err(Ending::DiskFault),
        Err(SayRefusal::Refused(refusal)) => Err(Ending::Refused(refusal)),
        Err(SayRefusal::DrawFault) => Err(Ending::DrawFault),
        Err(SayRefusal::NoPair { .. }) => Err(Ending::Refused(Refusal::NoPair)),
        Err(SayRefusal::StoreFault { .. }) => Err(Ending::DiskFault),
    }
}

/// Where a part of a long text was said, or how the command ends.
pub fn said_at(acted: Result<Position, SayRefusal>) -> Result<Position, Ending>
    ensures { worked_by result ≡ worked_as (said_as acted) }
{
    match acted {
        Ok(position) => Ok(position),
        Err(SayRefusal::Closed { .. }) => Err(Ending::DiskFault),
        Err(SayRefusal::Refused(refusal)) => Err(Ending::Refused(refusal)),
        Err(SayRefusal::DrawFault) => Err(Ending::DrawFault),
        Err(SayRefusal::NoPair { .. }) => Err(Ending::Refused(Refusal::NoPair)),
        Err(SayRefusal::StoreFault { .. }) => Err(Ending::DiskFault),
    }
}

/// The answer to a packet.
pub fn taken(acted: Result<Position, TakeRefusal>) -> Result<Answer, Ending>
    ensures { result ≡ worked_as (taken_as acted) }
{
    match acted {
        Ok(position) => Ok(Answer::Opened(position)),
        Err(TakeRefusal::Closed { .. }) => Err(Ending::DiskFault),
        Err(TakeRefusal::Refused(refusal)) => Err(Ending::Refused(refusal)),
        Err(TakeRefusal::StoreFault { .. }) => Err(Ending::DiskFault),
    }
}

/// The answer where items are dropped from a box.
pub fn dropped(answer: Answer, acted: Result<(), DropRefusal>) -> Result<Answer, Ending>
    ensures { result ≡ worked_as (dropped_as answer acted) }
{
    match acted {
        Ok(()) => Ok(answer),
        Err(DropRefusal::Closed { .. }) => Err(Ending::DiskFault),
        Err(DropRefusal::Refused(refusal)) => Err(Ending::Refused(refusal)),
        Err(DropRefusal::StoreFault { .. }) => Err(Ending::DiskFault),
    }
}
