//! The application as clap knows it: one level of subcommands, each with values.

ghost use Rattle.std.specs.Prelude.{◌≡◌, map, IfOk};
ghost use Rattle.clap.specs.Simple.{App, app_of, with_rule};
ghost use Rattle.clap.specs.Walk.{texts};
ghost use Rattle.command_words.specs.Application.{IsLocal, Makes, Joins, application, each_value, empty_application, shape_named};
ghost use Rattle.command_words.specs.Commands.{Row, rows};

use clap::{Arg, ArgAction, Command};
use std::alloc::{AllocError, Global};

/// The names of the commands, in the order of their rows.
fn names() -> [&'static str; 30]
    ensures { texts result ≡ map (λ (row : Row). row.name) rows }
{
    [
        "begin",
        "say",
        "take",
        "inbox",
        "done",
        "sent",
        "outbox",
        "state",
        "awaiting",
        "relay-keys",
        "long",
        "done-long",
        "say-long",
        "check",
        "sync",
        "relay",
        "duet",
        "duet-make",
        "duet-fan",
        "fan",
        "book-list",
        "book-forget",
        "book-begin",
        "book-say",
        "book-take",
        "book-inbox",
        "book-done",
        "book-sent",
        "book-outbox",
        "book-state",
    ]
}

/// A command with values, however many, where memory sufficed so far.
fn with_values<'a>(
    alloc: Global,
    command: Result<Command<'a>, AllocError>,
    id: &'a str,
) -> Result<Command<'a>, AllocError>
    requires { IfOk command IsLocal }
    ensures shape { (app : App) → Makes command.entry app
        → Makes result (with_rule app (each_value id.now)) }
    ensures local { IfOk result IsLocal }
{
    let values = Arg::new(alloc, id).action(ArgAction::Append);
    command?.arg(values)
}

/// The application with one more subcommand, where memory sufficed for both.
fn joined<'a>(
    application: Result<Command<'a>, AllocError>,
    command: Result<Command<'a>, AllocError>,
) -> Result<Command<'a>, AllocError>
    requires { IfOk command IsLocal }
    ensures { (sub : App) → Makes command.entry sub → Joins application.entry result sub.top }
{
    let command = command?;
    application?.subcommand(command)
}

/// The application with one more subcommand, of this name.
fn with_command<'a>(
    alloc: Global,
    application: Result<Command<'a>, AllocError>,
    name: &'a str,
) -> Result<Command<'a>, AllocError>
    ensures { Joins application.entry result (shape_named name.now) }
{
    let command = with_values(alloc, Ok(Command::new(alloc, name)), "values");
    joined(application, command)
}

/// The application, without subcommands. It has no help of its own.
fn without_commands<'a>(alloc: Global) -> Command<'a>
    ensures { app_of result ≡ empty_application }
{
    Command::new(alloc, "messenger")
        .no_binary_name(true)
        .disable_help_flag(true)
        .disable_help_subcommand(true)
}

/// The application with all its commands. What is made passes want of memory on, so that it is
/// asked after once, at the end.
pub fn application<'a>(alloc: Global) -> Result<Command<'a>, AllocError>
    ensures { Makes result (application rows) }
{
    let names = names();
    let mut command = Ok(without_commands(alloc));
    'names: for at in 0..names.len() {
        command = with_command(alloc, command, names[at]);
    }
    command
}
