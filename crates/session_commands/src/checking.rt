//! The command that looks at the disk, and writes nothing to it.

ghost use Rattle.std.specs.Prelude.{◌≡◌, ◌+◌, ◌≤◌, ◌++◌, length};
ghost use Rattle.dr_disk.specs.Spans.{IsQuiet};
ghost use Rattle.dr_ports.specs.Writing.{Writes};
ghost use Rattle.session_commands.specs.Checking.{RunsCheck, ending_of_look, finding_line, found_lines, gate_line, gate_lines, report_lines, rest_line};
ghost use Rattle.session_commands.specs.Disks.{HasClientRoom};
ghost use Rattle.command_lines.specs.Runs.{RunsAndCounts};

use answer_lines::put_named;
use client::look;
use command_lines::{finish_written, put_count};
use dr_disk::Disk;
use dr_ports::{Failed, OutputLine, ROOM, Sink, write_all};
use endings::{Ending, Status, finish};
use kem_laws::Kem;
use slot_store::{Finding, Gate, InspectError, Report};
use std::alloc::Global;

/// Puts the line of a table.
#[tactic(auto, unfolding(crate::specs::Checking::gate_line))]
fn put_gate(lines: &mut OutputLine, slot: u32, gate: Gate)
    requires { length lines.old + 52 ≤ ROOM }
    ensures lines { lines.new ≡ lines.old ++ gate_line slot gate }
    ensures len { length lines.new ≤ length lines.old + 52 }
{
    lines.text(b"slot ");
    lines.number(u64::from(slot));
    match gate {
        Gate::Closed => lines.text(b" closed\n"),
        Gate::Open { turn } => put_count(lines, b" open ", u32::from(turn)),
    }
}

/// Puts the line of what was found.
#[tactic(auto, unfolding(crate::specs::Checking::finding_line))]
fn put_finding(lines: &mut OutputLine, found: Finding)
    requires { length lines.old + 58 ≤ ROOM }
    ensures lines { lines.new ≡ lines.old ++ finding_line found }
    ensures len { length lines.new ≤ length lines.old + 58 }
{
    match found {
        Finding::Record { length } => put_count(lines, b"record ", length),
        Finding::Empty => lines.text(b"no record\n"),
        Finding::Damaged { slot, at } => {
            put_named(lines, b"damaged slot ", u64::from(slot));
            put_named(lines, b" at ", at);
            lines.text(b"\n");
        }
    }
}

/// Whether an area rests, as a line.
#[tactic(auto, unfolding(crate::specs::Checking::rest_line))]
fn rest_line(rest: bool) -> &'static [u8]
    ensures line { result.now ≡ rest_line rest }
    ensures len { length result.now ≤ 9 }
{
    if rest { b"rest yes\n" } else { b"rest no\n" }
}

/// Both tables of a report, in two lines.
#[tactic(auto, unfolding(crate::specs::Checking::gate_lines))]
fn gate_lines(report: Report) -> OutputLine
    ensures { result ≡ gate_lines report }
{
    let mut lines = OutputLine::new();
    put_gate(&mut lines, 0, report.first);
    put_gate(&mut lines, 1, report.second);
    lines
}

/// What was found, and whether it rests, in two lines.
#[tactic(auto, unfolding(crate::specs::Checking::found_lines))]
fn found_lines(report: Report) -> OutputLine
    ensures { result ≡ found_lines report }
{
    let mut lines = OutputLine::new();
    put_finding(&mut lines, report.found);
    lines.text(rest_line(report.rest));
    lines
}

/// Writes the four lines of a report.
fn write_report<O: Sink>(report: Report, out: &mut O) -> Result<(), Failed>
    ensures { Writes (O.at out.old) (O.at out.new) (report_lines report) result }
{
    match write_all(out, gate_lines(report).as_bytes()) {
        Err(Failed) => Err(Failed),
        Ok(()) => write_all(out, found_lines(report).as_bytes()),
    }
}

/// How the command ends where the area wasn't read.
fn unread(error: InspectError) -> Ending
    ensures { result ≡ ending_of_look error }
{
    match error {
        InspectError::Memory => Ending::NoMemory,
        InspectError::StoreFault { .. } => Ending::DiskFault,
    }
}

/// Shows what the disk holds, and writes nothing to it: the lines `slot 0 open TURN` or
/// `slot 0 closed`, the same of table 1, `record LENGTH`, `no record` or `damaged slot S at A`, and
/// `rest yes` or `rest no`.
#[inline(never)]
pub fn check<K: Kem, D: Disk, O: Sink>(alloc: Global, disk: &mut D, out: &mut O) -> Status
    requires { HasClientRoom (D.state disk.old) }
    ensures { RunsAndCounts (RunsCheck D.state K.mechanism disk.old disk.new)
        (IsQuiet (D.state disk.old) (D.state disk.new))
        (O.at out.old) (O.at out.new) result.code }
{
    match look::<K, D>(alloc, disk) {
        Err(error) => finish(out, unread(error)),
        Ok(report) => {
            let wrote = write_report(report, out);
            finish_written(out, wrote)
        }
    }
}
