//! The lines of reports.
ghost use Rattle.std.specs.Prelude.{◌≡◌, [], map, OnErr, OnOk, Some};
ghost use Rattle.std.specs.Io.KnownBytes.{Appends};
ghost use Rattle.kio.specs.Causes.{Rose};
ghost use Rattle.kio.specs.Known.{StillTells};
ghost use Rattle.driver.specs.ReportLines.{line, line_of, lines};
ghost use Rattle.driver.specs.Takes.{TakesLine};

use crate::reporting::parts::write_parts;
use itoa::Buffer;
use kio::{Sink, WriteFault};
use reports::Report;

/// Writes a line of a name and a count, up to the first fault.
fn write_numbers<E: Sink>(err: &mut E, name: u8, count: u64) -> Result<(), WriteFault>
    ensures all { OnOk result (Appends (E.taken err.old) (E.taken err.new) (line name count)) }
    ensures fault { OnErr result (Rose (E.faults err.old) (E.faults err.new)) }
    ensures line { TakesLine (E.taken err.old) (E.taken err.new) (E.faults err.old) (E.faults err.new) (line name count) }
    ensures tells { StillTells (E.taken err.old) (E.taken err.new) }
    ensures history_all { OnOk result (Appends (Some (E.received err.old)) (Some (E.received err.new)) (line name count)) }
    ensures history_line { TakesLine (Some (E.received err.old)) (Some (E.received err.new)) (E.faults err.old) (E.faults err.new) (line name count) }
{
    let mut first = Buffer::new();
    let mut second = Buffer::new();
    let name = first.format(name).as_bytes();
    let count = second.format(count).as_bytes();
    write_parts(err, b"report ", name, b" ", count, b"\n")
}

/// Writes a report's line, up to the first fault.
fn write_line<E: Sink>(err: &mut E, report: &Box<dyn Report>) -> Result<(), WriteFault>
    ensures all { OnOk result (Appends (E.taken err.old) (E.taken err.new) (line_of (shown report.now))) }
    ensures fault { OnErr result (Rose (E.faults err.old) (E.faults err.new)) }
    ensures line { TakesLine (E.taken err.old) (E.taken err.new) (E.faults err.old) (E.faults err.new) (line_of (shown report.now)) }
    ensures tells { StillTells (E.taken err.old) (E.taken err.new) }
    ensures history_all { OnOk result (Appends (Some (E.received err.old)) (Some (E.received err.new)) (line_of (shown report.now))) }
    ensures history_line { TakesLine (Some (E.received err.old)) (Some (E.received err.new)) (E.faults err.old) (E.faults err.new) (line_of (shown report.now)) }
{
    write_numbers(err, report.name(), report.count())
}

/// Writes the lines of reports, in order, up to the first fault. It takes no memory.
pub(crate) fn write_lines<E: Sink>(
    err: &mut E,
    reports: &[Box<dyn Report>],
) -> Result<(), WriteFault>
    ensures line { TakesLine (E.taken err.old) (E.taken err.new) (E.faults err.old) (E.faults err.new) (lines (map (λ b. shown b) reports.now)) }
    ensures tells { StillTells (E.taken err.old) (E.taken err.new) }
    ensures history { TakesLine (Some (E.received err.old)) (Some (E.received err.new)) (E.faults err.old) (E.faults err.new) (lines (map (λ b. shown b) reports.now)) }
    ensures none { reports.now ≡ [] → err.new ≡ err.old }
{
    for report in reports {
        write_line(err, report)?;
    }
    Ok(())
}
