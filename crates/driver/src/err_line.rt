//! The line of a refusal on err.

ghost use Rattle.std.specs.Prelude.{◌≡◌, ◌∷◌, ◌++◌, [], OnOk, Some};
ghost use Rattle.std.specs.Io.KnownBytes.{Appends};
ghost use Rattle.kio.specs.Known.{StillTells};
ghost use Rattle.driver.specs.Lines.{line_of, number_text};
ghost use Rattle.driver.specs.Takes.{TakesLine};

use crate::refusal::{Refusal, front, name, number, place, second};
use crate::reporting::write_parts;
use itoa::Buffer;
use kio::{Sink, WriteFault};

/// Writes the refusal's line, as far as err takes it. It takes no memory.
pub(crate) fn write_line<E: Sink>(err: &mut E, refusal: &Refusal) -> Result<(), WriteFault>
    ensures all { OnOk result (Appends (E.taken err.old) (E.taken err.new) (line_of refusal.now)) }
    ensures line { TakesLine (E.taken err.old) (E.taken err.new) (E.faults err.old) (E.faults err.new) (line_of refusal.now) }
    ensures tells { StillTells (E.taken err.old) (E.taken err.new) }
    ensures history_all { OnOk result (Appends (Some (E.received err.old)) (Some (E.received err.new)) (line_of refusal.now)) }
    ensures history_line { TakesLine (Some (E.received err.old)) (Some (E.received err.new)) (E.faults err.old) (E.faults err.new) (line_of refusal.now) }
{
    let mut buffer = Buffer::new();
    let digits = match number(refusal) {
        Some(n) => buffer.format(n).as_bytes(),
        None => b"".as_slice(),
    };
    let mut other = Buffer::new();
    let name = match second(refusal) {
        Some(n) => other.format(n).as_bytes(),
        None => name(refusal),
    };
    write_parts(err, front(refusal), digits, place(refusal), name, b"\n")
}
