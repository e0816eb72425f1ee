//! A line that is written in five parts.
ghost use Rattle.std.specs.Prelude.{◌++◌, OnErr, OnOk, Some};
ghost use Rattle.std.specs.Io.KnownBytes.{Appends};
ghost use Rattle.kio.specs.Causes.{Rose};
ghost use Rattle.kio.specs.Known.{StillTells};
ghost use Rattle.driver.specs.Takes.{TakesLine};

use kio::{Sink, WriteFault, write_all};

/// Writes the parts of a line one after another, up to the first fault. It takes no memory.
pub fn write_parts<E: Sink>(
    err: &mut E,
    front: &[u8],
    digits: &[u8],
    place: &[u8],
    name: &[u8],
    end: &[u8],
) -> Result<(), WriteFault>
    ensures all { OnOk result (Appends (E.taken err.old) (E.taken err.new) (front.now ++ (digits.now ++ (place.now ++ (name.now ++ end.now))))) }
    ensures fault { OnErr result (Rose (E.faults err.old) (E.faults err.new)) }
    ensures line { TakesLine (E.taken err.old) (E.taken err.new) (E.faults err.old) (E.faults err.new) (front.now ++ (digits.now ++ (place.now ++ (name.now ++ end.now)))) }
    ensures tells { StillTells (E.taken err.old) (E.taken err.new) }
    ensures history_all { OnOk result (Appends (Some (E.received err.old)) (Some (E.received err.new)) (front.now ++ (digits.now ++ (place.now ++ (name.now ++ end.now))))) }
    ensures history_line { TakesLine (Some (E.received err.old)) (Some (E.received err.new)) (E.faults err.old) (E.faults err.new) (front.now ++ (digits.now ++ (place.now ++ (name.now ++ end.now)))) }
{
    write_all(err, front)?;
    write_all(err, digits)?;
    write_all(err, place)?;
    write_all(err, name)?;
    write_all(err, end)
}
