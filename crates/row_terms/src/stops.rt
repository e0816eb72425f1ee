//! Calls of the rules that stop.
ghost use Rattle.std.specs.Prelude.{◌≡◌, Ok, IfOk};

use pc_rules::stop::Stop;
use row_files::Fault;
use std::alloc::AllocError;

/// What came of a call that is to stop in no row.
pub fn done<T>(came: Result<T, Stop>) -> Result<T, Fault>
    ensures same { IfOk result (λ t. came ≡ Ok t) }
{
    match came {
        Ok(came) => Ok(came),
        Err(Stop::Memory) => Err(Fault::Memory),
        Err(_) => Err(Fault::Faulty("a call stops")),
    }
}

/// Why a call stops.
pub fn put_stop(out: &mut String, stop: Stop) -> Result<(), AllocError> {
    out.push_str(match stop {
        Stop::Spent => "spent",
        Stop::TooDeep => "too deep",
        Stop::Memory => "out of memory",
    })
}
