//! The environment of a row, and terms that are made for it.
ghost use Rattle.std.specs.Prelude.{◌≡◌, Ok, IfOk};
ghost use Rattle.dump_reader.specs.Spelled.{IsSpelled};

use dump_reader::environment::RawEnv;
use dump_reader::reading::read_env;
use pc_terms::term::MakeFault;
use row_files::{Case, Fault};

/// The row's environment, read.
pub fn read(case: &Case) -> Result<RawEnv, Fault>
    ensures spelled { IfOk result IsSpelled }
{
    let text = case.environment()?;
    match read_env(case.alloc, text.as_slice()) {
        Ok(raw) => Ok(raw),
        Err(_) => Err(Fault::Faulty("the text is not read")),
    }
}

/// What was made; a term that is too deep is a fault of the row.
pub fn made<T>(came: Result<T, MakeFault>) -> Result<T, Fault>
    ensures same { IfOk result (λ t. came ≡ Ok t) }
{
    match came {
        Ok(made) => Ok(made),
        Err(MakeFault::TooDeep) => Err(Fault::Faulty("a term is too deep")),
        Err(MakeFault::Memory) => Err(Fault::Memory),
    }
}
