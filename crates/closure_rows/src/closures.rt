//! The layer of the passes to closures: `to_anf` and `lift_program`.
ghost use Rattle.dump_reader.specs.Spelled.{IsSpelled};
ghost use Rattle.lambda_box.specs.BoxForm.{IsBoxProgram};

use crate::anf::put_anf;
use crate::erasing::program_of;
use crate::lifted::{put_lifted, put_sizes};
use crate::made::{functions, nest};
use anf_convert::program::AnfProgram;
use anf_convert::{PassFault, to_anf};
use box_passes::{prop_match, saturate};
use box_terms::program::BoxProgram;
use closure_lift::program::Lifted;
use closure_lift::{LiftFault, lift_program};
use dump_reader::environment::RawEnv;
use pc_terms::term::MakeFault;
use row_files::{Case, Fault};
use row_terms::read;
use shrink_passes::{drop_dead_params, inline};
use std::alloc::{AllocError, Global};

/// Runs a row of the layer.
pub fn run(case: &Case, out: &mut String) -> Result<(), Fault> {
    match case.row.given("call")? {
        "lift_nest" => {
            let lambdas = case.row.index("lambdas")?;
            run_made(case, nest(case.alloc, lambdas), out)
        }
        "lift_functions" => {
            let count = case.row.index("count")?;
            run_made(case, functions(case.alloc, count), out)
        }
        _ => {
            let raw = read(case)?;
            run_read(case, &raw, out)
        }
    }
}

/// Lifts a program that was made here, and tells its sizes.
fn run_made(
    case: &Case,
    made: Result<BoxProgram, MakeFault>,
    out: &mut String,
) -> Result<(), Fault> {
    let Ok(program) = made else {
        return Err(Fault::Faulty("the program is not made"));
    };
    let Ok(program) = normal(case.alloc, &program) else {
        return Err(Fault::Faulty("no program in A-normal form"));
    };
    match lift_program(case.alloc, &program) {
        Ok(program) => put_sizes(out, &program)?,
        Err(fault) => put_fault(out, fault)?,
    }
    Ok(())
}

/// Makes the call of a row of what its environment is erased to.
fn run_read(case: &Case, raw: &RawEnv, out: &mut String) -> Result<(), Fault>
    requires spelled { IsSpelled raw.now }
{
    let program = program_of(case.alloc, raw)?;
    run_erased(case, raw, &program, out)
}

/// Makes the call of a row of an erased program.
fn run_erased(
    case: &Case,
    raw: &RawEnv,
    program: &BoxProgram,
    out: &mut String,
) -> Result<(), Fault>
    requires form { IsBoxProgram program.now }
{
    let Ok(program) = passed(case.alloc, program) else {
        return Err(Fault::Faulty("no program in A-normal form"));
    };
    match case.row.given("call")? {
        "to_anf" => put_anf(out, raw, &program)?,
        "lift_program" => {
            let came = lift_program(case.alloc, &program);
            put_came(out, raw, &came)?;
        }
        _ => return Err(Fault::Faulty("no such call")),
    }
    Ok(())
}

/// The program in A-normal form, after all passes before it.
fn passed(alloc: Global, program: &BoxProgram) -> Result<AnfProgram, PassFault>
    requires form { IsBoxProgram program.now }
{
    let program = prop_match(alloc, program)?;
    let program = saturate(alloc, &program)?;
    let program = inline(alloc, &program)?;
    let program = drop_dead_params(alloc, &program)?;
    to_anf(alloc, &program)
}

/// The program in A-normal form, of the saturated one without matches on proofs.
fn normal(alloc: Global, program: &BoxProgram) -> Result<AnfProgram, PassFault> {
    let program = prop_match(alloc, program)?;
    let program = saturate(alloc, &program)?;
    to_anf(alloc, &program)
}

/// What lifting came to.
fn put_came(
    out: &mut String,
    raw: &RawEnv,
    came: &Result<Lifted, LiftFault>,
) -> Result<(), AllocError> {
    match came {
        Ok(program) => put_lifted(out, raw, program),
        Err(fault) => put_fault(out, *fault),
    }
}

/// Why a program is not lifted.
fn put_fault(out: &mut String, fault: LiftFault) -> Result<(), AllocError> {
    out.push_str(match fault {
        LiftFault::Captured => "captured",
        LiftFault::Functions => "functions",
        LiftFault::Memory => "out of memory",
    })
}
