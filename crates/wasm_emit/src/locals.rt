//! How many locals the code of a block needs.
ghost use Rattle.std.specs.Prelude.{◌≡◌, ◌<◌, ◌≤◌, ◌+◌, IfOk, IfErr};
ghost use Rattle.closure_lift.specs.LiftedView.{seen, branches_of};
ghost use Rattle.wasm_emit.specs.EmittedLocals.{top, top_branches};
ghost use Rattle.wasm_emit.specs.Pushed.{bound_locals};
ghost use Rattle.wasm_emit.specs.declared.fault.EmitFault.TheVariants.{Locals};

use crate::fault::EmitFault;
use closure_lift::program::{LiftedBlock, LiftedBranch, LiftedOp};

/// The number after d; `Locals` where that passes `most`.
fn next(d: u32, most: u32) -> Result<u32, EmitFault>
    ensures ok { IfOk result (λ n. (n ≡ d + 1) × (n ≤ most)) }
    ensures locals { IfErr result (λ e. (e ≡ Locals) × (most < d + 1)) }
{
    if d < most {
        Ok(d + 1)
    } else {
        Err(EmitFault::Locals)
    }
}

/// How many locals are enough for a block whose bindings have locals from d on. `Locals` exactly where these are more than `most`.
#[cycle(counts)]
pub fn locals_of_block(d: u32, most: u32, b: &LiftedBlock) -> Result<u32, EmitFault>
    requires below { d ≤ most }
    ensures ok { IfOk result (λ n. (n ≡ top d b.now) × (n ≤ most)) }
    ensures locals { IfErr result (λ e. (e ≡ Locals) × (most < top d b.now)) }
{
    let mut at = d;
    let mut count = d;
    for op in b.bindings.as_slice() {
        let inner = locals_of_op(at, most, op)?;
        at = next(at, most)?;
        count = count.max(inner).max(at);
    }
    let last = locals_of_op(at, most, &b.tail)?;
    Ok(count.max(last))
}

/// The same for an operation.
#[cycle(counts)]
fn locals_of_op(d: u32, most: u32, op: &LiftedOp) -> Result<u32, EmitFault>
    requires below { d ≤ most }
    ensures ok { IfOk result (λ n. (n ≡ bound_locals d (seen op.now)) × (n ≤ most)) }
    ensures locals { IfErr result (λ e. (e ≡ Locals) × (most < bound_locals d (seen op.now))) }
{
    match op {
        LiftedOp::Atom(_) | LiftedOp::Const(_) | LiftedOp::App(_, _) => Ok(d),
        LiftedOp::Construct(_, _) | LiftedOp::Closure(_, _) => next(d, most),
        LiftedOp::Case(_, bs) => {
            let inner = next(d, most)?;
            locals_of_branches(inner, most, bs.as_slice())
        }
    }
}

/// The same for the branches of a match, which use the same locals.
#[cycle(counts)]
fn locals_of_branches(d: u32, most: u32, bs: &[LiftedBranch]) -> Result<u32, EmitFault>
    requires below { d ≤ most }
    ensures ok { IfOk result (λ n. (n ≡ top_branches d (branches_of bs.now)) × (n ≤ most)) }
    ensures locals { IfErr result (λ e. (e ≡ Locals) × (most < top_branches d (branches_of bs.now))) }
{
    let mut count = d;
    for b in bs {
        let inner = locals_of_block(d, most, &b.body)?;
        count = count.max(inner);
    }
    Ok(count)
}
