//! The pass that drops parameters of constants that are always box.
ghost use Rattle.std.specs.Prelude.{◌≡◌, ◌≤◌, ◌<◌, ℕ, true, IfOk, IfErr, nat_eq};
ghost use Rattle.std.specs.HashMap.{get};
ghost use Rattle.trees.specs.Closed.{Closed};
ghost use Rattle.lambda_box.specs.BoxForm.{IsBoxProgram};
ghost use Rattle.lambda_box.specs.OrdinaryForm.{IsOrdinaryProgram};
ghost use Rattle.lambda_box.specs.SaturatedForm.{IsSaturated, program_nodes};
ghost use Rattle.lambda_box.specs.declared.fault.PassFault.TheVariants.{Memory};
ghost use Rattle.shrink_passes.specs.Uses.{deepest};
ghost use Rattle.shrink_passes.specs.DropParams.{leading, drop_program};
ghost use Rattle.shrink_passes.specs.DeadPlaces.{is_place};
ghost use Rattle.shrink_passes.specs.Pruned.{pruned, pruned_constant};
ghost use Rattle.shrink_passes.specs.ShrinkLaws.{KeepsRuns};

use crate::flags::Flags;
use crate::noting::dead_places;
use crate::pruning::prune;
use crate::unwrapping::without_places;
use box_terms::program::{BoxConstant, BoxConstants, BoxProgram};
use lambda_box::PassFault;
use std::alloc::Global;
use std::collections::HashMap;

/// The constant without its parameters and the arguments at the places of the table. Only `Memory`.
fn without_params(
    alloc: Global,
    table: &HashMap<u32, Flags>,
    d: &BoxConstant,
) -> Result<BoxConstant, PassFault>
    requires closed { Closed 0 (pruned (is_place (get nat_eq table.now)) d.now.body) }
    requires leads { (p : ℕ) → is_place (get nat_eq table.now) d.now.name.0 p ≡ true → p < leading (pruned (is_place (get nat_eq table.now)) d.now.body) }
    ensures ok { IfOk result (λ u. u ≡ pruned_constant (is_place (get nat_eq table.now)) d.now) }
    ensures only_memory { IfErr result (λ e. e ≡ Memory) }
{
    let body = prune(alloc, table, &d.body)?;
    let name = d.name;
    match table.get(&name.0) {
        None => Ok(BoxConstant { name, body }),
        Some(dead) => {
            let body = without_places(alloc, dead, &body)?;
            Ok(BoxConstant { name, body })
        }
    }
}

/// The program without the parameters of constants that are always box: the constants are gone through from the earliest to the latest, once, and in each body the
/// leading lambdas from the outermost inwards. The place of a lambda is the number of leading lambdas that stand before it then. Where the lambda's variable isn't
/// used, and every use of the constant is the head of a spine whose argument at that place is box, the lambda and that argument of each use are dropped; else both
/// stay. A fixpoint's own parameters stay, and subterms in which nothing changes stay shared.
///
/// The answer is the program of `specs/DropParams.antt` (`is`). It has the form of programs, and is saturated and ordinary where `p` is. Where main, applied to
/// any values that are data, gives data by evaluation with environments, the answer's main, applied to the same values, gives the same data, with as many matches,
/// no more contractions, no more blocks and none wider (`data_kept`). It has no more nodes, and is no deeper. Only `Memory`.
pub fn drop_dead_params(alloc: Global, p: &BoxProgram) -> Result<BoxProgram, PassFault>
    requires form { IsBoxProgram p.now }
    ensures is { IfOk result (λ q. q ≡ drop_program p.now) }
    ensures form { IfOk result IsBoxProgram }
    ensures saturated { IfOk result (λ q. IsSaturated p.now → IsSaturated q) }
    ensures ordinary { IfOk result (λ q. IsOrdinaryProgram p.now → IsOrdinaryProgram q) }
    ensures data_kept { IfOk result (KeepsRuns p.now) }
    ensures nodes_kept { IfOk result (λ q. program_nodes q ≤ program_nodes p.now) }
    ensures no_deeper { IfOk result (λ q. deepest q ≤ deepest p.now) }
    ensures only_memory { IfErr result (λ e. e ≡ Memory) }
{
    let table = dead_places(alloc, p)?;
    let mut constants = BoxConstants::new(alloc);
    for d in p.constants.as_slice() {
        let constant = without_params(alloc, &table, d)?;
        if constants.push(constant).is_err() {
            return Err(PassFault::Memory);
        }
    }
    let main = prune(alloc, &table, &p.main)?;
    let Ok(families) = p.families.copied(alloc) else {
        return Err(PassFault::Memory);
    };
    Ok(BoxProgram {
        constants,
        families,
        main,
    })
}
