//! The pass that puts constants with one use in its place.
ghost use Rattle.std.specs.Prelude.{◌≡◌, ◌≤◌, ℕ, true, false, cond, IfOk, IfErr, OnOk, nat_eq, ◌∷◌, Some};
ghost use Rattle.std.specs.HashMap.{get};
ghost use Rattle.trees.specs.Measures.{depth_limit};
ghost use Rattle.lambda_box.specs.BoxForm.{IsBoxProgram};
ghost use Rattle.lambda_box.specs.OrdinaryForm.{IsOrdinaryProgram};
ghost use Rattle.lambda_box.specs.SaturatedForm.{IsSaturated, program_nodes};
ghost use Rattle.lambda_box.specs.declared.fault.PassFault.TheVariants.{Memory};
ghost use Rattle.shrink_passes.specs.Uses.{deepest};
ghost use Rattle.shrink_passes.specs.Sights.{is_once};
ghost use Rattle.shrink_passes.specs.Inline.{inline_program};
ghost use Rattle.shrink_passes.specs.ShrinkLaws.{KeepsRuns};

use crate::counting::{Sight, sights_of};
use crate::filling::fill;
use box_terms::program::{BoxConstant, BoxConstants, BoxProgram};
use box_terms::term::BoxTerm;
use lambda_box::PassFault;
use pc_terms::leaf::Name;
use std::alloc::Global;
use std::collections::HashMap;

/// The greatest depth among the constants' bodies and main.
fn greatest_depth(p: &BoxProgram) -> u32
    ensures is { result ≡ deepest p.now }
    ensures within { result ≤ depth_limit }
{
    let mut most = p.main.depth();
    for d in p.constants.as_slice() {
        most = most.max(d.body.depth());
    }
    most
}

/// Whether a body of depth `n`, put in place of what was seen, keeps the depth `greatest`.
fn keeps_depth(sight: Option<Sight>, n: u32, greatest: u32) -> bool
    ensures is { result ≡ is_once greatest n sight }
{
    match sight {
        Some(Sight::Once(level)) => u64::from(level) + u64::from(n) <= u64::from(greatest),
        Some(Sight::Often) => false,
        None => false,
    }
}

/// Notes the body of a constant that is put in place of its use, or puts the constant with its body to those that stay. Only `Memory`.
fn keep(
    bodies: &mut HashMap<u32, BoxTerm>,
    constants: &mut BoxConstants,
    name: Name,
    body: BoxTerm,
    put: bool,
) -> Result<(), PassFault>
    ensures put { OnOk result (put ≡ true → ((k : ℕ) → get nat_eq bodies.new k ≡ cond (nat_eq name.0 k) (Some body) (get nat_eq bodies.old k)) × (constants.new ≡ constants.old)) }
    ensures kept { OnOk result (put ≡ false → ((k : ℕ) → get nat_eq bodies.new k ≡ get nat_eq bodies.old k) × (constants.new ≡ record { name = name; body = body } ∷ constants.old)) }
    ensures only_memory { IfErr result (λ e. e ≡ Memory) }
{
    if put {
        match bodies.insert(name.0, body) {
            Ok(_) => Ok(()),
            Err(_) => Err(PassFault::Memory),
        }
    } else {
        match constants.push(BoxConstant { name, body }) {
            Ok(()) => Ok(()),
            Err(_) => Err(PassFault::Memory),
        }
    }
}

/// The program in which a constant with one use stands in its place: the constants are gone through from the earliest to the latest, once, and where one has
/// exactly one use in the program as it then stands, its body is put in place of that use and the constant is dropped, unless the greatest depth among the
/// constants' bodies and main would then be greater than before. Nothing else changes, and subterms in which nothing changes stay shared.
///
/// The answer is the program of `specs/Inline.antt` (`is`). It has the form of programs, and is saturated and ordinary where `p` is. Where main, applied to any
/// values that are data, gives data by evaluation with environments, the answer's main, applied to the same values, gives the same data, with as many matches, no
/// more contractions, no more blocks and none wider (`data_kept`). It has no more nodes, and is no deeper. Only `Memory`.
pub fn inline(alloc: Global, p: &BoxProgram) -> Result<BoxProgram, PassFault>
    requires form { IsBoxProgram p.now }
    ensures is { IfOk result (λ q. q ≡ inline_program p.now) }
    ensures form { IfOk result IsBoxProgram }
    ensures saturated { IfOk result (λ q. IsSaturated p.now → IsSaturated q) }
    ensures ordinary { IfOk result (λ q. IsOrdinaryProgram p.now → IsOrdinaryProgram q) }
    ensures data_kept { IfOk result (KeepsRuns p.now) }
    ensures nodes_kept { IfOk result (λ q. program_nodes q ≤ program_nodes p.now) }
    ensures no_deeper { IfOk result (λ q. deepest q ≤ deepest p.now) }
    ensures only_memory { IfErr result (λ e. e ≡ Memory) }
{
    let sights = sights_of(alloc, p)?;
    let greatest = greatest_depth(p);
    let mut bodies = HashMap::new(alloc);
    let mut constants = BoxConstants::new(alloc);
    for d in p.constants.as_slice() {
        let body = fill(alloc, &bodies, &d.body)?;
        let name = d.name;
        let put = keeps_depth(sights.get(&name.0).copied(), body.depth(), greatest);
        keep(&mut bodies, &mut constants, name, body, put)?;
    }
    let main = fill(alloc, &bodies, &p.main)?;
    let Ok(families) = p.families.copied(alloc) else {
        return Err(PassFault::Memory);
    };
    Ok(BoxProgram {
        constants,
        families,
        main,
    })
}
