//! Erasure of a whole environment.
ghost use Rattle.std.specs.Prelude.{◌≡◌, ◌≤◌, ◌+◌, ◌-◌, [], None, IfOk, IfErr};
ghost use Rattle.trees.specs.Measures.{nodes};
ghost use Rattle.pc_terms.specs.declared.leaf.Name.{Name};
ghost use Rattle.pc_terms.specs.Syntax.{Term};
ghost use Rattle.calculus_rules.specs.Accepted.{IsAccepted};
ghost use Rattle.calculus_rules.specs.Environment.{KeepsConstant};
ghost use Rattle.calculus_rules.specs.Typing.{Types, guarded};
ghost use Rattle.pc_rules.specs.Entailment.{test_of};
ghost use Rattle.pc_rules.specs.DirectedTyping.{infer};
ghost use Rattle.pc_rules.specs.DirectedRun.{most_nested};
ghost use Rattle.lambda_box.specs.BoxForm.{IsBoxProgram};
ghost use Rattle.erase_laws.specs.ErasedProgram.{HasErased, IsErased};
ghost use Rattle.erase_rules.specs.DirectedProgram.{erased_program};
ghost use Rattle.erase_rules.specs.Laws.{AreFewCounts};
ghost use Rattle.erase_rules.specs.ProgramNodes.{program_nodes, body_nodes};
ghost use Rattle.erase.specs.AtPlaces.{FollowsAt, answered};
ghost use Rattle.erase.specs.HaltPlaces.{HaltsAtPlace};
ghost use Rattle.erase.specs.Kept.{AreNoGreater, KeepsValue};
ghost use Rattle.erase.specs.declared.refusal.EraseRefusal.TheVariants.{AxiomReached};

use crate::constants::{erased_at, reach_constants};
use crate::families::families;
use crate::refusal::{EraseRefusal, no_memory};
use crate::terms::Eraser;
use box_terms::program::{BoxConstants, BoxProgram};
use erasable::anywhere::Anywhere;
use known_types::table::Table;
use known_types::typer::SiteTyper;
use pc_rules::accepted::Accepted;
use pc_rules::broken::Place;
use pc_rules::meter::Meter;
use pc_rules::reducer::Reducer;
use pc_rules::typer::Typer;
use std::alloc::Global;

/// The program that an accepted environment is erased to: box stands for its types and proofs (PCUIC: Sozeau et al., "Coq Coq Correct!", POPL
/// 2020, section 4: erasure). It has the constants that main reaches, and the families of all blocks with their counts, in the order in which
/// they are declared.
///
/// Main is erased first, then the constants that are reached, from the latest declared to the earliest: those that erased main names, and
/// those that the erased body of a reached constant names. `AxiomReached` exactly where a constant without a body is reached, after all is
/// erased, with the first declared of these. `Halt` has the place of what is being erased, which is main or a declaration (from 0): `Spent`
/// exactly where the rules have no end within the units left and `TooDeep` did not come; `TooDeep` only where they pass a limit; and what the
/// first broken rule keeps.
pub fn erase<T: Typer, R: Reducer>(
    alloc: Global,
    typer: &T,
    reducer: &R,
    acc: &Accepted,
    m: &mut Meter,
) -> Result<BoxProgram, EraseRefusal>
    requires accepted { IsAccepted acc.now.env }
    requires typed { Types guarded acc.now.env [] acc.now.main acc.now.main_type }
    requires few { AreFewCounts acc.now.env }
    ensures follows { FollowsAt (erased_program acc.now.env (test_of acc.now.env) (most_nested - m.old.nest) acc.now.main m.old.account) (answered result) m.old m.new }
    ensures halted { IfErr result (λ e. HaltsAtPlace acc.now.env (infer acc.now.env (test_of acc.now.env) (most_nested - m.old.nest)) acc.now.main m.old.account e m.new.account) }
    ensures erased { IfOk result (IsErased acc.now.env acc.now.main) }
    ensures sources { IfOk result (HasErased acc.now.env) }
    ensures form { IfOk result IsBoxProgram }
    ensures fewer_nodes { IfOk result (λ P. program_nodes P ≤ nodes acc.now.main + body_nodes acc.now.env.declarations) }
    ensures no_deeper { IfOk result (AreNoGreater acc.now.env acc.now.main) }
    ensures value { IfOk result (KeepsValue acc.now.env acc.now.main acc.now.main_type) }
    ensures axiom { IfErr result (λ e. (k : Name) → e ≡ AxiomReached k → (T : Term) × KeepsConstant acc.now.env k T None) }
{
    erase_at_sites(alloc, &Anywhere::of(typer), reducer, acc, m)
}

/// The same as `erase`, where the tests of the program's subterms share what they infer: the typer is asked at sites of one table.
pub fn erase_at_sites<T: SiteTyper, R: Reducer>(
    alloc: Global,
    typer: &T,
    reducer: &R,
    acc: &Accepted,
    m: &mut Meter,
) -> Result<BoxProgram, EraseRefusal>
    requires accepted { IsAccepted acc.now.env }
    requires typed { Types guarded acc.now.env [] acc.now.main acc.now.main_type }
    requires few { AreFewCounts acc.now.env }
    ensures follows { FollowsAt (erased_program acc.now.env (test_of acc.now.env) (most_nested - m.old.nest) acc.now.main m.old.account) (answered result) m.old m.new }
    ensures halted { IfErr result (λ e. HaltsAtPlace acc.now.env (infer acc.now.env (test_of acc.now.env) (most_nested - m.old.nest)) acc.now.main m.old.account e m.new.account) }
    ensures erased { IfOk result (IsErased acc.now.env acc.now.main) }
    ensures sources { IfOk result (HasErased acc.now.env) }
    ensures form { IfOk result IsBoxProgram }
    ensures fewer_nodes { IfOk result (λ P. program_nodes P ≤ nodes acc.now.main + body_nodes acc.now.env.declarations) }
    ensures no_deeper { IfOk result (AreNoGreater acc.now.env acc.now.main) }
    ensures value { IfOk result (KeepsValue acc.now.env acc.now.main acc.now.main_type) }
    ensures axiom { IfErr result (λ e. (k : Name) → e ≡ AxiomReached k → (T : Term) × KeepsConstant acc.now.env k T None) }
{
    let env = &acc.env;
    let eraser = Eraser::new(typer, reducer);
    let table = Table::new(alloc);
    let room = m.room();
    let main = erased_at(alloc, &eraser, env, &table, room, Place::Main, &acc.main, m)?;
    let reached = reach_constants(alloc, &eraser, env, &table, room, &main, m)?;
    if let Some(name) = reached.without_body {
        return Err(EraseRefusal::AxiomReached { name });
    }
    let Ok(families) = families(alloc, env) else {
        return Err(no_memory(Place::Main).into());
    };
    let mut constants = reached.constants;
    constants.reverse();
    Ok(BoxProgram {
        constants: BoxConstants::of(constants),
        families,
        main,
    })
}
