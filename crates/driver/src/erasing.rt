//! Erasure of an accepted environment, with the units that are left of a job.
ghost use Rattle.std.specs.Prelude.{◌≡◌, ◌<◌, ℕ, List, IfOk, length};
ghost use Rattle.dump_reader.specs.Spelled.{IsSpelled};
ghost use Rattle.pc_rules.specs.declared.broken.Broken.{Broken as Rule};
ghost use Rattle.pc_rules.specs.declared.broken.Place.TheVariants.{Declaration};
ghost use Rattle.rule_laws.specs.Declarations.{IsCheckedEnvironment};
ghost use Rattle.env_check.specs.Rules.{givens};
ghost use Rattle.lambda_box.specs.BoxForm.{IsBoxProgram};
ghost use Rattle.erase_laws.specs.ErasedProgram.{HasErased, IsErased};
ghost use Rattle.driver.specs.Judged.{IsTableName};
ghost use Rattle.driver.specs.ErasureParts.{AxiomSays, HaltSays};
ghost use Rattle.driver.specs.ExecEnds.{ErasureSays};

use crate::check::{number, told};
use crate::refusal::Refusal;
use box_terms::program::BoxProgram;
use dump_reader::environment::RawEnv;
use erase::program::erase_at_sites;
use erase::refusal::EraseRefusal;
use guard_check::guard::Guard;
use lazy_conversion::comparison::LazyCompare;
use pc_rules::accepted::Accepted;
use pc_rules::broken::{Broken, Place};
use pc_rules::meter::Meter;
use pc_rules::stop::{Halt, Stop};
use pc_terms::leaf::Name;
use read_counts::read_counts_are_few;
use reduce_machine::closures::Closures;
use std::alloc::Global;
use type_infer::inference::Inference;

/// The refusal of a rule that is broken at a place, which is one of the environment. Else `Memory`.
fn broken(alloc: Global, raw: &RawEnv, place: Place, rule: &Broken) -> Refusal
    requires spelled { IsSpelled raw.now }
    requires within { (i : ℕ) → place ≡ Declaration i → i < length raw.now.decls }
    ensures says { HaltSays raw.now place (Halt.Broken rule.now) result }
{
    match told(alloc, raw, place) {
        Ok(place) => Refusal::Broken {
            number: number(rule),
            place,
        },
        Err(refusal) => refusal,
    }
}

/// The refusal of a halt at a place, which is one of the environment. Else `Memory`.
fn halted(alloc: Global, raw: &RawEnv, place: Place, halt: &Halt) -> Refusal
    requires spelled { IsSpelled raw.now }
    requires within { (b : Rule) (i : ℕ) → halt.now ≡ Halt.Broken b → place ≡ Declaration i → i < length raw.now.decls }
    ensures says { HaltSays raw.now place halt.now result }
{
    match halt {
        Halt::Stop(Stop::Spent) => Refusal::TurnsSpent,
        Halt::Stop(Stop::TooDeep) => Refusal::Depth,
        Halt::Stop(Stop::Memory) => Refusal::Memory,
        Halt::Broken(rule) => broken(alloc, raw, place, rule),
    }
}

/// The refusal of a constant without a body, whose name stands in the table. Else `Memory`.
fn axiom(alloc: Global, raw: &RawEnv, name: Name) -> Refusal
    requires there { (text : List ℕ) × IsTableName raw.now name.0 text }
    ensures says { AxiomSays raw.now name result }
{
    match raw.names.text(name.0) {
        Some(text) => match Vec::from_slice(alloc, text.as_bytes()) {
            Ok(name) => Refusal::Axiom { name },
            Err(_) => Refusal::Memory,
        },
        None => unreachable!(),
    }
}

/// The program that an accepted environment is erased to.
pub(crate) fn erased(
    alloc: Global,
    raw: &RawEnv,
    accepted: &Accepted,
    m: &mut Meter,
) -> Result<BoxProgram, Refusal>
    requires spelled { IsSpelled raw.now }
    requires checked { IsCheckedEnvironment raw.now.levels raw.now.constraints (givens raw.now) raw.now.main accepted.now.env accepted.now.main_type }
    requires main { accepted.now.main ≡ raw.now.main }
    requires nest { m.old.nest ≡ 0 }
    ensures says { ErasureSays raw.now accepted.now.env accepted.now.main m.old.account result m.new.account }
    ensures form { IfOk result IsBoxProgram }
    ensures erased { IfOk result (IsErased accepted.now.env accepted.now.main) }
    ensures sources { IfOk result (HasErased accepted.now.env) }
{
    read_counts_are_few();
    let typer = Inference::new(Closures, LazyCompare, Guard::new(Closures));
    match erase_at_sites(alloc, &typer, &Closures, accepted, m) {
        Ok(program) => Ok(program),
        Err(EraseRefusal::Halt { place, halt }) => Err(halted(alloc, raw, place, &halt)),
        Err(EraseRefusal::AxiomReached { name }) => Err(axiom(alloc, raw, name)),
    }
}
