//! Tests of positivity that wait for others.
ghost use Rattle.std.specs.Prelude.{◌≡◌, ◌≤◌, ◌++◌, IfOk, IfErr, length, map};
ghost use Rattle.pc_terms.specs.Syntax.{args};
ghost use Rattle.calculus_rules.specs.Positivity.{parameter_target};
ghost use Rattle.pc_rules.specs.declared.stop.Stop.TheVariants.{Memory};
ghost use Rattle.inductive_check.specs.Waiting.{waiting, arguments_waiting, types_waiting, constructors_waiting, families_waiting};

use crate::listing::push;
use calculus_rules::declaration::{Block, Constructor, Family};
use calculus_rules::target::Target;
use pc_rules::stop::Stop;
use pc_terms::term::{Node, Term};

/// A test that waits.
#[derive(Drop)]
pub(crate) enum Test<'a> {
    /// Whether a type, under so many variables more than the target's parameters, is good for the target.
    Good {
        target: Target,
        under: u32,
        ty: &'a Term,
    },
    /// Whether an argument of a family of a block, by its place from 0, fits there: as `Good`, and with the place among the block's parameters.
    Fits {
        target: Target,
        under: u32,
        block: &'a Block,
        place: usize,
        term: &'a Term,
    },
}

/// Puts tests of the arguments of a term, of which there are `count`, behind those that wait, so that the first argument's comes last. Only
/// `Memory`.
pub(crate) fn push_arguments<'a>(
    target: Target,
    under: u32,
    block: &'a Block,
    count: usize,
    ty: &'a Term,
    tests: &mut Vec<Test<'a>>,
) -> Result<(), Stop>
    requires count { count ≡ length (args ty.now) }
    ensures pushed { IfOk result (λ _. map waiting tests.new.items ≡ map waiting tests.old.items ++ arguments_waiting target under block.now ty.now) }
    ensures only_memory { IfErr result (λ s. s ≡ Memory) }
{
    match ty.view() {
        Node::App(function, term) => {
            let place = count - 1;
            push(
                tests,
                Test::Fits {
                    target,
                    under,
                    block,
                    place,
                    term,
                },
            )?;
            push_arguments(target, under, block, place, function, tests)
        }
        _ => Ok(()),
    }
}

/// Puts tests of the argument types of a constructor behind those that wait, so that the first argument's comes last. Only `Memory`.
fn push_types<'a>(
    target: Target,
    ctor: &'a Constructor,
    tests: &mut Vec<Test<'a>>,
) -> Result<(), Stop>
    ensures pushed { IfOk result (λ _. map waiting tests.new.items ≡ map waiting tests.old.items ++ types_waiting target 0 ctor.now.args) }
    ensures only_memory { IfErr result (λ s. s ≡ Memory) }
{
    let args = ctor.args.as_slice();
    let count = args.len();
    for i in 0..count {
        let place = count - 1 - i;
        let Ok(under) = u32::try_from(place) else {
            return Err(Stop::Memory);
        };
        let ty = &args[place];
        push(tests, Test::Good { target, under, ty })?;
    }
    Ok(())
}

/// Puts tests of the argument types of all constructors of a family behind those that wait, so that the first one's comes last. Only `Memory`.
fn push_constructors<'a>(
    target: Target,
    family: &'a Family,
    tests: &mut Vec<Test<'a>>,
) -> Result<(), Stop>
    ensures pushed { IfOk result (λ _. map waiting tests.new.items ≡ map waiting tests.old.items ++ constructors_waiting target family.now.ctors) }
    ensures only_memory { IfErr result (λ s. s ≡ Memory) }
{
    let ctors = family.ctors.as_slice();
    let count = ctors.len();
    for i in 0..count {
        push_types(target, &ctors[count - 1 - i], tests)?;
    }
    Ok(())
}

/// Puts tests of all argument types of a block behind those that wait, so that the first one's comes last. Only `Memory`.
pub(crate) fn push_families<'a>(
    target: Target,
    block: &'a Block,
    tests: &mut Vec<Test<'a>>,
) -> Result<(), Stop>
    ensures pushed { IfOk result (λ _. map waiting tests.new.items ≡ map waiting tests.old.items ++ families_waiting target block.now.families) }
    ensures only_memory { IfErr result (λ s. s ≡ Memory) }
{
    let families = block.families.as_slice();
    let count = families.len();
    for i in 0..count {
        push_constructors(target, &families[count - 1 - i], tests)?;
    }
    Ok(())
}
