//! Strict positivity: which types may be those of an argument.
ghost use Rattle.std.specs.Prelude.{◌≡◌, ◌+◌, ◌++◌, ◌∷◌, [], ℕ, true, IfOk, IfErr, Err, length, map};
ghost use Rattle.pc_terms.specs.Syntax.{Term, Rel, Prod, args};
ghost use Rattle.pc_rules.specs.declared.meter.Meter.{Meter};
ghost use Rattle.pc_rules.specs.declared.stop.Stop.TheVariants.{Memory};
ghost use Rattle.calculus_rules.specs.Environment.{Env};
ghost use Rattle.calculus_rules.specs.Naming.{names};
ghost use Rattle.calculus_rules.specs.Positivity.{block_of};
ghost use Rattle.pc_rules.specs.DirectedPositivity.{is_positive, own_arguments};
ghost use Rattle.pc_rules.specs.Follows.{Follows, halted};
ghost use Rattle.inductive_check.specs.Waiting.{waiting, type_waits, argument_waits, each_test, Goes, own_from};

use crate::listing::push;
use crate::places::{parameter_target, types_name};
use crate::waiting::{Test, push_arguments, push_families};
use calculus_rules::declaration::Block;
use calculus_rules::target::Target;
use pc_rules::environment::Env;
use pc_rules::meter::Meter;
use pc_rules::naming::{names, some_names};
use pc_rules::stop::Stop;
use pc_terms::leaf::Name;
use pc_terms::term::{Node, Term, Terms};
use std::alloc::Global;

/// The block that a target is of.
fn block_of(target: Target) -> Name
    ensures is { result ≡ block_of target }
{
    match target {
        Target::Families(block) => block,
        Target::Parameter { block, .. } => block,
    }
}

/// Whether the arguments of a term, of which there are `given`, are the `count` parameters of the target's block in order and then arguments
/// that do not name the target.
fn parameters_come_first(target: Target, count: u32, under: u32, given: usize, ty: &Term) -> bool
    requires given { given ≡ length (args ty.now) }
    ensures is { result ≡ own_from target count under given ty.now }
{
    match ty.view() {
        Node::App(function, argument) => {
            let place = given - 1;
            let fits = if place < count as usize {
                match argument.view() {
                    Node::Rel(i) => u64::from(*i)
                        == u64::from(count) - 1 - place as u64 + u64::from(under),
                    _ => false,
                }
            } else {
                !names(target, under, argument)
            };
            fits && parameters_come_first(target, count, under, place, function)
        }
        _ => true,
    }
}

/// Whether the arguments of a family of the target's own block fit: none names the target; where the target is a parameter, the block's own
/// parameters come first, in order.
#[tactic(auto, using(crate::proofs::Own::own_long, crate::proofs::Own::own_short))]
fn own_arguments(target: Target, under: u32, xs: &Terms, ty: &Term) -> bool
    requires args { xs.now ≡ args ty.now }
    ensures is { result ≡ own_arguments target under xs.now }
{
    match target {
        Target::Families(_) => !some_names(target, under, xs.as_slice()),
        Target::Parameter { count, .. } => {
            if xs.len() < count as usize {
                return false;
            }
            parameters_come_first(target, count, under, xs.len(), ty)
        }
    }
}

/// Tests a type that names the target and is no product: whether it is a family of the target's own block with arguments that fit, or one of
/// an earlier block with at least all its parameters, of whose arguments tests are put behind those that wait.
fn family_good<'a>(
    alloc: Global,
    env: &'a Env,
    target: Target,
    under: u32,
    ty: &'a Term,
    tests: &mut Vec<Test<'a>>,
) -> Result<bool, Stop>
    requires names { names target under ty.now ≡ true }
    requires no_product { (A B : Term) → ty.now ≡ Prod A B → ⊥ }
    requires no_variable { (i : ℕ) → ty.now ≡ Rel i → ⊥ }
    ensures goes { IfOk result (λ b. (m : Meter) → Goes env.now (map waiting tests.old.items) (type_waits target under ty.now) (map waiting tests.new.items) m m b) }
    ensures only_memory { IfErr result (λ s. s ≡ Memory) }
{
    let (head, xs) = ty.spine(alloc)?;
    let Node::Ind(family) = head.view() else {
        return Ok(false);
    };
    if family.block.0 == block_of(target).0 {
        return Ok(own_arguments(target, under, &xs, ty));
    }
    let Some(block) = env.whole_block(family.block) else {
        return Ok(false);
    };
    if xs.len() < block.params.len() {
        return Ok(false);
    }
    push_arguments(target, under, block, xs.len(), ty, tests)?;
    Ok(true)
}

/// Tests whether a type, under so many variables more than the target's parameters, is good for the target, as far as tests that are put
/// behind those that wait do not decide it. False where it is not. Only `Memory`, also where a variable's number passes 4,294,967,295.
fn type_good<'a>(
    alloc: Global,
    env: &'a Env,
    target: Target,
    under: u32,
    ty: &'a Term,
    tests: &mut Vec<Test<'a>>,
) -> Result<bool, Stop>
    ensures goes { IfOk result (λ b. (m : Meter) → Goes env.now (map waiting tests.old.items) (type_waits target under ty.now) (map waiting tests.new.items) m m b) }
    ensures only_memory { IfErr result (λ s. s ≡ Memory) }
{
    match ty.view() {
        Node::Rel(_) => Ok(true),
        Node::Prod(domain, codomain) => {
            if names(target, under, domain) {
                return Ok(false);
            }
            let Some(inner) = under.checked_add(1) else {
                return Err(Stop::Memory);
            };
            type_good(alloc, env, target, inner, codomain, tests)
        }
        _ => {
            if !names(target, under, ty) {
                return Ok(true);
            }
            family_good(alloc, env, target, under, ty, tests)
        }
    }
}

/// Tests an argument of a family of a block: where it names the target, it is a parameter, a unit is taken, and its place is nestable and it
/// is a good type, as far as tests that are put behind those that wait do not decide it.
fn argument_good<'a>(
    target: Target,
    under: u32,
    block: &'a Block,
    place: usize,
    term: &'a Term,
    tests: &mut Vec<Test<'a>>,
    m: &mut Meter,
) -> Result<bool, Stop>
    ensures goes { (E : Env) → IfOk result (λ b. Goes E (map waiting tests.old.items) (argument_waits target under block.now place term.now) (map waiting tests.new.items) m.old m.new b) }
    ensures stops { (E : Env) → IfErr result (λ s. Follows (each_test E (map waiting tests.old.items ++ (argument_waits target under block.now place term.now ∷ [])) m.old.account) (halted (Err s)) m.old m.new) }
{
    if !names(target, under, term) {
        return Ok(true);
    }
    if place >= block.params.len() {
        return Ok(false);
    }
    if !m.tick() {
        return Err(Stop::Spent);
    }
    let parameter = parameter_target(block, place)?;
    if types_name(block, place, parameter)? {
        return Ok(false);
    }
    push(
        tests,
        Test::Good {
            target,
            under,
            ty: term,
        },
    )?;
    push_families(parameter, block, tests)?;
    Ok(true)
}

/// Does a test: false where it fails; and else it holds where those hold that are put behind those that wait.
fn one_good<'a>(
    alloc: Global,
    env: &'a Env,
    test: Test<'a>,
    tests: &mut Vec<Test<'a>>,
    m: &mut Meter,
) -> Result<bool, Stop>
    ensures goes { IfOk result (λ b. Goes env.now (map waiting tests.old.items) (waiting test.entry) (map waiting tests.new.items) m.old m.new b) }
    ensures stops { IfErr result (λ s. Follows (each_test env.now (map waiting tests.old.items ++ (waiting test.entry ∷ [])) m.old.account) (halted (Err s)) m.old m.new) }
{
    match test {
        Test::Good { target, under, ty } => type_good(alloc, env, target, under, ty, tests),
        Test::Fits {
            target,
            under,
            block,
            place,
            term,
        } => argument_good(target, under, block, place, term, tests, m),
    }
}

/// Whether all of some tests hold, the last first.
///
/// Blocks may nest one another as often as there are units for that. So tests wait in a list, and not in calls.
fn all_good<'a>(
    alloc: Global,
    env: &'a Env,
    mut tests: Vec<Test<'a>>,
    m: &mut Meter,
) -> Result<bool, Stop>
    ensures follows { Follows (each_test env.now (map waiting tests.entry.items) m.old.account) (halted result) m.old m.new }
{
    for _ in 0..u64::MAX {
        let Some(test) = tests.pop() else {
            return Ok(true);
        };
        if !one_good(alloc, env, test, &mut tests, m)? {
            return Ok(false);
        }
    }
    // No memory holds so many tests.
    Err(Stop::Memory)
}

/// Whether a type is one that an argument of a constructor of the block may have: strictly positive for the block's families, also where
/// they stand as parameters of earlier families. Takes a unit for each such parameter. `Spent` exactly where there are too few. Never
/// `TooDeep`.
pub(crate) fn is_positive(
    alloc: Global,
    env: &Env,
    block: Name,
    ty: &Term,
    m: &mut Meter,
) -> Result<bool, Stop>
    ensures follows { Follows (is_positive env.now block ty.now m.old.account) (halted result) m.old m.new }
{
    let mut tests = Vec::new(alloc);
    let target = Target::Families(block);
    push(
        &mut tests,
        Test::Good {
            target,
            under: 0,
            ty,
        },
    )?;
    all_good(alloc, env, tests, m)
}
