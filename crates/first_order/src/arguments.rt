//! The argument types of constructors, which mention no argument before them.
ghost use Rattle.std.specs.Prelude.{◌≡◌, map, IfOk, IfErr};
ghost use Rattle.pc_terms.specs.declared.term.MakeFault.TheVariants.{Memory};
ghost use Rattle.pc_terms.specs.Syntax.{variables};
ghost use Rattle.pc_rules.specs.declared.meter.Account.{Account};
ghost use Rattle.pc_rules.specs.DirectedFirstOrder.{without, independent, argument_types};
ghost use Rattle.pc_rules.specs.Follows.{Answers};
ghost use Rattle.first_order.specs.Searching.{searched, as_is, one_constructor, types_in, listed, name_in, constructor_name};

use crate::faults::ShapeRefusal;
use crate::vectors::put;
use calculus_rules::declaration::{Constructor, Constructors};
use instances::instances::branches::branch_entries;
use pc_terms::leaf::Name;
use pc_terms::lists::Telescope;
use pc_terms::term::{MakeFault, Node, Term, Terms};
use std::alloc::Global;

/// A constructor's name, and the types of its arguments, each without the arguments before it.
#[derive(Drop)]
pub(crate) struct Arguments {
    pub(crate) name: Name,
    pub(crate) types: Terms,
}

/// The `count` innermost variables, the outermost first. Only `Memory`.
fn variables(alloc: Global, count: u32) -> Result<Terms, MakeFault>
    ensures ok { IfOk result (λ vs. vs ≡ variables count) }
    ensures only_memory { IfErr result (λ e. e ≡ Memory) }
{
    let mut out = Terms::new(alloc);
    for i in 0..count {
        let variable = Term::make(alloc, Node::Rel(count - 1 - i))?;
        out.push(variable)?;
    }
    Ok(out)
}

/// A type behind `count` arguments, without them: none exactly where it mentions one of them. Only `Memory`.
pub(crate) fn without(alloc: Global, count: u32, ty: &Term) -> Result<Option<Term>, MakeFault>
    ensures ok { IfOk result (λ o. o ≡ without count ty.now) }
    ensures only_memory { IfErr result (λ e. e ≡ Memory) }
{
    let before = variables(alloc, count)?;
    // Variables that are put in for variables make no term deeper, and raise no variable's number: only `Memory` is met.
    let whole = ty.share()?;
    let lowered = whole.subst_list(alloc, &before)?;
    let lifted = match lowered.lift(alloc, count, 0) {
        Ok(lifted) => lifted,
        // A term beyond the limits is another one than the type.
        Err(MakeFault::TooDeep) => return Ok(None),
        Err(MakeFault::Memory) => return Err(MakeFault::Memory),
    };
    if lifted.same(ty) {
        return Ok(Some(lowered));
    }
    Ok(None)
}

/// The argument types of a constructor, each without the arguments before it: none exactly where one of them mentions such an argument. Only
/// `Memory`.
fn independent(alloc: Global, entries: &Telescope) -> Result<Option<Terms>, MakeFault>
    ensures ok { IfOk result (λ o. o ≡ independent 0 entries.now) }
    ensures only_memory { IfErr result (λ e. e ≡ Memory) }
{
    let mut types = Terms::new(alloc);
    let entries = entries.as_slice();
    for i in 0..entries.len() {
        let Ok(count) = u32::try_from(i) else {
            return Err(MakeFault::Memory);
        };
        let Some(ty) = without(alloc, count, &entries[i])? else {
            return Ok(None);
        };
        types.push(ty)?;
    }
    Ok(Some(types))
}

/// The argument types of a constructor of a type at its parameters. `NotFirstOrder` with the type where one of them mentions an argument before it;
/// `TooDeep` only where one of them is beyond the limits of terms.
fn types_of(
    alloc: Global,
    ty: &Term,
    params: &Terms,
    ctor: &Constructor,
) -> Result<Terms, ShapeRefusal>
    ensures answers { (u : Account) → Answers (one_constructor ty.now params.now ctor.now u) (searched as_is result) u }
{
    let entries = branch_entries(alloc, ctor, params)?;
    let found = independent(alloc, &entries)?;
    let Some(types) = found else {
        let ty = ty.share()?;
        return Err(ShapeRefusal::NotFirstOrder { ty });
    };
    Ok(types)
}

/// The argument types of all constructors of a type at its parameters, the first constructor first, with their names.
pub(crate) fn argument_types(
    alloc: Global,
    ty: &Term,
    params: &Terms,
    ctors: &Constructors,
) -> Result<Vec<Arguments>, ShapeRefusal>
    ensures answers { (u : Account) → Answers (argument_types ty.now params.now ctors.now u) (searched listed result) u }
    ensures named { IfOk result (λ v. map name_in v.items ≡ map constructor_name ctors.now) }
{
    let mut out = Vec::new(alloc);
    for ctor in ctors.as_slice() {
        let types = types_of(alloc, ty, params, ctor)?;
        let arguments = Arguments {
            name: ctor.name,
            types,
        };
        put(&mut out, arguments)?;
    }
    Ok(out)
}
