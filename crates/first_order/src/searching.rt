//! The search for the types of a first-order set.
ghost use Rattle.std.specs.Prelude.{◌≡◌, ◌↔◌, ◌≤◌, IsTrue, map, length, slice_get, IfOk, IfErr, MatchOption, Some, None};
ghost use Rattle.pc_terms.specs.declared.term.MakeFault.TheVariants.{Memory};
ghost use Rattle.calculus_rules.specs.Environment.{with_parameters};
ghost use Rattle.calculus_rules.specs.FirstOrder.{IsFirstOrder};
ghost use Rattle.calculus_rules.specs.PropSorts.{is_prop};
ghost use Rattle.pc_rules.specs.DirectedFirstOrder.{place_in, put_behind, put_in, put_arguments, put_constructors, member_of, work_type, first_order_search};
ghost use Rattle.pc_rules.specs.Follows.{Follows, IsAfter};
ghost use Rattle.first_order.specs.Searching.{searched, member, members, listed, name_in, ctor_name, places, IsNamed, IsMemberFamily, is_whole, found_at, found_places, found_shape, AreNamed};

use crate::arguments::{Arguments, argument_types};
use crate::faults::ShapeRefusal;
use crate::shapes::{Shape, ShapeCtor, ShapeCtors, ShapeTypes, Shapes};
use crate::vectors::put;
use calculus_rules::declaration::{Block, Family};
use pc_rules::context::Ctx;
use pc_rules::environment::Env;
use pc_rules::meter::Meter;
use pc_rules::reducer::Reducer;
use pc_terms::leaf::FamilyId;
use pc_terms::lists::Numbers;
use pc_terms::term::{MakeFault, Node, Term, Terms};
use std::alloc::Global;
use universe_levels::sort::Sort;

/// The most types of a first-order set.
pub const MOST_TYPES: usize = 1024;

/// Whether two types are one tree. Those of two depths aren't, which needs no walk. Takes no memory.
fn is_same(ty: &Term, other: &Term) -> bool
    ensures is { IsTrue result ↔ (ty.now ≡ other.now) }
{
    let depth = ty.depth();
    if depth != other.depth() {
        return false;
    }
    ty.same(other)
}

/// The place of a type in a list; none where it isn't there. Takes no memory.
fn place_in(types: &[Term], ty: &Term) -> Option<u32>
    requires few { length types.now ≤ 1024 }
    ensures is { result ≡ place_in ty.now types.now }
{
    for i in 0..types.len() {
        if is_same(&types[i], ty) {
            return Some(i as u32);
        }
    }
    None
}

/// Puts a type behind the others, and gives its place. `Types` exactly where there are 1,024; then `Spent` exactly where no unit is left.
fn put_behind(types: &mut Vec<Term>, ty: Term, m: &mut Meter) -> Result<u32, ShapeRefusal>
    requires few { length types.old.items ≤ 1024 }
    ensures follows { Follows (put_behind 1024 types.old.items ty m.old.account) (searched (found_at types.new.items) result) m.old m.new }
    ensures few { IfOk result (λ _. length types.new.items ≤ 1024) }
{
    let place = types.len();
    if place == MOST_TYPES {
        return Err(ShapeRefusal::Types);
    }
    if !m.tick() {
        return Err(ShapeRefusal::Spent);
    }
    put(types, ty)?;
    Ok(place as u32)
}

/// Puts the weak-head normal form of a closed type in, unless it is there, and gives its place.
fn put_in<R: Reducer>(
    alloc: Global,
    reducer: &R,
    env: &Env,
    types: &mut Vec<Term>,
    ty: &Term,
    m: &mut Meter,
) -> Result<u32, ShapeRefusal>
    requires few { length types.old.items ≤ 1024 }
    ensures follows { Follows (put_in env.now 1024 types.old.items ty.now m.old.account) (searched (found_at types.new.items) result) m.old m.new }
    ensures few { IfOk result (λ _. length types.new.items ≤ 1024) }
{
    let ctx = Ctx::new();
    let whnf = reducer.whnf(alloc, env, &ctx, ty, m)?;
    if let Some(place) = place_in(types.as_slice(), &whnf) {
        return Ok(place);
    }
    put_behind(types, whnf, m)
}

/// Puts argument types in, the first first, and gives their places.
fn put_arguments<R: Reducer>(
    alloc: Global,
    reducer: &R,
    env: &Env,
    types: &mut Vec<Term>,
    args: &Terms,
    m: &mut Meter,
) -> Result<Numbers, ShapeRefusal>
    requires few { length types.old.items ≤ 1024 }
    ensures follows { Follows (put_arguments env.now 1024 types.old.items args.now m.old.account) (searched (found_at types.new.items) result) m.old m.new }
    ensures few { IfOk result (λ _. length types.new.items ≤ 1024) }
{
    let mut places = Vec::new(alloc);
    for ty in args.as_slice() {
        let place = put_in(alloc, reducer, env, types, ty, m)?;
        put(&mut places, place)?;
    }
    Ok(Numbers::of(places))
}

/// Puts the argument types of all constructors in, the first constructor first, and gives the constructors with the places of their argument
/// types.
fn put_constructors<R: Reducer>(
    alloc: Global,
    reducer: &R,
    env: &Env,
    types: &mut Vec<Term>,
    ctors: &[Arguments],
    m: &mut Meter,
) -> Result<Vec<ShapeCtor>, ShapeRefusal>
    requires few { length types.old.items ≤ 1024 }
    ensures follows { Follows (put_constructors env.now 1024 types.old.items (map (λ a. a.types) ctors.now) m.old.account) (searched (found_places types.new.items) result) m.old m.new }
    ensures few { IfOk result (λ _. length types.new.items ≤ 1024) }
    ensures named { IfOk result (λ ks. map ctor_name ks.items ≡ map name_in ctors.now) }
{
    let mut out = Vec::new(alloc);
    for ctor in ctors {
        let args = put_arguments(alloc, reducer, env, types, &ctor.types, m)?;
        let name = ctor.name;
        put(&mut out, ShapeCtor { name, args })?;
    }
    Ok(out)
}

/// Whether a sort is `Prop`.
fn is_prop(sort: &Sort) -> bool
    ensures is { result ≡ is_prop sort.now }
{
    matches!(sort, Sort::Prop)
}

/// Whether a family isn't in `Prop`, has no indices, and takes so many parameters.
fn is_whole(block: &Block, family: &Family, count: usize) -> bool
    ensures is { result ≡ is_whole (with_parameters block.now.params family.now) count }
{
    if is_prop(&family.sort) {
        return false;
    }
    family.indices.is_empty() && count == block.params.len()
}

/// The family that a type is, whose head and number of arguments these are: one that is kept, not in `Prop`, without indices, and applied to all
/// its parameters. None where it is no such family.
fn member_of<'a>(env: &'a Env, head: &Term, count: usize) -> Option<(FamilyId, &'a Family)>
    ensures of { MatchOption result (member_of env.now head.now count ≡ None) (λ p. IsMemberFamily env.now head.now count p.0 p.1.now) }
{
    let Node::Ind(id) = head.view() else {
        return None;
    };
    let Some(block) = env.whole_block(id.block) else {
        return None;
    };
    let Some(family) = block.families.as_slice().get(id.family as usize) else {
        return None;
    };
    let whole = is_whole(block, family, count);
    if !whole {
        return None;
    }
    Some((*id, family))
}

/// Works a type of the list: looks at all argument types of its constructors, and then puts them in. `NotFirstOrder` with the type where it is no family of a
/// first-order set.
fn work_type<R: Reducer>(
    alloc: Global,
    reducer: &R,
    env: &Env,
    types: &mut Vec<Term>,
    ty: Term,
    m: &mut Meter,
) -> Result<Shape, ShapeRefusal>
    requires few { length types.old.items ≤ 1024 }
    ensures follows { Follows (work_type env.now 1024 types.old.items ty m.old.account) (searched (found_shape types.new.items) result) m.old m.new }
    ensures few { IfOk result (λ _. length types.new.items ≤ 1024) }
    ensures named { IfOk result (λ h. IsNamed env.now h) }
{
    let (head, params) = ty.spine(alloc)?;
    let Some((_, family)) = member_of(env, &head, params.len()) else {
        return Err(ShapeRefusal::NotFirstOrder { ty });
    };
    let arguments = argument_types(alloc, &ty, &params, &family.ctors)?;
    let ctors = put_constructors(alloc, reducer, env, types, arguments.as_slice(), m)?;
    Ok(Shape {
        ty,
        ctors: ShapeCtors::of(ctors),
    })
}

/// Type i of a list; none where there are not so many. Only `Memory`.
fn type_at(types: &[Term], i: usize) -> Result<Option<Term>, MakeFault>
    ensures ok { IfOk result (λ o. o ≡ slice_get types.now i) }
    ensures only_memory { IfErr result (λ e. e ≡ Memory) }
{
    match types.get(i) {
        Some(ty) => {
            let ty = ty.share()?;
            Ok(Some(ty))
        }
        None => Ok(None),
    }
}

/// The types of a first-order set of a closed type, its weak-head normal form first: a type is a family at its parameters, and its constructors
/// have their names and the places of their argument types.
///
/// A list of types is worked from its front: all argument types of a type's constructors are looked at, and then their weak-head normal forms are
/// put in, unless they are there. A type that is put in takes a unit, and so does each step of a reduction. `NotFirstOrder` with the first type worked that
/// is no family which isn't in `Prop`, has no indices, is applied to all its parameters, and whose argument types mention no argument before them; `Types`
/// exactly where a type number 1,025 would be put in. `Spent` exactly where the search has no end within the units left and `TooDeep` did not come.
/// `TooDeep` only where a term of the search is beyond the limits of terms in memory.
pub fn first_order<R: Reducer>(
    alloc: Global,
    reducer: &R,
    env: &Env,
    ty: &Term,
    m: &mut Meter,
) -> Result<Shapes, ShapeRefusal>
    ensures follows { Follows (first_order_search env.now ty.now m.old.account) (searched (λ s. members s.types) result) m.old m.new }
    ensures set { IfOk result (λ s. IsFirstOrder env.now ty.now (members s.types)) }
    ensures named { IfOk result (λ s. AreNamed env.now s.types) }
{
    let mut types = Vec::new(alloc);
    put_in(alloc, reducer, env, &mut types, ty, m)?;
    let mut shapes = Vec::new(alloc);
    'types: while let Some(next) = type_at(types.as_slice(), shapes.len())? {
        let shape = work_type(alloc, reducer, env, &mut types, next, m)?;
        put(&mut shapes, shape)?;
    }
    Ok(Shapes {
        types: ShapeTypes::of(shapes),
    })
}
