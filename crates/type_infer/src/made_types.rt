//! Types of families and constructors that were made before, which are used again where they are those of the declarations that are found.
//!
//! A table has the type that was made last at each of its places, which are told by the numbers of a family and of a constructor. Nothing is
//! promised of a type that is found by its numbers: it is compared with the declaration that the environment keeps, part by part, and used where it
//! is that declaration's type. The parts are the declaration's own terms, shared, so no comparison of two takes a walk; only in another
//! environment the numbers may name another declaration.
//!
//! Memory: a table has at most 4,096 types, and grows with the numbers of what is asked for. Where there is no memory for it, nothing is kept.
ghost use Rattle.std.specs.Prelude.{◌≡◌, ◌++◌, IfOk, IfErr, IfSome, IsTrue, length, map};
ghost use Rattle.calculus_rules.specs.declared.declaration.Family.{Family};
ghost use Rattle.calculus_rules.specs.Environment.{with_parameters};
ghost use Rattle.calculus_rules.specs.Instances.{products, family_type, constructor_type};
ghost use Rattle.pc_rules.specs.DirectedRun.{is_beyond};
ghost use Rattle.pc_terms.specs.Syntax.{Rel, Ind, apply, shift, variables};
ghost use Rattle.pc_terms.specs.declared.term.MakeFault.TheVariants.{TooDeep};

use calculus_rules::declaration::{Block, Constructor, Family};
use instances::instances::constructors::constructor_type;
use instances::instances::families::family_type;
use pc_terms::leaf::FamilyId;
use pc_terms::lists::Telescope;
use pc_terms::term::{DEPTH_LIMIT, MakeFault, Node, Term};
use std::alloc::Global;
use std::cell::Cell;

/// So many types a table has at most.
const MOST_MADE: u32 = 4096;

/// A type that was made: that of item `number` of a family, where number 0 is the family itself, and number c + 1 is constructor c.
#[derive(Drop)]
struct Made {
    family: FamilyId,
    number: u32,
    ty: Term,
}

/// A table of types of families and constructors, with room for `most` of them. Clauses know nothing of what is in it.
#[derive(Drop)]
pub struct MadeTypes {
    most: u32,
    places: Cell<Option<Vec<Option<Made>>>>,
}

/// What a product over a telescope ends in, where the term is such a product.
fn end_of<'a>(ty: &'a Term, telescope: &Telescope) -> Option<&'a Term>
    ensures is { IfSome result (λ end. ty.now ≡ products telescope.now end.now) }
{
    let types = telescope.as_slice();
    let mut rest = ty;
    for i in 0..types.len() {
        match rest.view() {
            Node::Prod(domain, codomain) => {
                if !domain.same(&types[i]) {
                    return None;
                }
                rest = codomain;
            }
            _ => return None,
        }
    }
    Some(rest)
}

/// What is applied to the terms, where the term is an application to them.
fn function_of<'a>(applied: &'a Term, items: &[Term]) -> Option<&'a Term>
    ensures is { IfSome result (λ f. applied.now ≡ apply f.now items.now) }
{
    let mut rest = applied;
    let count = items.len();
    for i in 0..count {
        match rest.view() {
            Node::App(function, argument) => {
                if !argument.same(&items[count - 1 - i]) {
                    return None;
                }
                rest = function;
            }
            _ => return None,
        }
    }
    Some(rest)
}

/// What is applied to the `count` innermost variables, each lifted by `above`, where the term is an application to them.
fn function_of_variables(applied: &Term, above: u32, count: u32) -> Option<&Term>
    ensures is { IfSome result (λ f. applied.now ≡ apply f.now (map (shift above 0) (variables count))) }
{
    let mut rest = applied;
    for i in 0..count {
        match rest.view() {
            Node::App(function, argument) => {
                if !is_variable(argument, u64::from(above) + u64::from(i)) {
                    return None;
                }
                rest = function;
            }
            _ => return None,
        }
    }
    Some(rest)
}

/// Whether a term is the variable of a number.
fn is_variable(t: &Term, number: u64) -> bool
    ensures is { IsTrue result → t.now ≡ Rel number }
{
    match t.view() {
        Node::Rel(i) => u64::from(*i) == number,
        _ => false,
    }
}

/// Whether a term is the type of a family of a block.
fn is_family_type(ty: &Term, block: &Block, family: &Family) -> bool
    ensures is { IsTrue result → ty.now ≡ family_type (with_parameters block.now.params family.now) }
{
    let Some(arity) = end_of(ty, &block.params) else {
        return false;
    };
    let Some(end) = end_of(arity, &family.indices) else {
        return false;
    };
    match end.view() {
        Node::Sort(sort) => sort.same(&family.sort),
        _ => false,
    }
}

/// Whether a term is a family, without arguments.
fn is_family(t: &Term, id: FamilyId) -> bool
    ensures is { IsTrue result → t.now ≡ Ind id }
{
    match t.view() {
        Node::Ind(family) => *family == id,
        _ => false,
    }
}

/// Whether a term is what a constructor builds under so many parameters and arguments: family `id` at the parameters and at `indices`.
fn is_built(end: &Term, id: FamilyId, params: u32, args: u32, indices: &[Term]) -> bool
    ensures is { IsTrue result → end.now ≡ apply (Ind id) (map (shift args 0) (variables params) ++ indices.now) }
{
    let Some(applied) = function_of(end, indices) else {
        return false;
    };
    let Some(head) = function_of_variables(applied, args, params) else {
        return false;
    };
    is_family(head, id)
}

/// The length of a telescope, none where it is over 2,048, which no product over it can be.
fn short_length(telescope: &Telescope) -> Option<u32>
    ensures is { IfSome result (λ n. n ≡ length telescope.now) }
{
    let items = telescope.len();
    if items > DEPTH_LIMIT as usize {
        return None;
    }
    Some(items as u32)
}

/// Whether a term is the type of a constructor of family `id` of a block.
#[tactic(auto, using(crate::proofs::MadeTypes::constructor_parts))]
fn is_constructor_type(ty: &Term, id: FamilyId, block: &Block, ctor: &Constructor) -> bool
    ensures is { IsTrue result → (G : Family) → ty.now ≡ constructor_type id (with_parameters block.now.params G) ctor.now }
{
    let Some(inner) = end_of(ty, &block.params) else {
        return false;
    };
    let Some(end) = end_of(inner, &ctor.args) else {
        return false;
    };
    let (Some(params), Some(args)) = (short_length(&block.params), short_length(&ctor.args)) else {
        return false;
    };
    is_built(end, id, params, args, ctor.result.as_slice())
}

/// The type of an item of a family, where it lies at that place of a table.
fn type_at(places: &[Option<Made>], place: u32, id: FamilyId, number: u32) -> Option<Term> {
    match places.get(place as usize) {
        Some(Some(made)) => {
            if made.family == id && made.number == number {
                made.ty.share().ok()
            } else {
                None
            }
        }
        _ => None,
    }
}

/// Puts a type at a place of a table, which becomes longer for that, if there is memory for it.
fn put_at(places: &mut Vec<Option<Made>>, place: u32, made: Made) {
    for _ in places.len()..place as usize + 1 {
        if places.push(None).is_err() {
            return;
        }
    }
    if let Some(at) = places.get_mut(place as usize) {
        *at = Some(made);
    }
}

impl MadeTypes {
    /// A table without types. Takes no memory.
    pub fn new() -> MadeTypes {
        MadeTypes {
            most: MOST_MADE,
            places: Cell::new(None),
        }
    }

    /// A table that has room for no type. Takes no memory.
    pub(crate) fn none() -> MadeTypes {
        MadeTypes {
            most: 0,
            places: Cell::new(None),
        }
    }

    /// The place for an item of a family.
    fn place(&self, id: FamilyId, number: u32) -> Option<u32> {
        let block = id.block.0.wrapping_mul(8);
        let family = id.family.wrapping_mul(64);
        let sum = block.wrapping_add(family).wrapping_add(number);
        sum.checked_rem(self.most)
    }

    /// The type of an item of a family, if it is there.
    fn found(&self, id: FamilyId, number: u32) -> Option<Term> {
        let place = self.place(id, number)?;
        let places = self.places.replace(None)?;
        let found = type_at(places.as_slice(), place, id, number);
        self.places.set(Some(places));
        found
    }

    /// Keeps the type of an item of a family, if there is memory for that.
    fn keep(&self, alloc: Global, id: FamilyId, number: u32, ty: &Term) {
        let (Some(place), Ok(ty)) = (self.place(id, number), ty.share()) else {
            return;
        };
        let mut places = match self.places.replace(None) {
            Some(places) => places,
            None => Vec::new(alloc),
        };
        let made = Made {
            family: id,
            number,
            ty,
        };
        put_at(&mut places, place, made);
        self.places.set(Some(places));
    }

    /// The type of family `id`, which is one of a block: what is kept of it, or one that is made and kept. `TooDeep` only where the type is
    /// beyond the limits of terms, and else only `Memory`.
    pub(crate) fn family_type(
        &self,
        alloc: Global,
        id: FamilyId,
        block: &Block,
        family: &Family,
    ) -> Result<Term, MakeFault>
        ensures ok { IfOk result (λ t. t ≡ family_type (with_parameters block.now.params family.now)) }
        ensures too_deep { IfErr result (λ e. e ≡ TooDeep → IsTrue (is_beyond (family_type (with_parameters block.now.params family.now)))) }
    {
        if let Some(found) = self.found(id, 0) {
            if is_family_type(&found, block, family) {
                return Ok(found);
            }
        }
        let made = family_type(alloc, block, family)?;
        self.keep(alloc, id, 0, &made);
        Ok(made)
    }

    /// The type of constructor `number` of family `id`, which is one of a block: what is kept of it, or one that is made and kept. `TooDeep`
    /// only where the type is beyond the limits of terms, and else only `Memory`.
    pub(crate) fn constructor_type(
        &self,
        alloc: Global,
        id: FamilyId,
        number: u32,
        block: &Block,
        ctor: &Constructor,
    ) -> Result<Term, MakeFault>
        ensures ok { IfOk result (λ t. (G : Family) → t ≡ constructor_type id (with_parameters block.now.params G) ctor.now) }
        ensures too_deep { IfErr result (λ e. e ≡ TooDeep → (G : Family) → IsTrue (is_beyond (constructor_type id (with_parameters block.now.params G) ctor.now))) }
    {
        let item = number.wrapping_add(1);
        if let Some(found) = self.found(id, item) {
            if is_constructor_type(&found, id, block, ctor) {
                return Ok(found);
            }
        }
        let made = constructor_type(alloc, id, block, ctor)?;
        self.keep(alloc, id, item, &made);
        Ok(made)
    }
}
