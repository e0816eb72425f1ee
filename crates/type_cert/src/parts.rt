//! The parts of two matches and of two fixpoints, two by two: what a script has to show of them in order.
ghost use Rattle.std.specs.Prelude.{◌≡◌, [], ◌∷◌, ◌++◌, true, length, List, Option, Some, None, IfOk, IfErr, MatchBool, MatchOption};
ghost use Rattle.trees.specs.Tree.{terms_of};
ghost use Rattle.pc_terms.specs.Lists.{arms_of, types_of, bodies_of, rargs_of};
ghost use Rattle.calculus_rules.specs.Same.{same_numbers, same_families};
ghost use Rattle.pc_rules.specs.declared.stop.Stop.TheVariants.{Memory};
ghost use Rattle.type_cert.specs.declared.parts.Part.{Part};
ghost use Rattle.type_cert.specs.Pairs.{pair_under, term_pairs, joined, paired_matches, paired_fixpoints};

use pc_rules::stop::Stop;
use pc_terms::leaf::FamilyId;
use pc_terms::term::{Branch, Def, Defs, Match, Term};
use std::alloc::Global;

/// Two terms in one place of two nodes, and under how many more variables they stand there.
#[derive(Drop)]
pub(crate) struct Part {
    pub(crate) left: Term,
    pub(crate) right: Term,
    pub(crate) under: usize,
}

/// Whether two families are one.
pub(crate) fn same_families(f: FamilyId, g: FamilyId) -> bool
    ensures is { result ≡ same_families f g }
{
    f.block.0 == g.block.0 && f.family == g.family
}

/// Puts two terms behind the parts so far. Only `Memory`.
fn put(out: &mut Vec<Part>, left: &Term, right: &Term, under: usize) -> Result<(), Stop>
    ensures ok { IfOk result (λ _. out.new.items ≡ out.old.items ++ pair_under under left.now right.now ∷ []) }
    ensures only_memory { IfErr result (λ e. e ≡ Memory) }
{
    let left = left.share()?;
    let right = right.share()?;
    match out.push(Part { left, right, under }) {
        Ok(()) => Ok(()),
        Err(_) => Err(Stop::Memory),
    }
}

/// Puts the terms of two lists behind the parts so far; false where there are not as many. Only `Memory`.
fn put_terms(out: &mut Vec<Part>, ts: &[Term], us: &[Term]) -> Result<bool, Stop>
    ensures ok { IfOk result (λ b. (o : Option (List Part)) → MatchBool b (joined out.old.items (term_pairs (terms_of ts.now) (terms_of us.now) o) ≡ joined out.new.items o) (joined out.old.items (term_pairs (terms_of ts.now) (terms_of us.now) o) ≡ None)) }
    ensures only_memory { IfErr result (λ e. e ≡ Memory) }
{
    if ts.len() != us.len() {
        return Ok(false);
    }
    for i in 0..ts.len() {
        put(out, &ts[i], &us[i], 0)?;
    }
    Ok(true)
}

/// Puts the bodies of two lists of branches behind the parts so far; false where there are not as many, or two stand under different numbers
/// of variables. Only `Memory`.
fn put_branches(out: &mut Vec<Part>, xs: &[Branch], ys: &[Branch]) -> Result<bool, Stop>
    ensures ok { IfOk result (λ b. (o : Option (List Part)) → MatchBool b (joined out.old.items (term_pairs (arms_of xs.now) (arms_of ys.now) o) ≡ joined out.new.items o) (joined out.old.items (term_pairs (arms_of xs.now) (arms_of ys.now) o) ≡ None)) }
    ensures only_memory { IfErr result (λ e. e ≡ Memory) }
{
    if xs.len() != ys.len() {
        return Ok(false);
    }
    for i in 0..xs.len() {
        let x = &xs[i];
        let y = &ys[i];
        if x.binders != y.binders {
            return Ok(false);
        }
        put(out, &x.body, &y.body, x.binders as usize)?;
    }
    Ok(true)
}

/// Puts the types of two lists of definitions behind the parts so far; false where they have not the same recursive arguments. Only `Memory`.
fn put_types(out: &mut Vec<Part>, ds: &[Def], es: &[Def]) -> Result<bool, Stop>
    ensures same { IfOk result (λ b. b ≡ same_numbers (rargs_of ds.now) (rargs_of es.now)) }
    ensures count { IfOk result (λ b. b ≡ true → length ds.now ≡ length es.now) }
    ensures ok { IfOk result (λ b. b ≡ true → (o : Option (List Part)) → joined out.old.items (term_pairs (types_of ds.now) (types_of es.now) o) ≡ joined out.new.items o) }
    ensures only_memory { IfErr result (λ e. e ≡ Memory) }
{
    if ds.len() != es.len() {
        return Ok(false);
    }
    for i in 0..ds.len() {
        let d = &ds[i];
        let e = &es[i];
        if d.rarg != e.rarg {
            return Ok(false);
        }
        put(out, &d.ty, &e.ty, 0)?;
    }
    Ok(true)
}

/// Puts the bodies of two lists of as many definitions behind the parts so far, each under `count` variables. Only `Memory`.
fn put_bodies(out: &mut Vec<Part>, count: usize, ds: &[Def], es: &[Def]) -> Result<(), Stop>
    requires { length ds.now ≡ length es.now }
    ensures ok { IfOk result (λ _. (o : Option (List Part)) → joined out.old.items (term_pairs (bodies_of count ds.now) (bodies_of count es.now) o) ≡ joined out.new.items o) }
    ensures only_memory { IfErr result (λ e. e ≡ Memory) }
{
    for i in 0..ds.len() {
        put(out, &ds[i].body, &es[i].body, count)?;
    }
    Ok(())
}

/// The parts of two matches: parameters, predicates, scrutinees, branches; none where the families or counts differ. Only `Memory`.
pub(crate) fn match_parts(alloc: Global, x: &Match, y: &Match) -> Result<Option<Vec<Part>>, Stop>
    ensures parts { IfOk result (λ p. MatchOption p (paired_matches x.now y.now ≡ None) (λ v. paired_matches x.now y.now ≡ Some v.items)) }
    ensures only_memory { IfErr result (λ e. e ≡ Memory) }
{
    if !same_families(x.family, y.family) || x.binders != y.binders {
        return Ok(None);
    }
    let mut out = Vec::new(alloc);
    if !put_terms(&mut out, x.params.as_slice(), y.params.as_slice())? {
        return Ok(None);
    }
    put(&mut out, &x.ret, &y.ret, x.binders as usize)?;
    put(&mut out, &x.scrut, &y.scrut, 0)?;
    if !put_branches(&mut out, x.branches.as_slice(), y.branches.as_slice())? {
        return Ok(None);
    }
    Ok(Some(out))
}

/// The parts of two fixpoints: the types of their definitions, then the bodies; none where the indices or recursive arguments differ. Only
/// `Memory`.
pub(crate) fn fix_parts(
    alloc: Global,
    ds: &Defs,
    i: u32,
    es: &Defs,
    j: u32,
) -> Result<Option<Vec<Part>>, Stop>
    ensures parts { IfOk result (λ p. MatchOption p (paired_fixpoints i ds.now j es.now ≡ None) (λ v. paired_fixpoints i ds.now j es.now ≡ Some v.items)) }
    ensures only_memory { IfErr result (λ e. e ≡ Memory) }
{
    if i != j {
        return Ok(None);
    }
    let mut out = Vec::new(alloc);
    if !put_types(&mut out, ds.as_slice(), es.as_slice())? {
        return Ok(None);
    }
    put_bodies(&mut out, ds.len(), ds.as_slice(), es.as_slice())?;
    Ok(Some(out))
}
