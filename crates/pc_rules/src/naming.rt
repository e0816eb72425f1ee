//! Which terms name the families of a block, or a parameter of one.
ghost use Rattle.std.specs.Prelude.{◌≡◌, ◌<◌, ◌^◌, ◌||◌, length};
ghost use Rattle.trees.specs.Tree.{terms_of};
ghost use Rattle.pc_terms.specs.Lists.{arms_of, types_of, bodies_of};
ghost use Rattle.pc_terms.specs.View.{tree_of};
ghost use Rattle.pc_terms.specs.declared.term.Node.TheVariants.{Case};
ghost use Rattle.calculus_rules.specs.Naming.{names_block, names_block_terms, has_variable, has_variable_terms, names, some_names};

use calculus_rules::target::Target;
use pc_terms::leaf::Name;
use pc_terms::term::{Branch, Def, Match, Node, Term};

/// Whether one of the terms names a family of the block.
#[cycle(blocks)]
#[tactic(auto, using(pc_terms::specs::Falls::falls, std::proofs::lemmas::Grind::common_steps))]
fn terms_name_block(block: Name, ts: &[Term]) -> bool
    ensures is { result ≡ names_block_terms block (terms_of ts.now) }
{
    for t in ts {
        if names_block(block, t) {
            return true;
        }
    }
    false
}

/// Whether the body of one of the branches does.
#[cycle(blocks)]
#[tactic(auto, using(pc_terms::specs::Falls::falls, std::proofs::lemmas::Grind::common_steps))]
fn branches_name_block(block: Name, bs: &[Branch]) -> bool
    ensures is { result ≡ names_block_terms block (arms_of bs.now) }
{
    for b in bs {
        if names_block(block, &b.body) {
            return true;
        }
    }
    false
}

/// Whether the type or the body of one of the definitions does.
#[cycle(blocks)]
#[tactic(auto, using(pc_terms::specs::Falls::falls, std::proofs::lemmas::Grind::common_steps))]
fn definitions_name_block(block: Name, ds: &[Def]) -> bool
    ensures is { result ≡ (names_block_terms block (types_of ds.now) || names_block_terms block (bodies_of (length ds.now) ds.now)) }
{
    for d in ds {
        if names_block(block, &d.ty) {
            return true;
        }
        if names_block(block, &d.body) {
            return true;
        }
    }
    false
}

/// Whether a match is of a family of the block, or a part of it names one.
#[cycle(blocks)]
#[tactic(auto, using(pc_terms::specs::Falls::falls, std::proofs::lemmas::Grind::common_steps))]
fn match_names_block(block: Name, m: &Match) -> bool
    ensures is { result ≡ names_block block (tree_of (Case m.now)) }
{
    if m.family.block.0 == block.0 || terms_name_block(block, m.params.as_slice()) {
        return true;
    }
    if names_block(block, &m.ret) || names_block(block, &m.scrut) {
        return true;
    }
    branches_name_block(block, m.branches.as_slice())
}

/// Whether a term names a family of the block: as itself, by a constructor or by a match. Takes no memory.
#[cycle(blocks)]
#[tactic(auto, using(pc_terms::specs::Falls::falls, std::proofs::lemmas::Grind::common_steps))]
pub fn names_block(block: Name, t: &Term) -> bool
    ensures is { result ≡ names_block block t.now }
{
    match t.view() {
        Node::Rel(_) => false,
        Node::Sort(_) => false,
        Node::Prod(domain, codomain) => names_block(block, domain) || names_block(block, codomain),
        Node::Lambda(domain, body) => names_block(block, domain) || names_block(block, body),
        Node::LetIn(value, ty, body) => {
            names_block(block, value) || names_block(block, ty) || names_block(block, body)
        }
        Node::App(function, argument) => {
            names_block(block, function) || names_block(block, argument)
        }
        Node::Const(_) => false,
        Node::Ind(family) => family.block.0 == block.0,
        Node::Construct(family, _) => family.block.0 == block.0,
        Node::Case(m) => match_names_block(block, m.get()),
        Node::Fix(ds, _) => definitions_name_block(block, ds.as_slice()),
    }
}

/// Whether a variable, by its number as it is seen from outside, stands in one of the terms.
#[cycle(variables)]
#[tactic(auto, using(pc_terms::specs::Falls::falls, crate::proofs::Variables::variable_laws, std::proofs::lemmas::Grind::common_steps))]
fn terms_have_variable(i: u64, ts: &[Term]) -> bool
    requires small { i < 2 ^ 32 }
    ensures is { result ≡ has_variable_terms i (terms_of ts.now) }
{
    for t in ts {
        if has_variable(i, t) {
            return true;
        }
    }
    false
}

/// Whether it stands in the body of one of the branches, where it is seen from outside of the match.
#[cycle(variables)]
#[tactic(auto, using(pc_terms::specs::Falls::falls, crate::proofs::Variables::variable_laws, std::proofs::lemmas::Grind::common_steps))]
fn branches_have_variable(i: u64, bs: &[Branch]) -> bool
    requires small { i < 2 ^ 32 }
    ensures is { result ≡ has_variable_terms i (arms_of bs.now) }
{
    for b in bs {
        if has_variable(i + u64::from(b.binders), &b.body) {
            return true;
        }
    }
    false
}

/// Whether it stands in the type or the body of one of the definitions.
#[cycle(variables)]
#[tactic(auto, using(pc_terms::specs::Falls::falls, crate::proofs::Variables::variable_laws, std::proofs::lemmas::Grind::common_steps))]
fn definitions_have_variable(i: u64, ds: &[Def]) -> bool
    requires small { i < 2 ^ 32 }
    ensures is { result ≡ (has_variable_terms i (types_of ds.now) || has_variable_terms i (bodies_of (length ds.now) ds.now)) }
{
    let inner = i + ds.len() as u64;
    for d in ds {
        if has_variable(i, &d.ty) {
            return true;
        }
        if has_variable(inner, &d.body) {
            return true;
        }
    }
    false
}

/// Whether it stands in a part of a match.
#[cycle(variables)]
#[tactic(auto, using(pc_terms::specs::Falls::falls, crate::proofs::Variables::variable_laws, std::proofs::lemmas::Grind::common_steps))]
fn match_has_variable(i: u64, m: &Match) -> bool
    requires small { i < 2 ^ 32 }
    ensures is { result ≡ has_variable i (tree_of (Case m.now)) }
{
    if terms_have_variable(i, m.params.as_slice()) {
        return true;
    }
    if has_variable(i + u64::from(m.binders), &m.ret) || has_variable(i, &m.scrut) {
        return true;
    }
    branches_have_variable(i, m.branches.as_slice())
}

/// Whether a variable, by its number as it is seen from outside of the term, stands in it. Takes no memory.
#[cycle(variables)]
#[tactic(auto, using(pc_terms::specs::Falls::falls, crate::proofs::Variables::variable_laws, std::proofs::lemmas::Grind::common_steps))]
pub fn has_variable(i: u64, t: &Term) -> bool
    ensures is { result ≡ has_variable i t.now }
{
    if t.loose() <= i {
        return false;
    }
    match t.view() {
        Node::Rel(n) => u64::from(*n) == i,
        Node::Sort(_) => false,
        Node::Prod(domain, codomain) => has_variable(i, domain) || has_variable(i + 1, codomain),
        Node::Lambda(domain, body) => has_variable(i, domain) || has_variable(i + 1, body),
        Node::LetIn(value, ty, body) => {
            has_variable(i, value) || has_variable(i, ty) || has_variable(i + 1, body)
        }
        Node::App(function, argument) => has_variable(i, function) || has_variable(i, argument),
        Node::Const(_) => false,
        Node::Ind(_) => false,
        Node::Construct(_, _) => false,
        Node::Case(m) => match_has_variable(i, m.get()),
        Node::Fix(ds, _) => definitions_have_variable(i, ds.as_slice()),
    }
}

/// Whether a term under so many variables more than the target's parameters names the target. Takes no memory.
pub fn names(target: Target, under: u32, t: &Term) -> bool
    ensures is { result ≡ names target under t.now }
{
    match target {
        Target::Families(block) => names_block(block, t),
        Target::Parameter { variable, .. } => {
            has_variable(u64::from(variable) + u64::from(under), t)
        }
    }
}

/// Whether one of the terms does. Takes no memory.
pub fn some_names(target: Target, under: u32, ts: &[Term]) -> bool
    ensures is { result ≡ some_names target under ts.now }
{
    for t in ts {
        if names(target, under, t) {
            return true;
        }
    }
    false
}
