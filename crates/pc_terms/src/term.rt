//! A term and its node.
ghost use Rattle.std.specs.Prelude.{◌≡◌, ◌≤◌, ◌^◌, ℕ, Result, Err, IfOk, IfErr, IsTrue};
ghost use Rattle.trees.specs.Closed.{Closed};
ghost use Rattle.trees.specs.Measures.{depth, loose, IsWithin, IsBeyond};
ghost use Rattle.pc_terms.specs.Syntax.{HasIndex};
ghost use Rattle.pc_terms.specs.Formed.{IsFormed};
ghost use Rattle.pc_terms.specs.View.{tree_of};
ghost use Rattle.pc_terms.specs.Counted.{number_of, loose_of};
ghost use Rattle.pc_terms.specs.declared.term.Node.TheVariants.{Case};
ghost use Rattle.pc_terms.specs.declared.term.MakeFault.TheVariants.{TooDeep, Memory};

use crate::copies::Walk;
use crate::leaf::{FamilyId, Name};
use stamps::Stamp;
use std::alloc::Global;
use std::cell::Cell;
use std::marker::Model;
use std::rc::Rc;
use thiserror::Error;
use universe_levels::sort::Sort;

/// The greatest depth of a term.
pub const DEPTH_LIMIT: u32 = 2048;

/// A term: a shared node, which keeps its depth, its loose bound and a stamp by which it is known again.
///
/// Contracts see it as a tree. Its depth is at most 2,048, its variables are numbers of 32 bits, and all its nodes are formed: a match's
/// parameters stand under no variable of their own, and a fixpoint names one of its definitions, each of which has a type, a body under
/// all definitions, and a recursive argument.
#[cycle(term)]
#[derive(Drop)]
pub struct Term {
    rc: Rc<Inner>,
}

// With the two counts of its `Rc` it has 72 bytes, and not 8 more: that is the whole of a place of an allocator such as glibc's, in steps of 16.
#[cycle(term)]
#[derive(Drop)]
struct Inner {
    depth: u16,
    is_open: bool,
    stamp: Stamp,
    outermost: u32,
    lifted: Cell<u32>,
    substituted: Cell<u32>,
    node: Node,
}

/// A node of a term: one of its formers, with its parts.
///
/// Variables are de Bruijn indices: `Rel(0)` is the variable of the innermost binder.
#[cycle(term)]
#[derive(Drop)]
pub enum Node {
    /// A variable, by its index.
    Rel(u32),
    Sort(Sort),
    /// A product: its domain, and its codomain under one variable.
    Prod(Term, Term),
    /// A function: its domain, and its body under one variable.
    Lambda(Term, Term),
    /// A definition: the value, its type, and the body under one variable.
    LetIn(Term, Term, Term),
    /// A function applied to an argument.
    App(Term, Term),
    Const(Name),
    Ind(FamilyId),
    /// A constructor, by its place in the family from 0.
    Construct(FamilyId, u32),
    Case(BoxedMatch),
    /// One of the definitions of a fixpoint, by its place from 0.
    Fix(Defs, u32),
}

/// A match on a value of an inductive family.
///
/// The predicate `ret` is under `binders` variables: the family's indices and, innermost, the scrutinee. The parameters and the
/// scrutinee are under none.
#[cycle(term)]
#[derive(Drop)]
pub struct Match {
    pub family: FamilyId,
    pub params: Terms,
    pub binders: u32,
    pub ret: Term,
    pub scrut: Term,
    pub branches: Branches,
}

/// A branch of a match: its body, under `binders` variables, one for each argument of its constructor.
#[cycle(term)]
#[derive(Drop)]
pub struct Branch {
    pub binders: u32,
    pub body: Term,
}

/// A definition of a fixpoint: its type, its body, which is under one variable for each definition of the fixpoint (the last definition
/// is variable 0), and the place of the argument that it recurses on, from 0.
#[cycle(term)]
#[derive(Drop)]
pub struct Def {
    pub ty: Term,
    pub body: Term,
    pub rarg: u32,
}

/// A list of terms.
#[cycle(term)]
#[derive(Drop)]
pub struct Terms {
    pub(crate) items: Vec<Term>,
}

/// A list of branches.
#[cycle(term)]
#[derive(Drop)]
pub struct Branches {
    pub(crate) items: Vec<Branch>,
}

/// A list of definitions.
#[cycle(term)]
#[derive(Drop)]
pub struct Defs {
    pub(crate) items: Vec<Def>,
}

/// A match behind a box, so that a node takes no more room than its other formers need. Contracts see it as the match.
#[cycle(term)]
#[derive(Drop)]
pub struct BoxedMatch {
    inner: Box<Match>,
}

impl Model for BoxedMatch {
    ghost use Rattle.std.specs.Prelude.{◌+◌, ◌*◌};
    ghost use Rattle.pc_terms.specs.declared.term.Match.{Match};
    ghost use Rattle.pc_terms.specs.MatchCode.{coded_match};

    ghost Value = { Match };

    ghost coded = { coded_match };

    ghost use Rattle.pc_terms.specs.Lists.{depth_match};

    ghost view = { λ b. b.inner.value };

    ghost size = { λ m. 3 * depth_match m + 2 };

    ghost use Rattle.std.proofs.Common.{arith};

    ghost size_decreases = { λ b h. omega arith };
}

impl BoxedMatch {
    /// The match. It takes no memory.
    pub fn get(&self) -> &Match
        ensures is { result.now ≡ self.now }
    {
        &self.inner
    }
}

impl Model for Terms {
    ghost use Rattle.std.specs.Prelude.{List, ◌+◌, ◌*◌};
    ghost use Rattle.std.specs.Coded.{coded_list};
    ghost use Rattle.pc_terms.specs.Syntax.{Term};
    ghost use Rattle.pc_terms.specs.Code.{coded_term};

    ghost Value = { List Term };

    ghost coded = { coded_list coded_term };

    ghost use Rattle.trees.specs.Tree.{terms_of};
    ghost use Rattle.trees.specs.Measures.{depth_trees};

    ghost view = { λ a. a.items.items };

    ghost size = { λ xs. 3 * depth_trees (terms_of xs) + 1 };

    ghost use Rattle.std.proofs.Common.{arith};
    ghost use Rattle.pc_terms.specs.Falls.{most_le-depth_trees};

    ghost size_decreases = { λ a h. omega (arith, most_le-depth_trees a.items.items) };
}

impl Model for Branches {
    ghost use Rattle.std.specs.Prelude.{List, ◌+◌, ◌*◌};
    ghost use Rattle.std.specs.Coded.{coded_list};
    ghost use Rattle.pc_terms.specs.declared.term.Branch.{Branch};
    ghost use Rattle.pc_terms.specs.Codes.{coded_branch};

    ghost Value = { List Branch };

    ghost coded = { coded_list coded_branch };

    ghost use Rattle.trees.specs.Measures.{depth_trees};
    ghost use Rattle.pc_terms.specs.Lists.{arms_of};

    ghost view = { λ a. a.items.items };

    ghost size = { λ xs. 3 * depth_trees (arms_of xs) + 1 };

    ghost use Rattle.std.proofs.Common.{arith};
    ghost use Rattle.pc_terms.specs.Falls.{most_le-depth_arms};

    ghost size_decreases = { λ a h. omega (arith, most_le-depth_arms a.items.items) };
}

impl Model for Defs {
    ghost use Rattle.std.specs.Prelude.{List, ◌+◌, ◌*◌};
    ghost use Rattle.std.specs.Coded.{coded_list};
    ghost use Rattle.pc_terms.specs.declared.term.Def.{Def};
    ghost use Rattle.pc_terms.specs.Codes.{coded_def};

    ghost Value = { List Def };

    ghost coded = { coded_list coded_def };

    ghost use Rattle.pc_terms.specs.Lists.{depth_defs};

    ghost view = { λ a. a.items.items };

    ghost size = { λ xs. 3 * depth_defs xs + 1 };

    ghost use Rattle.std.proofs.Common.{arith};
    ghost use Rattle.pc_terms.specs.Falls.{most_le-depth_defs};

    ghost size_decreases = { λ a h. omega (arith, most_le-depth_defs a.items.items) };
}

impl Model for Term {
    ghost use Rattle.std.specs.Prelude.{◌*◌};
    ghost use Rattle.pc_terms.specs.Syntax.{Term};
    ghost use Rattle.trees.specs.Measures.{depth};
    ghost use Rattle.pc_terms.specs.Code.{coded_term};

    ghost Value = { Term };

    ghost coded = { coded_term };

    ghost use Rattle.pc_terms.specs.Counted.{IsCounted, loose_of};
    ghost use Rattle.pc_terms.specs.View.{tree_of};

    ghost view = { λ t. tree_of t.rc.value.node };

    ghost invariant = { λ t. IsCounted t.rc.value.depth (loose_of t.rc.value.is_open t.rc.value.outermost) t.rc.value.stamp (tree_of t.rc.value.node) };

    ghost size = { λ t. 3 * depth t };
}

/// Why a term was not made.
#[derive(Clone, Copy, Debug, PartialEq, Eq, Error)]
pub enum MakeFault {
    /// The term asked for has a depth over 2,048 or a variable number over 4,294,967,295.
    #[error("the term is too deep")]
    TooDeep,
    /// There was no memory.
    #[error("out of memory")]
    Memory,
}

impl Term {
    /// The term of a node.
    ///
    /// A fixpoint's index is below the number of its definitions. `TooDeep` where the term has a depth over 2,048: a node without
    /// subterms has depth 1, another one more than its deepest subterm.
    pub fn make(alloc: Global, node: Node) -> Result<Term, MakeFault>
        requires { HasIndex (tree_of node) }
        ensures ok { IfOk result (λ t. t ≡ tree_of node) }
        ensures within { IfOk result IsWithin }
        ensures too_deep { IfErr result (λ e. e ≡ TooDeep → IsBeyond (tree_of node)) }
        ensures beyond { IsBeyond (tree_of node) → result ≡ Err TooDeep }
    {
        let depth = node.depth();
        if depth > DEPTH_LIMIT {
            return Err(MakeFault::TooDeep);
        }
        let loose = kept_bound(node.loose());
        let stamp = stamp_of(&node);
        match Rc::new(
            alloc,
            Inner {
                depth: depth as u16,
                is_open: loose.0,
                stamp,
                outermost: loose.1,
                lifted: Cell::new(0),
                substituted: Cell::new(0),
                node,
            },
        ) {
            Ok(rc) => Ok(Term { rc }),
            Err(_) => Err(MakeFault::Memory),
        }
    }

    /// The term of a match. `TooDeep` where it has a depth over 2,048.
    pub fn of_match(alloc: Global, whole: Match) -> Result<Term, MakeFault>
        ensures ok { IfOk result (λ t. t ≡ tree_of (Case whole)) }
        ensures within { IfOk result IsWithin }
        ensures too_deep { IfErr result (λ e. e ≡ TooDeep → IsBeyond (tree_of (Case whole))) }
        ensures beyond { IsBeyond (tree_of (Case whole)) → result ≡ Err TooDeep }
    {
        if whole.depth() > DEPTH_LIMIT {
            return Err(MakeFault::TooDeep);
        }
        match Box::new(alloc, whole) {
            Ok(inner) => Term::make(alloc, Node::Case(BoxedMatch { inner })),
            Err(_) => Err(MakeFault::Memory),
        }
    }

    /// The node of the term, as it was made.
    pub fn view(&self) -> &Node
        ensures is { tree_of result.now ≡ self.now }
        ensures indexed { HasIndex self.now }
        ensures formed { IsFormed self.now }
    {
        &self.rc.node
    }

    /// The depth of the term: 1 for a node without subterms, and else one more than its deepest subterm's.
    pub fn depth(&self) -> u32
        ensures is { result ≡ depth self.now }
        ensures within { IsWithin self.now }
        ensures formed { IsFormed self.now }
    {
        u32::from(self.rc.depth)
    }

    /// The least k such that the term is closed below k: no variable that its own binders leave free has a number of k or more.
    #[tactic(auto, using(trees::proofs::Closed::loose_laws))]
    pub fn loose(&self) -> u64
        ensures is { result ≡ loose self.now }
        ensures closed { Closed result self.now }
        ensures least { (k : ℕ) → Closed k self.now → result ≤ k }
        ensures small { result ≤ 2 ^ 32 }
    {
        bound_of(self.rc.is_open, self.rc.outermost)
    }

    // Whether the two are seen to share one node, without a walk.
    pub(crate) fn shares_node(&self, other: &Term) -> bool
        ensures is { IsTrue result → self.now ≡ other.now }
    {
        self.rc.stamp.same(&other.rc.stamp)
    }

    // Whether the node has parts and other terms have it too, so that a walk may meet it again.
    pub(crate) fn is_shared(&self) -> bool {
        self.rc.depth > 1 && Rc::strong_count(&self.rc) > 1
    }

    // Where the copies of a walk may have the last one of this node; any number.
    pub(crate) fn hint(&self, walk: Walk) -> u32 {
        match walk {
            Walk::Lift => self.rc.lifted.get(),
            Walk::Subst => self.rc.substituted.get(),
        }
    }

    // Keeps a number for `hint`.
    pub(crate) fn set_hint(&self, walk: Walk, place: u32) {
        match walk {
            Walk::Lift => self.rc.lifted.set(place),
            Walk::Subst => self.rc.substituted.set(place),
        }
    }

    /// The same term, shared with this one.
    pub fn share(&self) -> Result<Term, MakeFault>
        ensures ok { IfOk result (λ t. t ≡ self.now) }
        ensures within { IfOk result IsWithin }
        ensures only_memory { IfErr result (λ e. e ≡ Memory) }
    {
        match self.rc.clone() {
            Ok(rc) => Ok(Term { rc }),
            Err(_) => Err(MakeFault::Memory),
        }
    }
}

// A loose bound as a node keeps it: whether there is a variable that no binder of the term binds, and the number of the outermost.
#[tactic(auto, unfolding(crate::specs::Counted::loose_of))]
fn kept_bound(loose: u64) -> (bool, u32)
    requires { loose ≤ 2 ^ 32 }
    ensures is { loose_of result.0 result.1 ≡ loose }
{
    if loose == 0 {
        (false, 0)
    } else {
        (true, (loose - 1) as u32)
    }
}

// The loose bound that a node keeps.
#[tactic(auto, unfolding(crate::specs::Counted::loose_of))]
fn bound_of(is_open: bool, outermost: u32) -> u64
    ensures is { result ≡ loose_of is_open outermost }
{
    if is_open { u64::from(outermost) + 1 } else { 0 }
}

// A stamp for the tree of a node.
fn stamp_of(_node: &Node) -> Stamp
    ensures is { result ≡ number_of (tree_of _node.now) }
{
    Stamp::new()
}
