//! What an environment keeps: constants, and blocks of inductive families with their constructors.
ghost use Rattle.std.specs.Prelude.{◌≡◌, length};
ghost use Rattle.calculus_rules.specs.Environment.{name_of};

use pc_terms::leaf::Name;
use pc_terms::lists::Telescope;
use pc_terms::term::{Term, Terms};
use std::marker::Model;
use universe_levels::sort::Sort;

/// A constructor of an inductive family: the types of its arguments, the outermost first, each under the block's parameters and the
/// arguments before it; the kept sort of each argument; and the indices of what it builds, under the parameters and all arguments.
#[derive(Drop)]
pub struct Constructor {
    pub name: Name,
    pub args: Telescope,
    pub arg_sorts: Sorts,
    pub result: Terms,
}

/// An inductive family: its sort, the types of its indices, the outermost first, under the block's parameters, and its constructors.
#[derive(Drop)]
pub struct Family {
    pub name: Name,
    pub sort: Sort,
    pub indices: Telescope,
    pub ctors: Constructors,
}

/// A block of inductive families that share their parameters. Their types, the outermost first, are each under those before it.
#[derive(Drop)]
pub struct Block {
    pub name: Name,
    pub params: Telescope,
    pub families: Families,
}

/// What an environment keeps by a name: a constant, with its type and its body, if it has one; the heads of a block, which are
/// families that are known by their types alone; or a whole block.
#[derive(Drop)]
pub enum Kept {
    Constant {
        name: Name,
        ty: Term,
        body: Option<Term>,
    },
    Heads(Block),
    Block(Block),
}

impl Kept {
    /// The name by which it is kept. Takes no memory.
    pub fn name(&self) -> Name
        ensures is { result ≡ name_of self.now }
    {
        match self {
            Kept::Constant { name, .. } => *name,
            Kept::Heads(block) => block.name,
            Kept::Block(block) => block.name,
        }
    }
}

/// A list of sorts.
#[derive(Drop)]
pub struct Sorts {
    items: Vec<Sort>,
}

/// A list of constructors.
#[derive(Drop)]
pub struct Constructors {
    items: Vec<Constructor>,
}

/// A list of families.
#[derive(Drop)]
pub struct Families {
    items: Vec<Family>,
}

impl Model for Sorts {
    ghost use Rattle.std.specs.Prelude.{List};
    ghost use Rattle.universe_levels.specs.declared.sort.Sort.{Sort};

    ghost Value = { List Sort };

    ghost view = { λ a. a.items.items };
}

impl Model for Constructors {
    ghost use Rattle.std.specs.Prelude.{List};
    ghost use Rattle.calculus_rules.specs.declared.declaration.Constructor.{Constructor};
    ghost use Rattle.std.specs.Coded.{codes};
    ghost use Rattle.pc_terms.specs.Code.{coded_term};

    ghost Value = { List Constructor };

    ghost coded = { Prim.hlevel (codes, coded_term) };

    ghost view = { λ a. a.items.items };
}

impl Model for Families {
    ghost use Rattle.std.specs.Prelude.{List};
    ghost use Rattle.calculus_rules.specs.declared.declaration.Family.{Family};
    ghost use Rattle.std.specs.Coded.{codes};
    ghost use Rattle.pc_terms.specs.Code.{coded_term};

    ghost Value = { List Family };

    ghost coded = { Prim.hlevel (codes, coded_term) };

    ghost view = { λ a. a.items.items };
}

impl Sorts {
    /// The list of the sorts of a vector. Takes no memory.
    pub fn of(items: Vec<Sort>) -> Sorts
        ensures is { result ≡ items.items }
    {
        Sorts { items }
    }

    /// The vector of the sorts. Takes no memory.
    pub fn into_vec(self) -> Vec<Sort>
        ensures is { result.items ≡ self }
    {
        self.items
    }

    /// The sorts, the first first. Takes no memory.
    pub fn as_slice(&self) -> &[Sort]
        ensures is { result.now ≡ self.now }
    {
        self.items.as_slice()
    }

    /// The number of sorts. Takes no memory.
    pub fn len(&self) -> usize
        ensures is { result ≡ length self.now }
    {
        self.items.len()
    }
}

impl Constructors {
    /// The list of the constructors of a vector. Takes no memory.
    pub fn of(items: Vec<Constructor>) -> Constructors
        ensures is { result ≡ items.items }
    {
        Constructors { items }
    }

    /// The vector of the constructors. Takes no memory.
    pub fn into_vec(self) -> Vec<Constructor>
        ensures is { result.items ≡ self }
    {
        self.items
    }

    /// The constructors, the first first. Takes no memory.
    pub fn as_slice(&self) -> &[Constructor]
        ensures is { result.now ≡ self.now }
    {
        self.items.as_slice()
    }

    /// The number of constructors. Takes no memory.
    pub fn len(&self) -> usize
        ensures is { result ≡ length self.now }
    {
        self.items.len()
    }
}

impl Families {
    /// The list of the families of a vector. Takes no memory.
    pub fn of(items: Vec<Family>) -> Families
        ensures is { result ≡ items.items }
    {
        Families { items }
    }

    /// The vector of the families. Takes no memory.
    pub fn into_vec(self) -> Vec<Family>
        ensures is { result.items ≡ self }
    {
        self.items
    }

    /// The families, the first first. Takes no memory.
    pub fn as_slice(&self) -> &[Family]
        ensures is { result.now ≡ self.now }
    {
        self.items.as_slice()
    }

    /// The number of families. Takes no memory.
    pub fn len(&self) -> usize
        ensures is { result ≡ length self.now }
    {
        self.items.len()
    }
}
