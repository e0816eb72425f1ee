//! The types of a first-order set, and the sets of a signature.
ghost use Rattle.std.specs.Prelude.{◌≡◌, length};

use pc_terms::leaf::Name;
use pc_terms::lists::Numbers;
use pc_terms::term::Term;
use std::marker::Model;

/// A constructor of a type: its name, and for each argument the place of the argument's type in the list of types, from 0.
#[derive(Drop)]
pub struct ShapeCtor {
    pub name: Name,
    pub args: Numbers,
}

/// A list of constructors.
#[derive(Drop)]
pub struct ShapeCtors {
    items: Vec<ShapeCtor>,
}

/// A type: a family applied to its parameters, and its constructors, in the order of their declaration.
#[derive(Drop)]
pub struct Shape {
    pub ty: Term,
    pub ctors: ShapeCtors,
}

/// A list of types.
#[derive(Drop)]
pub struct ShapeTypes {
    items: Vec<Shape>,
}

/// The types of a first-order set, the searched one first.
#[derive(Drop)]
pub struct Shapes {
    pub types: ShapeTypes,
}

/// A list of first-order sets.
#[derive(Drop)]
pub struct ShapesList {
    items: Vec<Shapes>,
}

/// What the type of a function says of a call: the first-order set of each argument's type, the first argument first, and that of the answer's.
#[derive(Drop)]
pub struct Signature {
    pub args: ShapesList,
    pub answer: Shapes,
}

impl Model for ShapeCtors {
    ghost use Rattle.std.specs.Prelude.{List};
    ghost use Rattle.first_order.specs.declared.shapes.ShapeCtor.{ShapeCtor};

    ghost Value = { List ShapeCtor };

    ghost view = { λ a. a.items.items };
}

impl Model for ShapeTypes {
    ghost use Rattle.std.specs.Prelude.{List};
    ghost use Rattle.first_order.specs.declared.shapes.Shape.{Shape};
    ghost use Rattle.std.specs.Coded.{codes};
    ghost use Rattle.pc_terms.specs.Code.{coded_term};

    ghost Value = { List Shape };

    ghost coded = { Prim.hlevel (codes, coded_term) };

    ghost view = { λ a. a.items.items };
}

impl Model for ShapesList {
    ghost use Rattle.std.specs.Prelude.{List};
    ghost use Rattle.first_order.specs.declared.shapes.Shapes.{Shapes};
    ghost use Rattle.std.specs.Coded.{codes};
    ghost use Rattle.pc_terms.specs.Code.{coded_term};

    ghost Value = { List Shapes };

    ghost coded = { Prim.hlevel (codes, coded_term) };

    ghost view = { λ a. a.items.items };
}

impl ShapeCtors {
    /// The list of the constructors of a vector. Takes no memory.
    pub fn of(items: Vec<ShapeCtor>) -> ShapeCtors
        ensures is { result ≡ items.items }
    {
        ShapeCtors { items }
    }

    /// The vector of the constructors. Takes no memory.
    pub fn into_vec(self) -> Vec<ShapeCtor>
        ensures is { result.items ≡ self }
    {
        self.items
    }

    /// The constructors, the first first. Takes no memory.
    pub fn as_slice(&self) -> &[ShapeCtor]
        ensures is { result.now ≡ self.now }
    {
        self.items.as_slice()
    }

    /// The number of constructors. Takes no memory.
    pub fn len(&self) -> usize
        ensures is { result ≡ length self.now }
    {
        self.items.len()
    }
}

impl ShapeTypes {
    /// The list of the types of a vector. Takes no memory.
    pub fn of(items: Vec<Shape>) -> ShapeTypes
        ensures is { result ≡ items.items }
    {
        ShapeTypes { items }
    }

    /// The vector of the types. Takes no memory.
    pub fn into_vec(self) -> Vec<Shape>
        ensures is { result.items ≡ self }
    {
        self.items
    }

    /// The types, the first first. Takes no memory.
    pub fn as_slice(&self) -> &[Shape]
        ensures is { result.now ≡ self.now }
    {
        self.items.as_slice()
    }

    /// The number of types. Takes no memory.
    pub fn len(&self) -> usize
        ensures is { result ≡ length self.now }
    {
        self.items.len()
    }
}

impl ShapesList {
    /// The list of the sets of a vector. Takes no memory.
    pub fn of(items: Vec<Shapes>) -> ShapesList
        ensures is { result ≡ items.items }
    {
        ShapesList { items }
    }

    /// The sets, the first first. Takes no memory.
    pub fn as_slice(&self) -> &[Shapes]
        ensures is { result.now ≡ self.now }
    {
        self.items.as_slice()
    }

    /// The number of sets. Takes no memory.
    pub fn len(&self) -> usize
        ensures is { result ≡ length self.now }
    {
        self.items.len()
    }
}
