//! Instructions and function bodies (WebAssembly Core Specification, sections 2.4 and 2.5.3).

ghost use Rattle.std.specs.Prelude.{◌≡◌};

use crate::numbers::Labels;
use crate::types::{ValType, ValTypes};
use std::marker::Model;

/// What a block leaves: nothing, or one value of a type.
#[derive(Clone, Copy, PartialEq, Eq, Debug)]
pub enum BlockType {
    Empty,
    Value(ValType),
}

/// How an instruction accesses memory: the exponent of the alignment that it promises, and what is added to its address.
#[derive(Clone, Copy, PartialEq, Eq, Debug)]
pub struct Access {
    pub align: u32,
    pub offset: u32,
}

/// An operation on 32-bit integers, under the standard's name without `i32.`.
#[derive(Clone, Copy, PartialEq, Eq, Debug)]
pub enum I32Op {
    Eqz,
    Eq,
    Ne,
    LtS,
    LtU,
    GtS,
    GtU,
    LeS,
    LeU,
    GeS,
    GeU,
    Add,
    Sub,
    Mul,
    And,
    Or,
    Xor,
    Shl,
    ShrS,
    ShrU,
}

/// An instruction, under the standard's name. Indices count from 0 in the module's order. A constant keeps its bits.
/// `BrTable` has the labels for the indices from 0 up, and before them the one for all others, since fields lie in memory in the order of the
/// source; `CallIndirect` and `ReturnCallIndirect` have a type index and then a table index.
#[derive(Drop)]
pub enum Instr {
    Unreachable,
    Nop,
    Block(BlockType),
    Loop(BlockType),
    If(BlockType),
    Else,
    End,
    Br(u32),
    BrIf(u32),
    BrTable(u32, Labels),
    Return,
    Call(u32),
    CallIndirect(u32, u32),
    ReturnCall(u32),
    ReturnCallIndirect(u32, u32),
    Drop,
    LocalGet(u32),
    LocalSet(u32),
    LocalTee(u32),
    GlobalGet(u32),
    GlobalSet(u32),
    I32Load(Access),
    I32Load8U(Access),
    I32Store(Access),
    I32Store8(Access),
    MemorySize,
    MemoryGrow,
    I32Const(u32),
    I64Const(u64),
    I32(I32Op),
}

/// A function's body: the types of its locals that aren't parameters, and its instructions as a flat list, whose last is the body's own `end`.
#[derive(Drop)]
pub struct Body {
    pub locals: ValTypes,
    pub code: Instrs,
}

/// A list of instructions.
#[derive(Drop)]
pub struct Instrs {
    items: Vec<Instr>,
}

impl Model for Instrs {
    ghost use Rattle.std.specs.Prelude.{List};
    ghost use Rattle.wasm_core.specs.declared.instrs.Instr.{Instr};

    ghost Value = { List Instr };

    ghost view = { λ a. a.items.items };
}

impl Instrs {
    /// The list of these items. It takes no memory.
    pub fn of(items: Vec<Instr>) -> Instrs
        ensures items { result ≡ items.items }
    {
        Instrs { items }
    }

    /// The items. It takes no memory.
    pub fn into_vec(self) -> Vec<Instr>
        ensures items { result.items ≡ self }
    {
        let Instrs { items } = self;
        items
    }

    /// The items, lent.
    pub fn as_slice(&self) -> &[Instr]
        ensures items { result.now ≡ self.now }
    {
        self.items.as_slice()
    }
}

/// A list of function bodies.
#[derive(Drop)]
pub struct Bodies {
    items: Vec<Body>,
}

impl Model for Bodies {
    ghost use Rattle.std.specs.Prelude.{List};
    ghost use Rattle.wasm_core.specs.declared.instrs.Body.{Body};

    ghost Value = { List Body };

    ghost view = { λ a. a.items.items };
}

impl Bodies {
    /// The list of these items. It takes no memory.
    pub fn of(items: Vec<Body>) -> Bodies
        ensures items { result ≡ items.items }
    {
        Bodies { items }
    }

    /// The items. It takes no memory.
    pub fn into_vec(self) -> Vec<Body>
        ensures items { result.items ≡ self }
    {
        let Bodies { items } = self;
        items
    }

    /// The items, lent.
    pub fn as_slice(&self) -> &[Body]
        ensures items { result.now ≡ self.now }
    {
        self.items.as_slice()
    }
}
