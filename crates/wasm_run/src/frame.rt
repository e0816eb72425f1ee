//! The frame of a function that runs: its locals, its operands and its open blocks.

ghost use Rattle.std.specs.Prelude.{◌≡◌, ℕ, ◌+◌, ◌-◌, ◌<◌, ◌≤◌, List, [], ◌∷◌, ◌++◌, length, drop, slice_get, slice_set, IsTrue, OnOk, OnErr, IsSome, Some, reverse, true};
ghost use Rattle.wasm_run.specs.Inside.{kept, below};
ghost use Rattle.wasm_run.specs.Shape.{Shape, open_at, branched, closed};

use std::alloc::{AllocError, Global};
use std::marker::Model;
use wasm_core::ConstValue;

/// An open block: where a branch to it goes on, whether it keeps a value, and how many operands lie below it.
#[derive(Clone, Copy)]
struct Control {
    keeps: bool,
    target: usize,
    height: usize,
}

/// A frame.
#[derive(Drop)]
pub struct Frame {
    func: usize,
    keeps: bool,
    at: usize,
    locals: Vec<ConstValue>,
    stack: Vec<ConstValue>,
    controls: Vec<Control>,
}

impl Model for Frame {
    ghost use Rattle.wasm_run.specs.Shape.{Shape};

    ghost Value = { Shape };

    ghost use Rattle.wasm_run.specs.Inside.{shape_of, IsFrame};

    ghost view = { shape_of };

    ghost invariant = { IsFrame };
}

impl Frame {
    /// A frame at the start of a function.
    pub fn new(alloc: Global, func: usize, keeps: bool, locals: Vec<ConstValue>) -> Frame
        ensures is { result ≡ record { func = func; keeps = keeps; at = 0; locals = locals.items; vals = []; labels = [] } }
    {
        Frame {
            func,
            keeps,
            at: 0,
            locals,
            stack: Vec::new(alloc),
            controls: Vec::new(alloc),
        }
    }

    /// The function.
    pub fn func(&self) -> usize
        ensures is { result ≡ self.now.func }
    {
        self.func
    }

    /// Whether the function has a result.
    pub fn keeps(&self) -> bool
        ensures is { result ≡ self.now.keeps }
    {
        self.keeps
    }

    /// Where it stands in the function's body.
    pub fn at(&self) -> usize
        ensures is { result ≡ self.now.at }
    {
        self.at
    }

    /// Goes to another place of the body.
    pub fn go(&mut self, at: usize)
        ensures is { self.new ≡ record self.old { at = at } }
    {
        self.at = at;
    }

    /// How many blocks are open.
    pub fn depth(&self) -> usize
        ensures is { result ≡ length self.now.labels }
    {
        self.controls.len()
    }

    /// Puts a value on top.
    pub fn push(&mut self, value: ConstValue) -> Result<(), AllocError>
        ensures is { OnOk result (self.new ≡ record self.old { vals = value ∷ self.old.vals }) }
    {
        self.stack.push(value)?;
        Ok(())
    }

    /// Takes the value on top.
    pub fn pop(&mut self) -> ConstValue
        requires some { 0 < length self.old.vals }
        ensures is { self.old ≡ record self.new { vals = result ∷ self.new.vals } }
    {
        match self.stack.pop() {
            Some(value) => value,
            None => unreachable!(),
        }
    }

    /// The value on top.
    pub fn top(&self) -> ConstValue
        requires some { 0 < length self.now.vals }
        ensures is { self.now.vals ≡ result ∷ drop 1 self.now.vals }
    {
        match self.stack.last() {
            Some(value) => *value,
            None => unreachable!(),
        }
    }

    /// The value of a local.
    pub fn local(&self, index: usize) -> ConstValue
        requires there { index < length self.now.locals }
        ensures is { slice_get self.now.locals index ≡ Some result }
    {
        self.locals[index]
    }

    /// Sets a local.
    pub fn set_local(&mut self, index: usize, value: ConstValue)
        requires there { index < length self.old.locals }
        ensures is { self.new ≡ record self.old { locals = slice_set self.old.locals index value } }
    {
        self.locals[index] = value;
    }

    /// Opens a block.
    pub fn open(&mut self, keeps: bool, target: usize) -> Result<(), AllocError>
        ensures is { OnOk result (self.new ≡ record self.old { vals = []; labels = open_at keeps target self.old.vals ∷ self.old.labels }) }
    {
        let height = self.stack.len();
        self.controls.push(Control {
            keeps,
            target,
            height,
        })?;
        Ok(())
    }

    /// Leaves the innermost open block, and says where a branch to it would go.
    pub fn close(&mut self) -> usize
        requires some { 0 < length self.old.labels }
        ensures is { closed self.old ≡ Some (self.new, result) }
    {
        match self.controls.pop() {
            Some(control) => control.target,
            None => unreachable!(),
        }
    }

    /// Branches to an open block, counted from the inside.
    pub fn branch(&mut self, index: usize)
        requires some { IsSome (branched index self.old) }
        ensures is { branched index self.old ≡ Some self.new }
    {
        let place = self.controls.len() - 1 - index;
        let control = self.controls[place];
        self.controls.truncate(place);
        unwind(&mut self.stack, control.height, control.keeps);
        self.at = control.target;
    }
}

/// Takes off the operands above a height, but keeps the topmost if it is asked to.
fn unwind(stack: &mut Vec<ConstValue>, height: usize, keeps: bool)
    requires within { height ≤ length stack.old.items }
    requires some { keeps ≡ true → height < length stack.old.items }
    ensures is { reverse stack.new.items ≡ kept keeps (reverse stack.old.items) ++ below height (reverse stack.old.items) }
{
    if keeps {
        let top = stack[stack.len() - 1];
        stack.truncate(height + 1);
        stack[height] = top;
    } else {
        stack.truncate(height);
    }
}
