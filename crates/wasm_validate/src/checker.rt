//! What is known at a place of a body: the types of the operands and the open blocks (WebAssembly Core Specification, appendix "Validation Algorithm").

ghost use Rattle.std.specs.Prelude.{◌≡◌, ◌↔◌, [], ◌∷◌, IfOk, IsTrue, OnOk, MatchBool, IsSome, is_some, slice_get, Some, None, true, false};
ghost use Rattle.std.specs.Option.{option_to_list, option_map};
ghost use Rattle.wasm_core.specs.Pass.{knowing, off, drop_one, closes, put_on, labels_of, check_end, check_else};
ghost use Rattle.wasm_validate.specs.Progress.{shows};

use std::alloc::{AllocError, Global};
use std::marker::Model;
use std::mem;
use wasm_core::ValType;

/// What an instruction did: the body goes on, it was the body's own `end`, or no typed body has the instruction here.
#[derive(Clone, Copy, PartialEq, Eq, Debug)]
pub enum Progress {
    Goes,
    Ends,
    Stuck,
}

/// An open block: what a branch to it takes along, what it leaves, whether it is an `if` whose `else` may still come, and
/// the operands below it, under which others may lie where it was opened in loose code.
#[derive(Drop)]
struct Control {
    label: Option<ValType>,
    ends: Option<ValType>,
    one_arm: bool,
    below: Vec<ValType>,
    loose: bool,
}

/// The operands of the innermost block, the topmost last, and the open blocks, the innermost last. Code is loose after an
/// instruction past which nothing runs: then operands of any types may lie below those that are known.
#[derive(Drop)]
pub struct Checker {
    vals: Vec<ValType>,
    loose: bool,
    controls: Vec<Control>,
}

impl Model for Checker {
    ghost use Rattle.wasm_core.specs.Pass.{Place};

    ghost Value = { Place };

    ghost use Rattle.wasm_validate.specs.Checkers.{place_of};

    ghost view = { place_of };
}

impl Checker {
    /// The start of a body. It takes no memory.
    pub fn new(alloc: Global) -> Checker
        ensures is { result ≡ record { now = knowing [] false; ctls = [] } }
    {
        Checker {
            vals: Vec::new(alloc),
            loose: false,
            controls: Vec::new(alloc),
        }
    }

    /// Takes an operand of this type off, and says whether there was one.
    pub fn take(&mut self, of: ValType) -> bool
        ensures taken { MatchBool result (off (of ∷ []) self.old.now ≡ Some self.new.now) (off (of ∷ []) self.old.now ≡ None) }
        ensures ctls { self.new.ctls ≡ self.old.ctls }
    {
        match self.vals.pop() {
            Some(top) => top == of,
            None => self.loose,
        }
    }

    /// Takes an operand of any type off, and says whether there was one.
    pub fn take_any(&mut self) -> bool
        ensures taken { MatchBool result (drop_one self.old.now.vals self.old.now.loose ≡ Some self.new.now) (drop_one self.old.now.vals self.old.now.loose ≡ None) }
        ensures ctls { self.new.ctls ≡ self.old.ctls }
    {
        match self.vals.pop() {
            Some(_) => true,
            None => self.loose,
        }
    }

    /// Takes an operand of the type off, where there is a type, and says whether there was one.
    pub fn take_if(&mut self, of: Option<ValType>) -> bool
        ensures taken { MatchBool result (off (option_to_list of) self.old.now ≡ Some self.new.now) (off (option_to_list of) self.old.now ≡ None) }
        ensures ctls { self.new.ctls ≡ self.old.ctls }
    {
        match of {
            Some(of) => self.take(of),
            None => true,
        }
    }

    /// Whether an operand of the type could be taken off, where there is a type.
    pub fn has(&self, of: Option<ValType>) -> bool
        ensures is { result ≡ is_some (off (option_to_list of) self.now.now) }
    {
        let Some(of) = of else {
            return true;
        };
        match self.vals.last() {
            Some(top) => *top == of,
            None => self.loose,
        }
    }

    /// Whether no operand is known.
    pub fn is_empty(&self) -> bool
        ensures is { IsTrue result ↔ (self.now.now.vals ≡ []) }
    {
        self.vals.is_empty()
    }

    /// Whether others may lie below the operands that are known.
    pub fn is_loose(&self) -> bool
        ensures is { result ≡ self.now.now.loose }
    {
        self.loose
    }

    /// Puts an operand on.
    pub fn put(&mut self, of: ValType) -> Result<(), AllocError>
        ensures is { OnOk result (self.new ≡ record self.old { now = put_on (of ∷ []) self.old.now }) }
    {
        self.vals.push(of)?;
        Ok(())
    }

    /// Puts an operand on, where there is a type.
    pub fn put_if(&mut self, of: Option<ValType>) -> Result<(), AllocError>
        ensures is { OnOk result (self.new ≡ record self.old { now = put_on (option_to_list of) self.old.now }) }
    {
        if let Some(of) = of {
            self.put(of)?;
        }
        Ok(())
    }

    /// From here on nothing runs.
    pub fn kill(&mut self)
        ensures is { self.new ≡ record self.old { now = knowing [] true } }
    {
        self.vals.clear();
        self.loose = true;
    }

    /// Opens a block over the operands that are there.
    pub fn enter(
        &mut self,
        alloc: Global,
        label: Option<ValType>,
        ends: Option<ValType>,
        one_arm: bool,
    ) -> Result<(), AllocError>
        ensures is { OnOk result (self.new ≡ record { now = knowing [] false; ctls = record { label = option_to_list label; ends = option_to_list ends; one_arm = one_arm; below = self.old.now } ∷ self.old.ctls }) }
    {
        let below = mem::replace(&mut self.vals, Vec::new(alloc));
        let loose = self.loose;
        self.loose = false;
        self.controls.push(Control {
            label,
            ends,
            one_arm,
            below,
            loose,
        })?;
        Ok(())
    }

    /// Takes an operand of the type off, where there is a type, and says whether it was there and no other is left.
    fn takes_all(&mut self, ends: Option<ValType>) -> bool
        ensures taken { MatchBool result (IsSome (closes (option_to_list ends) self.old.now)) (closes (option_to_list ends) self.old.now ≡ None) }
        ensures ctls { self.new.ctls ≡ self.old.ctls }
    {
        if let Some(of) = ends {
            if !self.take(of) {
                return false;
            }
        }
        self.vals.is_empty()
    }

    /// What a branch takes along to the open block with this index, the innermost being 0, or out of a function with the
    /// result `own`; `None` where there is no such block.
    pub fn label(&self, index: u32, own: Option<ValType>) -> Option<Option<ValType>>
        ensures is { slice_get (labels_of (option_to_list own) self.now.ctls) index ≡ option_map option_to_list result }
    {
        let index = index as usize;
        let count = self.controls.len();
        if index < count {
            Some(self.controls[count - 1 - index].label)
        } else if index == count {
            Some(own)
        } else {
            None
        }
    }

    /// The end of the innermost block, or of a function with the result `own`.
    pub fn end(&mut self, own: Option<ValType>) -> Result<Progress, AllocError>
        ensures is { IfOk result (λ p. check_end (option_to_list own) self.old.now self.old.ctls ≡ shows p self.new) }
    {
        let control = match self.controls.pop() {
            Some(control) => control,
            None => {
                if self.takes_all(own) {
                    return Ok(Progress::Ends);
                }
                return Ok(Progress::Stuck);
            }
        };
        let Control {
            label: _,
            ends,
            one_arm,
            below,
            loose,
        } = control;
        if !self.takes_all(ends) {
            return Ok(Progress::Stuck);
        }
        if one_arm && ends.is_some() {
            return Ok(Progress::Stuck);
        }
        self.vals = below;
        self.loose = loose;
        if let Some(of) = ends {
            self.put(of)?;
        }
        Ok(Progress::Goes)
    }

    /// The start of the second arm of an `if`.
    pub fn second_arm(&mut self) -> Result<Progress, AllocError>
        ensures is { IfOk result (λ p. check_else self.old.now self.old.ctls ≡ shows p self.new) }
    {
        let control = match self.controls.pop() {
            Some(control) => control,
            None => return Ok(Progress::Stuck),
        };
        let Control {
            label,
            ends,
            one_arm,
            below,
            loose,
        } = control;
        if !one_arm {
            return Ok(Progress::Stuck);
        }
        if !self.takes_all(ends) {
            return Ok(Progress::Stuck);
        }
        self.vals.clear();
        self.loose = false;
        self.controls.push(Control {
            label,
            ends,
            one_arm: false,
            below,
            loose,
        })?;
        Ok(Progress::Goes)
    }
}
