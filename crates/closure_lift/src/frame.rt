//! What the variables of a lifted block hold.
ghost use Rattle.std.specs.Prelude.{◌≡◌, ℕ, ◌+◌, ◌-◌, ◌≤◌, [], ◌∷◌, ◌++◌, IfOk, IfErr, OnOk, drop, length};
ghost use Rattle.closure_lift.specs.Lift.{Holds, Made, position, same_slot};
ghost use Rattle.std.specs.Prelude.{nat_eq};
ghost use Rattle.std.specs.HashMap.{get};
ghost use Rattle.closure_lift.specs.Frames.{slot_of, uncovered};
ghost use Rattle.closure_lift.specs.declared.fault.LiftFault.TheVariants.{Memory};

use crate::fault::LiftFault;
use std::alloc::Global;
use std::collections::HashMap;
use std::marker::Model;

/// What a variable holds.
#[derive(Drop)]
pub(crate) enum Held {
    /// A word, and the place of the variable outside that holds it too, if there is one.
    Word(u32, Option<usize>),
    /// The closure that was made for a fixpoint's variable.
    Closure(u32),
}

impl Held {
    /// Whether it is the closure for variable `i`.
    fn is_made_for(&self, i: u32) -> bool
        ensures is { result ≡ same_slot (Made i) (slot_of self.now) }
    {
        match self {
            Held::Closure(j) => i == *j,
            Held::Word(_, _) => false,
        }
    }
}

/// The places of words once this variable is forgotten. `Memory` leaves them as they are.
fn uncover(held: &Held, places: &mut HashMap<u32, usize>) -> Result<(), LiftFault>
    ensures at { OnOk result ((x : ℕ) → get nat_eq places.new x ≡ uncovered held.now x (get nat_eq places.old x)) }
    ensures only_memory { IfErr result (λ e. (e ≡ Memory) × ((x : ℕ) → get nat_eq places.new x ≡ get nat_eq places.old x)) }
{
    match held {
        Held::Word(word, Some(place)) => {
            if places.insert(*word, *place).is_err() {
                return Err(LiftFault::Memory);
            }
        }
        Held::Word(word, None) => {
            places.remove(word);
        }
        Held::Closure(_) => {}
    }
    Ok(())
}

/// What the variables of a lifted block hold. Contracts see the innermost first.
#[derive(Drop)]
pub(crate) struct Frame {
    held: Vec<Held>,
    places: HashMap<u32, usize>,
}

impl Model for Frame {
    ghost use Rattle.std.specs.Prelude.{List, reverse};
    ghost use Rattle.closure_lift.specs.Lift.{LiftSlot};

    ghost Value = { List LiftSlot };

    ghost use Rattle.std.specs.Coded.{coded_list};
    ghost use Rattle.closure_lift.specs.ScopeCode.{coded_slot};

    ghost coded = { coded_list coded_slot };

    ghost use Rattle.closure_lift.specs.Frames.{slots_of, ArePlaced};

    ghost view = { λ a. slots_of (reverse a.held.items) };

    ghost invariant = { λ a. ArePlaced a.places (reverse a.held.items) };
}

impl Frame {
    /// No variable.
    pub(crate) fn new(alloc: Global) -> Frame
        ensures none { result ≡ [] }
    {
        Frame {
            held: Vec::new(alloc),
            places: HashMap::new(alloc),
        }
    }

    /// The number of variables.
    pub(crate) fn len(&self) -> usize
        ensures is { result ≡ length self.now }
    {
        self.held.len()
    }

    /// One more variable, which holds a word. Only `Memory`.
    pub(crate) fn push_word(&mut self, word: u32) -> Result<(), LiftFault>
        ensures ok { OnOk result (self.new ≡ Holds word ∷ self.old) }
        ensures only_memory { IfErr result (λ e. e ≡ Memory) }
    {
        let place = self.held.len();
        let before = self.places.get(&word).copied();
        if self.held.push(Held::Word(word, before)).is_err() {
            return Err(LiftFault::Memory);
        }
        if self.places.insert(word, place).is_err() {
            self.held.pop();
            return Err(LiftFault::Memory);
        }
        Ok(())
    }

    /// One more variable, which holds the closure for variable `i`. Only `Memory`.
    pub(crate) fn push_closure(&mut self, i: u32) -> Result<(), LiftFault>
        ensures ok { OnOk result (self.new ≡ Made i ∷ self.old) }
        ensures only_memory { IfErr result (λ e. e ≡ Memory) }
    {
        match self.held.push(Held::Closure(i)) {
            Ok(()) => Ok(()),
            Err(_) => Err(LiftFault::Memory),
        }
    }

    /// Forgets the innermost variable. Only `Memory`.
    fn pop(&mut self) -> Result<(), LiftFault>
        ensures ok { OnOk result (self.new ≡ drop 1 self.old) }
        ensures only_memory { IfErr result (λ e. e ≡ Memory) }
    {
        let count = self.held.len();
        if count == 0 {
            return Ok(());
        }
        let last = count - 1;
        uncover(&self.held[last], &mut self.places)?;
        self.held.pop();
        Ok(())
    }

    /// Forgets the innermost variables but `len`. Only `Memory`.
    pub(crate) fn shrink(&mut self, len: usize) -> Result<(), LiftFault>
        ensures ok { OnOk result (self.new ≡ drop (length self.old - len) self.old) }
        ensures only_memory { IfErr result (λ e. e ≡ Memory) }
    {
        let count = self.len().saturating_sub(len);
        for _i in 0..count {
            self.pop()?;
        }
        Ok(())
    }

    /// The variable that holds a word.
    pub(crate) fn word_place(&self, word: u32) -> usize
        ensures is { result ≡ position (Holds word) self.now }
    {
        match self.places.get(&word) {
            Some(place) => self.held.len() - 1 - *place,
            None => self.held.len(),
        }
    }

    /// The variable that holds the closure that was made for variable `i` last. One is made for each use, so it is not far.
    pub(crate) fn closure_place(&self, i: u32) -> usize
        ensures is { result ≡ position (Made i) self.now }
    {
        let count = self.held.len();
        for past in 0..count {
            if self.held[count - 1 - past].is_made_for(i) {
                return past;
            }
        }
        count
    }
}
