//! The frames that wait, from a value outwards.
ghost use Rattle.std.specs.Prelude.{◌≡◌, [], ◌∷◌, ◌++◌, IfOk, IfErr, IfNone, MatchOption};
ghost use Rattle.pc_terms.specs.declared.term.MakeFault.TheVariants.{TooDeep, Memory};
ghost use Rattle.source_eval.specs.Waiting.{Settles, Passes, goes_on, within};

use crate::found::Found;
use crate::frames::Frame;
use pc_rules::environment::Env;
use pc_terms::term::{MakeFault, Term};
use std::alloc::Global;

/// What waits for values, the outermost first; and how many contracta were entered, a number that is only compared, and may turn over.
#[derive(Drop)]
pub(crate) struct Machine {
    pub(crate) frames: Vec<Frame>,
    pub(crate) contracta: u64,
}

/// What comes of all that waits.
#[derive(Drop)]
pub(crate) enum Settled {
    /// A term that is entered next.
    Enter(Term),
    /// The value of the whole term: nothing waits.
    Value(Term),
    /// A term for which there is no rule.
    Stuck(Term),
}

impl Machine {
    /// Nothing waits.
    pub(crate) fn new(alloc: Global) -> Machine
        ensures empty { result.frames.items ≡ [] }
    {
        Machine {
            frames: Vec::new(alloc),
            contracta: 0,
        }
    }

    /// Puts what waits for the value of a part innermost.
    fn push(&mut self, frame: Frame) -> Result<(), MakeFault>
        ensures ok { IfOk result (λ _. self.new.frames.items ≡ self.old.frames.items ++ frame ∷ []) }
        ensures only_memory { IfErr result (λ e. e ≡ Memory) }
    {
        match self.frames.push(frame) {
            Ok(()) => Ok(()),
            Err(_) => Err(MakeFault::Memory),
        }
    }

    /// Takes what waits innermost away.
    fn pop(&mut self) -> Option<Frame>
        ensures frames { MatchOption result (self.old.frames.items ≡ []) (λ f. self.old.frames.items ≡ self.new.frames.items ++ f ∷ []) }
    {
        self.frames.pop()
    }

    /// Goes outwards from what was found to the next term that is entered, or to the end. `TooDeep` only where something that is made is beyond the limits
    /// of terms.
    pub(crate) fn settle(
        &mut self,
        alloc: Global,
        env: &Env,
        found: Found,
    ) -> Result<Settled, MakeFault>
        ensures ok { IfOk result (Settles env.now (λ u. within env.now self.old.frames.items (goes_on env.now found u)) self.new.frames.items) }
        ensures too_deep { IfErr result (λ e. e ≡ TooDeep → Passes (λ u. within env.now self.old.frames.items (goes_on env.now found u))) }
    {
        let mut now = found;
        'outward: loop {
            match now {
                Found::Enter(term) => {
                    self.contracta = self.contracta.wrapping_add(1);
                    return Ok(Settled::Enter(term));
                }
                Found::Inward { frame, term } => {
                    self.push(frame)?;
                    return Ok(Settled::Enter(term));
                }
                Found::Stuck(term) => return Ok(Settled::Stuck(term)),
                Found::Value(value) => {
                    let Some(frame) = self.pop() else {
                        return Ok(Settled::Value(value));
                    };
                    now = frame.meet(alloc, env, value, self.contracta)?;
                }
            }
        }
    }
}
