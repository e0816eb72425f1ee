//! The search for the place where a step happens.
ghost use Rattle.std.specs.Prelude.{◌≡◌, ◌≤◌, ◌<◌, [], ◌∷◌, ◌++◌, true, false, IfOk, IfErr, IfNone, MatchOption};
ghost use Rattle.trees.specs.Measures.{IsBeyond};
ghost use Rattle.pc_terms.specs.declared.term.MakeFault.TheVariants.{TooDeep, Memory};
ghost use Rattle.calculus_rules.specs.Context.{Values, values};
ghost use Rattle.pc_rules.specs.DirectedWeakHead.{weak_next};
ghost use Rattle.reduction.specs.Frames.{AreFrames, IsHead, work};
ghost use Rattle.reduction.specs.Sought.{whole, load, IsSettled, KeepsWhole, IsSought};

use crate::frames::Frame;
use crate::heads::head_step;
use crate::meeting::{Met, Value};
use pc_rules::context::Ctx;
use pc_rules::environment::Env;
use pc_terms::term::{MakeFault, Node, Term};
use redexes::redexes::Redex;
use std::alloc::Global;

/// A term that is taken apart: a part of it, and the frames around that part, the outermost first.
#[derive(Drop)]
pub(crate) struct Machine {
    pub(crate) focus: Term,
    pub(crate) frames: Vec<Frame>,
}

/// What comes of a focus without a step and the frames around it.
#[derive(Drop)]
pub(crate) enum Settled {
    /// A step in the frames that are left.
    Step(Redex),
    /// Another focus, in which a step may happen.
    Inward,
    /// No step: the focus is the whole term.
    Whole,
}

impl Machine {
    /// The whole term as the focus.
    pub(crate) fn of(alloc: Global, term: Term) -> Machine
        ensures whole { whole result ≡ term }
        ensures frames { AreFrames result.frames.items }
    {
        Machine {
            focus: term,
            frames: Vec::new(alloc),
        }
    }

    /// Puts a frame around the focus.
    fn push(&mut self, frame: Frame) -> Result<(), MakeFault>
        ensures ok { IfOk result (λ _. self.new.frames.items ≡ self.old.frames.items ++ frame ∷ []) }
        ensures focus { IfOk result (λ _. self.new.focus ≡ self.old.focus) }
        ensures only_memory { IfErr result (λ e. e ≡ Memory) }
    {
        match self.frames.push(frame) {
            Ok(()) => Ok(()),
            Err(_) => Err(MakeFault::Memory),
        }
    }

    /// Takes the innermost frame away.
    pub(crate) fn pop(&mut self) -> Option<Frame>
        ensures frames { MatchOption result (self.old.frames.items ≡ []) (λ f. self.old.frames.items ≡ self.new.frames.items ++ f ∷ []) }
        ensures empty { IfNone result (self.new.frames.items ≡ []) }
        ensures focus { self.new.focus ≡ self.old.focus }
    {
        self.frames.pop()
    }

    /// One layer inwards: the function of an application, or the scrutinee of a match; false where the focus is neither.
    fn enter(&mut self) -> Result<bool, MakeFault>
        requires { AreFrames self.old.frames.items }
        ensures whole { IfOk result (λ _. whole self.new ≡ whole self.old) }
        ensures frames { IfOk result (λ _. AreFrames self.new.frames.items) }
        ensures load { IfOk result (λ _. load self.new ≤ load self.old) }
        ensures falls { IfOk result (λ more. more ≡ true → work self.new.focus < work self.old.focus) }
        ensures head { IfOk result (λ more. more ≡ false → IsHead self.new.focus) }
        ensures only_memory { IfErr result (λ e. e ≡ Memory) }
    {
        match self.focus.view() {
            Node::App(function, argument) => {
                let function = function.share()?;
                let argument = argument.share()?;
                self.push(Frame::Argument(argument))?;
                self.focus = function;
                Ok(true)
            }
            Node::Case(m) => {
                let m = m.get();
                let scrutinee = m.scrut.share()?;
                let around = self.focus.share()?;
                self.push(Frame::Scrutinee(around))?;
                self.focus = scrutinee;
                Ok(true)
            }
            _ => Ok(false),
        }
    }

    /// Inwards to a focus that is no application and no match.
    fn descend(&mut self) -> Result<(), MakeFault>
        requires { AreFrames self.old.frames.items }
        ensures whole { IfOk result (λ _. whole self.new ≡ whole self.old) }
        ensures frames { IfOk result (λ _. AreFrames self.new.frames.items) }
        ensures load { IfOk result (λ _. load self.new ≤ load self.old) }
        ensures head { IfOk result (λ _. IsHead self.new.focus) }
        ensures only_memory { IfErr result (λ e. e ≡ Memory) }
    {
        'inward: while self.enter()? {}
        Ok(())
    }

    /// Outwards from a focus without a step, which is no application and no match.
    fn settle(&mut self, alloc: Global, env: &Env) -> Result<Settled, MakeFault>
        requires frames { AreFrames self.old.frames.items }
        requires head { IsHead self.old.focus }
        ensures settled { IfOk result (λ s. (V : Values) → weak_next env.now V self.old.focus ≡ None → IsSettled env.now V (whole self.old) self.new s) }
        ensures keeps { IfOk result (KeepsWhole (whole self.old) (load self.old) self.new) }
        ensures frames { IfOk result (λ _. AreFrames self.new.frames.items) }
        ensures too_deep { IfErr result (λ e. e ≡ TooDeep → IsBeyond (whole self.old)) }
    {
        let start = self.focus.share()?;
        let mut value = Value::of(start);
        'outward: while let Some(frame) = self.pop() {
            let met = frame.meet(alloc, env, value)?;
            match met {
                Met::Step(redex) => return Ok(Settled::Step(redex)),
                Met::Inward { function, argument } => {
                    self.push(Frame::Recursive(function))?;
                    self.focus = argument;
                    return Ok(Settled::Inward);
                }
                Met::Stuck(wider) => value = wider,
            }
        }
        self.focus = value.term;
        Ok(Settled::Whole)
    }

    /// The step of the whole term, in the frames that are left then; none where it has no step, and then it is the focus.
    pub(crate) fn seek(
        &mut self,
        alloc: Global,
        env: &Env,
        ctx: &Ctx,
    ) -> Result<Option<Redex>, MakeFault>
        requires frames { AreFrames self.old.frames.items }
        ensures sought { IfOk result (λ o. IsSought env.now (values ctx.now) (whole self.old) self.new o) }
        ensures frames { IfOk result (λ _. AreFrames self.new.frames.items) }
        ensures too_deep { IfErr result (λ e. e ≡ TooDeep → IsBeyond (whole self.old)) }
    {
        'search: loop {
            self.descend()?;
            let step = head_step(env, ctx, &self.focus)?;
            if let Some(redex) = step {
                return Ok(Some(redex));
            }
            let settled = self.settle(alloc, env)?;
            match settled {
                Settled::Step(redex) => return Ok(Some(redex)),
                Settled::Inward => {}
                Settled::Whole => return Ok(None),
            }
        }
    }
}
