//! The search for the place where a step happens.
ghost use Rattle.std.specs.Prelude.{ℕ, ◌≡◌, ◌≤◌, ◌<◌, ◌⊎◌, [], ◌∷◌, ◌++◌, IfOk, IfErr, IfNone, MatchOption, map};
ghost use Rattle.trees.specs.Measures.{IsBeyond};
ghost use Rattle.pc_terms.specs.declared.term.MakeFault.TheVariants.{TooDeep, Memory};
ghost use Rattle.calculus_rules.specs.Context.{Values, values};
ghost use Rattle.calculus_rules.specs.Environment.{Env};
ghost use Rattle.pc_rules.specs.DirectedWeakHead.{weak_next};
ghost use Rattle.reduce_machine.specs.Layered.{plug};
ghost use Rattle.reduce_machine.specs.Layers.{layers, IsOpen, IsFixNode};
ghost use Rattle.reduce_machine.specs.Reads.{read};
ghost use Rattle.reduce_machine.specs.Reducts.{IsKnown, IsLooked, IsItemOf, IsReady, AreReducts, AreWaiting};
ghost use Rattle.reduce_machine.specs.Sought.{whole, load, AreSound, IsRoot, IsStart, IsGrown, IsSettled, KeepsWhole, IsSought, IsRooted, IsFalling, IsOpened, IsKnownFocus, IsEnd, WaitsSettled, WaitsSought};
ghost use Rattle.pc_terms.specs.Syntax.{Term, App, apply};
ghost use Rattle.redexes.specs.Redexes.{fix_body};
ghost use Rattle.reduce_machine.specs.declared.steps.Step.TheVariants.{Branch};
ghost use Rattle.reduce_machine.specs.Steps.{contractum, IsStepNode, IsBeyondStep};

use crate::bindings::{Bindings, Found, Lazy};
use crate::frames::Frame;
use crate::heads::head_step;
use crate::meeting::Met;
use crate::reducts::{Known, Looked, Reducts, Uses};
use crate::steps::{Step, unfolded};
use crate::values::Value;
use pc_rules::context::Ctx;
use pc_rules::environment::Env;
use pc_terms::term::{MakeFault, Node, Term};
use std::alloc::Global;

/// So deep may bindings lie in one another in a focus.
const MOST: u32 = 2000;

/// A term that is taken apart: a part of it, and the frames around that part, the outermost first.
#[derive(Drop)]
pub(crate) struct Machine {
    pub(crate) focus: Lazy,
    pub(crate) frames: Vec<Frame>,
}

/// A term that was the focus when the fixpoint that waits for it was the innermost frame, and how many frames are below that.
#[derive(Drop)]
pub(crate) struct Root {
    pub(crate) term: Lazy,
    pub(crate) below: usize,
}

/// What comes of a focus without a step and the frames around it.
#[derive(Drop)]
pub(crate) enum Settled {
    /// A step in the frames that are left.
    Step(Step),
    /// Another focus, in which a step may happen.
    Inward,
    /// No step: the whole term is this value.
    Whole(Value),
}

/// What comes of a search.
#[derive(Drop)]
pub(crate) enum Sought {
    /// The step of the whole term, in the frames that are left.
    Step(Step),
    /// What the focus is after so many steps.
    Known(Known),
    /// The whole term, which has no step.
    Value(Value),
}

/// What comes of going one layer inwards.
#[derive(Drop)]
pub(crate) enum Entered {
    /// Another focus.
    Deeper,
    /// The focus is no application, no match and no bound variable.
    Open,
    /// The focus is a variable of which this is known.
    Known(Known),
}

/// Takes the last argument away.
fn last(args: &mut Vec<Lazy>) -> Option<Lazy>
    ensures items { MatchOption result (args.old.items ≡ []) (λ x. args.old.items ≡ args.new.items ++ x ∷ []) }
    ensures empty { IfNone result (args.new.items ≡ []) }
{
    args.pop()
}

impl Root {
    /// The root, where so many frames are below that of its fixpoint.
    fn at(root: &Option<Root>, below: usize) -> Result<Option<Lazy>, MakeFault>
        ensures ok { IfOk result (IsRooted root.now below) }
        ensures only_memory { IfErr result (λ e. e ≡ Memory) }
    {
        match root {
            Some(root) => {
                if root.below == below {
                    let term = root.term.share()?;
                    return Ok(Some(term));
                }
                Ok(None)
            }
            None => Ok(None),
        }
    }

    /// Whether the first binding of a term may be looked up again: it is held by others than the term and the root.
    fn uses(root: &Option<Root>, own: &Lazy) -> Uses {
        let here = match root {
            Some(root) => root.term.env.same(&own.env),
            None => false,
        };
        if own.env.holders() > 1 + usize::from(here) {
            return Uses::More;
        }
        Uses::Last
    }

    /// What is known; or else the root, where so many frames are below that of its fixpoint.
    fn or(known: Option<Lazy>, root: &Option<Root>, below: usize) -> Result<Option<Lazy>, MakeFault>
        ensures ok { IfOk result (λ o. (o ≡ known) ⊎ IsRooted root.now below o) }
        ensures only_memory { IfErr result (λ e. e ≡ Memory) }
    {
        match known {
            Some(known) => Ok(Some(known)),
            None => Root::at(root, below),
        }
    }
}

impl Machine {
    /// The whole term as the focus.
    pub(crate) fn of(alloc: Global, term: Lazy) -> Machine
        ensures focus { result.focus ≡ term }
        ensures frames { result.frames.items ≡ [] }
    {
        Machine {
            focus: term,
            frames: Vec::new(alloc),
        }
    }

    /// Puts a frame around the focus.
    fn push(&mut self, frame: Frame) -> Result<(), MakeFault>
        ensures ok { IfOk result (λ _. self.new.frames.items ≡ self.old.frames.items ++ frame ∷ []) }
        ensures focus { IfOk result (λ _. self.new.focus ≡ self.old.focus) }
        ensures only_memory { IfErr result (λ e. e ≡ Memory) }
    {
        match self.frames.push(frame) {
            Ok(()) => Ok(()),
            Err(_) => Err(MakeFault::Memory),
        }
    }

    /// Takes the innermost frame away.
    fn pop(&mut self) -> Option<Frame>
        ensures frames { MatchOption result (self.old.frames.items ≡ []) (λ f. self.old.frames.items ≡ self.new.frames.items ++ f ∷ []) }
        ensures empty { IfNone result (self.new.frames.items ≡ []) }
        ensures focus { self.new.focus ≡ self.old.focus }
    {
        self.frames.pop()
    }

    /// What a variable is bound to as the focus, where nothing is known of it; a frame waits for what that is reduced to, where it is wanted.
    fn enter_item(&mut self, looked: Looked, left: u64) -> Result<Entered, MakeFault>
        requires sound { AreSound self.old.frames.items }
        requires item { IsItemOf self.old.focus looked }
        ensures grown { IfOk result (λ _. IsGrown self.old self.new) }
        ensures sound { IfOk result (λ _. AreSound self.new.frames.items) }
        ensures load { IfOk result (λ _. load self.new ≤ load self.old) }
        ensures falls { IfOk result (IsFalling self.old.focus self.new.focus) }
        ensures open { IfOk result (IsOpened self.new.focus) }
        ensures known { IfOk result (λ e. (E : Env) (V : Values) → IsLooked E V (read self.old.focus) looked → IsKnownFocus E V (read self.new.focus) e) }
        ensures waiting { IfOk result (λ _. (E : Env) (V : Values) → AreWaiting E V left self.old.frames.items (read self.old.focus) → AreWaiting E V left self.new.frames.items (read self.new.focus)) }
        ensures only_memory { IfErr result (λ e. e ≡ Memory) }
    {
        match looked {
            Looked::Known(known) => Ok(Entered::Known(known)),
            Looked::Plain(item) => {
                self.focus = item;
                Ok(Entered::Deeper)
            }
            Looked::Wanted(item) => {
                let own = self.focus.share()?;
                self.push(Frame::Update(own, left))?;
                self.focus = item;
                Ok(Entered::Deeper)
            }
        }
    }

    /// One layer inwards: the function of an application, the scrutinee of a match, or what a variable is bound to.
    fn enter(&mut self, kept: &Reducts) -> Result<Entered, MakeFault>
        requires sound { AreSound self.old.frames.items }
        requires ready { IsReady kept.now }
        ensures grown { IfOk result (λ _. IsGrown self.old self.new) }
        ensures sound { IfOk result (λ _. AreSound self.new.frames.items) }
        ensures load { IfOk result (λ _. load self.new ≤ load self.old) }
        ensures falls { IfOk result (IsFalling self.old.focus self.new.focus) }
        ensures open { IfOk result (IsOpened self.new.focus) }
        ensures known { IfOk result (λ e. (E : Env) (V : Values) → AreReducts E V kept.now.entries.items → IsKnownFocus E V (read self.new.focus) e) }
        ensures waiting { IfOk result (λ _. (E : Env) (V : Values) → AreWaiting E V kept.now.left self.old.frames.items (read self.old.focus) → AreWaiting E V kept.now.left self.new.frames.items (read self.new.focus)) }
        ensures only_memory { IfErr result (λ e. e ≡ Memory) }
    {
        match self.focus.term.view() {
            Node::App(function, argument) => {
                let argument = kept.argument(argument, &self.focus.env)?;
                let function = function.share()?;
                self.push(Frame::Argument(argument))?;
                self.focus.term = function;
                Ok(Entered::Deeper)
            }
            Node::Case(m) => {
                let m = m.get();
                let scrutinee = kept.argument(&m.scrut, &self.focus.env)?;
                let outer = self.focus.share()?;
                self.push(Frame::Scrutinee(outer))?;
                self.focus = scrutinee;
                Ok(Entered::Deeper)
            }
            Node::Rel(i) => match self.focus.env.find(*i) {
                Found::Item(item, memo) => {
                    let looked = kept.look(item, memo)?;
                    self.enter_item(looked, kept.left)
                }
                Found::Past(_) => Ok(Entered::Open),
            },
            _ => Ok(Entered::Open),
        }
    }

    /// Inwards to a focus that is no application, no match and no bound variable; or to a variable of which something is known.
    fn descend(&mut self, kept: &Reducts) -> Result<Option<Known>, MakeFault>
        requires sound { AreSound self.old.frames.items }
        requires ready { IsReady kept.now }
        ensures grown { IfOk result (λ _. IsGrown self.old self.new) }
        ensures sound { IfOk result (λ _. AreSound self.new.frames.items) }
        ensures load { IfOk result (λ _. load self.new ≤ load self.old) }
        ensures end { IfOk result (IsEnd self.new.focus) }
        ensures known { IfOk result (λ o. (E : Env) (V : Values) → AreReducts E V kept.now.entries.items → IsKnown E V (read self.new.focus) o) }
        ensures waiting { IfOk result (λ _. (E : Env) (V : Values) → AreWaiting E V kept.now.left self.old.frames.items (read self.old.focus) → AreWaiting E V kept.now.left self.new.frames.items (read self.new.focus)) }
        ensures only_memory { IfErr result (λ e. e ≡ Memory) }
    {
        'inward: loop {
            match self.enter(kept)? {
                Entered::Deeper => {}
                Entered::Open => return Ok(None),
                Entered::Known(known) => return Ok(Some(known)),
            }
        }
    }

    /// The focus, where a fixpoint waits for it.
    fn root(&self) -> Result<Option<Root>, MakeFault>
        ensures start { IfOk result (IsStart self.now.frames.items (read self.now.focus)) }
        ensures only_memory { IfErr result (λ e. e ≡ Memory) }
    {
        let count = self.frames.len();
        if count == 0 {
            return Ok(None);
        }
        match &self.frames[count - 1] {
            Frame::Recursive(_, _) => {
                let term = self.focus.share()?;
                Ok(Some(Root {
                    term,
                    below: count - 1,
                }))
            }
            _ => Ok(None),
        }
    }

    /// Outwards from a focus without a step.
    fn settle(
        &mut self,
        alloc: Global,
        env: &Env,
        root: Option<Root>,
        kept: &mut Reducts,
    ) -> Result<Settled, MakeFault>
        requires sound { AreSound self.old.frames.items }
        requires open { IsOpen self.old.focus }
        requires root { IsRoot self.old.frames.items (read self.old.focus) root }
        requires ready { IsReady kept.old }
        ensures ready { IsReady kept.new }
        ensures left { kept.new.left ≡ kept.old.left }
        ensures reducts { (V : Values) → AreReducts env.now V kept.old.entries.items → AreWaiting env.now V kept.old.left self.old.frames.items (read self.old.focus) → AreReducts env.now V kept.new.entries.items }
        ensures waiting { IfOk result (λ s. (V : Values) → weak_next env.now V (read self.old.focus) ≡ None → AreWaiting env.now V kept.old.left self.old.frames.items (read self.old.focus) → WaitsSettled env.now V kept.old.left self.new s) }
        ensures settled { IfOk result (λ s. (V : Values) → weak_next env.now V (read self.old.focus) ≡ None → IsSettled env.now V (whole self.old) self.new s) }
        ensures keeps { IfOk result (KeepsWhole (whole self.old) (load self.old) self.new) }
        ensures sound { IfOk result (λ _. AreSound self.new.frames.items) }
        ensures too_deep { IfErr result (λ e. e ≡ TooDeep → IsBeyond (whole self.old)) }
    {
        let start = self.focus.share()?;
        let mut value = Value::of(alloc, start);
        let mut known: Option<Lazy> = None;
        'outward: while let Some(frame) = self.pop() {
            let below = self.frames.len();
            let at = Root::or(known, &root, below)?;
            known = None;
            match frame {
                Frame::Update(own, began) => {
                    let uses = Root::uses(&root, &own);
                    known = kept.keep(alloc, &own, began, &value, at, uses);
                }
                waiting => {
                    let met = waiting.meet(alloc, env, value, at)?;
                    match met {
                        Met::Step(step) => return Ok(Settled::Step(step)),
                        Met::Inward(fix, before, argument) => {
                            self.push(Frame::Recursive(fix, before))?;
                            self.focus = argument;
                            return Ok(Settled::Inward);
                        }
                        Met::Stuck(wider) => value = wider,
                    }
                }
            }
        }
        Ok(Settled::Whole(value))
    }

    /// The step of the whole term, in the frames that are left then; or the whole term, where it has no step.
    pub(crate) fn seek(
        &mut self,
        alloc: Global,
        env: &Env,
        ctx: &Ctx,
        kept: &mut Reducts,
    ) -> Result<Sought, MakeFault>
        requires sound { AreSound self.old.frames.items }
        requires ready { IsReady kept.old }
        requires reducts { AreReducts env.now (values ctx.now) kept.old.entries.items }
        requires waiting { AreWaiting env.now (values ctx.now) kept.old.left self.old.frames.items (read self.old.focus) }
        ensures ready { IsReady kept.new }
        ensures left { kept.new.left ≡ kept.old.left }
        ensures reducts { AreReducts env.now (values ctx.now) kept.new.entries.items }
        ensures waiting { IfOk result (WaitsSought env.now (values ctx.now) kept.old.left self.new) }
        ensures sought { IfOk result (λ s. IsSought env.now (values ctx.now) (whole self.old) self.new s) }
        ensures sound { IfOk result (λ _. AreSound self.new.frames.items) }
        ensures too_deep { IfErr result (λ e. e ≡ TooDeep → IsBeyond (whole self.old)) }
    {
        'search: loop {
            let root = self.root()?;
            let known = self.descend(kept)?;
            if let Some(known) = known {
                return Ok(Sought::Known(known));
            }
            let step = head_step(env, ctx, &self.focus)?;
            if let Some(step) = step {
                return Ok(Sought::Step(step));
            }
            let settled = self.settle(alloc, env, root, kept)?;
            match settled {
                Settled::Step(step) => return Ok(Sought::Step(step)),
                Settled::Inward => {}
                Settled::Whole(value) => return Ok(Sought::Value(value)),
            }
        }
    }

    /// A body whose innermost variables are bound to what a constructor is applied to, but for the parameters.
    fn bind(
        alloc: Global,
        body: Term,
        env: Bindings,
        args: Vec<Lazy>,
        params: usize,
    ) -> Result<Lazy, MakeFault>
        ensures ok { IfOk result (λ l. read l ≡ contractum (Branch body env args params)) }
        ensures only_memory { IfErr result (λ e. e ≡ Memory) }
    {
        let mut bound = env;
        let items = args.as_slice();
        let mut i = params;
        'next: while i < items.len() {
            let item = items[i].share()?;
            bound = bound.with(alloc, item)?;
            i += 1;
        }
        Ok(Lazy {
            term: body,
            env: bound,
        })
    }

    /// Puts an argument around the focus.
    fn push_argument(&mut self, argument: Lazy) -> Result<(), MakeFault>
        requires { AreSound self.old.frames.items }
        ensures plug { IfOk result (λ _. (t : Term) → plug (layers self.new.frames.items) t ≡ plug (layers self.old.frames.items) (App t (read argument))) }
        ensures waiting { IfOk result (λ _. (E : Env) (V : Values) (u : ℕ) (t : Term) → AreWaiting E V u self.old.frames.items (App t (read argument)) → AreWaiting E V u self.new.frames.items t) }
        ensures sound { IfOk result (λ _. AreSound self.new.frames.items) }
        ensures only_memory { IfErr result (λ e. e ≡ Memory) }
    {
        self.push(Frame::Argument(argument))
    }

    /// Puts the arguments of a fixpoint around its body.
    fn apply(
        &mut self,
        alloc: Global,
        fix: &Lazy,
        before: Vec<Lazy>,
        argument: Lazy,
    ) -> Result<(), MakeFault>
        requires sound { AreSound self.old.frames.items }
        requires node { IsFixNode fix.now.term }
        ensures ok { IfOk result (λ _. whole self.new ≡ plug (layers self.old.frames.items) (App (apply (fix_body (read fix.now)) (map read before.items)) (read argument))) }
        ensures waiting { IfOk result (λ _. (E : Env) (V : Values) (u : ℕ) → AreWaiting E V u self.old.frames.items (App (apply (fix_body (read fix.now)) (map read before.items)) (read argument)) → AreWaiting E V u self.new.frames.items (read self.new.focus)) }
        ensures sound { IfOk result (λ _. AreSound self.new.frames.items) }
        ensures too_deep { IfErr result (λ e. e ≡ TooDeep → IsBeyond (read fix.now) ⊎ IsBeyond (fix_body (read fix.now))) }
    {
        let body = unfolded(alloc, fix)?;
        self.push_argument(argument)?;
        let mut rest = before;
        'next: while let Some(x) = last(&mut rest) {
            self.push_argument(x)?;
        }
        self.focus = body;
        Ok(())
    }

    /// Takes a step. `TooDeep` only where its result is beyond the limits, or what is read for it.
    pub(crate) fn take(&mut self, alloc: Global, step: Step) -> Result<(), MakeFault>
        requires sound { AreSound self.old.frames.items }
        requires node { IsStepNode step }
        ensures ok { IfOk result (λ _. whole self.new ≡ plug (layers self.old.frames.items) (contractum step)) }
        ensures waiting { IfOk result (λ _. (E : Env) (V : Values) (u : ℕ) → AreWaiting E V u self.old.frames.items (contractum step) → AreWaiting E V u self.new.frames.items (read self.new.focus)) }
        ensures sound { IfOk result (λ _. AreSound self.new.frames.items) }
        ensures too_deep { IfErr result (λ e. e ≡ TooDeep → IsBeyondStep step) }
    {
        match step {
            Step::Variable { value, by } => {
                let term = value.lift(alloc, by, 0)?;
                self.focus = Lazy::plain(term);
                Ok(())
            }
            Step::Constant(body) => {
                self.focus = Lazy::plain(body);
                Ok(())
            }
            Step::Bound { body, env, value } => {
                let env = env.with(alloc, value)?;
                self.focus = Lazy { term: body, env };
                Ok(())
            }
            Step::Branch {
                body,
                env,
                args,
                params,
            } => {
                let bound = Machine::bind(alloc, body, env, args, params)?;
                self.focus = bound;
                Ok(())
            }
            Step::Fixpoint {
                fix,
                before,
                argument,
            } => self.apply(alloc, &fix, before, argument),
        }
    }

    /// Reads the focus where bindings lie deep in one another there.
    pub(crate) fn flatten(&mut self, alloc: Global) -> Result<(), MakeFault>
        requires sound { AreSound self.old.frames.items }
        ensures ok { IfOk result (λ _. whole self.new ≡ whole self.old) }
        ensures focus { IfOk result (λ _. read self.new.focus ≡ read self.old.focus) }
        ensures frames { IfOk result (λ _. self.new.frames.items ≡ self.old.frames.items) }
        ensures sound { IfOk result (λ _. AreSound self.new.frames.items) }
        ensures too_deep { IfErr result (λ e. e ≡ TooDeep → IsBeyond (whole self.old)) }
    {
        if self.focus.env.rank() <= MOST {
            return Ok(());
        }
        let term = self.focus.read(alloc)?;
        self.focus = Lazy::plain(term);
        Ok(())
    }
}
