//! A block that is being written, and what a term becomes after its bindings.
ghost use Rattle.std.specs.Prelude.{◌≡◌, IfOk, IfErr, [], ◌∷◌, map, reverse};
ghost use Rattle.anf_convert.specs.Anf.{OpIs};
ghost use Rattle.anf_convert.specs.AnfView.{seen};
ghost use Rattle.anf_convert.specs.OperationView.{operation_of};
ghost use Rattle.anf_convert.specs.ToAnf.{LVar, ROp, at_depth, binding_of, tail_of, block_of};
ghost use Rattle.anf_convert.specs.Writing.{res_of, written, named_at};
ghost use Rattle.lambda_box.specs.declared.fault.PassFault.TheVariants.{Memory};

use crate::level::Level;
use crate::lists::Atoms;
use crate::program::{AnfBlock, Atom, Op, Ops};
use lambda_box::PassFault;
use std::alloc::Global;
use std::marker::Model;

/// An operation that is no atom.
#[derive(Drop)]
pub(crate) struct Operation {
    op: Op,
}

impl Model for Operation {
    ghost use Rattle.std.specs.Prelude.{◌≡◌};
    ghost use Rattle.anf_convert.specs.Anf.{AnfOp, OpIs};
    ghost use Rattle.anf_convert.specs.AnfCode.{coded_op};
    ghost use Rattle.anf_convert.specs.AnfView.{seen};
    ghost use Rattle.anf_convert.specs.OperationView.{operation_of};

    ghost Value = { AnfOp };

    ghost coded = { coded_op };

    ghost view = { λ a. operation_of (seen a.op) };

    ghost invariant = { λ a. seen a.op ≡ OpIs (operation_of (seen a.op)) };
}

impl Operation {
    /// The operation.
    pub(crate) fn into_op(self) -> Op
        ensures is { seen result ≡ OpIs self }
    {
        self.op
    }
}

/// What a term becomes after its bindings.
#[derive(Drop)]
pub(crate) enum Made {
    /// An atom.
    Atom(Level),
    /// A constructor with its arguments so far, the first first.
    Construct(u32, Vec<Level>),
    /// An operation that is no atom.
    Other(Operation),
}

impl Made {
    /// What an operation that is no atom is.
    pub(crate) fn operation(op: Op) -> Made
        requires proper { seen op ≡ OpIs (operation_of (seen op)) }
        ensures is { res_of result ≡ ROp (operation_of (seen op)) }
    {
        Made::Other(Operation { op })
    }
}

/// A block that is being written.
#[derive(Drop)]
pub(crate) struct Builder {
    /// Its bindings so far.
    pub ops: Ops,
    /// How many variables there are after them.
    pub depth: u32,
}

/// The atoms of these levels under `depth` variables. Only `Memory`.
#[tactic(auto, using(box_terms::proofs::Items::reverse_map, std::proofs::lemmas::Grind::common_steps))]
fn atoms(alloc: Global, levels: &[Level], depth: u32) -> Result<Atoms, PassFault>
    ensures ok { IfOk result (λ xs. xs ≡ map (at_depth depth) (reverse levels.now)) }
    ensures only_memory { IfErr result (λ e. e ≡ Memory) }
{
    let mut items = Vec::new(alloc);
    for level in levels {
        if items.push(level.at_depth(depth)).is_err() {
            return Err(PassFault::Memory);
        }
    }
    Ok(Atoms::of(items))
}

/// The operation that a result becomes under `depth` variables. Only `Memory`.
fn finished(alloc: Global, made: Made, depth: u32) -> Result<Op, PassFault>
    ensures ok { IfOk result (λ op. seen op ≡ binding_of depth (res_of made)) }
    ensures only_memory { IfErr result (λ e. e ≡ Memory) }
{
    match made {
        Made::Atom(level) => Ok(Op::Atom(level.at_depth(depth))),
        Made::Construct(c, levels) => {
            if levels.is_empty() {
                return Ok(Op::Atom(Atom::Empty(c)));
            }
            let args = atoms(alloc, levels.as_slice(), depth)?;
            Ok(Op::Construct(c, args))
        }
        Made::Other(operation) => Ok(operation.into_op()),
    }
}

impl Builder {
    /// A block with no binding yet, under `depth` variables.
    pub(crate) fn new(alloc: Global, depth: u32) -> Builder
        ensures ops { result.ops ≡ [] }
        ensures depth { result.depth ≡ depth }
    {
        Builder {
            ops: Ops::new(alloc),
            depth,
        }
    }

    /// Binds the value of an operation; gives its variable. `Memory` too where the number of variables passes 4,294,967,295.
    pub(crate) fn add(&mut self, op: Op) -> Result<Level, PassFault>
        ensures ok { IfOk result (λ l. l ≡ LVar self.old.depth) }
        ensures written { IfOk result (λ _. self.new ≡ written self.old (seen op ∷ [])) }
        ensures only_memory { IfErr result (λ e. e ≡ Memory) }
    {
        let level = self.depth;
        let Some(depth) = level.checked_add(1) else {
            return Err(PassFault::Memory);
        };
        self.ops.push(op)?;
        self.depth = depth;
        Ok(Level::Var(level))
    }

    /// Binds a result; gives its variable. `Memory` as with `add`.
    pub(crate) fn bind(&mut self, alloc: Global, made: Made) -> Result<Level, PassFault>
        ensures ok { IfOk result (λ l. l ≡ LVar self.old.depth) }
        ensures written { IfOk result (λ _. self.new ≡ written self.old (binding_of self.old.depth (res_of made) ∷ [])) }
        ensures only_memory { IfErr result (λ e. e ≡ Memory) }
    {
        let op = finished(alloc, made, self.depth)?;
        self.add(op)
    }

    /// The atom that a result is, which is bound where it is none; gives the atom. `Memory` as with `add`.
    pub(crate) fn name(&mut self, alloc: Global, made: Made) -> Result<Level, PassFault>
        ensures ok { IfOk result (λ l. l ≡ (named_at self.old.depth (res_of made)).atom) }
        ensures written { IfOk result (λ _. self.new ≡ written self.old (named_at self.old.depth (res_of made)).ops) }
        ensures only_memory { IfErr result (λ e. e ≡ Memory) }
    {
        match made {
            Made::Atom(level) => Ok(level),
            Made::Construct(c, levels) => {
                if levels.is_empty() {
                    return Ok(Level::Empty(c));
                }
                let args = atoms(alloc, levels.as_slice(), self.depth)?;
                self.add(Op::Construct(c, args))
            }
            Made::Other(operation) => self.add(operation.into_op()),
        }
    }

    /// The block, which ends in a result. Only `Memory`.
    pub(crate) fn seal(self, alloc: Global, made: Made) -> Result<AnfBlock, PassFault>
        ensures ok { IfOk result (λ b. b ≡ block_of self.ops (tail_of (binding_of self.depth (res_of made)))) }
        ensures only_memory { IfErr result (λ e. e ≡ Memory) }
    {
        let tail = finished(alloc, made, self.depth)?;
        Ok(AnfBlock {
            bindings: self.ops,
            tail,
        })
    }
}
