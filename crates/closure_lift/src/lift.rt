//! Code of lifted programs, written in one walk from the root down.
ghost use Rattle.std.specs.Prelude.{◌≡◌, ℕ, suc, ◌+◌, ◌<◌, [], ◌∷◌, ◌++◌, IfOk, IfErr, OnOk, length, map, get_or, take, slice_set};
ghost use Rattle.anf_convert.specs.Anf.{LamOp, FixOp, def_count};
ghost use Rattle.anf_convert.specs.declared.program.Atom.TheVariants.{Box as ABox};
ghost use Rattle.anf_convert.specs.Captured.{Plain, plains, lam_captured, fix_captured};
ghost use Rattle.anf_convert.specs.AnfView.{seen as seen_anf};
ghost use Rattle.closure_lift.specs.Lift.{Holds, held, lift_block, lift_branches, functions_op, functions_block, functions_branches, unnumbered, holding};
ghost use Rattle.closure_lift.specs.Lifted.{ClosOp, TailAtom, OpIs};
ghost use Rattle.closure_lift.specs.LiftedView.{seen, bounds_of, functions_of};
ghost use Rattle.closure_lift.specs.FreeVariables.{size, notes_op, notes_block, notes_branches, notes_defs};
ghost use Rattle.closure_lift.specs.Noting.{notes_bound, notes_def};
ghost use Rattle.closure_lift.specs.Lifting.{Stand, LiftRefuses, WithClosures, WithFunctions, PlacesFor, FewWords, BoundCaptures, DefCaptures, IsArm, atoms_in, words_for, most_words};
ghost use Rattle.closure_lift.specs.Lifting.{blanks, closures_frame, lifted_bound, functions_bound, function_body, function_with, definitions, def_body, functions_def, arm_functions};
ghost use Rattle.closure_lift.specs.CapturedLimit.{OpCaptures, BlockCaptures, BranchesCapture, DefsCapture};
ghost use Rattle.closure_lift.specs.declared.fault.LiftFault.TheVariants.{Memory};

use crate::atoms::{closure_of, lift_application, lift_constructor, lift_one};
use crate::fault::LiftFault;
use crate::frame::Frame;
use crate::program::{Function, LiftedBlock, LiftedBranch, LiftedBranches, LiftedOp, LiftedOps};
use crate::variables::{Variables, push_fixes};
use crate::words::{captured_words, number_of};
use anf_convert::program::{AnfBlock, AnfBranch, AnfBranches, AnfDef, AnfDefs, Atom, Op};
use pc_terms::lists::Numbers;
use std::alloc::Global;
use std::rc::Rc;

/// The greatest number of captured words.
const MOST_WORDS: usize = 1000;

/// The captured words of the lambda or fixpoint whose free variables are noted at `at`; none where it has no place. `Captured` where they
/// are too many.
fn words_at(
    alloc: Global,
    notes: &[Numbers],
    variables: &Variables,
    at: usize,
) -> Result<Numbers, LiftFault>
    requires here { at < length notes.now }
    ensures is { IfOk result (λ ws. ws ≡ words_for variables.now.0 (get_or notes.now at [])) }
    ensures few { IfOk result (λ ws. length ws < most_words) }
    ensures refused { IfErr result (LiftRefuses (FewWords variables.now.0 (get_or notes.now at []))) }
{
    let mut names = Vec::new(alloc);
    for level in notes[at].as_slice() {
        variables.name_words(*level, &mut names)?;
    }
    let words = captured_words(alloc, &names, variables.depth())?;
    if words.as_slice().len() > MOST_WORDS {
        return Err(LiftFault::Captured);
    }
    Ok(words)
}

/// What a function holds before its argument: its captured words. Only `Memory`.
fn frame_of(alloc: Global, words: &Numbers) -> Result<Frame, LiftFault>
    ensures is { IfOk result (λ fr. fr ≡ map (λ x. Holds x) words.now) }
    ensures only_memory { IfErr result (λ e. e ≡ Memory) }
{
    let words = words.as_slice();
    let mut frame = Frame::new(alloc);
    for past in 0..words.len() {
        frame.push_word(words[words.len() - 1 - past])?;
    }
    Ok(frame)
}

/// The block that is box.
fn boxed(alloc: Global) -> LiftedBlock
    ensures is { result ≡ TailAtom ABox }
{
    LiftedBlock {
        bindings: LiftedOps::of(Vec::new(alloc)),
        tail: LiftedOp::Atom(Atom::Box),
    }
}

/// Puts `count` functions behind the others, which are replaced later. Only `Memory`.
fn reserve(alloc: Global, count: usize, functions: &mut Vec<Function>) -> Result<(), LiftFault>
    ensures functions { OnOk result (functions_of functions.new.items ≡ functions_of functions.old.items ++ blanks count) }
    ensures only_memory { IfErr result (λ e. e ≡ Memory) }
{
    for _i in 0..count {
        let blank = Function {
            captured: 0,
            body: boxed(alloc),
        };
        if functions.push(blank).is_err() {
            return Err(LiftFault::Memory);
        }
    }
    Ok(())
}

/// Puts a function with a number in its place. Only `Memory`.
fn put(
    at: usize,
    words: &Numbers,
    body: LiftedBlock,
    functions: &mut Vec<Function>,
) -> Result<(), LiftFault>
    requires here { at < length functions.old.items }
    ensures put { OnOk result (functions_of functions.new.items ≡ slice_set (functions_of functions.old.items) at (function_with words.now body)) }
    ensures only_memory { IfErr result (λ e. e ≡ Memory) }
{
    let captured = number_of(words.as_slice().len())?;
    functions[at] = Function { captured, body };
    Ok(())
}

/// `count` more variables that hold words, in the scope and in the block. Only `Memory`.
fn push_words(count: u32, variables: &mut Variables, frame: &mut Frame) -> Result<(), LiftFault>
    ensures variables { OnOk result (variables.new ≡ (plains count variables.old.0, unnumbered count variables.old.1)) }
    ensures frame { OnOk result (frame.new ≡ holding count variables.old.0 frame.old) }
    ensures only_memory { IfErr result (λ e. e ≡ Memory) }
{
    for _i in 0..count {
        frame.push_word(variables.depth())?;
        variables.push_word()?;
    }
    Ok(())
}

/// One more binding of a block, and the variable that holds its word. Only `Memory`.
fn bind(
    op: LiftedOp,
    variables: &mut Variables,
    frame: &mut Frame,
    code: &mut Vec<LiftedOp>,
) -> Result<(), LiftFault>
    ensures code { OnOk result (code.new.items ≡ code.old.items ++ op ∷ []) }
    ensures variables { OnOk result (variables.new ≡ (plains 1 variables.old.0, unnumbered 1 variables.old.1)) }
    ensures frame { OnOk result (frame.new ≡ holding 1 variables.old.0 frame.old) }
    ensures only_memory { IfErr result (λ e. e ≡ Memory) }
{
    if code.push(op).is_err() {
        return Err(LiftFault::Memory);
    }
    push_words(1, variables, frame)
}

/// The captured words of a fixpoint whose functions are numbered from `at` on. `Captured` where they are too many.
fn fix_words(
    alloc: Global,
    notes: &[Numbers],
    variables: &Variables,
    at: usize,
    defs: &AnfDefs,
) -> Result<Numbers, LiftFault>
    requires notes { Stand notes.now at (notes_op (size variables.now.0) (FixOp defs.now 0)) }
    ensures is { IfOk result (λ ws. ws ≡ fix_captured variables.now.0 defs.now) }
    ensures few { OnOk result (length (fix_captured variables.now.0 defs.now) < most_words) }
    ensures refused { IfErr result (LiftRefuses (length (fix_captured variables.now.0 defs.now) < most_words)) }
{
    if defs.len() == 0 {
        return Ok(Numbers::new(alloc));
    }
    words_at(alloc, notes, variables, at)
}

/// Words that are shared. Only `Memory`.
fn shared(alloc: Global, words: Numbers) -> Result<Rc<Numbers>, LiftFault>
    ensures is { IfOk result (λ ws. ws.value ≡ words) }
    ensures only_memory { IfErr result (λ e. e ≡ Memory) }
{
    match Rc::new(alloc, words) {
        Ok(words) => Ok(words),
        Err(_) => Err(LiftFault::Memory),
    }
}

/// The operation of a lifted block, after the closures that it names.
#[cycle(lift)]
pub(crate) fn lift_op(
    alloc: Global,
    notes: &[Numbers],
    variables: &mut Variables,
    functions: &mut Vec<Function>,
    frame: &mut Frame,
    code: &mut Vec<LiftedOp>,
    op: &Op,
) -> Result<LiftedOp, LiftFault>
    requires notes { Stand notes.now (length functions.old.items) (notes_bound (size variables.old.0) (seen_anf op.now)) }
    ensures op { IfOk result (λ o. seen o ≡ lifted_bound variables.old.0 variables.old.1 frame.new (length functions.old.items) (seen_anf op.now)) }
    ensures frame { OnOk result (frame.new ≡ closures_frame variables.old.0 frame.old (atoms_in (seen_anf op.now))) }
    ensures code { OnOk result (WithClosures variables.old frame.old (seen_anf op.now) (bounds_of code.old.items) (bounds_of code.new.items)) }
    ensures functions { OnOk result (WithFunctions functions.old.items functions.new.items (λ g. functions_bound variables.old.0 variables.old.1 g (seen_anf op.now))) }
    ensures variables { OnOk result (variables.new ≡ variables.old) }
    ensures captures { OnOk result (BoundCaptures variables.old.0 (seen_anf op.now)) }
    ensures refused { IfErr result (LiftRefuses (BoundCaptures variables.old.0 (seen_anf op.now))) }
{
    match op {
        Op::Atom(a) => Ok(LiftedOp::Atom(lift_one(alloc, variables, frame, code, a)?)),
        Op::Const(name) => Ok(LiftedOp::Const(*name)),
        Op::App(f, a) => lift_application(alloc, variables, frame, code, f, a),
        Op::Construct(c, atoms) => lift_constructor(alloc, variables, frame, code, *c, atoms),
        Op::Lambda(body) => lift_lambda(alloc, notes, variables, functions, frame, body),
        Op::Fix(defs, i) => lift_fix(alloc, notes, variables, functions, frame, defs, *i),
        Op::Case(a, branches) => {
            let scrutinee = lift_one(alloc, variables, frame, code, a)?;
            let arms = lift_arms(alloc, notes, variables, functions, frame, branches)?;
            Ok(LiftedOp::Case(scrutinee, arms))
        }
    }
}

/// The closure of a lambda, whose function has the next number.
#[cycle(lift)]
fn lift_lambda(
    alloc: Global,
    notes: &[Numbers],
    variables: &mut Variables,
    functions: &mut Vec<Function>,
    frame: &Frame,
    body: &AnfBlock,
) -> Result<LiftedOp, LiftFault>
    requires notes { Stand notes.now (length functions.old.items) (notes_op (size variables.old.0) (LamOp body.now)) }
    ensures op { IfOk result (λ o. seen o ≡ OpIs (ClosOp (length functions.old.items) (map (held frame.now) (lam_captured variables.old.0 body.now)))) }
    ensures functions { OnOk result (WithFunctions functions.old.items functions.new.items (λ g. functions_op variables.old.0 variables.old.1 g (LamOp body.now))) }
    ensures variables { OnOk result (variables.new ≡ variables.old) }
    ensures captures { OnOk result (OpCaptures most_words variables.old.0 (LamOp body.now)) }
    ensures refused { IfErr result (LiftRefuses (OpCaptures most_words variables.old.0 (LamOp body.now))) }
{
    let at = functions.len();
    let words = words_at(alloc, notes, variables, at)?;
    reserve(alloc, 1, functions)?;
    let lifted = lift_body(alloc, notes, variables, functions, &words, body)?;
    put(at, &words, lifted, functions)?;
    closure_of(alloc, frame, &words, at, 0)
}

/// The closure of definition `i` of a fixpoint, whose functions have the next numbers.
#[cycle(lift)]
fn lift_fix(
    alloc: Global,
    notes: &[Numbers],
    variables: &mut Variables,
    functions: &mut Vec<Function>,
    frame: &Frame,
    defs: &AnfDefs,
    i: u32,
) -> Result<LiftedOp, LiftFault>
    requires notes { Stand notes.now (length functions.old.items) (notes_op (size variables.old.0) (FixOp defs.now 0)) }
    ensures op { IfOk result (λ o. seen o ≡ OpIs (ClosOp (length functions.old.items + i) (map (held frame.now) (fix_captured variables.old.0 defs.now)))) }
    ensures functions { OnOk result (WithFunctions functions.old.items functions.new.items (λ g. functions_op variables.old.0 variables.old.1 g (FixOp defs.now 0))) }
    ensures variables { OnOk result (variables.new ≡ variables.old) }
    ensures captures { OnOk result (OpCaptures most_words variables.old.0 (FixOp defs.now 0)) }
    ensures refused { IfErr result (LiftRefuses (OpCaptures most_words variables.old.0 (FixOp defs.now 0))) }
{
    let at = functions.len();
    let count = defs.len();
    let words = shared(alloc, fix_words(alloc, notes, variables, at, defs)?)?;
    reserve(alloc, count, functions)?;
    push_fixes(variables, number_of(count)?, at, &words)?;
    lift_defs(alloc, notes, variables, functions, &words, at, defs)?;
    variables.forget(count);
    closure_of(alloc, frame, &words, at, i)
}

/// The body of a function with these captured words, under its argument.
#[cycle(lift)]
fn lift_body(
    alloc: Global,
    notes: &[Numbers],
    variables: &mut Variables,
    functions: &mut Vec<Function>,
    words: &Numbers,
    body: &AnfBlock,
) -> Result<LiftedBlock, LiftFault>
    requires notes { Stand notes.now (length functions.old.items) (notes_block (suc (size variables.old.0)) body.now) }
    ensures body { IfOk result (λ t. t ≡ function_body variables.old words.now (length functions.old.items) body.now) }
    ensures functions { OnOk result (WithFunctions functions.old.items functions.new.items (λ g. functions_block (Plain variables.old.0) (0 ∷ variables.old.1) g body.now)) }
    ensures variables { OnOk result (variables.new ≡ variables.old) }
    ensures captures { OnOk result (BlockCaptures most_words (Plain variables.old.0) body.now) }
    ensures refused { IfErr result (LiftRefuses (BlockCaptures most_words (Plain variables.old.0) body.now)) }
{
    let mut frame = frame_of(alloc, words)?;
    push_words(1, variables, &mut frame)?;
    let lifted = lift_block_in(alloc, notes, variables, functions, &mut frame, body)?;
    variables.forget(1);
    Ok(lifted)
}

/// The lifted block.
#[cycle(lift)]
pub(crate) fn lift_block_in(
    alloc: Global,
    notes: &[Numbers],
    variables: &mut Variables,
    functions: &mut Vec<Function>,
    frame: &mut Frame,
    block: &AnfBlock,
) -> Result<LiftedBlock, LiftFault>
    requires notes { Stand notes.now (length functions.old.items) (notes_block (size variables.old.0) block.now) }
    ensures block { IfOk result (λ t. t ≡ lift_block variables.old.0 variables.old.1 frame.old (length functions.old.items) block.now) }
    ensures functions { OnOk result (WithFunctions functions.old.items functions.new.items (λ g. functions_block variables.old.0 variables.old.1 g block.now)) }
    ensures variables { OnOk result (variables.new ≡ variables.old) }
    ensures frame { OnOk result (frame.new ≡ frame.old) }
    ensures captures { OnOk result (BlockCaptures most_words variables.old.0 block.now) }
    ensures refused { IfErr result (LiftRefuses (BlockCaptures most_words variables.old.0 block.now)) }
{
    let outside = frame.len();
    let mut code: Vec<LiftedOp> = Vec::new(alloc);
    let ops = block.bindings.as_slice();
    for i in 0..ops.len() {
        let op = lift_op(
            alloc, notes, variables, functions, frame, &mut code, &ops[i],
        )?;
        bind(op, variables, frame, &mut code)?;
    }
    let tail = lift_op(
        alloc,
        notes,
        variables,
        functions,
        frame,
        &mut code,
        &block.tail,
    )?;
    variables.forget(ops.len());
    frame.shrink(outside)?;
    Ok(LiftedBlock {
        bindings: LiftedOps::of(code),
        tail,
    })
}

/// A lifted branch.
#[cycle(lift)]
fn lift_arm(
    alloc: Global,
    notes: &[Numbers],
    variables: &mut Variables,
    functions: &mut Vec<Function>,
    frame: &mut Frame,
    arm: &AnfBranch,
) -> Result<LiftedBranch, LiftFault>
    requires notes { Stand notes.now (length functions.old.items) (notes_block (arm.now.binders + size variables.old.0) arm.now.body) }
    ensures arm { IfOk result (λ b. IsArm variables.old frame.old (length functions.old.items) arm.now.binders arm.now.body b) }
    ensures functions { OnOk result (WithFunctions functions.old.items functions.new.items (λ g. arm_functions variables.old g arm.now.binders arm.now.body)) }
    ensures variables { OnOk result (variables.new ≡ variables.old) }
    ensures frame { OnOk result (frame.new ≡ frame.old) }
    ensures captures { OnOk result (BlockCaptures most_words (plains arm.now.binders variables.old.0) arm.now.body) }
    ensures refused { IfErr result (LiftRefuses (BlockCaptures most_words (plains arm.now.binders variables.old.0) arm.now.body)) }
{
    let outside = frame.len();
    push_words(arm.binders, variables, frame)?;
    let body = lift_block_in(alloc, notes, variables, functions, frame, &arm.body)?;
    variables.forget(arm.binders as usize);
    frame.shrink(outside)?;
    Ok(LiftedBranch {
        binders: arm.binders,
        body,
    })
}

/// The lifted branches.
#[cycle(lift)]
fn lift_arms(
    alloc: Global,
    notes: &[Numbers],
    variables: &mut Variables,
    functions: &mut Vec<Function>,
    frame: &mut Frame,
    branches: &AnfBranches,
) -> Result<LiftedBranches, LiftFault>
    requires notes { Stand notes.now (length functions.old.items) (notes_branches (size variables.old.0) branches.now) }
    ensures arms { IfOk result (λ bs. bs ≡ lift_branches variables.old.0 variables.old.1 frame.old (length functions.old.items) branches.now) }
    ensures functions { OnOk result (WithFunctions functions.old.items functions.new.items (λ g. functions_branches variables.old.0 variables.old.1 g branches.now)) }
    ensures variables { OnOk result (variables.new ≡ variables.old) }
    ensures frame { OnOk result (frame.new ≡ frame.old) }
    ensures captures { OnOk result (BranchesCapture most_words variables.old.0 branches.now) }
    ensures refused { IfErr result (LiftRefuses (BranchesCapture most_words variables.old.0 branches.now)) }
{
    let arms = branches.as_slice();
    let mut items: Vec<LiftedBranch> = Vec::new(alloc);
    for i in 0..arms.len() {
        let arm = lift_arm(alloc, notes, variables, functions, frame, &arms[i])?;
        if items.push(arm).is_err() {
            return Err(LiftFault::Memory);
        }
    }
    Ok(LiftedBranches::of(items))
}

/// The body of the function of a fixpoint's definition.
#[cycle(lift)]
fn lift_def(
    alloc: Global,
    notes: &[Numbers],
    variables: &mut Variables,
    functions: &mut Vec<Function>,
    words: &Numbers,
    def: &AnfDef,
) -> Result<LiftedBlock, LiftFault>
    requires notes { Stand notes.now (length functions.old.items) (notes_def (size variables.old.0) def.now) }
    ensures body { IfOk result (λ t. t ≡ def_body variables.old words.now (length functions.old.items) def.now) }
    ensures functions { OnOk result (WithFunctions functions.old.items functions.new.items (λ g. functions_def variables.old g def.now)) }
    ensures variables { OnOk result (variables.new ≡ variables.old) }
    ensures captures { OnOk result (DefCaptures variables.old.0 def.now) }
    ensures refused { IfErr result (LiftRefuses (DefCaptures variables.old.0 def.now)) }
{
    match def {
        AnfDef::Lambda(body) => lift_body(alloc, notes, variables, functions, words, body),
        AnfDef::Box => Ok(boxed(alloc)),
    }
}

/// Puts the functions of a fixpoint's definitions, which are numbered from `at` on, in their places.
#[cycle(lift)]
fn lift_defs(
    alloc: Global,
    notes: &[Numbers],
    variables: &mut Variables,
    functions: &mut Vec<Function>,
    words: &Numbers,
    at: usize,
    defs: &AnfDefs,
) -> Result<(), LiftFault>
    requires notes { Stand notes.now (length functions.old.items) (notes_defs (size variables.old.0) defs.now) }
    requires places { PlacesFor at (def_count defs.now) (functions_of functions.old.items) }
    ensures functions { OnOk result (functions_of functions.new.items ≡ take at (functions_of functions.old.items) ++ definitions variables.old words.now (at + def_count defs.now) defs.now) }
    ensures variables { OnOk result (variables.new ≡ variables.old) }
    ensures captures { OnOk result (DefsCapture most_words variables.old.0 defs.now) }
    ensures refused { IfErr result (LiftRefuses (DefsCapture most_words variables.old.0 defs.now)) }
{
    let items = defs.as_slice();
    for i in 0..items.len() {
        let body = lift_def(alloc, notes, variables, functions, words, &items[i])?;
        put(at + i, words, body, functions)?;
    }
    Ok(())
}
