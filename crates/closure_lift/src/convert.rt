//! Lifting of a whole program.
ghost use Rattle.std.specs.Prelude.{◌≡◌, ◌+◌, ◌≤◌, nat_lt, [], ◌++◌, IfOk, IfErr, OnOk, length, reverse};
ghost use Rattle.anf_convert.specs.Captured.{Outside};
ghost use Rattle.anf_convert.specs.Renumbering.{anf_of};
ghost use Rattle.closure_lift.specs.CapturedLimit.{BlockCaptures, BlocksCapture, ProgramCaptures};
ghost use Rattle.closure_lift.specs.FreeVariables.{notes_block};
ghost use Rattle.closure_lift.specs.Lift as spec;
ghost use Rattle.closure_lift.specs.LiftKeeps.{KeepsLifted, HasLiftedForm};
ghost use Rattle.closure_lift.specs.LiftedForm.{Limits, most_functions};
ghost use Rattle.closure_lift.specs.LiftedProgram.{lifted_of};
ghost use Rattle.closure_lift.specs.Lifting.{Stand, LiftRefuses, WithFunctions, most_words};
ghost use Rattle.closure_lift.specs.NamedLift.{bodies, named_constants, named_lift, constants_notes, put_parts, IsCrowded, IsLifted, HasConstantsOf, HasFewFunctions, LiftIsRefused};
ghost use Rattle.closure_lift.specs.declared.fault.LiftFault.TheVariants.{Memory};

use crate::fault::LiftFault;
use crate::frame::Frame;
use crate::free::note_block;
use crate::lift::lift_block_in;
use crate::lists::{Functions, LiftedConstants};
use crate::program::{Function, Lifted, LiftedBlock, LiftedConstant};
use crate::variables::Variables;
use anf_convert::program::{AnfBlock, AnfConstant, AnfProgram};
use box_terms::program::BoxFamilies;
use pc_terms::lists::Numbers;
use std::alloc::Global;

/// The greatest number of constants, definitions of fixpoints and other lambdas.
const MOST_FUNCTIONS: usize = 32768;

/// Notes the free variables of the lambdas and fixpoints of a closed block. Only `Memory`.
fn note_code(alloc: Global, block: &AnfBlock, notes: &mut Vec<Numbers>) -> Result<(), LiftFault>
    ensures notes { OnOk result (notes.new.items ≡ notes.old.items ++ notes_block 0 block.now) }
    ensures only_memory { IfErr result (λ e. e ≡ Memory) }
{
    let mut names = Vec::new(alloc);
    note_block(alloc, 0, block, &mut names, notes)
}

/// The free variables of the lambdas and fixpoints of a program, those of the newest constant first and those of main last. Only `Memory`.
fn note_program(
    alloc: Global,
    constants: &[AnfConstant],
    main: &AnfBlock,
) -> Result<Vec<Numbers>, LiftFault>
    ensures is { IfOk result (λ ns. ns.items ≡ constants_notes (bodies (reverse constants.now)) ++ notes_block 0 main.now) }
    ensures only_memory { IfErr result (λ e. e ≡ Memory) }
{
    let mut notes = Vec::new(alloc);
    for past in 0..constants.len() {
        note_code(
            alloc,
            &constants[constants.len() - 1 - past].body,
            &mut notes,
        )?;
    }
    note_code(alloc, main, &mut notes)?;
    Ok(notes)
}

/// The lifted block of a closed one.
fn lift_code(
    alloc: Global,
    notes: &[Numbers],
    functions: &mut Vec<Function>,
    block: &AnfBlock,
) -> Result<LiftedBlock, LiftFault>
    requires notes { Stand notes.now (length functions.old.items) (notes_block 0 block.now) }
    ensures block { IfOk result (λ t. t ≡ spec.lift_block Outside [] [] (length functions.old.items) block.now) }
    ensures functions { OnOk result (WithFunctions functions.old.items functions.new.items (λ g. spec.functions_block Outside [] g block.now)) }
    ensures captures { OnOk result (BlockCaptures most_words Outside block.now) }
    ensures refused { IfErr result (LiftRefuses (BlockCaptures most_words Outside block.now)) }
{
    let mut variables = Variables::new(alloc);
    let mut frame = Frame::new(alloc);
    lift_block_in(alloc, notes, &mut variables, functions, &mut frame, block)
}

/// The lifted constants.
fn lift_constants(
    alloc: Global,
    notes: &[Numbers],
    functions: &mut Vec<Function>,
    constants: &[AnfConstant],
) -> Result<LiftedConstants, LiftFault>
    requires notes { Stand notes.now (length functions.old.items) (constants_notes (bodies (reverse constants.now))) }
    ensures constants { IfOk result (λ cs. cs ≡ named_constants (length functions.old.items) (reverse constants.now)) }
    ensures functions { OnOk result (WithFunctions functions.old.items functions.new.items (λ g. spec.functions_constants g (bodies (reverse constants.now)))) }
    ensures captures { OnOk result (BlocksCapture most_words (bodies (reverse constants.now))) }
    ensures refused { IfErr result (LiftRefuses (BlocksCapture most_words (bodies (reverse constants.now)))) }
{
    let mut items = Vec::new(alloc);
    for past in 0..constants.len() {
        let constant = &constants[constants.len() - 1 - past];
        let body = lift_code(alloc, notes, functions, &constant.body)?;
        let name = constant.name;
        if items.push(LiftedConstant { name, body }).is_err() {
            return Err(LiftFault::Memory);
        }
    }
    items.reverse();
    Ok(LiftedConstants::of(items))
}

/// Whether so many constants and functions are too many.
fn is_crowded(constants: usize, functions: usize) -> bool
    ensures is { result ≡ nat_lt most_functions (constants + functions) }
{
    constants > MOST_FUNCTIONS || functions > MOST_FUNCTIONS - constants
}

/// The program of lifted parts, with families like these. `Functions` exactly where constants and functions are too many.
fn put_together(
    alloc: Global,
    functions: Vec<Function>,
    constants: LiftedConstants,
    families: &BoxFamilies,
    main: LiftedBlock,
) -> Result<Lifted, LiftFault>
    ensures exact { IfOk result (λ q. q ≡ put_parts functions.items constants families.now main) }
    ensures few { IfOk result (λ _. length constants + length functions.items ≤ most_functions) }
    ensures refused { IfErr result (IsCrowded (length constants + length functions.items)) }
{
    if is_crowded(constants.len(), functions.len()) {
        return Err(LiftFault::Functions);
    }
    let Ok(families) = families.copied(alloc) else {
        return Err(LiftFault::Memory);
    };
    Ok(Lifted {
        functions: Functions::of(functions),
        constants,
        families,
        main,
    })
}

/// The lifted program, with what its laws rest on.
fn lift_named(alloc: Global, p: &AnfProgram) -> Result<Lifted, LiftFault>
    ensures lifted { IfOk result (IsLifted p.now) }
    ensures refused { IfErr result (LiftIsRefused (anf_of p.now)) }
{
    let constants = p.constants.as_slice();
    let notes = note_program(alloc, constants, &p.main)?;
    let mut functions = Vec::new(alloc);
    let lifted = lift_constants(alloc, &notes, &mut functions, constants)?;
    let main = lift_code(alloc, &notes, &mut functions, &p.main)?;
    put_together(alloc, functions, lifted, &p.families, main)
}

/// The lifted program: each lambda and each definition of a fixpoint becomes a function, and a closure holds the words that it names and
/// that are bound outside it (closure conversion; Appel, "Compiling with Continuations", chapter 10). Constants keep their names, and the
/// program its families.
///
/// The answer is the program of `specs/Lift.antt`, in which each constant stands by its place. Main, applied to any values that are data, gives
/// the same data as before, with as many matches and blocks, no more contractions and no wider block; where the names of `p` are in scope, so
/// are those of the answer, and no match has more branches.
///
/// `Captured` comes exactly where a lambda or fixpoint has over 1,000 captured words, and else `Functions` exactly where the constants, the
/// definitions of fixpoints and the other lambdas are together over 32,768. `Memory` comes too where a place has over 4,294,967,295 variables.
/// No call recurses deeper than the blocks.
pub fn lift_program(alloc: Global, p: &AnfProgram) -> Result<Lifted, LiftFault>
    ensures exact { IfOk result (λ q. q ≡ named_lift p.now) }
    ensures is { IfOk result (λ q. lifted_of q ≡ spec.lift (anf_of p.now)) }
    ensures data_kept { IfOk result (λ q. KeepsLifted (anf_of p.now) (lifted_of q)) }
    ensures form { IfOk result (λ q. HasLiftedForm (anf_of p.now) (lifted_of q)) }
    ensures within { IfOk result (λ q. Limits (lifted_of q)) }
    ensures captures { IfOk result (λ _. ProgramCaptures most_words (anf_of p.now)) }
    ensures constants { IfOk result (λ q. HasConstantsOf (anf_of p.now) (lifted_of q)) }
    ensures functions { IfOk result (λ q. HasFewFunctions (anf_of p.now) (lifted_of q)) }
    ensures refused { IfErr result (LiftIsRefused (anf_of p.now)) }
{
    lift_named(alloc, p)
}
