//! Which branches of a match are of a kind, and the tests that tell them apart.
ghost use Rattle.std.specs.Prelude.{◌≡◌, ◌<◌, ◌≤◌, ◌&&◌, ◌∷◌, IfErr, OnOk, drop, length, nat_le, nat_lt, take, true};
ghost use Rattle.closure_lift.specs.LiftedView.{branches_of};
ghost use Rattle.wasm_emit.specs.EmittedCode.{IfWord};
ghost use Rattle.wasm_emit.specs.Pushed.{Pushed};
ghost use Rattle.wasm_emit.specs.declared.fault.EmitFault.TheVariants.{Memory};
ghost use Rattle.known_calls.specs.KnownPushed.{begins_with, count_of, is_last_of as last_of};
ghost use Rattle.wasm_core.specs.declared.instrs.I32Op.TheVariants as op32;
ghost use Rattle.wasm_core.specs.declared.instrs.Instr.TheVariants.{I32 as Operation};
ghost use Rattle.known_calls.specs.KnownTests.{Bare, Fielded, bare_test, below_test, empty_test, equal_test, head_test, is_of as of_kind, many_alternatives};

use crate::site::{Kind, Part};
use closure_lift::program::LiftedBranch;
use wasm_core::{BlockType, I32Op, Instr, ValType};
use wasm_emit::EmitFault;
use wasm_emit::instructions::{empty_word, header_word, push, push_load, push_test};

/// From so many alternatives of a kind on they are told by halves.
pub(crate) const MANY_ALTERNATIVES: usize = 6;

/// Whether a branch is of this kind.
pub(crate) fn is_of(kind: Kind, b: &LiftedBranch) -> bool
    ensures is { result ≡ of_kind kind b.now.binders }
{
    match kind {
        Kind::Bare => b.binders == 0,
        Kind::Fielded => b.binders > 0,
    }
}

/// How many of the branches from this one on are of this kind.
pub(crate) fn count_from(kind: Kind, bs: &[LiftedBranch], from: usize) -> usize
    ensures is { result ≡ count_of kind (branches_of (drop from bs.now)) }
{
    let mut count = 0;
    for c in from..bs.len() {
        if is_of(kind, &bs[c]) {
            count += 1;
        }
    }
    count
}

/// The place of the branch of this kind that has so many of it before it.
pub(crate) fn place_of(kind: Kind, bs: &[LiftedBranch], before: usize) -> usize
    requires there { before < count_of kind (branches_of bs.now) }
    ensures within { result < length bs.now }
    ensures before { count_of kind (branches_of (take result bs.now)) ≡ before }
    ensures here { begins_with kind (branches_of (drop result bs.now)) ≡ true }
{
    let mut seen = 0;
    for c in 0..bs.len() {
        let b = &bs[c];
        if is_of(kind, b) {
            if seen == before {
                return c;
            }
            seen += 1;
        }
    }
    bs.len()
}

/// The branches from this one on.
pub(crate) fn branches_from(bs: &[LiftedBranch], from: usize) -> &[LiftedBranch]
    requires within { from ≤ length bs.now }
    ensures is { result.now ≡ drop from bs.now }
{
    &bs[from..]
}

/// Whether the branches of one kind of a part are told by halves.
pub(crate) fn by_halves(part: Part, bs: &[LiftedBranch]) -> bool
    ensures is { result ≡ nat_lt 0 part.rounds && nat_le many_alternatives (count_of part.kind (branches_of bs.now)) }
{
    part.rounds > 0 && count_from(part.kind, bs, 0) >= MANY_ALTERNATIVES
}

/// Whether this branch is of this kind, and none of those from `behind` on is.
pub(crate) fn is_last_of(kind: Kind, b: &LiftedBranch, bs: &[LiftedBranch], behind: usize) -> bool
    ensures is { result ≡ last_of kind b.now.binders (branches_of (drop behind bs.now)) }
{
    is_of(kind, b) && count_from(kind, bs, behind) == 0
}

/// Begins the arm of constructor c without arguments, whose word is in local d. Only `Memory`.
fn push_empty_test(d: u32, c: u32, out: &mut Vec<Instr>) -> Result<(), EmitFault>
    ensures pushed { OnOk result (Pushed out.old.items out.new.items (λ rest. empty_test d c (IfWord ∷ rest))) }
    ensures only_memory { IfErr result (λ e. e ≡ Memory) }
{
    let word = empty_word(c)?;
    push(out, Instr::LocalGet(d))?;
    push(out, Instr::I32Const(word))?;
    push_test(out)
}

/// Begins the arm of constructor c with n arguments, the address of whose block is in local d. Only `Memory`.
fn push_head_test(d: u32, c: u32, n: u32, out: &mut Vec<Instr>) -> Result<(), EmitFault>
    ensures pushed { OnOk result (Pushed out.old.items out.new.items (λ rest. head_test d c n (IfWord ∷ rest))) }
    ensures only_memory { IfErr result (λ e. e ≡ Memory) }
{
    let header = header_word(c, n)?;
    push(out, Instr::LocalGet(d))?;
    push_load(out, 0)?;
    push(out, Instr::I32Const(header))?;
    push_test(out)
}

/// Begins the arm of branch c, of n binders, of a match on the word in local d. A number past 32 bits, which no program of the form has, is `Memory`. Only `Memory`.
pub(crate) fn push_equal_test(
    d: u32,
    c: usize,
    n: u32,
    out: &mut Vec<Instr>,
) -> Result<(), EmitFault>
    ensures pushed { OnOk result (Pushed out.old.items out.new.items (λ rest. equal_test d c n (IfWord ∷ rest))) }
    ensures only_memory { IfErr result (λ e. e ≡ Memory) }
{
    let Ok(number) = u32::try_from(c) else {
        return Err(EmitFault::Memory);
    };
    if n == 0 {
        push_empty_test(d, number, out)
    } else {
        push_head_test(d, number, n, out)
    }
}

/// Begins the arm of the branches of this kind that are numbered below c. A number past 32 bits, which no program of the form has, is `Memory`. Only `Memory`.
pub(crate) fn push_below_test(
    kind: Kind,
    d: u32,
    c: usize,
    out: &mut Vec<Instr>,
) -> Result<(), EmitFault>
    ensures pushed { OnOk result (Pushed out.old.items out.new.items (λ rest. below_test kind d c (IfWord ∷ rest))) }
    ensures only_memory { IfErr result (λ e. e ≡ Memory) }
{
    let Ok(number) = u32::try_from(c) else {
        return Err(EmitFault::Memory);
    };
    match kind {
        Kind::Bare => push_below_word(d, number, out),
        Kind::Fielded => push_below_header(d, number, out),
    }
}

/// Begins the arm of a word in local d that is of a constructor numbered below c. Only `Memory`.
fn push_below_word(d: u32, c: u32, out: &mut Vec<Instr>) -> Result<(), EmitFault>
    ensures pushed { OnOk result (Pushed out.old.items out.new.items (λ rest. below_test Bare d c (IfWord ∷ rest))) }
    ensures only_memory { IfErr result (λ e. e ≡ Memory) }
{
    let Some(word) = c.checked_mul(2) else {
        return Err(EmitFault::Memory);
    };
    push(out, Instr::I32Const(word))?;
    push(out, Instr::LocalGet(d))?;
    push_greater(out)
}

/// Begins the arm of a block whose address is in local d and whose constructor is numbered below c. Only `Memory`.
fn push_below_header(d: u32, c: u32, out: &mut Vec<Instr>) -> Result<(), EmitFault>
    ensures pushed { OnOk result (Pushed out.old.items out.new.items (λ rest. below_test Fielded d c (IfWord ∷ rest))) }
    ensures only_memory { IfErr result (λ e. e ≡ Memory) }
{
    let Some(word) = c.checked_mul(65_536) else {
        return Err(EmitFault::Memory);
    };
    push(out, Instr::I32Const(word))?;
    push(out, Instr::LocalGet(d))?;
    push_load(out, 0)?;
    push(out, Instr::I32Const(16))?;
    push(out, Instr::I32(I32Op::Shl))?;
    push_greater(out)
}

/// Whether the lower word on the operands is the greater one: begins an arm that leaves a word. Only `Memory`.
fn push_greater(out: &mut Vec<Instr>) -> Result<(), EmitFault>
    ensures pushed { OnOk result (Pushed out.old.items out.new.items (λ rest. Operation op32.GtU ∷ IfWord ∷ rest)) }
    ensures only_memory { IfErr result (λ e. e ≡ Memory) }
{
    push(out, Instr::I32(I32Op::GtU))?;
    push(out, Instr::If(BlockType::Value(ValType::I32)))
}

/// Begins the arm of the constructors without arguments. Only `Memory`.
pub(crate) fn push_bare_test(d: u32, out: &mut Vec<Instr>) -> Result<(), EmitFault>
    ensures pushed { OnOk result (Pushed out.old.items out.new.items (λ rest. bare_test d (IfWord ∷ rest))) }
    ensures only_memory { IfErr result (λ e. e ≡ Memory) }
{
    push(out, Instr::LocalGet(d))?;
    push(out, Instr::I32Const(1))?;
    push(out, Instr::I32(I32Op::And))?;
    push(out, Instr::If(BlockType::Value(ValType::I32)))
}
