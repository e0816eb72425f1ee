//! Instructions in front of what comes after them: words, atoms, and blocks of memory.
ghost use Rattle.std.specs.Prelude.{◌≡◌, ◌+◌, ◌*◌, ◌∷◌, IfErr, OnOk, length, reverse, suc};
ghost use Rattle.wasm_emit.specs.Pushed.{Pushed};
ghost use Rattle.wasm_emit.specs.declared.fault.EmitFault.TheVariants.{Memory};
ghost use Rattle.known_calls.specs.KnownCode.{read_word, read, atom, push_words as words_code, fill, new_block, into_params, move_field};
ghost use Rattle.known_calls.specs.KnownModule.{captured_words};

use crate::closures::word_of;
use crate::places::Place;
use crate::words::{Word, Words};
use anf_convert::lists::Atoms;
use anf_convert::program::Atom;
use wasm_core::Instr;
use wasm_emit::EmitFault;
use wasm_emit::instructions::{bytes_of, header_word, push, push_address, push_load, push_store};

/// Puts a word on the operands. Only `Memory`.
fn push_word(w: Word, out: &mut Vec<Instr>) -> Result<(), EmitFault>
    ensures pushed { OnOk result (Pushed out.old.items out.new.items (read_word w)) }
    ensures only_memory { IfErr result (λ e. e ≡ Memory) }
{
    match w {
        Word::Local(x) => push(out, Instr::LocalGet(x)),
        Word::Field(x, offset) => {
            push(out, Instr::LocalGet(x))?;
            push_load(out, offset)
        }
        Word::Const(n) => push(out, Instr::I32Const(n)),
    }
}

/// Puts a word on the operands; where there is none, a trap. Only `Memory`.
fn push_read(w: Option<Word>, out: &mut Vec<Instr>) -> Result<(), EmitFault>
    ensures pushed { OnOk result (Pushed out.old.items out.new.items (read w)) }
    ensures only_memory { IfErr result (λ e. e ≡ Memory) }
{
    match w {
        Some(word) => push_word(word, out),
        None => push(out, Instr::Unreachable),
    }
}

/// Puts the word of an atom on the operands; the places are those of the variables, the innermost last. Only `Memory`.
pub(crate) fn push_atom(places: &[Place], a: Atom, out: &mut Vec<Instr>) -> Result<(), EmitFault>
    ensures pushed { OnOk result (Pushed out.old.items out.new.items (atom (reverse places.now) a)) }
    ensures only_memory { IfErr result (λ e. e ≡ Memory) }
{
    let word = word_of(places, a)?;
    push_read(word, out)
}

/// Puts words on the operands, the first first. Only `Memory`.
pub(crate) fn push_words(words: &Words, out: &mut Vec<Instr>) -> Result<(), EmitFault>
    ensures pushed { OnOk result (Pushed out.old.items out.new.items (words_code words.now)) }
    ensures only_memory { IfErr result (λ e. e ≡ Memory) }
{
    for w in words.as_slice() {
        push_word(*w, out)?;
    }
    Ok(())
}

/// Stores the words of atoms behind the header of the block whose address is in local d, the last atom first. Only `Memory`.
fn push_fields(
    places: &[Place],
    d: u32,
    atoms: &Atoms,
    out: &mut Vec<Instr>,
) -> Result<(), EmitFault>
    ensures pushed { OnOk result (Pushed out.old.items out.new.items (fill (reverse places.now) d atoms.now)) }
    ensures only_memory { IfErr result (λ e. e ≡ Memory) }
{
    let fields = atoms.as_slice();
    let n = fields.len();
    for k in 0..n {
        push(out, Instr::LocalGet(d))?;
        let a = &fields[n - 1 - k];
        push_atom(places, *a, out)?;
        let offset = bytes_of(n - k)?;
        push_store(out, offset)?;
    }
    Ok(())
}

/// Makes a block of a header and the words of atoms, and puts its address into local d. Only `Memory`.
pub(crate) fn push_new_block(
    places: &[Place],
    d: u32,
    header: u32,
    atoms: &Atoms,
    out: &mut Vec<Instr>,
) -> Result<(), EmitFault>
    ensures pushed { OnOk result (Pushed out.old.items out.new.items (new_block (reverse places.now) d header atoms.now)) }
    ensures only_memory { IfErr result (λ e. e ≡ Memory) }
{
    let Some(words) = atoms.len().checked_add(1) else {
        return Err(EmitFault::Memory);
    };
    let bytes = bytes_of(words)?;
    push_address(d, bytes, out)?;
    push(out, Instr::LocalGet(d))?;
    push(out, Instr::I32Const(header))?;
    push_store(out, 0)?;
    push_fields(places, d, atoms, out)
}

/// Makes the block of a constructor with arguments, and puts its address into local d. Only `Memory`.
pub(crate) fn push_construct(
    places: &[Place],
    d: u32,
    c: u32,
    args: &Atoms,
    out: &mut Vec<Instr>,
) -> Result<(), EmitFault>
    ensures pushed { OnOk result (Pushed out.old.items out.new.items (new_block (reverse places.now) d (length args.now * 65536 + c) args.now)) }
    ensures only_memory { IfErr result (λ e. e ≡ Memory) }
{
    let Ok(fields) = u32::try_from(args.len()) else {
        return Err(EmitFault::Memory);
    };
    let header = header_word(c, fields)?;
    push_new_block(places, d, header, args, out)
}

/// Makes the block of a closure of function g with these captured words, and puts its address into local d. Only `Memory`.
pub(crate) fn push_closure(
    places: &[Place],
    d: u32,
    g: u32,
    words: &Atoms,
    out: &mut Vec<Instr>,
) -> Result<(), EmitFault>
    ensures pushed { OnOk result (Pushed out.old.items out.new.items (new_block (reverse places.now) d (suc g) words.now)) }
    ensures only_memory { IfErr result (λ e. e ≡ Memory) }
{
    let Some(entry) = g.checked_add(1) else {
        return Err(EmitFault::Memory);
    };
    push_new_block(places, d, entry, words, out)
}

/// The only field of the block whose address is in local d comes into that local, where it is moved there. Only `Memory`.
pub(crate) fn push_moved_field(moved: bool, d: u32, out: &mut Vec<Instr>) -> Result<(), EmitFault>
    ensures pushed { OnOk result (Pushed out.old.items out.new.items (move_field moved d)) }
    ensures only_memory { IfErr result (λ e. e ≡ Memory) }
{
    if !moved {
        return Ok(());
    }
    push(out, Instr::LocalGet(d))?;
    push_load(out, 4)?;
    push(out, Instr::LocalSet(d))
}

/// The operands become the first n + 1 locals. Only `Memory`.
pub(crate) fn push_into_params(n: u32, out: &mut Vec<Instr>) -> Result<(), EmitFault>
    ensures pushed { OnOk result (Pushed out.old.items out.new.items (into_params n)) }
    ensures only_memory { IfErr result (λ e. e ≡ Memory) }
{
    for k in 0..n {
        push(out, Instr::LocalSet(n - k))?;
    }
    push(out, Instr::LocalSet(0))
}

/// Puts the n captured words of the closure in local 0 on the operands, the first first. Only `Memory`.
pub(crate) fn push_captured(n: u32, out: &mut Vec<Instr>) -> Result<(), EmitFault>
    ensures pushed { OnOk result (Pushed out.old.items out.new.items (captured_words n)) }
    ensures only_memory { IfErr result (λ e. e ≡ Memory) }
{
    for k in 0..n {
        let offset = bytes_of(k as usize + 1)?;
        push(out, Instr::LocalGet(0))?;
        push_load(out, offset)?;
    }
    Ok(())
}
