//! Whether a word stands for data: a search that marks the blocks that it needs, from the highest address down.

ghost use Rattle.std.specs.Prelude.{◌≡◌, ◌+◌, ◌*◌, ◌^◌, ◌<◌, ◌≤◌, ◌⊎◌, ℕ, List, Bool, IfOk, IfSome, IfNone, MatchBool, length, true, false};
ghost use Rattle.wasm_core.specs.WordData.{IsBlock};
ghost use Rattle.mem_value.specs.Tells.{HasData};
ghost use Rattle.mem_value.specs.Marks.{Is, IsKept, IsBad, IsSound, Grows, MarksFields, MarksNeeded, IsSearched, field_at};

use std::alloc::{AllocError, Global};
use wasm_run::load;

/// The header of a block: how many fields it has, and its constructor's number.
#[derive(Clone, Copy)]
pub struct Header {
    pub arity: u32,
    pub number: u32,
}

/// The header of the block at a place, which is the address divided by 4; none where no block lies there.
pub fn block_at(memory: &[u8], place: usize) -> Option<Header>
    requires there { 0 < place }
    requires small { place < 2 ^ 30 }
    ensures found { IfSome result (λ h. IsBlock memory.now (4 * place) h.arity h.number) }
    ensures none { IfNone result ((arity c : ℕ) → IsBlock memory.now (4 * place) arity c → ⊥) }
{
    let address = 4 * place;
    if memory.len() < address + 4 {
        return None;
    }
    let header = load(memory, address);
    let arity = header / 65_536;
    if arity == 0 || memory.len() < address + 4 + 4 * arity as usize {
        return None;
    }
    Some(Header {
        arity,
        number: header % 65_536,
    })
}

/// Whether a field may stand in the block at a place; where it is an address, its place is marked.
fn keep_field(field: u32, place: usize, marks: &mut Vec<bool>) -> bool
    requires here { place < length marks.old.items }
    ensures kept { result ≡ true → IsKept marks.new.items place field }
    ensures bad { (memory : List ℕ) → result ≡ false → IsBad memory place field }
    ensures grows { Grows marks.old.items marks.new.items }
    ensures marked { (p : ℕ) → Is marks.new.items p → Is marks.old.items p ⊎ ((field ≡ 4 * p) × (p < place)) }
{
    if field % 2 == 1 {
        return true;
    }
    if field % 4 != 0 {
        return false;
    }
    if field == 0 {
        return false;
    }
    let below = (field / 4) as usize;
    if below >= place {
        return false;
    }
    marks[below] = true;
    true
}

/// Whether all fields may stand in the block at a place; the places of those that are addresses are marked.
fn keep_fields(memory: &[u8], place: usize, arity: u32, marks: &mut Vec<bool>) -> bool
    requires here { place < length marks.old.items }
    requires small { place < 2 ^ 30 }
    requires inside { 4 * place + 4 + 4 * arity ≤ length memory.now }
    ensures kept { result ≡ true → (i : ℕ) → i < arity → IsKept marks.new.items place (field_at memory.now place i) }
    ensures bad { result ≡ false → (i : ℕ) × (i < arity) × IsBad memory.now place (field_at memory.now place i) }
    ensures grows { Grows marks.old.items marks.new.items }
    ensures marked { MarksFields memory.now place arity marks.old.items marks.new.items }
{
    for i in 0..arity {
        let field = load(memory, 4 * place + 4 + 4 * i as usize);
        if !keep_field(field, place, marks) {
            return false;
        }
    }
    true
}

/// Whether a block lies at a place whose fields may stand there; the places of those that are addresses are marked.
fn keep_block(memory: &[u8], place: usize, marks: &mut Vec<bool>) -> bool
    requires here { place < length marks.old.items }
    requires there { 0 < place }
    requires small { place < 2 ^ 30 }
    ensures sound { result ≡ true → IsSound memory.now marks.new.items place }
    ensures bad { result ≡ false → HasData memory.now (4 * place) → ⊥ }
    ensures grows { Grows marks.old.items marks.new.items }
    ensures marked { MarksNeeded memory.now place marks.old.items marks.new.items }
{
    match block_at(memory, place) {
        None => false,
        Some(header) => keep_fields(memory, place, header.arity, marks),
    }
}

/// Whether a search may pass a place: it isn't marked, or a block lies there whose fields may stand there.
fn pass(memory: &[u8], place: usize, marks: &mut Vec<bool>) -> bool
    requires here { place < length marks.old.items }
    requires there { 0 < place }
    requires small { place < 2 ^ 30 }
    ensures goes { (top below : ℕ) → place ≡ below + 1 → result ≡ true → IsSearched memory.now top place marks.old.items → IsSearched memory.now top below marks.new.items }
    ensures ends { (top : ℕ) → result ≡ false → IsSearched memory.now top place marks.old.items → HasData memory.now (4 * top) → ⊥ }
{
    if !marks[place] {
        return true;
    }
    keep_block(memory, place, marks)
}

/// Whether an address stands for data, where it lies in the memory: each block that it needs is looked at once.
fn address_stands(alloc: Global, memory: &[u8], top: usize) -> Result<bool, AllocError>
    requires there { 0 < top }
    requires small { top < 2 ^ 30 }
    ensures is { IfOk result (λ b. MatchBool b (HasData memory.now (4 * top)) (HasData memory.now (4 * top) → ⊥)) }
{
    let mut marks = vec![in alloc; false; top + 1]?;
    marks[top] = true;
    for passed in 0..top {
        let place = top - passed;
        if !pass(memory, place, &mut marks) {
            return Ok(false);
        }
    }
    Ok(true)
}

/// Whether a word stands for data.
pub fn stands(alloc: Global, memory: &[u8], word: u32) -> Result<bool, AllocError>
    ensures is { IfOk result (λ b. MatchBool b (HasData memory.now word) (HasData memory.now word → ⊥)) }
{
    if word % 2 == 1 {
        return Ok(true);
    }
    if word % 4 != 0 || word == 0 || word as usize >= memory.len() {
        return Ok(false);
    }
    address_stands(alloc, memory, (word / 4) as usize)
}
