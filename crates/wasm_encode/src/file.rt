//! The sections of a file, and the whole (WebAssembly Core Specification, sections 5.5.2 and 5.5.16).

ghost use Rattle.std.specs.Prelude.{◌≡◌, ℕ, ◌+◌, ◌-◌, ◌*◌, ◌<◌, ◌≤◌, ◌^◌, List, [], ◌∷◌, ◌++◌, length, OnOk, IfOk, reverse, Ok, Err};
ghost use Rattle.wasm_core.specs.ModuleCondition.{All, IsVector, IsFuncType, IsGlobal, IsExport, IsSegment, IsInstr, IsBody, IsModule, IsU32, IsU64};
ghost use Rattle.wasm_core.specs.ShortestBytes as shortest;
ghost use Rattle.wasm_encode.specs.Puts.{Puts, PutsUnless, FirstBelow};
ghost use Rattle.wasm_core.specs.ModuleGrammar.{SpellsModule};
ghost use Rattle.wasm_core.specs.Parts.{Parts};
ghost use Rattle.wasm_core.specs.ShortestBytes.{Writes};
ghost use Rattle.wasm_encode.specs.Sections.{section_at};
ghost use Rattle.wasm_encode.specs.Shortest.{NoneIsShorter};

use crate::bodies::{MOST_BYTES, put_bodies, put_part};
use crate::declarations::{put_exports, put_globals, put_indices, put_segments};
use crate::numbers::{put, put_u32};
use crate::types::{put_func_types, put_limits, put_table_type};
use std::alloc::{AllocError, Global};
use wasm_core::{Body, EncodeFault, Export, FuncType, GlobalDef, Limits, Module, Segment, Valid};

/// Puts a section: its id, its size and its contents.
#[tactic(auto, using(crate::proofs::Putting::sized_passes))]
fn put_section(out: &mut Vec<u8>, id: u8, part: &[u8]) -> Result<(), EncodeFault>
    ensures puts { PutsUnless result out.old.items out.new.items (λ w. id ∷ shortest.put_sized part.now w) }
{
    put(out, id)?;
    put_part(out, part)
}

/// Puts the section of function types, where there are any.
#[tactic(auto, using(crate::proofs::Putting::from_nothing, crate::proofs::Putting::section_none, crate::proofs::Putting::section_some))]
fn put_type_section(alloc: Global, out: &mut Vec<u8>, ts: &[FuncType]) -> Result<(), EncodeFault>
    requires fits { IsVector IsFuncType ts.now }
    ensures puts { PutsUnless result out.old.items out.new.items (shortest.put_section 1 shortest.put_func_type ts.now) }
{
    if ts.is_empty() {
        return Ok(());
    }
    let mut part = Vec::new(alloc);
    put_u32(&mut part, ts.len() as u32)?;
    put_func_types(&mut part, ts)?;
    put_section(out, 1, &part)
}

/// Puts the section of type indices, where there are functions.
#[tactic(auto, using(crate::proofs::Putting::from_nothing, crate::proofs::Putting::section_none, crate::proofs::Putting::section_some))]
fn put_function_section(alloc: Global, out: &mut Vec<u8>, ns: &[u32]) -> Result<(), EncodeFault>
    requires fits { length ns.now < 2 ^ 32 }
    ensures puts { PutsUnless result out.old.items out.new.items (shortest.put_section 3 shortest.put_u32 ns.now) }
{
    if ns.is_empty() {
        return Ok(());
    }
    let mut part = Vec::new(alloc);
    put_u32(&mut part, ns.len() as u32)?;
    put_indices(&mut part, ns)?;
    put_section(out, 3, &part)
}

/// Puts the section of tables, where there is one.
#[tactic(auto, unfolding(wasm_core::specs::ShortestBytes::put_all), using(crate::proofs::Putting::from_nothing, crate::proofs::Putting::section_none, crate::proofs::Putting::section_some))]
fn put_table_section(
    alloc: Global,
    out: &mut Vec<u8>,
    table: Option<Limits>,
) -> Result<(), EncodeFault>
    ensures puts { PutsUnless result out.old.items out.new.items (shortest.put_section 4 shortest.put_table_type (shortest.sizes table)) }
{
    match table {
        None => Ok(()),
        Some(limits) => {
            let mut part = Vec::new(alloc);
            put_u32(&mut part, 1)?;
            put_table_type(&mut part, limits)?;
            put_section(out, 4, &part)
        }
    }
}

/// Puts the section of memories, where there is one.
#[tactic(auto, unfolding(wasm_core::specs::ShortestBytes::put_all), using(crate::proofs::Putting::from_nothing, crate::proofs::Putting::section_none, crate::proofs::Putting::section_some))]
fn put_memory_section(
    alloc: Global,
    out: &mut Vec<u8>,
    memory: Option<Limits>,
) -> Result<(), EncodeFault>
    ensures puts { PutsUnless result out.old.items out.new.items (shortest.put_section 5 shortest.put_limits (shortest.sizes memory)) }
{
    match memory {
        None => Ok(()),
        Some(limits) => {
            let mut part = Vec::new(alloc);
            put_u32(&mut part, 1)?;
            put_limits(&mut part, limits)?;
            put_section(out, 5, &part)
        }
    }
}

/// Puts the section of globals, where there are any.
#[tactic(auto, using(crate::proofs::Putting::from_nothing, crate::proofs::Putting::section_none, crate::proofs::Putting::section_some))]
fn put_global_section(alloc: Global, out: &mut Vec<u8>, gs: &[GlobalDef]) -> Result<(), EncodeFault>
    requires fits { length gs.now < 2 ^ 32 }
    ensures puts { PutsUnless result out.old.items out.new.items (shortest.put_section 6 shortest.put_global gs.now) }
{
    if gs.is_empty() {
        return Ok(());
    }
    let mut part = Vec::new(alloc);
    put_u32(&mut part, gs.len() as u32)?;
    put_globals(&mut part, gs)?;
    put_section(out, 6, &part)
}

/// Puts the section of exports, where there are any.
#[tactic(auto, using(crate::proofs::Putting::from_nothing, crate::proofs::Putting::section_none, crate::proofs::Putting::section_some))]
fn put_export_section(alloc: Global, out: &mut Vec<u8>, es: &[Export]) -> Result<(), EncodeFault>
    requires fits { IsVector IsExport es.now }
    ensures puts { PutsUnless result out.old.items out.new.items (shortest.put_section 7 shortest.put_export es.now) }
{
    if es.is_empty() {
        return Ok(());
    }
    let mut part = Vec::new(alloc);
    put_u32(&mut part, es.len() as u32)?;
    put_exports(&mut part, es)?;
    put_section(out, 7, &part)
}

/// Puts the section of element segments, where there are any.
#[tactic(auto, using(crate::proofs::Putting::from_nothing, crate::proofs::Putting::section_none, crate::proofs::Putting::section_some))]
fn put_element_section(alloc: Global, out: &mut Vec<u8>, ss: &[Segment]) -> Result<(), EncodeFault>
    requires fits { IsVector IsSegment ss.now }
    ensures puts { PutsUnless result out.old.items out.new.items (shortest.put_section 9 shortest.put_segment ss.now) }
{
    if ss.is_empty() {
        return Ok(());
    }
    let mut part = Vec::new(alloc);
    put_u32(&mut part, ss.len() as u32)?;
    put_segments(&mut part, ss)?;
    put_section(out, 9, &part)
}

/// Puts the section of bodies, where there are any.
#[tactic(auto, using(crate::proofs::Putting::from_nothing, crate::proofs::Putting::section_none, crate::proofs::Putting::section_some))]
fn put_code_section(alloc: Global, out: &mut Vec<u8>, bs: &[Body]) -> Result<(), EncodeFault>
    requires fits { IsVector IsBody bs.now }
    ensures puts { PutsUnless result out.old.items out.new.items (shortest.put_section 10 shortest.put_body bs.now) }
{
    if bs.is_empty() {
        return Ok(());
    }
    let mut part = Vec::new(alloc);
    put_u32(&mut part, bs.len() as u32)?;
    put_bodies(alloc, &mut part, bs)?;
    put_section(out, 10, &part)
}

/// Puts the magic number and the version.
fn put_header(out: &mut Vec<u8>) -> Result<(), AllocError>
    ensures puts { OnOk result (Puts out.old.items out.new.items shortest.put_header) }
{
    put(out, 0x00)?;
    put(out, 0x61)?;
    put(out, 0x73)?;
    put(out, 0x6D)?;
    put(out, 0x01)?;
    put(out, 0x00)?;
    put(out, 0x00)?;
    put(out, 0x00)
}

/// Puts the section with this index in a module's order, the first 0, where it has entries.
fn put_section_at(alloc: Global, out: &mut Vec<u8>, m: &Module, at: u32) -> Result<(), EncodeFault>
    requires below { at < 8 }
    ensures puts { PutsUnless result out.old.items out.new.items (section_at m.now at) }
{
    m.spelled();
    match at {
        0 => put_type_section(alloc, out, m.types().as_slice()),
        1 => put_function_section(alloc, out, m.funcs().as_slice()),
        2 => put_table_section(alloc, out, m.table()),
        3 => put_memory_section(alloc, out, m.memory()),
        4 => put_global_section(alloc, out, m.globals().as_slice()),
        5 => put_export_section(alloc, out, m.exports().as_slice()),
        6 => put_element_section(alloc, out, m.elements().as_slice()),
        _ => put_code_section(alloc, out, m.bodies().as_slice()),
    }
}

/// Puts the sections of a module.
#[tactic(auto, using(crate::proofs::Putting::all_over, crate::proofs::Sections::all_sections))]
fn put_sections(alloc: Global, out: &mut Vec<u8>, m: &Module) -> Result<(), EncodeFault>
    ensures puts { PutsUnless result out.old.items out.new.items (shortest.put_sections m.now) }
{
    for at in 0..8 {
        put_section_at(alloc, out, m, at)?;
    }
    Ok(())
}

/// The shortest bytes of a module.
#[tactic(auto, unfolding(wasm_core::specs::ShortestBytes::module_bytes), using(crate::proofs::Putting::from_nothing))]
fn encode_module(alloc: Global, m: &Module) -> Result<Vec<u8>, EncodeFault>
    ensures writes { Writes result (λ v. v.items) m.now }
{
    m.spelled();
    let mut out = Vec::new(alloc);
    put_header(&mut out)?;
    put_sections(alloc, &mut out, m)?;
    if out.len() > MOST_BYTES {
        return Err(EncodeFault::ModuleBytes);
    }
    Ok(out)
}

/// The shortest bytes of a valid module, which spell it: each number in its shortest form, each run of equal local types as one
/// count, no empty section. `ModuleBytes` comes exactly where they would pass 16 MiB (16,777,216 bytes).
pub fn encode(alloc: Global, m: &Valid) -> Result<Vec<u8>, EncodeFault>
    ensures writes { Writes result (λ v. v.items) m.now }
{
    encode_module(alloc, m.module())
}

/// No bytes that spell a module are fewer than its shortest bytes, and these spell it too (for bytes fewer than 2^32).
pub fn none_is_shorter()
    ensures holds { NoneIsShorter }
{}
