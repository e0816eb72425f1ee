//! The sections of a file, and the module that they spell (WebAssembly Core Specification, sections 5.5.2 and 5.5.16).

ghost use Rattle.std.specs.Prelude.{◌≡◌, ℕ, ◌+◌, ◌<◌, ◌≤◌, ◌^◌, List, [], ◌∷◌, length, OnOk, IfOk, Some, None, Ok, Err, false, true};
ghost use Rattle.wasm_core.specs.Format.{judge, Accepted};
ghost use Rattle.wasm_core.specs.Parts.{Parts};
ghost use Rattle.wasm_core.specs.ModuleCondition.{IsModule};
ghost use Rattle.wasm_core.specs.ModuleGrammar.{file, Explains, DecodesTo, RefusesAt, SpellsModule, StopsModule};
ghost use Rattle.wasm_core.specs.ModuleGrammar as grammar;
ghost use Rattle.wasm_decode.specs.Found.{parts_of};
ghost use Rattle.wasm_decode.specs.Reads.{Goes, Reads, Passes, TakesByte, TakesNumber, TakesPart, Finishes};
ghost use Rattle.wasm_decode.specs.Reading.{ReadsSections, ExplainsFound};

use crate::bodies::bodies;
use crate::cursor::Cursor;
use crate::declarations::{exports, func_types, globals, indices, memory, segments, table};
use crate::found::Found;
use crate::items::{byte, finish, part, take, text};
use std::alloc::Global;
use wasm_core::{
    Bodies, DecodeFault, Exports, FuncTypes, GlobalDefs, Module, Numbers, Section, Segments,
};

/// The section with this id, after one with the id `last`: the ids rise but for custom sections, which stand anywhere.
fn section_of(last: u8, id: u8) -> Option<Section>
    ensures is { result ≡ grammar.section_id last id }
{
    if id != 0 && id <= last {
        return None;
    }
    match id {
        0 => Some(Section::Custom),
        1 => Some(Section::Types),
        3 => Some(Section::Functions),
        4 => Some(Section::Tables),
        5 => Some(Section::Memories),
        6 => Some(Section::Globals),
        7 => Some(Section::Exports),
        9 => Some(Section::Elements),
        10 => Some(Section::Codes),
        _ => None,
    }
}

/// What stands in a section. Of a custom one the name is looked at, and the rest is skipped.
#[tactic(auto, unfolding(wasm_core::specs::ModuleGrammar::contents), using(crate::proofs::Taking::skipped))]
fn contents(alloc: Global, c: &mut Cursor, which: Section, m: &mut Found) -> Result<(), DecodeFault>
    ensures reads { Reads result c.old c.new (grammar.contents which (parts_of m.old)) (λ x. parts_of m.new) }
{
    match which {
        Section::Custom => {
            text(c)?;
            let (_, nothing) = c.rest.split_at(c.rest.len());
            c.at += c.rest.len();
            c.rest = nothing;
        }
        Section::Types => m.types = func_types(alloc, c)?,
        Section::Functions => m.funcs = indices(alloc, c)?,
        Section::Tables => m.table = table(c)?,
        Section::Memories => m.memory = memory(c)?,
        Section::Globals => m.globals = globals(alloc, c)?,
        Section::Exports => m.exports = exports(alloc, c)?,
        Section::Elements => m.elements = segments(alloc, c)?,
        Section::Codes => m.bodies = bodies(alloc, c, m.funcs.len())?,
    }
    Ok(())
}

/// A section after its id: its size and its contents.
#[tactic(auto, unfolding(wasm_core::specs::ModuleGrammar::section))]
fn section(alloc: Global, c: &mut Cursor, which: Section, m: &mut Found) -> Result<(), DecodeFault>
    ensures reads { Reads result c.old c.new (grammar.section which (parts_of m.old)) (λ x. parts_of m.new) }
{
    let mut inside = part(c)?;
    contents(alloc, &mut inside, which, m)?;
    finish(&inside)
}

/// The next section. It gives the id of the last section so far that isn't custom. `Bad` comes at an id that has no section in its place.
#[tactic(auto, unfolding(wasm_core::specs::ModuleGrammar::next_section))]
fn next_section(alloc: Global, c: &mut Cursor, last: u8, m: &mut Found) -> Result<u8, DecodeFault>
    ensures reads { Reads result c.old c.new (grammar.next_section last (parts_of m.old)) (λ id. (id, parts_of m.new)) }
{
    let start = c.at;
    let id = take(c)?;
    match section_of(last, id) {
        Some(which) => {
            section(alloc, c, which, m)?;
            if id == 0 { Ok(last) } else { Ok(id) }
        }
        None => Err(DecodeFault::Bad { offset: start }),
    }
}

/// The sections up to the end of the file. `Bad` comes at the end where a function has no body.
#[tactic(auto, using(crate::proofs::Filing::filing, crate::proofs::Filing::filed, crate::proofs::Filing::unfiled, crate::proofs::Filing::all_filed, crate::proofs::Filing::some_missing))]
fn sections(alloc: Global, c: &mut Cursor, m: &mut Found) -> Result<(), DecodeFault>
    ensures reads { ReadsSections result c.old (parts_of m.old) (parts_of m.new) }
{
    let mut last = 0;
    while !c.rest.is_empty() {
        last = next_section(alloc, c, last, m)?;
    }
    if m.funcs.len() == m.bodies.len() {
        Ok(())
    } else {
        Err(DecodeFault::Bad { offset: c.at })
    }
}

/// The magic number and the version.
#[tactic(auto, unfolding(wasm_core::specs::ModuleGrammar::header))]
fn header(c: &mut Cursor) -> Result<(), DecodeFault>
    ensures passes { Passes result c.old c.new grammar.header }
{
    byte(c, 0x00)?;
    byte(c, 0x61)?;
    byte(c, 0x73)?;
    byte(c, 0x6D)?;
    byte(c, 0x01)?;
    byte(c, 0x00)?;
    byte(c, 0x00)?;
    byte(c, 0x00)
}

/// What the sections hold, as reading from left to right gives it.
#[tactic(auto, unfolding(wasm_core::specs::ModuleGrammar::file))]
fn read_file(alloc: Global, bytes: &[u8]) -> Result<Found, DecodeFault>
    ensures goes { Goes result (judge (file (length bytes.now)) 0 bytes.now []) (λ m. Accepted (parts_of m)) }
{
    let mut c = Cursor { rest: bytes, at: 0 };
    header(&mut c)?;
    let mut m = Found {
        types: Vec::new(alloc),
        funcs: Vec::new(alloc),
        table: None,
        memory: None,
        globals: Vec::new(alloc),
        exports: Vec::new(alloc),
        elements: Vec::new(alloc),
        bodies: Vec::new(alloc),
    };
    sections(alloc, &mut c, &mut m)?;
    Ok(m)
}

/// What the sections of the bytes hold, or the offset at which the bytes stop.
#[tactic(auto, using(crate::proofs::Meaning::explains))]
fn read_sections(alloc: Global, bytes: &[u8]) -> Result<Found, DecodeFault>
    ensures explains { ExplainsFound result bytes.now }
{
    read_file(alloc, bytes)
}

/// The module that the bytes spell. `Bad` comes exactly where they spell none, with the offset, in bytes from the start, of the first item
/// from left to right that has no spelling in its place within its part (the file, a section or a body). Numbers may have longer spellings
/// within their width; custom sections are dropped. Nothing is reserved for a count or a length before the bytes for it are there, but for
/// the types of at most 50,000 locals a body, which the format gives as counts.
#[tactic(auto, using(wasm_core::proofs::Exact::answers, wasm_core::proofs::Exact::refuses, wasm_core::proofs::Inversion::is_module))]
pub fn decode(alloc: Global, bytes: &[u8]) -> Result<Module, DecodeFault>
    ensures explains { Explains result bytes.now }
    ensures answers { (m : Parts) → SpellsModule bytes.now m → DecodesTo m result }
    ensures refuses { (o : ℕ) → StopsModule bytes.now o → RefusesAt o result }
    ensures whole { IfOk result IsModule }
{
    let Found {
        types,
        funcs,
        table,
        memory,
        globals,
        exports,
        elements,
        bodies,
    } = read_sections(alloc, bytes)?;
    Ok(Module::new(
        FuncTypes::of(types),
        Numbers::of(funcs),
        table,
        memory,
        GlobalDefs::of(globals),
        Exports::of(exports),
        Segments::of(elements),
        Bodies::of(bodies),
    ))
}
