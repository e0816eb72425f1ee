//! A module that is ready to run: with its table, and with the ends of its blocks.

ghost use Rattle.std.specs.Prelude.{◌≡◌, ◌+◌, ◌<◌, ◌≤◌, IfOk, IsSome, Some, None, length, drop, slice_get, true, replicate};
ghost use Rattle.wasm_core.specs.Instance.{func_of, table_of, put_funcs, put_segments, segments_fit, all_fit, least};
ghost use Rattle.wasm_run.specs.Programs.{code_of, type_at, locals_at};
ghost use Rattle.wasm_run.specs.Targets.{IsTarget};

use crate::targets::{Target, Targets, find_targets};
use std::alloc::{AllocError, Global};
use std::marker::Model;
use wasm_core::{FuncType, Instr, Limits, Module, Segment, ValType};

/// A module with its table and its targets.
#[derive(Drop)]
pub struct Program<'m> {
    module: &'m Module,
    table: Vec<Option<u32>>,
    targets: Vec<Targets>,
}

impl<'m> Model for Program<'m> {
    ghost use Rattle.wasm_core.specs.Parts.{Parts};

    ghost Value = { Parts };

    ghost use Rattle.wasm_run.specs.ProgramInside.{IsProgram};

    ghost view = { λ p. p.module.now };

    ghost invariant = { IsProgram };
}

/// The least size.
pub fn least_of(limits: Option<Limits>) -> u32
    ensures is { result ≡ least limits }
{
    match limits {
        Some(l) => l.min,
        None => 0,
    }
}

/// Functions are put into a table from a place on.
fn put(table: &mut Vec<Option<u32>>, offset: usize, funcs: &[u32])
    requires fit { offset + length funcs.now ≤ length table.old.items }
    ensures is { table.new.items ≡ put_funcs table.old.items offset funcs.now }
    ensures len { length table.new.items ≡ length table.old.items }
{
    for i in 0..funcs.len() {
        table[offset + i] = Some(funcs[i]);
    }
}

/// A table of this size, with these segments.
fn fill(alloc: Global, size: u32, segments: &[Segment]) -> Result<Vec<Option<u32>>, AllocError>
    requires fit { all_fit size segments.now ≡ true }
    ensures is { IfOk result (λ t. t.items ≡ put_segments (replicate size None) segments.now) }
{
    let mut table: Vec<Option<u32>> = Vec::new(alloc);
    table.resize(size as usize, None)?;
    for i in 0..segments.len() {
        put(
            &mut table,
            segments[i].offset as usize,
            segments[i].funcs.as_slice(),
        );
    }
    Ok(table)
}

/// The table of a module.
#[tactic(auto, unfolding(wasm_core::specs::Instance::table_of))]
fn table_for(alloc: Global, program: &Module) -> Result<Vec<Option<u32>>, AllocError>
    requires fit { segments_fit program.now ≡ true }
    ensures is { IfOk result (λ t. t.items ≡ table_of program.now) }
{
    fill(
        alloc,
        least_of(program.table()),
        program.elements().as_slice(),
    )
}

/// The code of a function that is there.
fn body_code(program: &Module, func: usize) -> &[Instr]
    requires there { func < length program.now.bodies }
    ensures is { code_of program.now func ≡ result.now }
{
    program.bodies().as_slice()[func].code.as_slice()
}

/// The targets of a function.
fn of_func(all: &Vec<Targets>, func: usize) -> &Targets
    requires there { func < length all.now.items }
    ensures is { slice_get all.now.items func ≡ Some result.now }
{
    &all[func]
}

impl<'m> Program<'m> {
    /// A module made ready.
    pub fn new(alloc: Global, program: &'m Module) -> Result<Program<'m>, AllocError>
        requires fit { segments_fit program.now ≡ true }
        ensures is { IfOk result (λ p. p ≡ program.now) }
    {
        let table = table_for(alloc, program)?;
        let mut found: Vec<Targets> = Vec::new(alloc);
        for i in 0..program.bodies().as_slice().len() {
            found.push(find_targets(alloc, body_code(program, i))?)?;
        }
        Ok(Program {
            module: program,
            table,
            targets: found,
        })
    }

    /// The module.
    pub fn module(&self) -> &'m Module
        ensures is { result.now ≡ self.now }
    {
        self.module
    }

    /// The code of a function.
    pub fn code(&self, func: usize) -> &[Instr]
        ensures is { result.now ≡ code_of self.now func }
    {
        let bodies = self.module.bodies().as_slice();
        if func < bodies.len() {
            bodies[func].code.as_slice()
        } else {
            &[]
        }
    }

    /// The target at a place of a function.
    pub fn target(&self, func: usize, at: usize) -> Target
        requires here { at < length (code_of self.now func) }
        ensures is { IsTarget (code_of self.now func) (drop (at + 1) (code_of self.now func)) 0 result }
    {
        of_func(&self.targets, func).at(at)
    }

    /// The type of a function.
    pub fn func_type(&self, func: usize) -> &FuncType
        requires some { IsSome (func_of self.now func) }
        ensures is { type_at self.now func ≡ Some result.now }
    {
        &self.module.types().as_slice()[self.module.funcs().as_slice()[func] as usize]
    }

    /// The types of a function's further locals.
    pub fn locals(&self, func: usize) -> &[ValType]
        requires some { IsSome (func_of self.now func) }
        ensures is { locals_at self.now func ≡ Some result.now }
    {
        self.module.bodies().as_slice()[func].locals.as_slice()
    }

    /// An entry of the table.
    pub fn entry(&self, index: usize) -> Option<Option<u32>>
        ensures is { result ≡ slice_get (table_of self.now) index }
    {
        if index < self.table.len() {
            Some(self.table[index])
        } else {
            None
        }
    }
}
