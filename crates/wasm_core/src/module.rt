//! Modules (WebAssembly Core Specification, section 2.5).

ghost use Rattle.std.specs.Prelude.{◌≡◌};
ghost use Rattle.wasm_core.specs.ModuleCondition.{IsModule};

use crate::elements::Segments;
use crate::exports::Exports;
use crate::instrs::Bodies;
use crate::numbers::Numbers;
use crate::types::{FuncTypes, GlobalDefs, Limits};
use std::marker::Model;

/// A module: function types, the type index of each function, the table and the memory where there are any, globals, exports, element segments, and the body of each function.
#[derive(Drop)]
pub struct Module {
    types: FuncTypes,
    funcs: Numbers,
    table: Option<Limits>,
    memory: Option<Limits>,
    globals: GlobalDefs,
    exports: Exports,
    elements: Segments,
    bodies: Bodies,
}

impl Model for Module {
    ghost use Rattle.wasm_core.specs.Parts.{Parts};
    ghost use Rattle.wasm_core.specs.ModuleCondition.{IsModule};

    ghost Value = { Parts };

    ghost view = { λ m. record { types = m.types; funcs = m.funcs; table = m.table; memory = m.memory; globals = m.globals; exports = m.exports; elements = m.elements; bodies = m.bodies } };

    ghost invariant = { λ m. IsModule (record { types = m.types; funcs = m.funcs; table = m.table; memory = m.memory; globals = m.globals; exports = m.exports; elements = m.elements; bodies = m.bodies }) };
}

impl Module {
    /// The module of these parts. It takes no memory.
    pub fn new(
        types: FuncTypes,
        funcs: Numbers,
        table: Option<Limits>,
        memory: Option<Limits>,
        globals: GlobalDefs,
        exports: Exports,
        elements: Segments,
        bodies: Bodies,
    ) -> Module
        requires is_module { IsModule (record { types = types; funcs = funcs; table = table; memory = memory; globals = globals; exports = exports; elements = elements; bodies = bodies }) }
        ensures parts { result ≡ record { types = types; funcs = funcs; table = table; memory = memory; globals = globals; exports = exports; elements = elements; bodies = bodies } }
    {
        Module {
            types,
            funcs,
            table,
            memory,
            globals,
            exports,
            elements,
            bodies,
        }
    }

    /// Every module is one that the binary format can spell. Sizes are left out of this condition: a section or a body of 2^32 bytes or
    /// more, which has no spelling, isn't refused here. It takes no memory.
    pub fn spelled(&self)
        ensures holds { IsModule self.now }
    {
        let _ = &self.types;
    }

    /// The function types.
    pub fn types(&self) -> &FuncTypes
        ensures is { result.now ≡ self.now.types }
    {
        &self.types
    }

    /// The type index of each function.
    pub fn funcs(&self) -> &Numbers
        ensures is { result.now ≡ self.now.funcs }
    {
        &self.funcs
    }

    /// The table's sizes, where there is a table.
    pub fn table(&self) -> Option<Limits>
        ensures is { result ≡ self.now.table }
    {
        self.table
    }

    /// The element segments.
    pub fn elements(&self) -> &Segments
        ensures is { result.now ≡ self.now.elements }
    {
        &self.elements
    }

    /// The globals.
    pub fn globals(&self) -> &GlobalDefs
        ensures is { result.now ≡ self.now.globals }
    {
        &self.globals
    }

    /// The exports.
    pub fn exports(&self) -> &Exports
        ensures is { result.now ≡ self.now.exports }
    {
        &self.exports
    }

    /// The body of each function.
    pub fn bodies(&self) -> &Bodies
        ensures is { result.now ≡ self.now.bodies }
    {
        &self.bodies
    }

    /// The memory's sizes in pages, where there is a memory.
    pub fn memory(&self) -> Option<Limits>
        ensures is { result ≡ self.now.memory }
    {
        self.memory
    }
}
