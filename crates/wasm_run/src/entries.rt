//! The exports that a host asks for.

ghost use Rattle.std.specs.Prelude.{◌≡◌};
ghost use Rattle.std.specs.Str.{bytes_eq};
ghost use Rattle.wasm_core.specs.Entries;

use wasm_core::{Entry, Export, ExportKind, Module, ValType};

/// Whether two names are the same.
pub fn same_bytes(left: &[u8], right: &[u8]) -> bool
    ensures test { result ≡ bytes_eq left.now right.now }
{
    left == right
}

/// The entry's name, as UTF-8.
pub fn name_of(entry: Entry) -> &'static [u8]
    ensures is { result.now ≡ Entries.name_of entry }
{
    match entry {
        Entry::Main => b"main",
        Entry::Memory => b"memory",
        Entry::Result => b"result",
        Entry::Status => b"status",
        Entry::Heap => b"heap",
        Entry::Args => b"args",
    }
}

/// The index of a function from nothing to nothing.
fn typed_func(m: &Module, func: u32) -> Option<u32>
    ensures is { result ≡ Entries.typed_func m.now func }
{
    let index = match m.funcs().as_slice().get(func as usize) {
        Some(index) => *index,
        None => return None,
    };
    let of = match m.types().as_slice().get(index as usize) {
        Some(of) => of,
        None => return None,
    };
    if of.params.as_slice().is_empty() && of.result.is_none() {
        return Some(func);
    }
    None
}

/// The index of a mutable i32 global.
fn typed_global(m: &Module, global: u32) -> Option<u32>
    ensures is { result ≡ Entries.typed_global m.now global }
{
    let def = match m.globals().as_slice().get(global as usize) {
        Some(def) => *def,
        None => return None,
    };
    match def.ty {
        ValType::I32 if def.mutable => Some(global),
        _ => None,
    }
}

/// The index that an export gives out, where it is of the entry's kind and type.
fn fitting(m: &Module, entry: Entry, export: &Export) -> Option<u32>
    ensures is { result ≡ Entries.fitting entry m.now export.now }
{
    match entry {
        Entry::Main => match export.kind {
            ExportKind::Func => typed_func(m, export.index),
            _ => None,
        },
        Entry::Memory => match export.kind {
            ExportKind::Memory => Some(export.index),
            _ => None,
        },
        Entry::Result | Entry::Status | Entry::Heap | Entry::Args => match export.kind {
            ExportKind::Global => typed_global(m, export.index),
            _ => None,
        },
    }
}

/// The index of what the entry's export gives out, where the export is there and of the entry's kind and type.
pub fn index_of(m: &Module, entry: Entry) -> Option<u32>
    ensures is { result ≡ Entries.index_of entry m.now }
{
    let name = name_of(entry);
    let exports = m.exports().as_slice();
    for at in 0..exports.len() {
        let export = &exports[at];
        if same_bytes(export.name.as_slice(), name) {
            return fitting(m, entry, export);
        }
    }
    None
}
