//! What the sections of a file hold.

use wasm_core::{Body, Export, FuncType, GlobalDef, Limits, Segment};

/// What the sections read so far hold.
#[derive(Drop)]
pub struct Found {
    pub types: Vec<FuncType>,
    pub funcs: Vec<u32>,
    pub table: Option<Limits>,
    pub memory: Option<Limits>,
    pub globals: Vec<GlobalDef>,
    pub exports: Vec<Export>,
    pub elements: Vec<Segment>,
    pub bodies: Vec<Body>,
}
