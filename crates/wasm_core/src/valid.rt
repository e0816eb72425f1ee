//! Modules that have a typing.

ghost use Rattle.std.specs.Prelude.{◌≡◌};
ghost use Rattle.wasm_core.specs.ModuleTyping.{IsValid};

use crate::module::Module;
use std::marker::Model;

/// A module that has a typing (WebAssembly Core Specification, chapter 3).
#[derive(Drop)]
pub struct Valid {
    module: Module,
}

impl Model for Valid {
    ghost use Rattle.wasm_core.specs.Parts.{Parts};

    ghost Value = { Parts };

    ghost use Rattle.wasm_core.specs.ModuleTyping.{IsValid};

    ghost view = { λ v. v.module };

    ghost invariant = { λ v. IsValid v.module };
}

impl Valid {
    /// The valid module of a module that has a typing. It takes no memory.
    pub fn of(m: Module) -> Valid
        requires is_valid { IsValid m }
        ensures module { result ≡ m }
    {
        Valid { module: m }
    }

    /// The module.
    pub fn module(&self) -> &Module
        ensures module { result.now ≡ self.now }
        ensures valid { IsValid result.now }
    {
        &self.module
    }
}
