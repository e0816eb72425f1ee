//! Where the blocks of a body end, for each place of the body.

ghost use Rattle.std.specs.Prelude.{◌≡◌, ◌+◌, ◌<◌, ◌∷◌, IfOk, OnOk, Some, drop, length, reverse, slice_get};
ghost use Rattle.wasm_core.specs.MachineStep.{bracket};
ghost use Rattle.wasm_run.specs.Kinds.{bracket_of};
ghost use Rattle.wasm_run.specs.Targets.{AreTargets, Opened, target_at, tail_of};

use std::alloc::{AllocError, Global};
use std::marker::Model;
use wasm_core::Instr;

/// Of the innermost block that is open after a place: the place after its end, and that of its second arm, or of its end where it has none.
#[derive(Clone, Copy)]
pub struct Target {
    pub end: usize,
    pub other: usize,
}

/// The targets of all places of a body.
#[derive(Drop)]
pub struct Targets {
    items: Vec<Target>,
}

impl Model for Targets {
    ghost use Rattle.std.specs.Prelude.{List};
    ghost use Rattle.wasm_run.specs.declared.targets.Target.{Target};

    ghost Value = { List Target };

    ghost view = { λ a. a.items.items };
}

impl Targets {
    /// The target of a place.
    pub fn at(&self, at: usize) -> Target
        requires here { at < length self.now }
        ensures is { slice_get self.now at ≡ Some result }
    {
        self.items[at]
    }
}

/// Of a block that is never closed.
fn never(code: &[Instr]) -> Target
    ensures is { (result.end ≡ length code.now) × (result.other ≡ length code.now) }
{
    Target {
        end: code.len(),
        other: code.len(),
    }
}

/// The target of the innermost open block.
fn innermost(code: &[Instr], open: &Vec<Target>) -> Target
    ensures is { result ≡ target_at code.now (reverse open.now.items) 0 }
{
    match open.last() {
        Some(target) => *target,
        None => never(code),
    }
}

/// The innermost open block is put aside.
fn shut(open: &mut Vec<Target>)
    ensures is { reverse open.new.items ≡ tail_of (reverse open.old.items) }
{
    open.pop();
}

/// One more block is open.
fn put(open: &mut Vec<Target>, target: Target) -> Result<(), AllocError>
    ensures is { OnOk result (reverse open.new.items ≡ target ∷ reverse open.old.items) }
{
    open.push(target)?;
    Ok(())
}

/// How an instruction stands to the blocks around it.
#[derive(Clone, Copy)]
pub enum Kind {
    Opens,
    Divides,
    Closes,
    Plain,
}

/// How an instruction stands to the blocks around it.
fn kind_of(instr: &Instr) -> Kind
    ensures is { bracket instr.now ≡ bracket_of result }
{
    match instr {
        Instr::Block(_) | Instr::Loop(_) | Instr::If(_) => Kind::Opens,
        Instr::Else => Kind::Divides,
        Instr::End => Kind::Closes,
        _ => Kind::Plain,
    }
}

/// The open blocks before one more instruction.
fn step_back(code: &[Instr], at: usize, open: &mut Vec<Target>) -> Result<(), AllocError>
    requires here { at < length code.now }
    requires after { Opened code.now (drop (at + 1) code.now) (reverse open.old.items) }
    ensures before { OnOk result (Opened code.now (drop at code.now) (reverse open.new.items)) }
{
    match kind_of(&code[at]) {
        Kind::Opens => {
            shut(open);
            Ok(())
        }
        Kind::Divides => {
            let inner = innermost(code, open);
            shut(open);
            put(
                open,
                Target {
                    end: inner.end,
                    other: at + 1,
                },
            )
        }
        Kind::Closes => put(
            open,
            Target {
                end: at + 1,
                other: at,
            },
        ),
        Kind::Plain => Ok(()),
    }
}

/// The targets of all places of a body.
pub fn find_targets(alloc: Global, code: &[Instr]) -> Result<Targets, AllocError>
    ensures is { IfOk result (λ ts. AreTargets code.now ts) }
{
    let mut found: Vec<Target> = Vec::new(alloc);
    let mut open: Vec<Target> = Vec::new(alloc);
    for past in 0..code.len() {
        found.push(innermost(code, &open))?;
        step_back(code, code.len() - 1 - past, &mut open)?;
    }
    found.reverse();
    Ok(Targets { items: found })
}
