//! Instructions that touch no more than the function that runs.

ghost use Rattle.std.specs.Prelude.{◌≡◌, ◌+◌, ◌≤◌, ◌<◌, ◌∷◌, List, length, drop, Some, IsSome, OnOk, slice_get, false};
ghost use Rattle.wasm_core.specs.declared.types.ConstValue.TheVariants.{I32};
ghost use Rattle.wasm_core.specs.Parts.{Parts};
ghost use Rattle.wasm_core.specs.MachineStep as machine;
ghost use Rattle.wasm_run.specs.View.{frame_at, HasI32};
ghost use Rattle.wasm_run.specs.Frames.{inside};
ghost use Rattle.wasm_run.specs.Targets.{IsTarget};

use crate::frame::Frame;
use crate::numeric::binary;
use crate::targets::Target;
use std::alloc::AllocError;
use wasm_core::{BlockType, ConstValue, I32Op, Instr};

/// Whether a block leaves a value.
fn has_value(of: BlockType) -> bool
    ensures is { result ≡ machine.has_value of }
{
    match of {
        BlockType::Empty => false,
        BlockType::Value(_) => true,
    }
}

/// Takes the i32 on top.
pub fn pop_i32(frame: &mut Frame) -> u32
    requires some { HasI32 frame.old.vals }
    ensures is { frame.old ≡ record frame.new { vals = I32 result ∷ frame.new.vals } }
{
    match frame.pop() {
        ConstValue::I32(n) => n,
        ConstValue::I64(_) => unreachable!(),
    }
}

/// Executes the instruction at the frame's place.
#[tactic(auto, using(crate::proofs::Bodies::drop_here))]
pub fn run_inside(
    code: &[Instr],
    target: Target,
    frame: &mut Frame,
    instr: &Instr,
) -> Result<(), AllocError>
    requires target { IsTarget code.now (drop (frame.old.at + 1) code.now) 0 target }
    requires here { slice_get code.now frame.old.at ≡ Some instr.now }
    requires some { IsSome (inside instr.now (drop (frame.old.at + 1) code.now) (frame_at code.now frame.old)) }
    ensures step { OnOk result (inside instr.now (drop (frame.old.at + 1) code.now) (frame_at code.now frame.old) ≡ Some (frame_at code.now frame.new)) }
    ensures func { OnOk result (frame.new.func ≡ frame.old.func) }
{
    let next = frame.at() + 1;
    match instr {
        Instr::Nop => {
            frame.go(next);
            Ok(())
        }
        Instr::Block(of) => {
            frame.open(has_value(*of), target.end)?;
            frame.go(next);
            Ok(())
        }
        Instr::I32Const(n) => {
            frame.push(ConstValue::I32(*n))?;
            frame.go(next);
            Ok(())
        }
        Instr::I64Const(n) => {
            frame.push(ConstValue::I64(*n))?;
            frame.go(next);
            Ok(())
        }
        Instr::Loop(_) => {
            frame.open(false, next - 1)?;
            frame.go(next);
            Ok(())
        }
        Instr::Drop => {
            frame.pop();
            frame.go(next);
            Ok(())
        }
        Instr::LocalGet(x) => {
            let value = frame.local(*x as usize);
            frame.push(value)?;
            frame.go(next);
            Ok(())
        }
        Instr::LocalSet(x) => {
            let value = frame.pop();
            frame.set_local(*x as usize, value);
            frame.go(next);
            Ok(())
        }
        Instr::LocalTee(x) => {
            let value = frame.pop();
            frame.push(value)?;
            frame.set_local(*x as usize, value);
            frame.go(next);
            Ok(())
        }
        Instr::I32(I32Op::Eqz) => {
            let x = pop_i32(frame);
            frame.push(ConstValue::I32((x == 0) as u32))?;
            frame.go(next);
            Ok(())
        }
        Instr::I32(op) => {
            let y = pop_i32(frame);
            let x = pop_i32(frame);
            frame.push(ConstValue::I32(binary(*op, x, y)))?;
            frame.go(next);
            Ok(())
        }
        Instr::If(of) => {
            let test = pop_i32(frame);
            frame.open(has_value(*of), target.end)?;
            if test == 0 {
                frame.go(target.other);
            } else {
                frame.go(next);
            }
            Ok(())
        }
        Instr::Else => {
            let target = frame.close();
            frame.go(target);
            Ok(())
        }
        _ => Err(AllocError),
    }
}
