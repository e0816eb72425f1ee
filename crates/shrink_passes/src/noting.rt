//! One walk that notes at which places every use of a constant has box.
ghost use Rattle.std.specs.Prelude.{◌≡◌, ◌&&◌, ℕ, [], IfOk, IfErr, OnOk, nat_eq, length};
ghost use Rattle.std.specs.HashMap.{get};
ghost use Rattle.box_terms.specs.BoxLists.{arms_of, bodies_of};
ghost use Rattle.lambda_box.specs.declared.fault.PassFault.TheVariants.{Memory};
ghost use Rattle.shrink_passes.specs.DropParams.{fits, fits_terms, is_box};
ghost use Rattle.shrink_passes.specs.DeadPlaces.{is_place, keeps_place, spine, one_more, box_there, noted, is_dead_place};

use crate::flags::{Flags, Loss};
use crate::unused::candidates;
use box_terms::program::BoxProgram;
use box_terms::term::{BoxBranches, BoxDefs, BoxNode, BoxTerm};
use lambda_box::PassFault;
use pc_terms::leaf::Name;
use std::alloc::Global;
use std::collections::HashMap;

/// A constant and the number of arguments that it has.
#[derive(Clone, Copy)]
pub(crate) struct Use {
    /// The constant.
    pub(crate) name: Name,
    /// How many arguments it has.
    pub(crate) arguments: u32,
}

/// Notes that a constant loses some places. Only `Memory`.
fn lose(table: &mut HashMap<u32, Flags>, name: Name, loss: Loss) -> Result<(), PassFault>
    ensures lost { OnOk result ((k p : ℕ) → is_place (get nat_eq table.new) k p ≡ (is_place (get nat_eq table.old) k p && keeps_place name.0 loss k p)) }
    ensures only_memory { IfErr result (λ e. e ≡ Memory) }
{
    let Some(mut flags) = table.remove(&name.0) else {
        return Ok(());
    };
    flags.lose(loss);
    match table.insert(name.0, flags) {
        Ok(_) => Ok(()),
        Err(_) => Err(PassFault::Memory),
    }
}

/// Whether a term is box.
pub(crate) fn is_boxed(t: &BoxTerm) -> bool
    ensures is { result ≡ is_box t.now }
{
    match t.view() {
        BoxNode::Boxed => true,
        _ => false,
    }
}

/// The head of one more argument, where `head` is that of `f`.
pub(crate) fn with_argument(f: &BoxTerm, head: Option<Use>) -> Option<Use>
    requires is { head ≡ spine f.now }
    ensures is { result ≡ one_more head }
{
    let _within = f.depth();
    match head {
        None => None,
        Some(of) => Some(Use {
            name: of.name,
            arguments: of.arguments + 1,
        }),
    }
}

/// Notes that a head gets an argument. Only `Memory`.
fn note_argument(
    table: &mut HashMap<u32, Flags>,
    head: Option<Use>,
    a: &BoxTerm,
) -> Result<(), PassFault>
    ensures noted { OnOk result ((k p : ℕ) → is_place (get nat_eq table.new) k p ≡ (is_place (get nat_eq table.old) k p && box_there k p head a.now)) }
    ensures only_memory { IfErr result (λ e. e ≡ Memory) }
{
    match head {
        None => Ok(()),
        Some(of) => {
            if is_boxed(a) {
                return Ok(());
            }
            lose(table, of.name, Loss::Place(of.arguments))
        }
    }
}

/// Notes the uses in a term, and gives the use that it is itself, with the arguments that it has. Only `Memory`.
#[cycle(note)]
#[tactic(auto, using(std::proofs::lemmas::Grind::common_steps))]
fn note(table: &mut HashMap<u32, Flags>, t: &BoxTerm) -> Result<Option<Use>, PassFault>
    ensures noted { OnOk result ((k p : ℕ) → is_place (get nat_eq table.new) k p ≡ (is_place (get nat_eq table.old) k p && noted k p t.now)) }
    ensures head { IfOk result (λ u. u ≡ spine t.now) }
    ensures only_memory { IfErr result (λ e. e ≡ Memory) }
{
    match t.view() {
        BoxNode::Boxed => Ok(None),
        BoxNode::Rel(_) => Ok(None),
        BoxNode::Lambda(b) => {
            note_whole(table, b)?;
            Ok(None)
        }
        BoxNode::LetIn(v, b) => {
            note_whole(table, v)?;
            note_whole(table, b)?;
            Ok(None)
        }
        BoxNode::App(f, a) => {
            let head = note(table, f)?;
            note_argument(table, head, a)?;
            note_whole(table, a)?;
            Ok(with_argument(f, head))
        }
        BoxNode::Const(name) => Ok(Some(Use {
            name: *name,
            arguments: 0,
        })),
        BoxNode::Construct(_, _) => Ok(None),
        BoxNode::Case(_, s, bs) => {
            note_whole(table, s)?;
            note_branches(table, bs)?;
            Ok(None)
        }
        BoxNode::Fix(ds, _) => {
            note_defs(table, ds)?;
            Ok(None)
        }
    }
}

/// Notes the uses in a term that gets no arguments. Only `Memory`.
#[cycle(note)]
#[tactic(auto, using(std::proofs::lemmas::Grind::common_steps))]
fn note_whole(table: &mut HashMap<u32, Flags>, t: &BoxTerm) -> Result<(), PassFault>
    ensures noted { OnOk result ((k p : ℕ) → is_place (get nat_eq table.new) k p ≡ (is_place (get nat_eq table.old) k p && fits k p [] t.now)) }
    ensures only_memory { IfErr result (λ e. e ≡ Memory) }
{
    match note(table, t)? {
        None => Ok(()),
        Some(of) => lose(table, of.name, Loss::From(of.arguments)),
    }
}

/// Notes the uses in branches. Only `Memory`.
#[cycle(note)]
#[tactic(auto, using(std::proofs::lemmas::Grind::common_steps))]
fn note_branches(table: &mut HashMap<u32, Flags>, bs: &BoxBranches) -> Result<(), PassFault>
    ensures noted { OnOk result ((k p : ℕ) → is_place (get nat_eq table.new) k p ≡ (is_place (get nat_eq table.old) k p && fits_terms k p (arms_of bs.now))) }
    ensures only_memory { IfErr result (λ e. e ≡ Memory) }
{
    let xs = bs.as_slice();
    for i in 0..xs.len() {
        let arm = &xs[i];
        note_whole(table, &arm.body)?;
    }
    Ok(())
}

/// Notes the uses in definitions. Only `Memory`.
#[cycle(note)]
#[tactic(auto, using(std::proofs::lemmas::Grind::common_steps))]
fn note_defs(table: &mut HashMap<u32, Flags>, ds: &BoxDefs) -> Result<(), PassFault>
    ensures noted { OnOk result ((k p : ℕ) → is_place (get nat_eq table.new) k p ≡ (is_place (get nat_eq table.old) k p && fits_terms k p (bodies_of (length ds.now) ds.now))) }
    ensures only_memory { IfErr result (λ e. e ≡ Memory) }
{
    let xs = ds.as_slice();
    for i in 0..xs.len() {
        let def = &xs[i];
        note_whole(table, &def.body)?;
    }
    Ok(())
}

/// The places of each constant's parameters that aren't used and are box at every use, by the number of its name. Only `Memory`.
#[tactic(auto, using(std::proofs::lemmas::Grind::common_steps))]
pub(crate) fn dead_places(alloc: Global, p: &BoxProgram) -> Result<HashMap<u32, Flags>, PassFault>
    ensures is { IfOk result (λ m. (k q : ℕ) → is_place (get nat_eq m) k q ≡ is_dead_place p.now k q) }
    ensures only_memory { IfErr result (λ e. e ≡ Memory) }
{
    let mut table = candidates(alloc, p)?;
    for d in p.constants.as_slice() {
        note_whole(&mut table, &d.body)?;
    }
    note_whole(&mut table, &p.main)?;
    Ok(table)
}
