//! The names of constants in terms after erasure.
ghost use Rattle.std.specs.Prelude.{◌≡◌, ◌||◌, ℕ, nat_eq, IfOk, IfErr};
ghost use Rattle.std.specs.HashSet.{contains};
ghost use Rattle.pc_rules.specs.declared.stop.Stop.TheVariants.{Memory};
ghost use Rattle.box_terms.specs.BoxLists.{arms_of, bodies_of};
ghost use Rattle.erase_rules.specs.DirectedProgram.{names_constant, names_constant_terms};

use box_terms::term::{BoxBranches, BoxDefs, BoxNode, BoxTerm};
use pc_rules::stop::Stop;
use std::collections::HashSet;

/// Puts the names of the constants that a term names into a set. It calls itself for subterms alone. Only `Memory`.
#[cycle(names)]
pub(crate) fn add_names(t: &BoxTerm, set: &mut HashSet<u32>) -> Result<(), Stop>
    ensures ok { IfOk result (λ _. (k : ℕ) → contains nat_eq set.new k ≡ names_constant (record { 0 = k }) t.now || contains nat_eq set.old k) }
    ensures only_memory { IfErr result (λ s. s ≡ Memory) }
{
    match t.view() {
        BoxNode::Boxed | BoxNode::Rel(_) | BoxNode::Construct(_, _) => Ok(()),
        BoxNode::Lambda(body) => add_names(body, set),
        BoxNode::LetIn(value, body) => {
            add_names(value, set)?;
            add_names(body, set)
        }
        BoxNode::App(function, argument) => {
            add_names(function, set)?;
            add_names(argument, set)
        }
        BoxNode::Const(name) => match set.insert(name.0) {
            Ok(_) => Ok(()),
            Err(_) => Err(Stop::Memory),
        },
        BoxNode::Case(_, scrut, branches) => {
            add_names(scrut, set)?;
            add_branches(branches, set)
        }
        BoxNode::Fix(defs, _) => add_definitions(defs, set),
    }
}

/// Puts the names of the constants in the bodies of branches into a set. Only `Memory`.
#[cycle(names)]
fn add_branches(branches: &BoxBranches, set: &mut HashSet<u32>) -> Result<(), Stop>
    ensures ok { IfOk result (λ _. (k : ℕ) → contains nat_eq set.new k ≡ names_constant_terms (record { 0 = k }) (arms_of branches.now) || contains nat_eq set.old k) }
    ensures only_memory { IfErr result (λ s. s ≡ Memory) }
{
    let items = branches.as_slice();
    for i in 0..items.len() {
        let branch = &items[i];
        add_names(&branch.body, set)?;
    }
    Ok(())
}

/// Puts the names of the constants in the bodies of definitions into a set. Only `Memory`.
#[cycle(names)]
fn add_definitions(defs: &BoxDefs, set: &mut HashSet<u32>) -> Result<(), Stop>
    ensures ok { IfOk result (λ _. (n k : ℕ) → contains nat_eq set.new k ≡ names_constant_terms (record { 0 = k }) (bodies_of n defs.now) || contains nat_eq set.old k) }
    ensures only_memory { IfErr result (λ s. s ≡ Memory) }
{
    let items = defs.as_slice();
    for i in 0..items.len() {
        let def = &items[i];
        add_names(&def.body, set)?;
    }
    Ok(())
}
