//! Programs that no row can spell: a text nests at most 1,000 brackets, and each declaration has a name of its own.
use box_terms::program::{BoxConstant, BoxConstants, BoxFamilies, BoxProgram};
use box_terms::term::{BoxNode, BoxTerm};
use pc_terms::leaf::Name;
use pc_terms::term::MakeFault;
use std::alloc::Global;

/// So many lambdas in one another; the innermost body is variable 0 applied to the others, one after another.
pub fn nest(alloc: Global, lambdas: u32) -> Result<BoxProgram, MakeFault> {
    let mut main = BoxTerm::make(alloc, BoxNode::Rel(0))?;
    for i in 1..lambdas {
        let argument = BoxTerm::make(alloc, BoxNode::Rel(i))?;
        main = BoxTerm::make(alloc, BoxNode::App(main, argument))?;
    }
    for _ in 0..lambdas {
        main = BoxTerm::make(alloc, BoxNode::Lambda(main))?;
    }
    Ok(BoxProgram {
        constants: BoxConstants::new(alloc),
        families: BoxFamilies::new(alloc),
        main,
    })
}

/// Constants that are functions of their argument alone, so that constants and functions are so many in all. Main is one more such function
/// where that is odd, and else box.
pub fn functions(alloc: Global, count: u32) -> Result<BoxProgram, MakeFault> {
    let mut constants = BoxConstants::new(alloc);
    for i in 0..count / 2 {
        let name = Name(i);
        let body = identity(alloc)?;
        constants.push(BoxConstant { name, body })?;
    }
    let main = if count % 2 == 0 {
        BoxTerm::make(alloc, BoxNode::Boxed)?
    } else {
        identity(alloc)?
    };
    Ok(BoxProgram {
        constants,
        families: BoxFamilies::new(alloc),
        main,
    })
}

/// The function that gives its argument.
fn identity(alloc: Global) -> Result<BoxTerm, MakeFault> {
    let variable = BoxTerm::make(alloc, BoxNode::Rel(0))?;
    BoxTerm::make(alloc, BoxNode::Lambda(variable))
}
