//! What a type is asked to be good for.
use pc_terms::leaf::Name;

/// What strict positivity is of: `specs/Positivity.antt` says when a type is good for it.
#[derive(Clone, Copy)]
pub enum Target {
    /// The families of a block.
    Families(Name),
    /// A parameter of a block: the block, the number of its parameters, and the parameter's variable as it is seen right under all of them.
    Parameter {
        block: Name,
        count: u32,
        variable: u32,
    },
}
